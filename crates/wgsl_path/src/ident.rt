//! Identifiers.

ghost use Rattle.std.specs.Prelude.{◌≡◌, IfOk};
ghost use Rattle.wgsl_path.specs.Paths.{ident_of};

use std::alloc::{AllocError, Global};
use std::fmt;
use std::hash::{Hash, Hasher};
use wgsl_base::{CloneIn, Text};

/// What names something at a place of a tree: an owned name, and the number of the symbol that it stands for, which is set later by the
/// linker's `retarget_idents`. Equality and hash look at the name alone.
#[derive(Debug, Drop)]
#[derive_where(PartialEq, Eq)]
pub struct Ident {
    pub name: Text,
    #[derive_where(skip(EqHashOrd))]
    pub symbol: Option<u32>,
}

impl Ident {
    /// An identifier of this name, without a symbol number. It needs no memory.
    pub fn new(name: Text) -> Ident
        ensures { result ≡ ident_of name }
    {
        Ident { name, symbol: None }
    }

    pub fn as_str(&self) -> &str
        ensures { result.now ≡ self.now.name }
    {
        self.name.as_str()
    }

    /// The same as `as_str`.
    pub fn name(&self) -> &str
        ensures { result.now ≡ self.now.name }
    {
        self.as_str()
    }

    /// The number of the symbol that the identifier stands for, once the linker gave it one.
    pub fn symbol(&self) -> Option<u32>
        ensures { result ≡ self.now.symbol }
    {
        self.symbol
    }

    /// Another name for this one identifier, which keeps its symbol number. It needs no memory.
    pub fn rename(&mut self, name: Text)
        ensures { self.new ≡ record { name = name; symbol = self.old.symbol } }
    {
        self.name = name;
    }

    /// The name itself. It needs no memory.
    pub fn into_name(self) -> Text
        ensures { result ≡ self.name }
    {
        let Ident { name, symbol: _ } = self;
        name
    }
}

/// An identifier is written as its name.
impl fmt::Display for Ident {
    ghost use Rattle.std.specs.Prelude.{Some};

    ghost output = { λ ident. Some (ident.name) };

    fn fmt<W: fmt::Write>(&self, f: &mut fmt::Formatter<W>) -> fmt::Result {
        self.name.fmt(f)
    }
}

impl Hash for Ident {
    ghost use Rattle.std.specs.Hash as fed;
    ghost use Rattle.std.specs.Cmp.Rules.{hashing};
    ghost use Rattle.std.proofs.Common.{rules};

    ghost hash_input = { λ ident. fed.str ident.name };

    ghost respects_eq = { Prim.search (hashing, rules) };

    fn hash<H: Hasher>(&self, state: &mut H) {
        self.as_str().hash(state);
    }
}

impl CloneIn for Ident {
    fn clone_in(&self, alloc: Global) -> Result<Ident, AllocError> {
        Ok(Ident {
            name: self.name.clone_in(alloc)?,
            symbol: self.symbol,
        })
    }
}
