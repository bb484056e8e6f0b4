//! What is put at each identifier.

ghost use Rattle.std.specs.Prelude.{◌≡◌};
ghost use Rattle.wesl_marks_mut.specs.Lasts.{init, last};
ghost use Rattle.wesl_marks_mut.specs.Putting.{put_path, put_name};

use wgsl_base::{Boxed, Text};
use wgsl_path::{Ident, ModulePath};

/// What is put at an identifier: another name, where there is one, and a symbol number or none.
#[derive(Drop)]
pub struct New {
    pub name: Option<Text>,
    pub symbol: Option<u32>,
}

/// What is put at the identifiers that are still to come, the next one last.
#[derive(Drop)]
pub struct Script {
    pub rest: Vec<New>,
}

/// Puts a name, where there is one, and a symbol number at an identifier.
fn put(new: Option<New>, ident: &mut Ident)
    ensures { ident.new.name ≡ put_name ident.old.name new }
{
    if let Some(New { name, symbol }) = new {
        if let Some(name) = name {
            ident.rename(name);
        }
        ident.symbol = symbol;
    }
}

/// Puts a name and a symbol number at a name that is used. Where there is a name, it stands without a path from then on.
fn put_used(new: Option<New>, path: &mut Option<Boxed<ModulePath>>, ident: &mut Ident)
    ensures path { path.new ≡ put_path path.old new }
    ensures name { ident.new.name ≡ put_name ident.old.name new }
{
    if let Some(New { name, symbol }) = new {
        if let Some(name) = name {
            ident.rename(name);
            *path = None;
        }
        ident.symbol = symbol;
    }
}

impl Script {
    /// Puts the next name, where there is one, and the next symbol number at an identifier.
    #[tactic(auto, using(crate::proofs::Lasts::popped_init, crate::proofs::Lasts::popped_last))]
    pub(crate) fn write(&mut self, ident: &mut Ident)
        ensures name { ident.new.name ≡ put_name ident.old.name (last self.old.rest.items) }
        ensures rest { self.new.rest.items ≡ init self.old.rest.items }
    {
        let new = self.rest.pop();
        put(new, ident);
    }

    /// Puts the next name and symbol number at a name that is used. Where there is a name, it stands without a path from then on.
    #[tactic(auto, using(crate::proofs::Lasts::popped_init, crate::proofs::Lasts::popped_last))]
    pub(crate) fn write_used(&mut self, path: &mut Option<Boxed<ModulePath>>, ident: &mut Ident)
        ensures path { path.new ≡ put_path path.old (last self.old.rest.items) }
        ensures name { ident.new.name ≡ put_name ident.old.name (last self.old.rest.items) }
        ensures rest { self.new.rest.items ≡ init self.old.rest.items }
    {
        let new = self.rest.pop();
        put_used(new, path, ident);
    }
}
