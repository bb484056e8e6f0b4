//! What a tree says of names, in the order of its text.

ghost use Rattle.std.specs.Prelude.{◌≡◌, ◌≢◌, ◌<◌, ◌^◌, ◌++◌, ◌∷◌, [], ℕ, true, Some, length, slice_get, string_bytes, option_map, option_copied, IfOk, IfSome, IfNone, OnOk};
ghost use Rattle.wesl_mark.specs.Marks.{name_at, text_at, said_by, is_within, AreApart, AreNamed, AreWithin};

use crate::names::{Reference, name_number, numbered, reference_number};
use indexmap::IndexSet;
use std::alloc::{AllocError, Global};
use wgsl_base::{Boxed, CloneIn};
use wgsl_path::{Ident, ModulePath};

/// What stands at a place of a tree. Names and references are numbers of the list that the mark stands in; a symbol is the number that
/// the identifier bears.
#[derive(Clone, Copy)]
pub enum Mark {
    /// A scope starts.
    Enter,
    /// The innermost scope ends.
    Leave,
    /// A local declaration or a parameter, in scope from here up to the end of the innermost scope.
    Local {
        name: u32,
        symbol: Option<u32>,
    },
    /// The name of a declaration of a module. It stands behind the declaration's attributes.
    Declared {
        name: u32,
        symbol: Option<u32>,
    },
    /// The name of a member of a structure.
    Member(u32),
    /// A name that is used: with how many arguments, where it is called; whether in an attribute of a custom name; whether with template
    /// arguments.
    Occurs {
        reference: u32,
        symbol: Option<u32>,
        arguments: Option<u32>,
        is_custom: bool,
        is_templated: bool,
    },
}

/// Marks in the order of the text, with the tables of their names and references.
#[derive(Drop)]
pub struct MarkList {
    alloc: Global,
    names: IndexSet<String>,
    references: IndexSet<Reference>,
    marks: Vec<Mark>,
    pub ghost apart: { AreApart names.keys },
    pub ghost named: { AreNamed names.keys references.keys },
    pub ghost within: { AreWithin names.keys references.keys marks.items },
}

impl MarkList {
    ghost use Rattle.wesl_mark.specs.Flats.{declares, enters, leaves, occurs as uses};
    ghost use Rattle.wesl_mark.specs.Marks as said;
    ghost use Rattle.wesl_mark.specs.Lists.{flats, says, OnlyGrows};

    /// No marks and no names.
    #[tactic(auto, unfolding(crate::specs::Lists::flats, crate::specs::Lists::says))]
    pub fn new(alloc: Global) -> MarkList
        ensures flats { flats result ≡ [] }
        ensures says { says result ≡ [] }
        ensures names { result.names.keys ≡ [] }
        ensures references { result.references.keys ≡ [] }
    {
        MarkList {
            alloc,
            names: IndexSet::new(alloc),
            references: IndexSet::new(alloc),
            marks: Vec::new(alloc),
        }
    }

    /// The marks in order.
    pub fn marks(&self) -> &[Mark]
        ensures { result.now ≡ self.now.marks.items }
    {
        self.marks.as_slice()
    }

    /// How many marks there are.
    #[tactic(auto, unfolding(crate::specs::Lists::says))]
    pub fn len(&self) -> usize
        ensures { result ≡ length (says self.now) }
    {
        self.marks.len()
    }

    /// The text of a name, which is empty where no name has this number.
    pub fn name(&self, number: u32) -> &str
        ensures { result.now ≡ text_at self.now.names.keys number }
    {
        match self.names.get_index(number as usize) {
            Some(name) => name.as_str(),
            None => "",
        }
    }

    /// How many names there are; their numbers are those below it.
    pub fn name_count(&self) -> usize
        ensures { result ≡ length self.now.names.keys }
    {
        self.names.len()
    }

    /// The number of a name that is there.
    pub fn number_of(&self, name: &str) -> Option<u32>
        ensures found { IfSome result (λ number. name_at self.now.names.keys number ≡ Some name.now) }
        ensures missing { IfNone result ((number : ℕ) → number < 2 ^ 32 → name_at self.now.names.keys number ≢ Some name.now) }
    {
        let at = self.names.get_index_of(name)?;
        match u32::try_from(at) {
            Ok(number) => Some(number),
            Err(_) => None,
        }
    }

    /// The number of a name, which is added where it is not there yet.
    #[tactic(auto, unfolding(crate::specs::Lists::flats, crate::specs::Lists::says))]
    pub fn number(&mut self, name: &str) -> Result<u32, AllocError>
        ensures reads { IfOk result (λ number. name_at self.new.names.keys number ≡ Some name.now) }
        ensures says { says self.new ≡ says self.old }
        ensures flats { flats self.new ≡ flats self.old }
        ensures grows { OnlyGrows self.old self.new }
    {
        name_number(self.alloc, &mut self.names, name)
    }

    /// A reference by its number.
    pub fn reference(&self, number: u32) -> Option<&Reference>
        ensures { option_copied result ≡ slice_get self.now.references.keys number }
    {
        self.references.get_index(number as usize)
    }

    /// How many references there are; their numbers are those below it.
    pub fn reference_count(&self) -> usize
        ensures { result ≡ length self.now.references.keys }
    {
        self.references.len()
    }

    /// A scope starts.
    pub fn enter(&mut self) -> Result<(), AllocError>
        ensures says { OnOk result (says self.new ≡ says self.old ++ said.enter ∷ []) }
        ensures flats { OnOk result (flats self.new ≡ flats self.old ++ enters ∷ []) }
        ensures grows { OnlyGrows self.old self.new }
    {
        self.add(Mark::Enter)
    }

    /// The innermost scope ends.
    pub fn leave(&mut self) -> Result<(), AllocError>
        ensures says { OnOk result (says self.new ≡ says self.old ++ said.leave ∷ []) }
        ensures flats { OnOk result (flats self.new ≡ flats self.old ++ leaves ∷ []) }
        ensures grows { OnlyGrows self.old self.new }
    {
        self.add(Mark::Leave)
    }

    /// A local declaration or a parameter.
    pub fn local(&mut self, ident: &Ident) -> Result<(), AllocError>
        ensures says { OnOk result (says self.new ≡ says self.old ++ said.local ident.now.name ident.now.symbol ∷ []) }
        ensures flats { OnOk result (flats self.new ≡ flats self.old ++ declares ident.now.name ∷ []) }
        ensures grows { OnlyGrows self.old self.new }
    {
        let name = self.number(ident.as_str())?;
        self.add(Mark::Local {
            name,
            symbol: ident.symbol,
        })
    }

    /// The name of a declaration of the module.
    pub fn declared(&mut self, ident: &Ident) -> Result<(), AllocError>
        ensures says { OnOk result (says self.new ≡ says self.old ++ said.declared ident.now.name ident.now.symbol ∷ []) }
        ensures flats { OnOk result (flats self.new ≡ flats self.old) }
        ensures grows { OnlyGrows self.old self.new }
    {
        let name = self.number(ident.as_str())?;
        self.add(Mark::Declared {
            name,
            symbol: ident.symbol,
        })
    }

    /// The name of a member of a structure.
    pub fn member(&mut self, ident: &Ident) -> Result<(), AllocError>
        ensures says { OnOk result (says self.new ≡ says self.old ++ said.member ident.now.name ∷ []) }
        ensures flats { OnOk result (flats self.new ≡ flats self.old) }
        ensures grows { OnlyGrows self.old self.new }
    {
        let name = self.number(ident.as_str())?;
        self.add(Mark::Member(name))
    }

    /// A name that is used.
    pub fn occurs(
        &mut self,
        path: &Option<Boxed<ModulePath>>,
        ident: &Ident,
        arguments: Option<usize>,
        is_custom: bool,
        is_templated: bool,
    ) -> Result<(), AllocError>
        ensures says { OnOk result (says self.new ≡ says self.old ++ said.occurrence path.now ident.now.name ident.now.symbol arguments is_custom is_templated ∷ []) }
        ensures flats { OnOk result (flats self.new ≡ flats self.old ++ uses path.now ident.now.name ∷ []) }
        ensures grows { OnlyGrows self.old self.new }
    {
        let name = self.number(ident.as_str())?;
        let path = match path {
            None => None,
            Some(path) => Some(path.get().clone_in(self.alloc)?),
        };
        let reference = self.number_reference(Reference { path, name })?;
        let arguments = match arguments {
            None => None,
            Some(count) => Some(numbered(count)?),
        };
        self.add(Mark::Occurs {
            reference,
            symbol: ident.symbol,
            arguments,
            is_custom,
            is_templated,
        })
    }

    /// The number of a reference to a name that is there, which is added where it is not there yet.
    #[tactic(auto, unfolding(crate::specs::Lists::flats, crate::specs::Lists::says))]
    fn number_reference(&mut self, reference: Reference) -> Result<u32, AllocError>
        requires { reference.name < length self.old.names.keys }
        ensures reads { IfOk result (λ number. slice_get self.new.references.keys number ≡ Some reference) }
        ensures names { self.new.names.keys ≡ self.old.names.keys }
        ensures says { says self.new ≡ says self.old }
        ensures flats { flats self.new ≡ flats self.old }
        ensures grows { OnlyGrows self.old self.new }
    {
        reference_number(&mut self.references, reference)
    }

    /// Adds a mark.
    #[tactic(auto, unfolding(crate::specs::Lists::flats, crate::specs::Lists::says))]
    fn add(&mut self, mark: Mark) -> Result<(), AllocError>
        requires { is_within (length self.old.names.keys) (length self.old.references.keys) mark ≡ true }
        ensures says { OnOk result (says self.new ≡ says self.old ++ said_by self.old.names.keys self.old.references.keys mark ∷ []) }
        ensures flats { OnOk result (flats self.new ≡ flats self.old ++ said.flat_of (said_by self.old.names.keys self.old.references.keys mark)) }
        ensures grows { OnlyGrows self.old self.new }
    {
        self.marks.push(mark)?;
        Ok(())
    }
}
