//! What all tests look at: the marks of a unit, and what each name denotes.

ghost use Rattle.std.specs.Prelude.{◌≡◌};
ghost use Rattle.std.specs.List.{slice_index_or};
ghost use Rattle.wesl_outline.specs.declared.meanings.Meaning.TheVariants.{Nothing};

use crate::meanings::{Declared, Meaning, declared_names, meanings_of};
use std::alloc::{AllocError, Global};
use wesl_mark::{Mark, MarkList, Place};

/// The marks of a linked unit, and what its names denote by the scopes in which they stand.
#[derive(Drop)]
pub struct Outline {
    pub list: MarkList,
    /// The directives, then the declarations, `;` counted.
    pub places: Vec<Place>,
    /// For each name the declarations of it in the module's scope.
    pub(crate) names: Vec<Declared>,
    /// What each mark denotes.
    pub(crate) meanings: Vec<Meaning>,
}

impl Outline {
    /// Looks names up, once the marks of a unit are read.
    pub fn new(alloc: Global, list: MarkList, places: Vec<Place>) -> Result<Outline, AllocError> {
        let names = declared_names(alloc, &list, places.as_slice())?;
        let meanings = meanings_of(alloc, &list, names.as_slice())?;
        Ok(Outline {
            list,
            places,
            names,
            meanings,
        })
    }

    /// What the mark of this number denotes.
    pub fn meaning(&self, at: usize) -> Meaning
        ensures { result ≡ slice_index_or self.now.meanings.items at Nothing }
    {
        if at < self.meanings.len() {
            self.meanings[at]
        } else {
            Meaning::Nothing
        }
    }

    /// The mark of this number.
    pub fn mark(&self, at: usize) -> Option<Mark> {
        self.list.marks().get(at).copied()
    }

    /// The number of the name that an occurrence of this reference has.
    pub(crate) fn name_of(&self, reference: u32) -> Option<u32> {
        Some(self.list.reference(reference)?.name)
    }

    /// Whether two declarations of the module have this name.
    pub(crate) fn is_shared(&self, name: u32) -> bool {
        match self.names.get(name as usize) {
            Some(declared) => declared.is_shared,
            None => false,
        }
    }

    /// Whether a declaration of the module has this name.
    pub(crate) fn is_declared(&self, name: u32) -> bool {
        match self.names.get(name as usize) {
            Some(declared) => declared.first.is_some(),
            None => false,
        }
    }
}
