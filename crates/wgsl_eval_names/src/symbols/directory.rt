//! Declarations by their names and numbers.

use crate::symbols::aliases::Meant;
use crate::symbols::declared::{Declared, declared_of};
use indexmap::IndexMap;
use std::alloc::{AllocError, Global};
use wgsl_base::Items;
use wgsl_declarations::TranslationUnit;

/// The declarations of a module, by their numbers, counted from 0 in text order, and by their names.
#[derive(Drop)]
pub struct Directory<'s> {
    names: IndexMap<String, usize>,
    declared: Items<Declared<'s>>,
    /// What each declaration means, where it is an alias.
    meant: Items<Meant<'s>>,
}

impl<'s> Directory<'s> {
    /// The declarations of a module. Of two declarations of one name, that name is the first's.
    pub fn new(alloc: Global, unit: &'s TranslationUnit) -> Result<Directory<'s>, AllocError> {
        let mut directory = Directory {
            names: IndexMap::new(alloc),
            declared: Items::new(alloc),
            meant: Items::new(alloc),
        };
        for node in unit.global_declarations.as_slice() {
            directory.add(alloc, declared_of(node.node()))?;
        }
        directory.find_meant(alloc)?;
        Ok(directory)
    }

    fn add(&mut self, alloc: Global, declared: Declared<'s>) -> Result<(), AllocError> {
        let number = self.declared.len();
        self.declared.push(declared)?;
        self.meant.push(Meant::Unknown)?;
        if let Some(name) = declared.name()
            && self.number(name).is_none()
        {
            let name = String::from_str(alloc, name)?;
            self.names.insert(name, number)?;
        }
        Ok(())
    }

    /// The number of the declaration of a name.
    pub fn number(&self, name: &str) -> Option<usize> {
        self.names.get(name).copied()
    }

    /// How many declarations there are.
    pub fn len(&self) -> usize {
        self.declared.len()
    }

    /// Whether there are none.
    pub fn is_empty(&self) -> bool {
        self.declared.is_empty()
    }

    /// A declaration by its number. Past the last there is none, as at a `;` alone.
    pub fn declared(&self, number: usize) -> Declared<'s> {
        match self.declared.get(number) {
            Some(declared) => *declared,
            None => Declared::Void,
        }
    }

    /// What an alias means, by its number.
    pub(crate) fn meant(&self, number: usize) -> Meant<'s> {
        match self.meant.get(number) {
            Some(meant) => *meant,
            None => Meant::Unknown,
        }
    }

    /// Sets what an alias means, by its number.
    pub(crate) fn set_meant(&mut self, number: usize, meant: Meant<'s>) {
        if number < self.meant.len() {
            *self.meant.get_mut(number) = meant;
        }
    }

    /// The name of a declaration, empty where it has none.
    pub fn name_of(&self, number: usize) -> &'s str {
        self.declared(number).name().unwrap_or("")
    }
}
