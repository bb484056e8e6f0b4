//! The new names and symbol numbers of the identifiers of a place.

use crate::numbering::{Numbering, counted};
use std::alloc::{AllocError, Global};
use wesl_load::Resolutions;
use wesl_mark::{Mark, MarkList, Place, Scopes};
use wesl_marks_mut::{New, Script};
use wesl_module_index::DeclarationId;
use wgsl_base::{CloneIn, Text};

/// What an identifier stands for.
#[derive(Clone, Copy)]
pub(crate) enum Meant {
    /// A declaration of the linked unit.
    Symbol(u32),
    /// A local declaration.
    Local(u32),
    Free,
}

/// What the identifiers of the place that is looked at stand for, in the order of the text.
#[derive(Drop)]
pub(crate) struct Meanings {
    pub meant: Vec<Meant>,
    pub scopes: Scopes,
    /// How many symbol numbers are given.
    pub count: u32,
}

impl Meanings {
    pub fn new(alloc: Global, symbols: usize) -> Result<Meanings, AllocError> {
        Ok(Meanings {
            meant: Vec::new(alloc),
            scopes: Scopes::new(alloc),
            count: counted(symbols)?,
        })
    }

    /// Takes in a mark that does not occur: it declares a local with the next symbol number, or starts or leaves a scope.
    pub fn take_in(&mut self, mark: Mark) -> Result<(), AllocError> {
        match mark {
            Mark::Enter => self.scopes.enter(),
            Mark::Leave => {
                self.scopes.leave();
                Ok(())
            }
            Mark::Local { name, symbol: _ } => self.declare(name),
            Mark::Declared { .. } => Ok(()),
            Mark::Member(_) => Ok(()),
            Mark::Occurs { .. } => Ok(()),
        }
    }

    fn declare(&mut self, name: u32) -> Result<(), AllocError> {
        let symbol = self.count;
        self.count = match symbol.checked_add(1) {
            Some(count) => count,
            None => return Err(AllocError),
        };
        self.scopes.declare(name, symbol)?;
        self.meant.push(Meant::Local(symbol))?;
        Ok(())
    }

    /// The local declaration that a reference means, where it means one.
    pub fn local(&self, list: &MarkList, reference: u32) -> Option<u32> {
        match list.reference(reference) {
            None => None,
            Some(reference) => match &reference.path {
                Some(_) => None,
                None => self.scopes.find(reference.name),
            },
        }
    }
}

/// What the identifiers of a place stand for.
pub(crate) fn find_meanings(
    resolutions: &Resolutions,
    numbering: &Numbering,
    list: &MarkList,
    spot: DeclarationId,
    place: Place,
    meanings: &mut Meanings,
) -> Result<(), AllocError> {
    meanings.meant.clear();
    for at in place.start..place.end {
        let meant = match list.marks().get(at) {
            None => continue,
            Some(Mark::Declared { .. }) => symbol_at(numbering, spot),
            Some(Mark::Occurs { reference, .. }) => {
                match meanings.local(list, *reference) {
                    Some(symbol) => Meant::Local(symbol),
                    None => match resolutions.denoted(spot.module, *reference) {
                        None => Meant::Free,
                        Some(spot) => symbol_at(numbering, spot),
                    },
                }
            }
            Some(mark) => {
                meanings.take_in(*mark)?;
                continue;
            }
        };
        meanings.meant.push(meant)?;
    }
    Ok(())
}

fn symbol_at(numbering: &Numbering, spot: DeclarationId) -> Meant {
    match numbering.number(spot) {
        None => Meant::Free,
        Some(number) => Meant::Symbol(number),
    }
}

/// The script that gives the identifiers these meanings: each symbol's name in the linked unit, and the numbers.
pub(crate) fn script_of(
    alloc: Global,
    meant: &[Meant],
    names: &[Text],
) -> Result<Script, AllocError> {
    let mut rest = Vec::new(alloc);
    for meant in meant.iter().rev() {
        rest.push(new_of(alloc, *meant, names)?)?;
    }
    Ok(Script { rest })
}

fn new_of(alloc: Global, meant: Meant, names: &[Text]) -> Result<New, AllocError> {
    match meant {
        Meant::Free => Ok(New {
            name: None,
            symbol: None,
        }),
        Meant::Local(symbol) => Ok(New {
            name: None,
            symbol: Some(symbol),
        }),
        Meant::Symbol(symbol) => {
            let name = match names.get(symbol as usize) {
                None => None,
                Some(name) => Some(name.clone_in(alloc)?),
            };
            Ok(New {
                name,
                symbol: Some(symbol),
            })
        }
    }
}
