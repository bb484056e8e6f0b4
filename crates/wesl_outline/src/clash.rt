//! Printed names that are not what is meant.

use crate::meanings::Meaning;
use crate::outline::Outline;
use std::alloc::{AllocError, Global};
use wesl_mark::Mark;

impl Outline {
    /// The symbol number of the name that a mark declares.
    fn declared_symbol(&self, at: usize) -> Option<u32> {
        match self.mark(at)? {
            Mark::Local { symbol, .. } | Mark::Declared { symbol, .. } => symbol,
            _ => None,
        }
    }

    /// The number of the mark that declares the name of a place.
    pub(crate) fn declaring_mark(&self, place: usize) -> Option<usize> {
        let place = self.places.get(place)?;
        for at in place.start..place.end {
            if let Mark::Declared { .. } = self.mark(at)? {
                return Some(at);
            }
        }
        None
    }

    /// For each place the symbol number of its name.
    fn place_symbols(&self, alloc: Global) -> Result<Vec<Option<u32>>, AllocError> {
        let mut symbols = Vec::new(alloc);
        for place in 0..self.places.len() {
            symbols.push(match self.declaring_mark(place) {
                None => None,
                Some(at) => self.declared_symbol(at),
            })?;
        }
        Ok(symbols)
    }

    /// Whether an occurrence is read as its symbol.
    fn is_read_as(
        &self,
        place_symbols: &[Option<u32>],
        at: usize,
        name: u32,
        symbol: Option<u32>,
    ) -> bool {
        match self.meaning(at) {
            Meaning::Nothing => true,
            Meaning::Local(local) => self.declared_symbol(local) == symbol,
            Meaning::Global(place) => {
                !self.is_shared(name) && place_symbols.get(place).copied() == Some(symbol)
            }
            Meaning::Free => symbol.is_none(),
        }
    }

    /// The name of a mark that clashes.
    fn clash_at(&self, place_symbols: &[Option<u32>], at: usize, mark: Mark) -> Option<u32> {
        match mark {
            Mark::Declared { name, symbol: _ } if self.is_shared(name) => Some(name),
            Mark::Occurs {
                reference,
                symbol,
                ..
            } => {
                let name = self.name_of(reference)?;
                if self.is_read_as(place_symbols, at, name, symbol) {
                    None
                } else {
                    Some(name)
                }
            }
            _ => None,
        }
    }

    /// The first printed name, in the order of the text, that two symbols share or that is read otherwise than its symbol number says.
    pub fn names_clash(&self, alloc: Global) -> Result<Option<&str>, AllocError> {
        let symbols = self.place_symbols(alloc)?;
        for (at, mark) in self.list.marks().iter().enumerate() {
            if let Some(name) = self.clash_at(symbols.as_slice(), at, *mark) {
                return Ok(Some(self.list.name(name)));
            }
        }
        Ok(None)
    }
}
