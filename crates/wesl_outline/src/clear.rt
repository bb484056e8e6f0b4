//! Names that lowering could capture.

use crate::outline::Outline;
use std::alloc::{AllocError, Global};
use wesl_mark::Mark;
use wgsl_words::is_known;

impl Outline {
    /// For each name whether it is in a table.
    pub(crate) fn known(&self, alloc: Global, table: &[&str]) -> Result<Vec<bool>, AllocError> {
        let mut known = Vec::new(alloc);
        for number in 0..self.list.name_count() {
            known.push(match u32::try_from(number) {
                Ok(number) => is_known(self.list.name(number), table),
                Err(_) => false,
            })?;
        }
        Ok(known)
    }

    fn unclear_at(&self, known: &[bool], mark: Mark) -> Option<u32> {
        let (name, is_taken) = match mark {
            Mark::Declared { name, symbol: _ } => (name, self.is_shared(name)),
            Mark::Local { name, symbol: _ } => (name, self.is_declared(name)),
            _ => return None,
        };
        if is_taken || known.get(name as usize).copied() == Some(true) {
            Some(name)
        } else {
            None
        }
    }

    /// The first name, in the order of the text, of a declaration that another one has or the table, or of a local that a declaration has
    /// or the table.
    pub fn unclear_name(&self, alloc: Global, table: &[&str]) -> Result<Option<&str>, AllocError> {
        let known = self.known(alloc, table)?;
        for mark in self.list.marks() {
            if let Some(name) = self.unclear_at(known.as_slice(), *mark) {
                return Ok(Some(self.list.name(name)));
            }
        }
        Ok(None)
    }
}
