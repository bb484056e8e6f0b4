//! What aliases mean.

use crate::symbols::declared::Declared;
use crate::symbols::directory::Directory;
use crate::symbols::follow::Target;
use std::alloc::{AllocError, Global};
use wgsl_base::Items;

/// What an alias means, the aliases followed that stand without template arguments.
#[derive(Clone, Copy, Drop)]
pub(crate) enum Meant<'s> {
    /// Nobody has looked yet, or it is no alias.
    Unknown,
    /// Somebody is looking.
    ReferenceTarget,
    Found(Target<'s>),
    /// It leads to a ring of aliases.
    Nothing,
}

impl<'s> Directory<'s> {
    /// Goes along aliases from one on, and notes which ones it met; what the last one means.
    fn walk(&mut self, first: usize, met: &mut Items<usize>) -> Result<Meant<'s>, AllocError> {
        let mut number = first;
        for _alias in 0..=self.len() {
            match self.meant(number) {
                Meant::Unknown => {}
                Meant::ReferenceTarget => return Ok(Meant::Nothing),
                known => return Ok(known),
            }
            let Declared::Alias(alias) = self.declared(number) else {
                return Ok(Meant::Unknown);
            };
            self.set_meant(number, Meant::ReferenceTarget);
            met.push(number)?;
            let target = Target {
                ty: &alias.ty,
                meaning: self.meaning(&alias.ty),
                is_aliased: true,
            };
            match self.next_alias(target) {
                Some(next) => number = next,
                None => return Ok(Meant::Found(target)),
            }
        }
        Ok(Meant::Nothing)
    }

    /// Finds what all aliases mean. Each is looked at once.
    pub(crate) fn find_meant(&mut self, alloc: Global) -> Result<(), AllocError> {
        for number in 0..self.len() {
            let mut met = Items::new(alloc);
            let end = self.walk(number, &mut met)?;
            for alias in met.as_slice() {
                self.set_meant(*alias, end);
            }
        }
        Ok(())
    }
}
