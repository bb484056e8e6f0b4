//! Locals and members of one name.

use crate::error::{Found, ValidateError};
use crate::meanings::follow;
use crate::outline::Outline;
use std::alloc::{AllocError, Global};
use wesl_mark::{Mark, Scopes};

/// Where a test of locals and members stands.
#[derive(Drop)]
struct Names {
    scopes: Scopes,
    /// The numbers of the marks at which the open scopes start.
    starts: Vec<usize>,
    /// For each name, one more than the last place that has a member of it.
    members: Vec<usize>,
}

impl Names {
    /// Whether the innermost scope has a local of this name.
    fn has_local(&self, name: u32) -> bool {
        match (self.scopes.find(name), self.starts.as_slice().last()) {
            (Some(local), Some(start)) => *start < local as usize,
            (Some(_), None) => true,
            (None, _) => false,
        }
    }

    /// Whether a structure has a member of this name; it has one then.
    fn has_member(&mut self, name: u32, place: usize) -> bool {
        let at = name as usize;
        if at >= self.members.len() {
            return false;
        }
        let stamp = place.saturating_add(1);
        let is_there = self.members[at] == stamp;
        self.members[at] = stamp;
        is_there
    }

    /// The name that a mark declares again. Then it enters and leaves scopes and declares locals.
    fn step(&mut self, place: usize, at: usize, mark: Mark) -> Result<Option<u32>, AllocError> {
        let repeated = match mark {
            Mark::Local { name, symbol: _ } if self.has_local(name) => Some(name),
            Mark::Member(name) if self.has_member(name, place) => Some(name),
            _ => None,
        };
        match mark {
            Mark::Enter => self.starts.push(at)?,
            Mark::Leave => {
                let _start = self.starts.pop();
            }
            _ => {}
        }
        follow(&mut self.scopes, at, mark)?;
        Ok(repeated)
    }
}

impl Outline {
    /// The first local whose scope has another one of its name before it, or member whose structure has one, in the order of the text.
    pub(crate) fn duplicate(&self, alloc: Global) -> Result<Option<Found>, AllocError> {
        let mut names = Names {
            scopes: Scopes::new(alloc),
            starts: Vec::new(alloc),
            members: vec![in alloc; 0; self.list.name_count()]?,
        };
        for (number, place) in self.places.iter().enumerate() {
            for at in place.start..place.end {
                let Some(mark) = self.mark(at) else {
                    break;
                };
                if let Some(name) = names.step(number, at, mark)? {
                    return Ok(Some(Found {
                        kind: ValidateError::Duplicate,
                        place: number,
                        name,
                    }));
                }
            }
        }
        Ok(None)
    }
}
