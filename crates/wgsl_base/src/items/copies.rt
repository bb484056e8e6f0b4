//! Copies and conversions that need memory.

ghost use Rattle.std.specs.Prelude.{◌≡◌, IfOk};

use std::alloc::{AllocError, Global};

/// A copy in fresh memory. It equals `self`, spans too.
pub trait CloneIn {
    fn clone_in(&self, alloc: Global) -> Result<Self, AllocError>
        ensures { IfOk result (λ copy. copy ≡ self.now) };
}

/// A conversion that needs memory, where `From` needs none.
pub trait FromIn<T> {
    /// What the conversion gives.
    ghost from_in_gives: { T → Self → Type 0 };

    fn from_in(alloc: Global, value: T) -> Result<Self, AllocError>
        ensures { IfOk result (λ made. from_in_gives value made) };
}

impl CloneIn for bool {
    fn clone_in(&self, _alloc: Global) -> Result<bool, AllocError> {
        Ok(*self)
    }
}

impl<T: CloneIn> CloneIn for Option<T> {
    fn clone_in(&self, alloc: Global) -> Result<Option<T>, AllocError> {
        match self {
            None => Ok(None),
            Some(value) => Ok(Some(value.clone_in(alloc)?)),
        }
    }
}
