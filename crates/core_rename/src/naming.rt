//! New names for the names that occur.

ghost use Rattle.std.specs.Prelude.{◌≡◌, ℕ, List, IfOk, if◌then◌else◌};
ghost use Rattle.core_link_spec.specs.Occurrences.{is_among};

use crate::scope::Scope;
use std::alloc::{AllocError, Global};
use wgsl_base::Text;

/// Gives each name that occurs in a place a new one.
pub trait Naming {
    /// The new name of a name.
    ghost gives: { Self → List ℕ → List ℕ };

    fn new_name(&self, alloc: Global, name: &str) -> Result<Text, AllocError>
        ensures { IfOk result (λ new. new ≡ gives self.now name.now) };
}

/// A body's scope: a parameter's name stays.
#[derive(Clone, Copy)]
pub struct BodyNaming<'s, 'a, N> {
    pub outer: N,
    pub scope: &'s Scope<'a>,
}

impl<N: Naming> Naming for BodyNaming<'_, '_, N> {
    ghost gives = { λ n x. if is_among x n.scope.now then x else N.gives n.outer x };

    fn new_name(&self, alloc: Global, name: &str) -> Result<Text, AllocError> {
        if self.scope.hides(name) {
            return Text::from_str(alloc, name);
        }
        self.outer.new_name(alloc, name)
    }
}
