//! The names of a scope, one by one.

use crate::scope::scope::Scope;

/// The names that a scope sees.
#[derive(Clone, Copy, Drop)]
pub struct Keys<'a, T> {
    scope: &'a Scope<T>,
    next: usize,
}

impl<'a, T> Keys<'a, T> {
    pub(crate) fn new(scope: &'a Scope<T>, next: usize) -> Keys<'a, T> {
        Keys { scope, next }
    }
}

impl<'a, T> Iterator for Keys<'a, T> {
    type Item = &'a str;

    fn next(&mut self) -> Option<&'a str> {
        let name = self.scope.key(self.next)?;
        self.next = self.next.saturating_add(1);
        Some(name)
    }
}
