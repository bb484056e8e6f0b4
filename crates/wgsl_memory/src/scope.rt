//! Names and what they stand for, in levels: the nearest of a name hides the others.

mod keys;
mod scope;

pub use keys::Keys;
pub use scope::{Scope, ScopeKind};
