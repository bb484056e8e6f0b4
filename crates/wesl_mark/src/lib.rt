//! What a tree says of names, laid out flat, and the scopes in which a name is looked up.
#![tactic(auto)]

mod mark;
mod names;
mod place;
mod scopes;

pub use mark::{Mark, MarkList};
pub use names::Reference;
pub use place::{Kind, Place};
pub use scopes::{Entry, Scopes, Shadowing};
