//! Visits of the types in a syntax tree.

mod parts;
mod visit;

pub use visit::VisitTypes;
