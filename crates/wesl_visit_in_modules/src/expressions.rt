//! Visits of the expressions in a syntax tree.

mod parts;
mod visit;

pub use visit::VisitExpressions;
