//! Visits of the nodes of one kind in the syntax trees of WGSL: a trait for each kind, since a closure's bound in a trait names its
//! types.
#![tactic(auto)]

mod change;
mod find;
mod meet;
mod statement;

pub use statement::VisitStatements;
