//! Visits of syntax trees by one generic trait, and by a trait for each kind of node: statements, attributes, expressions and types.
#![tactic(auto)]

mod attributes;
mod expressions;
mod statements;
mod types;
mod visit;

pub use visit::{Visit, VisitEach, VisitEachMut};
pub use wesl_visit::VisitStatements;
pub use wesl_visit_children_mut::VisitAttributes;
pub use wesl_visit_in_modules::{VisitExpressions, VisitTypes};
