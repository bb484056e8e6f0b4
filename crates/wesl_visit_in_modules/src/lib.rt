//! Walks over the expressions, and over the types, of modules.
#![tactic(auto)]

mod expressions;
mod types;

pub use expressions::VisitExpressions;
pub use types::VisitTypes;
