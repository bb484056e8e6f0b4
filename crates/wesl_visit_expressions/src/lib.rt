//! Walks over the expressions, and over the types, of an expression.
#![tactic(auto)]

pub mod expressions;
pub mod types;
