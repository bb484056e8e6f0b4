//! The steps of statements.
#![tactic(auto)]

mod branching;
mod frames;
mod loops;
mod scopes;
mod simple;
mod stepping;

pub use frames::{StatementFrame, Works};
pub use stepping::{begin_body, step_statement};
