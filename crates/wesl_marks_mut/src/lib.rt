//! New names and symbol numbers are put at the identifiers of a tree, in the order in which they are marked.
#![tactic(auto)]

mod attributes;
mod declarations;
mod expressions;
pub mod laws;
mod script;
mod simple_statements;
mod statements;
mod units;

pub use declarations::write_declaration;
pub use script::{New, Script};
pub use units::{write_directive, write_unit};
