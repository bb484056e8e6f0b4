//! The names that occur in declarations, and copies of declarations with new names in their place.
#![tactic(auto)]

mod naming;
mod occurrence;
mod rename;
mod scope;

pub use naming::Naming;
pub use occurrence::{names_before, names_behind, names_in_body, occurrences};
pub use rename::renamed_declaration;
pub use scope::Scope;
