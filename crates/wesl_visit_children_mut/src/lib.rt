//! What is done at each part of a statement, a declaration or a module, in turn, and what it may change of it.
#![tactic(auto)]

mod attributes;
mod modules;
mod parts;
mod statements;
mod write_parts;

pub use attributes::VisitAttributes;
pub use modules::{change_declaration, change_unit};
pub use statements::change_statement;
pub use write_parts::WriteParts;
