//! The parts of which statements, declarations and modules are made: attributes, expressions and types. Lists of them, and what is done at
//! each in turn.
#![tactic(auto)]

mod find;
mod find_modules;
mod find_statements;
mod meet;
mod meet_modules;
mod meet_statements;
mod part;
mod read_parts;
mod turns;

pub use find_modules::{find_declaration, find_unit};
pub use find_statements::find_statement;
pub use meet_modules::{meet_declaration, meet_unit};
pub use meet_statements::meet_statement;
pub use part::PartRef;
pub use read_parts::ReadParts;
