//! Declarations by name, the order in which constants start, and which functions are const.
#![tactic(auto)]

mod const_rule;
mod symbols;

pub use const_rule::{Used, const_functions, start_order, uses_of};
pub use symbols::{Declared, Directory, Header, Meaning, Struct, Target};
