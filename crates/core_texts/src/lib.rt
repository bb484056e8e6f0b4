//! Texts of the part of the language that `link` and `compile` read: modules that are parsed as units of the part, and units that are
//! printed, by the whole grammar.
#![tactic(auto)]

mod error;
pub mod laws;
mod parse;
mod print;

pub use error::{PartError, PrintError};
pub use parse::parse_core;
pub use print::print_core;
pub use wgsl_check_unit::{Unprintable, check_unit, print_checked};
