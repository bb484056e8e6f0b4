//! From a linked unit to the text that stands for what it is lowered to, and what is said of compiled units.
#![tactic(auto)]

mod compiled;
mod error;
pub mod laws;

pub use compiled::print_lowered;
pub use core_lower::{DeclarationFault, Fault, NameFault};
pub use core_texts::{
    PartError, PrintError, Unprintable, check_unit, parse_core, print_checked, print_core,
};
pub use core_validate::{ValidateError, ValidateFault};
pub use error::UnitRefusal;
