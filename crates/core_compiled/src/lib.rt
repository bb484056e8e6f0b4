//! The compiled text of a linked unit: validation, clear names, then what it is lowered to.
#![tactic(auto)]

mod compile;

pub use compile::compile_unit;
pub use core_unit::{
    PrintError, UnitRefusal, Unprintable, check_unit, parse_core, print_checked, print_core,
};
