//! The tests of a linked unit: printed names that two symbols share or that are read otherwise than meant, faults of names and calls,
//! rings of declarations, and names that lowering could capture.
#![tactic(auto)]

mod unit;

pub use unit::{names_clash, read_outline, unclear_name, validate_wesl};
pub use wesl_outline::{Outline, ValidateError, ValidateFault};
