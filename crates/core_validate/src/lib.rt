//! Validation of a linked unit: locals of one name, free names, calls, rings of declarations, and names that printing would blur.
#![tactic(auto)]

mod check;
mod clear;
mod error;
mod index;
pub mod laws;
mod place;
mod ring;
mod validate;

pub use clear::unclear_name;
pub use error::{ValidateError, ValidateFault};
pub use index::first_positions;
pub use place::{Index, Meaning, Place, Row, rows};
pub use validate::validate_wesl;
