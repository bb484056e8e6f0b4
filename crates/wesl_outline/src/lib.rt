//! What a linked unit is tested for: printed names that two symbols share or that are read otherwise than meant, faults of names and
//! calls, rings of declarations, and names that lowering could capture.
//!
//! All tests read the marks of the unit once (`Outline`) and then look at numbers alone.
#![tactic(auto)]

mod alias;
mod calls;
mod clash;
mod clear;
mod duplicates;
mod error;
mod meanings;
mod outline;
mod validate;

pub use error::{ValidateError, ValidateFault};
pub use meanings::Meaning;
pub use outline::Outline;
