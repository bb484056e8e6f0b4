//! Conditions on feature flags (WESL, "Conditional Translation"): their first error, their truth value, and what features leave of them.
#![tactic(auto)]

mod errors;
mod features;
pub mod laws;
mod meaning;
mod simplification;
mod values;

pub use errors::check_condition;
pub use features::{CondCompError, Feature, Features};
pub use meaning::Chain;
pub use simplification::simplify;
pub use values::condition_value;
