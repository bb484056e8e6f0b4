//! Feature flags of conditions (WESL, "Conditional Translation"), and the errors of conditions.

mod error;
mod feature;

pub use error::CondCompError;
pub use feature::{Feature, Features};
