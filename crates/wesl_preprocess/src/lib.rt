//! Modules whose conditions are decided as they are resolved (WESL, "Conditional Translation").
#![tactic(auto)]

mod conditions;
mod deciding;

pub use conditions::Conditions;
pub use deciding::Decided;
pub use wesl_resolve_fn::{ApplyError, Preprocessor, ResolveFn};
