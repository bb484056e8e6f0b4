//! Modules that are changed as they are resolved.
#![tactic(auto)]

mod preprocessor;
mod resolve_fn;

pub use preprocessor::Preprocessor;
pub use resolve_fn::{ApplyError, ResolveFn};
