//! The steps of declarations and calls.
#![tactic(auto)]

mod applying;
mod entering;
mod initial;
mod inputs;
mod starting;
mod stepping;

pub use entering::push_entry;
pub use stepping::step;
pub use wgsl_eval_expressions::{follow, loaded_first};
