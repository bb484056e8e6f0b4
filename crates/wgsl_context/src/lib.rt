//! The evaluator: values and types of expressions, starts of modules, and runs of entry points.
#![tactic(auto)]

mod context;
mod entry;

pub use context::Context;
pub use wgsl_eval_machine::{EvalError, Fault, Start};
pub use wgsl_memory::Inputs;
