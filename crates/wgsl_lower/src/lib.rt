//! Lowering of whole modules: constant expressions are written as their values, types are written in full, and what only the compiler needs goes.
#![tactic(auto)]

mod effects;
mod folding;
mod modules;
mod pruning;
mod simplifying;

pub use effects::Effects;
pub use folding::{EvalError, Evaluator, Fault, Stop};
pub use modules::{Place, Refused, lower, lower_owned};
