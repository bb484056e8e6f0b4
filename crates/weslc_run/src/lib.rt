//! The calls `run` and `eval`: an entry point that is run, and the value of an expression.
#![tactic(auto)]

mod eval_question;
mod unit_runs;

pub use eval_question::{EvalExpression, OWN_NAME};
pub use unit_runs::{FaultPlace, HandedOverride, RunError, RunFault, RunRefusal, eval, run};
