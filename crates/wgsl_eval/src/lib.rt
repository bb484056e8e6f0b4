//! The evaluator as lowering asks it: const values and types of trees, in the scope of a function; and the loop that every run goes
//! through.
#![tactic(auto)]

mod evaluator;
mod running;

pub use evaluator::{Evaluator, UnitUses};
pub use running::{TypedLocals, run_frames};
pub use wgsl_eval_machine::{EvalError, Fault, PlainFault, Stop};
