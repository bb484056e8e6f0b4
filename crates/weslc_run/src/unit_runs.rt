//! The calls `run` and `eval`: runs of entry points, and evaluations, over linked modules.

mod calls;
mod evaluation;
mod fault;
mod held;
mod kept;
mod refusal;
mod running;

pub use calls::{eval, run};
pub use evaluation::eval_unit;
pub use fault::{FaultPlace, RunError, RunFault};
pub use refusal::RunRefusal;
pub use running::{HandedOverride, run_unit};
