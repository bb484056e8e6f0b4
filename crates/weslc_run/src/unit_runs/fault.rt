//! What goes wrong in a run, and where.

use wgsl_base::OrOutOfMemory;
use wgsl_eval_machine::{EvalError, Fault};

/// Where a fault of evaluation lies.
#[derive(Clone, Copy)]
pub enum FaultPlace {
    /// In what was being started, by its number among the unit's declarations, if that is known.
    Started(Option<usize>),
    /// In the run of the entry point.
    Entry,
}

/// A fault of evaluation, and where it lies.
#[derive(Drop)]
pub struct RunFault {
    pub place: FaultPlace,
    pub fault: Fault,
}

/// A fault of a run, or want of memory.
pub type RunError = OrOutOfMemory<RunFault>;

/// An error of the evaluator, with its place.
pub(crate) fn at(place: FaultPlace, error: EvalError) -> RunError {
    match error {
        OrOutOfMemory::Error(fault) => OrOutOfMemory::Error(RunFault { place, fault }),
        OrOutOfMemory::OutOfMemory => OrOutOfMemory::OutOfMemory,
    }
}
