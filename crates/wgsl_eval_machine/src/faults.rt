//! What the evaluator refuses.

mod fault;
mod kinds;
mod operation;

pub use fault::{EvalError, Fault, Stop};
pub use kinds::{
    BuiltinFault, NameFault, PairFault, PlainFault, ResourceFault, ReturnFault, TypeFault,
};
pub use operation::{operation_kind, operation_name};
