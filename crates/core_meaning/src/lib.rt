//! What programs mean: faults, evaluation, runs; and laws of it. Beside faults it has no code.
#![tactic(auto)]

mod fault;
pub mod laws;

pub use fault::{Fault, NameFault, operation_fault};
pub use wgsl_scalar::{
    IntegerType, ScalarType, binary_scalar_op, construct_scalar, convert_scalar,
    scalar_binary_type, scalar_unary_type, type_of, unary_scalar_op,
};
