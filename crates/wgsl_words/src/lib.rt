//! Operators, words of fixed choice, and the names that WGSL itself gives.
#![tactic(auto)]

mod builtin;
pub mod enumerations;
mod operators;

pub use builtin::{BUILTIN_COUNT, builtin_names, is_builtin_name, is_known, other_types};
pub use enumerations::{
    AccessMode, AddressSpace, AssignmentOperator, BuiltinValue, DiagnosticSeverity, Enumerant,
    InterpolationSampling, InterpolationType, ShaderStage,
};
pub use operators::{BinaryOperator, UnaryOperator};
