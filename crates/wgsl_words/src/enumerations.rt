//! The enumerations of WGSL: address spaces, access modes, built-in values and other words of fixed choice.

pub mod address;
pub mod builtin;
pub mod words;

pub use address::{AccessMode, AddressSpace, Enumerant};
pub use builtin::BuiltinValue;
pub use words::{
    AssignmentOperator, DiagnosticSeverity, InterpolationSampling, InterpolationType, ShaderStage,
};
