//! The types that the operators of WGSL give.
#![tactic(auto)]

pub mod methods;
pub mod operator;

pub use methods::TypeOperators;
pub use operator::{type_binary_op, type_unary_op};
pub use wgsl_shader_type::{Error, LiteralInstance, Type};
