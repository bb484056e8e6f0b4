//! Values of scalars: their conversions, and the operators on them at each stage. The part of values that needs no memory.
#![tactic(auto)]

mod binary;
mod conversion;
mod exact;
pub mod laws;
mod operator_type;
mod scalar;
mod shift;
mod unary;

pub use binary::binary_scalar_op;
pub use conversion::{construct_scalar, convert_scalar};
pub use operator_type::{scalar_binary_type, scalar_unary_type};
pub use scalar::{IntegerType, ScalarType, type_of};
pub use unary::unary_scalar_op;
pub use wgsl_words::ShaderStage;
