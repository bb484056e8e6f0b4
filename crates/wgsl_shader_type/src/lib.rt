//! The types of WGSL: classes, conversions, layouts, and what is refused.
#![tactic(auto)]

mod alike;
mod class;
pub mod conversion;
mod copy;
pub mod error;
mod layout;
pub mod literal;
mod print;
pub mod tree;

pub use conversion::{conversion_rank, convert_all_ty, convert_ty};
pub use error::Error;
pub use literal::{CallSignature, LiteralInstance, TpltParam};
pub use tree::{ShaderType, StructMemberType, StructMemberTypeOf, StructType, StructTypeOf, Type};
pub use wgsl_base::Boxed;
pub use wgsl_words::{AccessMode, AddressSpace, UnaryOperator};
