//! The types of WGSL: enumerations, types, conversions, layouts, operators, constructors and templates.
#![tactic(auto)]

pub mod constructor;
pub mod conversions;
pub mod laws;
pub mod names;
pub mod template;
pub mod typed;

pub use constructor::{array_t, type_ctor, typecheck_struct_ctor, vec_t};
pub use conversions::{convert, convert_all, convert_all_inner_to, convert_all_to, convert_inner};
pub use names::{builtin_type, is_ctor};
pub use template::{ArrayTemplate, PtrTemplate, VecTemplate};
pub use typed::{Convert, Ty};
pub use wgsl_shader_type::{
    CallSignature, Error, LiteralInstance, ShaderType, StructMemberType, StructMemberTypeOf,
    StructType, StructTypeOf, TpltParam, Type, conversion_rank, convert_all_ty, convert_ty,
};
pub use wgsl_type_operators::{TypeOperators, type_binary_op, type_unary_op};
pub use wgsl_words::{
    AccessMode, AddressSpace, AssignmentOperator, BinaryOperator, BuiltinValue, DiagnosticSeverity,
    Enumerant, InterpolationSampling, InterpolationType, ShaderStage, UnaryOperator,
};
