//! Values, the memory whose cells hold them, the operators on them and their constructors, and scopes of names. It has no code of its
//! own, and passes on what users call of the crates below.
#![tactic(auto)]

pub use wgsl_instance::{
    ArrayInstance, Instance, PtrInstance, RefInstance, Step, StructInstance, VecInstance, laws,
};
pub use wgsl_instance_operators::constructors::laws as constructor_laws;
pub use wgsl_instance_operators::{
    array, bool, call_binary_op, call_ctor, call_unary_op, i32, laws as operator_laws, op_add,
    op_and, op_bitand, op_bitnot, op_bitor, op_bitxor, op_div, op_eq, op_ge, op_gt, op_le, op_lt,
    op_mul, op_ne, op_neg, op_not, op_or, op_rem, op_shl, op_shr, op_sub, struct_ctor, u32, vec,
};
pub use wgsl_memory::{Keys, Memory, Scope, ScopeKind, laws as memory_laws};
