//! The operators on values at each stage.
#![tactic(auto)]

mod binary;
pub mod constructors;
pub mod laws;
mod named;
mod unary;

pub use binary::call_binary_op;
pub use constructors::{array, bool, call_ctor, i32, struct_ctor, u32, vec};
pub use named::{
    op_add, op_and, op_bitand, op_bitnot, op_bitor, op_bitxor, op_div, op_eq, op_ge, op_gt, op_le,
    op_lt, op_mul, op_ne, op_neg, op_not, op_or, op_rem, op_shl, op_shr, op_sub,
};
pub use unary::call_unary_op;
