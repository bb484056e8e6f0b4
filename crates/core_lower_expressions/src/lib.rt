//! Lowering of expressions: constant expressions are written as their values.
#![tactic(auto)]

mod expression;

pub use core_written::to_expr;
pub use expression::lowered;
