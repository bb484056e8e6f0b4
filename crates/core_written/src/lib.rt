//! What is written for a value of a scalar, and for a name.
#![tactic(auto)]

mod name;
mod write;

pub use core_eval::{
    EvalError, Scope, call, callee, computed, decides, literal_value, plain_name, values,
};
pub use name::{Reduced, lacks_value, named};
pub use write::to_expr;
