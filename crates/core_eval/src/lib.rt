//! The evaluator of the const stage over a plain unit: values and types of expressions, and the consts at the start.
#![tactic(auto)]

mod error;
mod evaluate;
mod find;
mod literal;
mod scope;
mod start;
mod typing;

pub use core_meaning::{Fault, NameFault};
pub use error::{DeclarationFault, EvalError, UnitError, computed, refused};
pub use evaluate::{call, callee, decides, eval_value, values};
pub use find::{declarations_of, plain_name};
pub use literal::literal_value;
pub use scope::{Declarations, Scope, Values};
pub use start::{Start, start_values};
pub use typing::{const_value, eval_ty, ty_eval_ty};
