//! Lowering of functions and units: constant expressions are written as their values, consts go, and bodies that do nothing are cleared.
#![tactic(auto)]

mod function;
pub mod laws;
mod unit;

pub use core_eval::{DeclarationFault, Fault, NameFault, UnitError};
pub use core_lower_expressions::{lowered, to_expr};
pub use function::lowered_function;
pub use unit::lower;
