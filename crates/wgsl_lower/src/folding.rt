//! Statements in place: expressions are folded in document order, consts and assertions go, and so do calls that do nothing.

mod blocks;
mod calls;
mod simple;

pub use blocks::{fold_block, fold_statements};
pub use wgsl_lower_expressions::{
    EvalError, Evaluator, Fault, Stop, fold_attributes, fold_declaration, fold_maybe_type,
    fold_type, type_of_written,
};
