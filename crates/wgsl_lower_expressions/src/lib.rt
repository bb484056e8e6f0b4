//! Expressions and types with their constant parts written as values, in place.
#![tactic(auto)]

mod folding;
mod replacing;

pub use folding::{
    EvalError, Evaluator, Fault, Stop, declare, fold, fold_as, fold_attributes, fold_call,
    fold_declaration, fold_maybe, fold_maybe_type, fold_place, fold_type, returned_conversion,
    type_of_written,
};
pub use replacing::{clear, clear_block};
