//! Expressions, types and attributes in place: what has a const value is written as that value, and types are written in full.

mod attributes;
mod conversions;
mod declarations;
mod expressions;
mod places;
mod spines;
mod types;

pub use attributes::{fold_attributes, fold_custom};
pub use conversions::{conversion, returned_conversion};
pub use declarations::{declare, fold_declaration};
pub use expressions::{fold, fold_as, fold_call, fold_maybe};
pub use places::fold_place;
pub use types::{fold_maybe_type, fold_type, type_of_written, written_type};
pub use wgsl_eval::{EvalError, Evaluator, Fault, Stop};
