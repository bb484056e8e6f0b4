//! Units of the part of the language that `link` and `compile` read as modules of the whole language.
#![tactic(auto)]

mod declarations;
mod expressions;

pub use core_narrowing::{NarrowError, is_in_core, narrow};
pub use declarations::widen;
