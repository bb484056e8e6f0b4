//! Units, the trees of `core_syntax`, among the trees of the whole language; and whether a unit has nothing but the part of the language that
//! `link` and `compile` read.
#![tactic(auto)]

mod declarations;
mod error;
mod expressions;
mod in_core;
pub mod laws;

pub use declarations::narrow;
pub use error::NarrowError;
pub use in_core::is_in_core;
