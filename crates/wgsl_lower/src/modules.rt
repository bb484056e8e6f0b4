//! Lowering of whole modules: constant expressions are written as their values, types are written in full, and what only the compiler needs
//! goes.

mod declarations;
mod lowering;
mod source;
mod unit;

pub use lowering::{Refused, lower, lower_owned};
pub use unit::Place;
