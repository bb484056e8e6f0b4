//! Constructors: the values of a type that are built of other values.

mod build;
mod call;
pub mod laws;
mod structure;

pub use call::{array, bool, call_ctor, i32, u32, vec};
pub use structure::struct_ctor;
