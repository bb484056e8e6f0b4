//! Values of all types.
#![tactic(auto)]

mod alike;
mod convert;
mod copy;
pub mod laws;
mod part;
pub mod selector;
pub mod tree;
mod typed;
mod zero;

pub use convert::{scalar_of, unsupported};
pub use tree::{
    ArrayInstance, ArrayInstanceOf, Instance, PtrInstance, RefInstance, Step, StructInstance,
    StructInstanceOf, VecInstance,
};
