//! Memory, whose cells hold values, and references, which are places in it.
#![tactic(auto)]

mod inputs;
pub mod laws;
pub mod memory;
mod place;
mod scope;
mod view;

pub use inputs::Inputs;
pub use memory::Memory;
pub use scope::{Keys, Scope, ScopeKind};
pub use wgsl_instance::{Instance, RefInstance, Step};
