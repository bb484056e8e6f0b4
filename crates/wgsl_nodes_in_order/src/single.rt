//! Modules that hold a copy of one declaration or of one node alone.

mod module;
mod placed;

pub use module::{with_declaration, with_node};
