//! Where modules come from, what their items are called in a linked text, and the map back from there.
#![tactic(auto)]

mod error;
pub mod laws;
mod mangle;
mod resolver;
mod source_map;
mod unmangle;

pub use error::ResolveError;
pub use mangle::EscapeMangler;
pub use resolver::Resolver;
pub use source_map::{BasicSourceMap, SourceMap};
