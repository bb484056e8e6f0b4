//! What items are called in a linked text, and the map back from there.
#![tactic(auto)]

mod cache;
mod mangler;
mod mapper;
mod maps;
mod simple;

pub use cache::CacheMangler;
pub use mangler::Mangler;
pub use mapper::SourceMapper;
pub use maps::NoSourceMap;
pub use simple::NoMangler;
pub use wesl_resolve::{BasicSourceMap, EscapeMangler, SourceMap};
