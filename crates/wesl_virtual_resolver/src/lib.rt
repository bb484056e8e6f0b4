//! Modules whose texts are handed in.
#![tactic(auto)]

mod fault;
mod resolver;

pub use resolver::VirtualResolver;
