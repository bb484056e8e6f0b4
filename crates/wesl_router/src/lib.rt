//! Resolvers that are mounted under prefixes of paths.
#![tactic(auto)]

mod ask;
mod choice;
pub mod laws;
mod mount;
mod routes;

pub use mount::{Mount, Router};
pub use routes::Routes;
