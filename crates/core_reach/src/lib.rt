//! What the kept names of a root reach: modules are loaded round by round, and what is reached in them is held.
#![tactic(auto)]

mod closing;
mod linking;
mod missing;
mod rounds;

pub use closing::is_held;
pub use core_rename::Naming;
pub use linking::HeldNames;
pub use rounds::{Reached, load_reached};
