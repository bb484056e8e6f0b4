//! The order in which the values of a unit of one module are started: text order, but each after those that it reaches.
#![tactic(auto)]

mod check;
mod index;
pub mod laws;
mod proposal;
mod search;
mod start;

pub use start::start_order;
