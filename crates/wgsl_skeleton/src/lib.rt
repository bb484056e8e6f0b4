//! What is left of a tree for whoever only asks about names and scopes, and which names occur in it. It stands in `specs/`; beside
//! laws this crate has no code.
#![tactic(auto)]

pub mod laws;
