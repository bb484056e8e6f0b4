//! What linking keeps: modules mean what the unit that they are linked into means. Each law is the contract of a function that
//! does nothing.
#![tactic(auto)]

pub mod laws;
