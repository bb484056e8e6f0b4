//! What compiling keeps: a run of modules that ends well, ends well in the text that they are compiled to. Each law is the contract
//! of a function that does nothing.
#![tactic(auto)]

pub mod laws;
