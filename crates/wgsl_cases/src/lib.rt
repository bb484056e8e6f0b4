//! Answers to cases of types and of the parser.
#![tactic(auto)]

pub mod parser;
pub mod types;
