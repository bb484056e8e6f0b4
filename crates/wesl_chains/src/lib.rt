//! What names of modules denote, and what is reached: over outlines of modules, which mention no tree. The definitions stand in
//! `specs/`; beside laws and examples this crate has no code.
#![tactic(auto)]

pub mod laws;
