//! Laws of conditions in modules (WESL, "Conditional Translation"). Beside laws this crate has no code.
#![tactic(auto)]

pub mod laws;
