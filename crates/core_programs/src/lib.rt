//! What programs mean: values, types, calls, the start of a program and its runs, over memory and with a limit of steps; and laws of it.
//! Beside laws it has no code.
#![tactic(auto)]

pub mod laws;
