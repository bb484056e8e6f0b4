//! What linking a package means, over the whole language: the outline of a module's tree, what is loaded and held, the one unit that it is
//! linked into, its first name that is read otherwise than meant, and its first fault. It stands in `specs/`; beside laws and examples this
//! crate has no code.
#![tactic(auto)]

pub mod laws;
