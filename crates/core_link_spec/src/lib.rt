//! What modules mean to one another: what names denote, what is loaded, what is held, and the one unit that it is linked into.
//! It stands in `specs/`; this crate has no code.
#![tactic(auto)]

pub use wesl_resolve::ResolveError;
