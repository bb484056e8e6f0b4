//! What modules mean by their conditions (WESL, "Conditional Translation"): what a choice of flags makes of them, what features leave of
//! them, and their first error. It stands in `specs/`; the code is what a walk over a list keeps.

mod chain;

pub use chain::Chain;
