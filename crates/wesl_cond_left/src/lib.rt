//! Whether a module has a condition anywhere (WESL, "Conditional Translation"): also where none can be decided, as on the body of a function.
#![tactic(auto)]

mod attributes;
mod statements;
mod unit;

pub use unit::has_conditions;
