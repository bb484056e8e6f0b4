//! Conditions among the attributes of an item (WESL, "Conditional Translation"): what becomes of the item, and its first error, by what is
//! known of its chain.
#![tactic(auto)]

mod check;
mod kind;
mod settle;

pub use check::Check;
pub use kind::start;
pub use settle::settle_attributes;
