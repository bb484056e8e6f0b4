//! Statements without what is never done: the last pass of lowering.

mod statements;
mod unit;

pub use crate::effects::Effects;
pub use statements::prune_block;
pub use unit::prune;
