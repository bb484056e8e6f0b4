//! Small owners that contracts see as what they hold, a stack and a queue, and text with a margin.
#![tactic(auto)]

mod indent;
mod items;
mod stack;

pub use indent::Indent;
pub use items::{Boxed, CloneIn, FromIn, Items, OrOutOfMemory, Text, both, three};
pub use stack::{Queue, QueueWriter, Stack};
