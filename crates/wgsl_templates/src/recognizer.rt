//! Recognizes template lists by the kinds of their tokens (WGSL, "Template Lists" and "Expression Grammar Summary").
//!
//! One loop over the tokens, with a stack of the brackets that are open: an operand is wanted, or one was read, and what was read of
//! each expression says which operators may follow. What each token does is told on its own, too.

mod actions;
mod place;
mod recognize;
mod recognizer;

pub use actions::{action, fresh};
pub use place::{Action, Enclosing, Frame, Place, Progress, Relation, State};
pub use recognize::{Answer, Recognizer};
pub use recognizer::{ListRecognizer, last_place};
