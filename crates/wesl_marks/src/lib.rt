//! The marks of a tree, in the order of its text, and the places of a module.
#![tactic(auto)]

mod declarations;
mod expressions;
mod places;
mod statements;

pub use declarations::mark_declaration;
pub use places::{mark_directive, mark_unit};
pub use wesl_mark::{Kind, Place};
