//! Loaded modules: what the names of their scopes mean, and what names denote over them.
#![tactic(auto)]

mod denote;
mod error;
mod module;
mod table;
mod target;

pub use denote::{Denoted, Item, Symbol, denotation, item_of};
pub use error::ImportError;
pub use module::{Module, Modules, entry_points};
pub use target::{Meaning, Target};
