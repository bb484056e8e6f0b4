//! What the names of loaded modules denote.
#![tactic(auto)]

mod denote;
mod ends;

pub use denote::{Denoted, Link, Start, Step, Via, denotation, found_at, start_of};
pub use ends::Ends;
pub use wesl_module_index::{DeclarationId, ImportError, Module, Modules, Target, kept_missing};
