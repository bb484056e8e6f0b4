//! Names of the linked unit for the names that occur in modules.
#![tactic(auto)]

mod naming;

pub use naming::{ModuleNaming, held_name, printed};
