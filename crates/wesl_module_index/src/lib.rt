//! The tables of loaded modules: which names a module declares and imports, and which names its declarations use. They own no trees.
#![tactic(auto)]

mod error;
mod imports;
mod module;
mod modules;
mod target;
mod uses;

pub use error::ImportError;
pub use module::{Meaning, Module, ReferenceTarget, kept_missing};
pub use modules::{DeclarationId, Modules};
pub use target::{ImportItem, Target};
