//! Linking: the one unit that holds what is reached from the names that are kept.
#![tactic(auto)]

mod assemble;
mod clash;
mod rounds;

pub use assemble::HeldDeclaration;
pub use core_scopes::ImportError;
pub use rounds::{Resolutions, resolve_lazy};
pub use wesl_resolve::{BasicSourceMap, EscapeMangler, ResolveError, Resolver, SourceMap};
