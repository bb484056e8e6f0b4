//! Places in a text, identifiers, and the paths of modules.
#![tactic(auto)]

mod equality;
mod ident;
mod joining;
pub mod laws;
mod path;
mod reading;
mod span;

pub use ident::Ident;
pub use path::{ModulePath, PathOrigin};
pub use reading::ModulePathParseError;
pub use span::{Span, Spanned};
pub use wgsl_base::{Boxed, CloneIn, FromIn, Items, Text, both, three};
