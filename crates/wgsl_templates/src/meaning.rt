//! The tokens of WGSL texts with their template lists (WGSL, "Template Lists"): what they are, and laws of them.

mod kind;
pub mod laws;
mod token;

pub use kind::Kind;
pub use token::{Bracket, SpannedTemplateToken, TemplateToken};
