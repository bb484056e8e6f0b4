//! Feature flags fixed ahead in the text of a module (WESL, "Conditional Translation").
#![tactic(auto)]

mod error;
mod print;
mod text;

pub use error::PrecompileError;
pub use text::precompile;
pub use wgsl_check_unit::{Unprintable, check_unit, parse_str};
