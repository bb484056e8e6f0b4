//! Tokens of WGSL texts, and the faults of a text.
#![tactic(auto)]

mod error;
pub mod fault;
mod token;

pub use error::{Error, ErrorKind};
pub use token::{Fixed, SpannedToken, Token};
pub use wgsl_path::{Items, Span, Text};
