//! The first fault of a text, how it is told, and why a tree has no text.

pub use crate::errors::{ErrorWithSource, WithSource};
pub use wgsl_check_unit::Unprintable;
pub use wgsl_parser::{Error, ErrorKind, Refusal};
