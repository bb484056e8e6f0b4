//! Places in a text, in bytes, and nodes with their places.

pub use wgsl_syntax::{Span, Spanned};
