//! The tokens of WGSL texts with their template lists (WGSL, "Template Lists"), and which texts and tokens begin with one.

pub mod lexer;
pub mod parser;
mod pieces;
mod tokens;

pub use tokens::Lexer;
