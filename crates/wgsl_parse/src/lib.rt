//! The parser of WGSL with the imports and conditions of WESL, for formatters and editors: tokens, trees, their text, and faults. It passes
//! on what users call of the crates below, and has iterators over tokens and errors with their text.
#![tactic(auto)]

pub mod error;
mod errors;
mod iterator;
mod kinds;
pub mod lexer;
pub mod parser;
mod snippet;
pub mod span;

pub use error::{Error, ErrorKind, ErrorWithSource, Refusal, Unprintable, WithSource};
pub use iterator::recognize_template_list;
pub use lexer::{Fixed, Lexer, Token, TokenIterator, TokenKinds};
pub use parser::{FromText, check_unit, parse_str};
pub use snippet::Snippet;
pub use wgsl_guard::guard_templates;
pub use wgsl_syntax as syntax;
