//! The parser of WGSL with the imports of WESL: from a text to its syntax tree, or to its first fault.
#![tactic(auto)]

mod error;
pub mod laws;
mod parse;
mod take;
mod text;

pub use parse::{
    check_str, parse_declaration, parse_declaration_kind, parse_directive, parse_expression,
    parse_import, parse_statement, parse_str,
};
pub use text::FromText;
pub use wgsl_token::fault::{Error, ErrorKind, Refusal};
