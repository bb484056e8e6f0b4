//! The tokens of WGSL texts.
#![tactic(auto)]

mod decimal;
mod float;
mod identifier;
pub mod laws;
mod lexer;
mod number;
mod piece;
mod rows;
mod run;
mod short;
mod symbol;
mod trivia;
mod word;

pub use decimal::{short_float, short_number};
pub use identifier::is_identifier;
pub use lexer::{first_piece, lex};
pub use piece::Piece;
pub use short::{ShortWord, short_word};
pub use symbol::symbol_alone;
pub use trivia::{is_blankspace, is_line_break};
pub use wgsl_token::{Fixed, Span, Token};
