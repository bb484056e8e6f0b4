//! What kinds of tokens there are: keywords, syntactic tokens, numbers.

mod kinds;

pub use kinds::TokenKinds;
