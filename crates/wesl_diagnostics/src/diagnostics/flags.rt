//! The flags that conditions name.

use std::alloc::{AllocError, Global};
use wgsl_lex::lex;
use wgsl_token::{Fixed, Token};

/// How far the tokens of a condition were seen.
#[derive(Clone, Copy)]
enum Seen {
    Nothing,
    /// Its `@`.
    At,
    /// Its `@if` or `@elif`.
    Word,
    /// So many of its parentheses are open.
    Inside(usize),
}

/// How far they were seen behind a token.
fn seen_behind(seen: Seen, token: &Token) -> Seen {
    match (seen, token) {
        (Seen::Inside(depth), Token::Fixed(Fixed::ParenLeft)) => Seen::Inside(depth.saturating_add(
            1,
        )),
        (Seen::Inside(depth), Token::Fixed(Fixed::ParenRight)) => {
            if depth > 1 {
                Seen::Inside(depth - 1)
            } else {
                Seen::Nothing
            }
        }
        (Seen::Inside(depth), _) => Seen::Inside(depth),
        (Seen::Word, Token::Fixed(Fixed::ParenLeft)) => Seen::Inside(1),
        (Seen::At, Token::Fixed(Fixed::If)) => Seen::Word,
        (Seen::At, Token::Identifier(word)) if word.as_str() == "elif" => Seen::Word,
        (_, Token::Fixed(Fixed::Attr)) => Seen::At,
        _ => Seen::Nothing,
    }
}

fn is_flag(seen: Seen, token: &Token, flag: &str) -> bool {
    match (seen, token) {
        (Seen::Inside(_), Token::Identifier(name)) => name.as_str() == flag,
        _ => false,
    }
}

/// Whether a condition in a text names a flag. Only memory can fail.
pub fn names_flag(alloc: Global, text: &str, flag: &str) -> Result<bool, AllocError> {
    let tokens = lex(alloc, text)?;
    let mut seen = Seen::Nothing;
    for spanned in tokens.as_slice() {
        if is_flag(seen, &spanned.token, flag) {
            return Ok(true);
        }
        seen = seen_behind(seen, &spanned.token);
    }
    Ok(false)
}
