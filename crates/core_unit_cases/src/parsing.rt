//! Tokens, and what trees print.

use core_syntax::TranslationUnit;
use std::alloc::{AllocError, Global};
use std::fmt::{Display, Write};
use wgsl_lex::{is_blankspace, is_line_break, lex};
use wgsl_token::{SpannedToken, Token};

/// Whether each character is one of a kind.
pub fn told(alloc: Global, call: &str, text: &str) -> Result<String, AllocError> {
    let mut all = true;
    for c in text.chars() {
        all = all
            && if call == "is_blankspace" {
                is_blankspace(c)
            } else {
                is_line_break(c)
            };
    }
    format!(in alloc; "{all}")
}

fn push<T: Display>(
    all: &mut String,
    before: &str,
    shown: &T,
    after: &str,
) -> Result<(), AllocError> {
    write!(all, "{before}{shown}{after}")?;
    Ok(())
}

/// Adds a token's sign, word or number.
fn push_token(all: &mut String, token: &Token) -> Result<(), AllocError> {
    match token {
        Token::Fixed(fixed) => push(all, " `", fixed, "`"),
        Token::Identifier(word) => push(all, " name ", word, ""),
        Token::Reserved(word) => push(all, " reserved ", word, ""),
        Token::AbstractInt(number) => push(all, " ", number, ""),
        Token::I32(number) => push(all, " ", number, "i"),
        Token::U32(number) => push(all, " ", number, "u"),
        Token::AbstractFloat(spelled) => push(all, " ", spelled, ""),
        Token::F32(spelled) => push(all, " ", spelled, "f"),
        Token::F16(spelled) => push(all, " ", spelled, "h"),
        Token::Invalid => all.push_str(" invalid"),
    }
}

/// Adds the tokens, each with its place.
fn push_tokens(all: &mut String, tokens: &[SpannedToken]) -> Result<(), AllocError> {
    for token in tokens {
        push_token(all, &token.token)?;
        write!(all, " {}..{}", token.span.start, token.span.end)?;
    }
    Ok(())
}

fn shown_tokens(alloc: Global, tokens: &[SpannedToken]) -> Result<String, AllocError> {
    let mut all = String::new(alloc);
    push_tokens(&mut all, tokens)?;
    Ok(all)
}

pub fn tokens(alloc: Global, text: &str) -> Result<String, AllocError> {
    let tokens = lex(alloc, text)?;
    shown_tokens(alloc, tokens.as_slice())
}

/// Adds a place from what `Debug` has written of it.
fn push_place(all: &mut String, written: &str) -> Result<(), AllocError> {
    let (place, _) = written.split_once(" }").unwrap_or(("", ""));
    let (start, end) = place.split_once(", end: ").unwrap_or(("", ""));
    write!(all, " {start}..{end}")?;
    Ok(())
}

/// Adds the places in a tree that `Debug` has written: each one after those of its parts.
fn push_places(all: &mut String, tree: &str) -> Result<(), AllocError> {
    let mut parts = tree.split("Span { start: ");
    parts.next();
    for part in parts {
        push_place(all, part)?;
    }
    Ok(())
}

fn places_of(alloc: Global, tree: &str) -> Result<String, AllocError> {
    let mut all = String::new(alloc);
    push_places(&mut all, tree)?;
    Ok(all)
}

/// The places in a tree.
pub fn places(alloc: Global, unit: &TranslationUnit) -> Result<String, AllocError> {
    let tree = format!(in alloc; "{unit:?}")?;
    places_of(alloc, tree.as_str())
}
