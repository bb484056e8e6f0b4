//! The tokens of a text.

ghost use Rattle.std.specs.Prelude.{◌≡◌, ◌≤◌, ◌<◌, ◌^◌, ◌+◌, ◌∷◌, length, None, IfOk};
ghost use Rattle.wgsl_lex.specs.Tokens.{size, IsLexed};
ghost use Rattle.wgsl_lex.specs.Pieces.{StandsFirst};

use crate::number::{number, opens_number};
use crate::piece::Piece;
use crate::short::word;
use crate::symbol::symbol;
use crate::trivia::{comment_length, is_blankspace};
use crate::word::begins_word;
use std::alloc::{AllocError, Global};
use wgsl_token::{Items, Span, SpannedToken};

/// The tokens of a text (WGSL, "Textual Structure"), each with its place in bytes: at every place the longest one, with
/// blankspace and comments left out. What is no token is an invalid token. Only memory can fail.
pub fn lex(alloc: Global, text: &str) -> Result<Items<SpannedToken>, AllocError>
    ensures { IfOk result (IsLexed text.now) }
{
    let characters: Vec<char> = text.chars().collect(alloc)?;
    let mut tokens = Items::new(alloc);
    let mut rest = characters.as_slice();
    let mut start = 0;
    while let Some((first, behind)) = rest.split_first() {
        let Piece { length, token } = first_piece(alloc, rest, *first, behind)?;
        let (front, back) = rest.split_at(length);
        let end = start + size_of(front);
        if let Some(token) = token {
            let span = Span { start, end };
            tokens.push(SpannedToken { token, span })?;
        }
        rest = back;
        start = end;
    }
    Ok(tokens)
}

/// What stands at the front of some characters: of the first one, and what is behind it.
pub fn first_piece(
    alloc: Global,
    characters: &[char],
    first: char,
    behind: &[char],
) -> Result<Piece, AllocError>
    requires { characters.now ≡ first ∷ behind.now }
    ensures within { IfOk result (λ piece. piece.length ≤ length behind.now + 1) }
    ensures first { IfOk result (λ piece. StandsFirst (first ∷ behind.now) piece.length piece.token) }
{
    if first.is_ascii_alphabetic() {
        return word(alloc, first, behind);
    }
    if is_blankspace(first) {
        return Ok(trivia(1));
    }
    if let Some(length) = comment_length(first, behind) {
        return Ok(trivia(length));
    }
    if begins_word(first, behind) {
        return word(alloc, first, behind);
    }
    if opens_number(first, behind) {
        return number(alloc, characters, first, behind);
    }
    Ok(symbol(first, behind))
}

fn trivia(length: usize) -> Piece
    ensures { result ≡ record { length = length; token = None } }
{
    Piece {
        length,
        token: None,
    }
}

/// How many bytes some characters have in UTF-8.
fn size_of(characters: &[char]) -> usize
    requires { size characters.now < 2 ^ 64 }
    ensures { result ≡ size characters.now }
{
    let mut size = 0;
    for character in characters {
        size += character.len_utf8();
    }
    size
}
