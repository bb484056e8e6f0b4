//! What stands first.

ghost use Rattle.std.specs.Prelude.{◌≡◌, ◌≤◌, ◌<◌, ◌+◌, ◌∷◌, ◌==◌, ◌&&◌, ℕ, length, reverse, IfOk, IfSome, Some, None};
ghost use Rattle.wgsl_lex.specs.Pieces.{StandsFirst, IsShortWord};
ghost use Rattle.wgsl_templates.specs.Tokens as tokens;
ghost use Rattle.wgsl_templates.specs.Steps.{StandsHere, state};
ghost use Rattle.wgsl_templates.specs.Levels.{IsTable};

use crate::entry::Entry;
use crate::meaning::{Bracket, TemplateToken};
use std::alloc::{AllocError, Global};
use wgsl_lex::{
    Piece, ShortWord, is_blankspace, short_float, short_number, short_word, symbol_alone,
};
use wgsl_token::{Fixed, Token};

/// Who knows what stands first.
pub trait Pieces {
    /// What stands at the front of some characters: of the first one, and what is behind it. Only memory can fail.
    fn first_piece(
        &self,
        characters: &[char],
        first: char,
        behind: &[char],
    ) -> Result<Piece, AllocError>
        requires { characters.now ≡ first ∷ behind.now }
        ensures within { IfOk result (λ piece. piece.length ≤ length behind.now + 1) }
        ensures first { IfOk result (λ piece. StandsFirst (first ∷ behind.now) piece.length piece.token) };
}

/// What stands first where template lists are told.
#[derive(Drop)]
pub(crate) struct TemplatePiece {
    /// How many characters it has.
    pub(crate) length: usize,
    /// Its token, unless it is blankspace or a comment.
    pub(crate) token: Option<TemplateToken>,
}

/// The number in decimal that stands first, where it is found at once.
#[inline(always)]
fn short_digits(
    alloc: Global,
    first: char,
    behind: &[char],
) -> Result<Option<ShortWord>, AllocError>
    ensures { IfOk result (λ found. IfSome found (IsShortWord first behind.now)) }
{
    if !first.is_ascii_digit() {
        return Ok(None);
    }
    if let Some(number) = short_number(first, behind) {
        return Ok(Some(number));
    }
    short_float(alloc, first, behind)
}

/// What stands at the front of some characters, behind a word or not, where these brackets are open, the last one at the end.
#[inline(always)]
pub(crate) fn next<P: Pieces>(
    alloc: Global,
    pieces: &P,
    characters: &[char],
    first: char,
    behind: &[char],
    after_word: bool,
    opened: &[Bracket],
    table: &[Entry],
) -> Result<TemplatePiece, AllocError>
    requires whole { characters.now ≡ first ∷ behind.now }
    requires table { IsTable (first ∷ behind.now) table.now }
    requires covered { length behind.now < length table.now }
    ensures within { IfOk result (λ piece. piece.length ≤ length behind.now + 1) }
    ensures first { IfOk result (λ piece. (at : ℕ) → StandsHere (state at after_word opened.now) (first ∷ behind.now) piece.length piece.token) }
{
    if let Some(number) = short_digits(alloc, first, behind)? {
        return Ok(TemplatePiece {
            length: number.length,
            token: Some(TemplateToken::Plain(number.token)),
        });
    }
    let Piece { length, token } = pieces.first_piece(characters, first, behind)?;
    let Some(token) = token else {
        return Ok(TemplatePiece {
            length,
            token: None,
        });
    };
    Ok(told(first, behind, length, token, after_word, opened, table))
}

/// The same, where blanks, short words and lone symbols are told first.
#[inline(always)]
pub(crate) fn next_at_once<P: Pieces>(
    alloc: Global,
    pieces: &P,
    characters: &[char],
    first: char,
    behind: &[char],
    after_word: bool,
    opened: &[Bracket],
    table: &[Entry],
) -> Result<TemplatePiece, AllocError>
    requires whole { characters.now ≡ first ∷ behind.now }
    requires table { IsTable (first ∷ behind.now) table.now }
    requires covered { length behind.now < length table.now }
    ensures within { IfOk result (λ piece. piece.length ≤ length behind.now + 1) }
    ensures first { IfOk result (λ piece. (at : ℕ) → StandsHere (state at after_word opened.now) (first ∷ behind.now) piece.length piece.token) }
{
    if is_blankspace(first) {
        return Ok(TemplatePiece {
            length: 1,
            token: None,
        });
    }
    if let Some(ShortWord { length, token }) = short_word(alloc, first, behind)? {
        let token = Some(TemplateToken::Plain(token));
        return Ok(TemplatePiece { length, token });
    }
    if let Some(fixed) = symbol_alone(first, behind) {
        let token = told_symbol(first, behind, fixed, after_word, opened, table);
        return Ok(TemplatePiece {
            length: 1,
            token: Some(token),
        });
    }
    next(
        alloc, pieces, characters, first, behind, after_word, opened, table,
    )
}

/// A token with what it is where it stands.
#[inline(always)]
fn told(
    first: char,
    behind: &[char],
    count: usize,
    token: Token,
    after_word: bool,
    opened: &[Bracket],
    table: &[Entry],
) -> TemplatePiece
    requires table { IsTable (first ∷ behind.now) table.now }
    requires covered { length behind.now < length table.now }
    requires within { count ≤ length behind.now + 1 }
    requires first { StandsFirst (first ∷ behind.now) count (Some token) }
    ensures within { result.length ≤ length behind.now + 1 }
    ensures first { (at : ℕ) → StandsHere (state at after_word opened.now) (first ∷ behind.now) result.length result.token }
{
    if closes(first, opened) {
        return TemplatePiece {
            length: 1,
            token: Some(TemplateToken::TemplateArgsEnd),
        };
    }
    if is_asked(first, count, after_word) {
        return TemplatePiece {
            length: count,
            token: Some(less_or_start(table[behind.len()].end.is_some(), token)),
        };
    }
    TemplatePiece {
        length: count,
        token: Some(TemplateToken::Plain(token)),
    }
}

/// A symbol of one character with what it is where it stands.
#[inline(always)]
pub(crate) fn told_symbol(
    first: char,
    behind: &[char],
    fixed: Fixed,
    after_word: bool,
    opened: &[Bracket],
    table: &[Entry],
) -> TemplateToken
    requires table { IsTable (first ∷ behind.now) table.now }
    requires covered { length behind.now < length table.now }
    requires first { StandsFirst (first ∷ behind.now) 1 (Some (Token.Fixed fixed)) }
    ensures { (at : ℕ) → StandsHere (state at after_word opened.now) (first ∷ behind.now) 1 (Some result) }
{
    if closes(first, opened) {
        return TemplateToken::TemplateArgsEnd;
    }
    if is_asked(first, 1, after_word) {
        return less_or_start(table[behind.len()].end.is_some(), Token::Fixed(fixed));
    }
    TemplateToken::Plain(Token::Fixed(fixed))
}

/// Whether a template list ends here.
fn closes(first: char, opened: &[Bracket]) -> bool
    ensures { result ≡ (tokens.is_in_list (reverse opened.now) && (first == 62)) }
{
    is_in_list(opened) && first == '>'
}

/// Whether a template list may begin here.
fn is_asked(first: char, count: usize, after_word: bool) -> bool
    ensures { result ≡ (after_word && ((first == 60) && (count == 1))) }
{
    after_word && first == '<' && count == 1
}

fn less_or_start(opens: bool, token: Token) -> TemplateToken
    ensures { result ≡ tokens.less_or_start opens token }
{
    if opens {
        TemplateToken::TemplateArgsStart
    } else {
        TemplateToken::Plain(token)
    }
}

/// Whether the last one is a template list.
fn is_in_list(opened: &[Bracket]) -> bool
    ensures { result ≡ tokens.is_in_list (reverse opened.now) }
{
    matches!(opened.last(), Some(Bracket::TemplateList))
}
