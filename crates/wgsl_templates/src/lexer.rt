//! The tokens of a text in which template lists are told.

ghost use Rattle.std.specs.Prelude.{◌≡◌, ◌<◌, ◌≤◌, ◌^◌, ◌+◌, ◌∷◌, ◌++◌, [], length, reverse, IfOk, true};
ghost use Rattle.std.specs.Str.{chars};
ghost use Rattle.wgsl_lex.specs.Tokens.{size};
ghost use Rattle.wgsl_templates.specs.Tokens.{start, is_word, behind, Lexes, IsLexed};
ghost use Rattle.wgsl_templates.specs.Levels.{IsTable};

use crate::characters::characters_of;
use crate::entry::Entry;
use crate::list::TokenList;
use crate::meaning::{Bracket, SpannedTemplateToken, TemplateToken};
use crate::piece::{Pieces, TemplatePiece, next, told_symbol};
use crate::table::table_of;
use std::alloc::{AllocError, Global};
use wgsl_lex::{is_blankspace, short_word, symbol_alone};
use wgsl_path::Span;
use wgsl_token::{Fixed, Token};

/// The tokens of a text (WGSL, "Textual Structure" and "Template Lists"), each with its place in bytes, put into a list that is
/// empty. Only memory can fail.
pub fn lex<P: Pieces, L: TokenList>(
    alloc: Global,
    pieces: &P,
    text: &str,
    tokens: L,
) -> Result<L, AllocError>
    requires { L.listed tokens ≡ [] }
    ensures { IfOk result (λ lexed. IsLexed text.now (L.listed lexed)) }
{
    let (lexed, _) = lex_counted(alloc, pieces, text, tokens)?;
    Ok(lexed)
}

/// The same, and how many entries the table has by which the template lists were told: at most one for each byte of the text.
pub fn lex_counted<P: Pieces, L: TokenList>(
    alloc: Global,
    pieces: &P,
    text: &str,
    tokens: L,
) -> Result<(L, usize), AllocError>
    requires { L.listed tokens ≡ [] }
    ensures tokens { IfOk result (λ lexed. IsLexed text.now (L.listed lexed.0)) }
    ensures entries { IfOk result (λ lexed. lexed.1 ≤ length text.now) }
{
    let characters = characters_of(alloc, text)?;
    let table = table_of(alloc, pieces, characters.as_slice())?;
    let one_byte_each = characters.len() == text.len();
    let lexed = lex_characters(
        alloc,
        pieces,
        characters.as_slice(),
        one_byte_each,
        table.as_slice(),
        tokens,
    )?;
    Ok((lexed, table.len()))
}

/// The tokens of some characters, which may have one byte each, by the table of their template lists.
fn lex_characters<P: Pieces, L: TokenList>(
    alloc: Global,
    pieces: &P,
    characters: &[char],
    one_byte_each: bool,
    table: &[Entry],
    tokens: L,
) -> Result<L, AllocError>
    requires empty { L.listed tokens ≡ [] }
    requires table { IsTable characters.now table.now }
    requires covered { length characters.now ≤ length table.now }
    requires bounded { size characters.now < 2 ^ 64 }
    requires bytes { one_byte_each ≡ true → size characters.now ≡ length characters.now }
    ensures { IfOk result (λ lexed. Lexes start characters.now (L.listed lexed)) }
{
    let mut tokens = tokens;
    let mut opened: Vec<Bracket> = Vec::new(alloc);
    let mut rest = characters;
    let mut after_word = false;
    let mut at = 0;
    while let Some((first, behind)) = rest.split_first() {
        if let Some(word) = short_word(alloc, *first, behind)? {
            let (_, back) = rest.split_at(word.length);
            let token = TemplateToken::Plain(word.token);
            after_word = push_token(&mut tokens, &mut opened, token, at, word.length)?;
            at += word.length;
            rest = back;
            continue;
        }
        if let Some(fixed) = symbol_alone(*first, behind) {
            let list = opened.as_slice();
            let token = told_symbol(*first, behind, fixed, after_word, list, table);
            after_word = push_token(&mut tokens, &mut opened, token, at, 1)?;
            at += 1;
            rest = behind;
            continue;
        }
        if is_blankspace(*first) {
            at += first.len_utf8();
            rest = behind;
            continue;
        }
        let list = opened.as_slice();
        let piece = next(alloc, pieces, rest, *first, behind, after_word, list, table)?;
        let TemplatePiece { length, token } = piece;
        let (front, back) = rest.split_at(length);
        let size = size_in(front, one_byte_each);
        let end = at + size;
        if let Some(token) = token {
            after_word = push_token(&mut tokens, &mut opened, token, at, size)?;
        }
        rest = back;
        at = end;
    }
    Ok(tokens)
}

/// Takes a token of so many bytes that was read. Whether a `<` behind it may open a template list.
#[inline(always)]
fn push_token<L: TokenList>(
    tokens: &mut L,
    opened: &mut Vec<Bracket>,
    token: TemplateToken,
    at: usize,
    size: usize,
) -> Result<bool, AllocError>
    requires { at + size < 2 ^ 64 }
    ensures word { IfOk result (λ word. word ≡ is_word token) }
    ensures taken { IfOk result (λ _. L.listed tokens.new ≡ L.listed tokens.old ++ record { token = token; span = record { start = at; end = at + size } } ∷ []) }
    ensures brackets { IfOk result (λ _. reverse opened.new.items ≡ behind (reverse opened.old.items) token) }
{
    follow(opened, &token)?;
    let word = is_word(&token);
    let span = Span {
        start: at,
        end: at + size,
    };
    tokens.push_token(SpannedTemplateToken { token, span })?;
    Ok(word)
}

/// How many bytes some characters have in UTF-8, which may have one byte each.
fn size_in(characters: &[char], one_byte_each: bool) -> usize
    requires bounded { size characters.now < 2 ^ 64 }
    requires bytes { one_byte_each ≡ true → size characters.now ≡ length characters.now }
    ensures { result ≡ size characters.now }
{
    if one_byte_each {
        characters.len()
    } else {
        size_of(characters)
    }
}

/// How many bytes some characters have in UTF-8.
fn size_of(characters: &[char]) -> usize
    requires { size characters.now < 2 ^ 64 }
    ensures { result ≡ size characters.now }
{
    let mut size = 0;
    for character in characters {
        size += character.len_utf8();
    }
    size
}

/// Whether a `<` behind the token may open a template list.
#[inline(always)]
pub(crate) fn is_word(token: &TemplateToken) -> bool
    ensures { result ≡ is_word token.now }
{
    matches!(
        token,
        TemplateToken::Plain(Token::Identifier(_) | Token::Fixed(Fixed::Var))
    )
}

/// What is open behind a token.
#[inline(always)]
pub(crate) fn follow(opened: &mut Vec<Bracket>, token: &TemplateToken) -> Result<(), AllocError>
    ensures { IfOk result (λ _. reverse opened.new.items ≡ behind (reverse opened.old.items) token.now) }
{
    match token {
        TemplateToken::TemplateArgsStart => opened.push(Bracket::TemplateList)?,
        TemplateToken::TemplateArgsEnd => {
            opened.pop();
        }
        TemplateToken::Plain(Token::Fixed(fixed)) => follow_fixed(opened, *fixed)?,
        _ => {}
    }
    Ok(())
}

/// What is open behind a token of one spelling.
#[inline(always)]
fn follow_fixed(opened: &mut Vec<Bracket>, fixed: Fixed) -> Result<(), AllocError>
    ensures { IfOk result (λ _. reverse opened.new.items ≡ behind (reverse opened.old.items) (TemplateToken.Plain (Token.Fixed fixed))) }
{
    match fixed {
        Fixed::ParenLeft | Fixed::BracketLeft => opened.push(Bracket::Plain)?,
        Fixed::ParenRight | Fixed::BracketRight => {
            opened.pop();
        }
        _ => {}
    }
    Ok(())
}
