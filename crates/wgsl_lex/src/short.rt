//! Words, the short ones in ASCII at once.

ghost use Rattle.std.specs.Prelude.{◌≡◌, ◌≤◌, ◌<◌, ◌+◌, ◌∷◌, true, false, length, take, Some, IfOk, IfSome};
ghost use Rattle.std.specs.Str.{IsAscii, encode_utf8_all};
ghost use Rattle.unicode_ident.specs.Ident.{is_xid_continue};
ghost use Rattle.wgsl_lex.specs.Tokens.{is_word, begins_with_two_underscores, token_form};
ghost use Rattle.wgsl_lex.specs.Runs.{IsRun};
ghost use Rattle.wgsl_lex.specs.Pieces.{StandsFirst, IsShortWord, opens_word};

use crate::piece::Piece;
use crate::run::word_run;
use crate::word::{listed, word_token};
use std::alloc::{AllocError, Global};
use std::str;
use wgsl_token::{Text, Token};

/// A word or a number in ASCII.
#[derive(Debug, Drop)]
pub struct ShortWord {
    /// How many characters it has.
    pub length: usize,
    pub token: Token,
}

/// The word that begins with this character.
pub(crate) fn word(alloc: Global, first: char, behind: &[char]) -> Result<Piece, AllocError>
    requires { opens_word first behind.now ≡ true }
    ensures within { IfOk result (λ piece. piece.length ≤ length behind.now + 1) }
    ensures first { IfOk result (λ piece. StandsFirst (first ∷ behind.now) piece.length piece.token) }
{
    if let Some(ShortWord { length, token }) = short_word(alloc, first, behind)? {
        return Ok(Piece {
            length,
            token: Some(token),
        });
    }
    let (rest_of_word, _) = behind.split_at(word_run(behind));
    let token = word_token(alloc, first, rest_of_word)?;
    Ok(Piece {
        length: 1 + rest_of_word.len(),
        token: Some(token),
    })
}

/// The word that begins with this character, if that is a letter and the word is short and in ASCII. Only memory can fail.
#[inline(always)]
pub fn short_word(
    alloc: Global,
    first: char,
    behind: &[char],
) -> Result<Option<ShortWord>, AllocError>
    ensures { IfOk result (λ found. IfSome found (IsShortWord first behind.now)) }
{
    if !first.is_ascii_alphabetic() {
        return Ok(None);
    }
    let mut bytes = [0; 16];
    let Some(count) = spell_word(&mut bytes, first, behind) else {
        return Ok(None);
    };
    let text = ascii_text(&bytes[..count + 1]);
    let (rest_of_word, _) = behind.split_at(count);
    let token = token_of(alloc, first, rest_of_word, text)?;
    Ok(Some(ShortWord {
        length: count + 1,
        token,
    }))
}

/// The text of some bytes in ASCII. They are not looked at again.
#[inline(always)]
fn ascii_text(bytes: &[u8]) -> &str
    requires { IsAscii bytes.now }
    ensures { result.now ≡ bytes.now }
{
    unsafe { str::from_utf8_unchecked(bytes) }
}

/// Writes a word to the front, if it is in ASCII and fits. How many characters it has behind its first.
#[inline(always)]
fn spell_word(bytes: &mut [u8; 16], first: char, behind: &[char]) -> Option<usize>
    ensures run { IfSome result (IsRun is_xid_continue behind.now) }
    ensures within { IfSome result (λ count. count < 16) }
    ensures text { IfSome result (λ count. take (count + 1) bytes.new ≡ encode_utf8_all (first ∷ take count behind.now)) }
    ensures ascii { IfSome result (λ count. IsAscii (take (count + 1) bytes.new)) }
{
    if !first.is_ascii() {
        return None;
    }
    bytes[0] = first as u8;
    for (at, character) in behind.iter().enumerate() {
        if !character.is_ascii() {
            return None;
        }
        if !continues_in_ascii(*character) {
            return Some(at);
        }
        if at == 15 {
            return None;
        }
        bytes[at + 1] = *character as u8;
    }
    Some(behind.len())
}

/// Whether a character in ASCII continues a word.
#[tactic(auto, using(crate::proofs::Letters::ascii_continues))]
#[inline(always)]
fn continues_in_ascii(character: char) -> bool
    requires { character < 128 }
    ensures { result ≡ is_xid_continue character }
{
    character.is_ascii_alphanumeric() || character == '_'
}

/// The token of a word that doesn't begin with two underscores, given by its text too.
#[inline(always)]
fn token_of(alloc: Global, first: char, behind: &[char], text: &str) -> Result<Token, AllocError>
    requires word { is_word (first ∷ behind.now) ≡ true }
    requires plain { begins_with_two_underscores (first ∷ behind.now) ≡ false }
    requires text { text.now ≡ encode_utf8_all (first ∷ behind.now) }
    ensures { IfOk result (λ token. token_form (first ∷ behind.now) ≡ Some token) }
{
    match listed(text) {
        Some(Some(fixed)) => Ok(Token::Fixed(fixed)),
        Some(None) => Ok(Token::Reserved(Text::from_str(alloc, text)?)),
        None => Ok(Token::Identifier(Text::from_str(alloc, text)?)),
    }
}
