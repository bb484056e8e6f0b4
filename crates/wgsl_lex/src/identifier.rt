//! Texts that are identifiers.

ghost use Rattle.std.specs.Prelude.{◌≡◌, ◌∷◌, IfOk};
ghost use Rattle.std.specs.List.{list_all};
ghost use Rattle.unicode_ident.specs.Ident.{is_xid_continue};
ghost use Rattle.wgsl_lex.specs.Tokens.{is_word};
ghost use Rattle.wgsl_lex.specs.Identifiers.{is_identifier};

use crate::word::word_token;
use std::alloc::{AllocError, Global};
use unicode_ident::{is_xid_continue, is_xid_start};
use wgsl_token::Token;

/// Whether a text is one identifier (WGSL, "Identifiers"): a word that is no keyword and is not reserved.
pub fn is_identifier(alloc: Global, name: &str) -> Result<bool, AllocError>
    ensures { IfOk result (λ b. b ≡ is_identifier name.now) }
{
    let characters: Vec<char> = name.chars().collect(alloc)?;
    let Some((first, behind)) = characters.as_slice().split_first() else {
        return Ok(false);
    };
    if !is_word(*first, behind) {
        return Ok(false);
    }
    if let Token::Identifier(found) = word_token(alloc, *first, behind)? {
        return Ok(found.as_str() == name);
    }
    Ok(false)
}

/// Whether a character and those behind it are a word.
#[tactic(auto, using(crate::proofs::Identifiers::longer_word))]
fn is_word(first: char, behind: &[char]) -> bool
    ensures { result ≡ is_word (first ∷ behind.now) }
{
    if behind.is_empty() {
        return is_xid_start(first);
    }
    (is_xid_start(first) | (first == '_')) && all_continue(behind)
}

/// Whether all these characters continue a word.
fn all_continue(characters: &[char]) -> bool
    ensures { result ≡ list_all is_xid_continue characters.now }
{
    characters
        .iter()
        .all(|character| is_xid_continue(*character))
}
