//! Texts.

ghost use Rattle.std.specs.Prelude.{◌≡◌, ◌≤◌, ◌∷◌, ◌==◌, ◌&&◌, IfOk, length};
ghost use Rattle.wgsl_templates.specs.Tokens.{IsLexed};
ghost use Rattle.wgsl_templates.specs.Starts.{StartsList, TextStartsList, IsLessFirst};

use crate::meaning::SpannedTemplateToken;
use crate::opens_list;
use crate::reading::pieces::TextPieces;
use std::alloc::{AllocError, Global};
use wgsl_base::{Items, Queue, QueueWriter};
use wgsl_lex::first_piece;

/// The tokens of a text (WGSL, "Textual Structure" and "Template Lists"), each with its place in bytes. What is no token is an
/// invalid token. Only memory can fail.
pub fn lex(alloc: Global, text: &str) -> Result<Items<SpannedTemplateToken>, AllocError>
    ensures { IfOk result (IsLexed text.now) }
{
    let pieces = TextPieces { alloc };
    crate::lex(alloc, &pieces, text, Items::new(alloc))
}

/// The same tokens, and how many entries the table has by which the template lists were told: at most one for each byte of the text.
pub(crate) fn lex_counted(
    alloc: Global,
    text: &str,
) -> Result<(Items<SpannedTemplateToken>, usize), AllocError>
    ensures tokens { IfOk result (λ lexed. IsLexed text.now lexed.0) }
    ensures entries { IfOk result (λ lexed. lexed.1 ≤ length text.now) }
{
    let pieces = TextPieces { alloc };
    crate::lex_counted(alloc, &pieces, text, Items::new(alloc))
}

/// The same tokens as a queue, which gives memory back as they are taken from it.
pub fn lex_queue(alloc: Global, text: &str) -> Result<Queue<SpannedTemplateToken>, AllocError>
    ensures { IfOk result (IsLexed text.now) }
{
    let pieces = TextPieces { alloc };
    let empty = QueueWriter::new(alloc);
    let tokens = crate::lex(alloc, &pieces, text, empty)?;
    tokens.into_queue()
}

/// Whether a text begins with a `<` that opens a template list behind a word. Only memory can fail.
pub fn recognize_template_list(alloc: Global, text: &str) -> Result<bool, AllocError>
    ensures { IfOk result (TextStartsList text.now) }
{
    let characters: Vec<char> = text.chars().collect(alloc)?;
    starts_list(alloc, characters.as_slice())
}

/// The same, of a text's characters.
fn starts_list(alloc: Global, characters: &[char]) -> Result<bool, AllocError>
    ensures { IfOk result (StartsList characters.now) }
{
    let Some((first, behind)) = characters.split_first() else {
        return Ok(false);
    };
    if !begins_with_less(alloc, characters, *first, behind)? {
        return Ok(false);
    }
    let pieces = TextPieces { alloc };
    opens_list(alloc, &pieces, behind)
}

/// Whether `<` alone stands at the front of some characters: of the first one, and what is behind it.
fn begins_with_less(
    alloc: Global,
    characters: &[char],
    first: char,
    behind: &[char],
) -> Result<bool, AllocError>
    requires { characters.now ≡ first ∷ behind.now }
    ensures { IfOk result (IsLessFirst (first ∷ behind.now)) }
{
    let piece = first_piece(alloc, characters, first, behind)?;
    Ok(is_less(first, piece.length))
}

/// Whether so many characters are `<` alone.
fn is_less(first: char, count: usize) -> bool
    ensures { result ≡ ((first == 60) && (count == 1)) }
{
    first == '<' && count == 1
}
