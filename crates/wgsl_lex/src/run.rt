//! Runs of characters of one kind.

ghost use Rattle.std.specs.Prelude.{◌≡◌, ◌↔◌, Some, IsTrue, slice_get};
ghost use Rattle.std.specs.Char.{is_ascii_digit, is_ascii_hexdigit};
ghost use Rattle.unicode_ident.specs.Ident.{is_xid_continue};
ghost use Rattle.wgsl_lex.specs.Runs.{IsRun, is_no_line_break};

use crate::trivia::is_line_break;
use unicode_ident::is_xid_continue;

/// How many characters at the front continue a word.
pub(crate) fn word_run(characters: &[char]) -> usize
    ensures { IsRun is_xid_continue characters.now result }
{
    for (count, character) in characters.iter().enumerate() {
        if !is_xid_continue(*character) {
            return count;
        }
    }
    characters.len()
}

/// How many characters stand before the first line break.
pub(crate) fn line_run(characters: &[char]) -> usize
    ensures { IsRun is_no_line_break characters.now result }
{
    for (count, character) in characters.iter().enumerate() {
        if is_line_break(*character) {
            return count;
        }
    }
    characters.len()
}

/// How many characters at the front are decimal digits.
pub(crate) fn decimal_run(characters: &[char]) -> usize
    ensures { IsRun is_ascii_digit characters.now result }
{
    for (count, character) in characters.iter().enumerate() {
        if !character.is_ascii_digit() {
            return count;
        }
    }
    characters.len()
}

/// How many characters at the front are hexadecimal digits.
pub(crate) fn hexadecimal_run(characters: &[char]) -> usize
    ensures { IsRun is_ascii_hexdigit characters.now result }
{
    for (count, character) in characters.iter().enumerate() {
        if !character.is_ascii_hexdigit() {
            return count;
        }
    }
    characters.len()
}

/// Whether this character stands at an index.
pub(crate) fn is_at(characters: &[char], at: usize, character: char) -> bool
    ensures { IsTrue result ↔ (slice_get characters.now at ≡ Some character) }
{
    match characters.get(at) {
        Some(found) => *found == character,
        None => false,
    }
}
