//! Places in a text, by its lines.

ghost use Rattle.std.specs.Prelude.{◌≡◌, ◌∷◌, [], ◌+◌, ◌<◌, ◌^◌, length, MatchOption};
ghost use Rattle.std.specs.Char.{len_utf8};
ghost use Rattle.std.specs.Str.{chars};
ghost use Rattle.wgsl_parse.specs.Places.{begins_with_feed, ends_line, next, place_at};
ghost use Rattle.wgsl_parse.specs.Points.{place_of};

use wgsl_lex::is_line_break;

/// A place in a text: how many lines end before it, and how many characters of its line and how many bytes stand before it; the text
/// from the beginning of its line on, and from the place on.
#[derive(Clone, Copy)]
pub(crate) struct Place<'a> {
    pub(crate) line: usize,
    pub(crate) column: usize,
    pub(crate) offset: usize,
    pub(crate) from: &'a str,
    pub(crate) rest: &'a str,
}

/// The first character of a text, and the text behind it.
pub(crate) fn split_first(text: &str) -> Option<(char, &str)>
    ensures { MatchOption result (chars text.now ≡ []) (λ x. chars text.now ≡ x.0 ∷ chars x.1.now) }
{
    let mut characters = text.chars();
    let first = characters.next()?;
    Some((first, characters.as_str()))
}

fn begins_with_feed(text: &str) -> bool
    ensures { result ≡ begins_with_feed (chars text.now) }
{
    match split_first(text) {
        Some((first, _)) => first == '\n',
        None => false,
    }
}

/// Whether a character ends a line, before this text.
fn ends_line(character: char, behind: &str) -> bool
    ensures { result ≡ ends_line character (chars behind.now) }
{
    if !is_line_break(character) {
        return false;
    }
    character != '\r' || !begins_with_feed(behind)
}

/// One character on.
fn next<'a>(place: Place<'a>, character: char, behind: &'a str) -> Place<'a>
    requires line { place.line + 1 < 2 ^ 64 }
    requires column { place.column + 1 < 2 ^ 64 }
    requires offset { place.offset + len_utf8 character < 2 ^ 64 }
    ensures { place_of result ≡ next (place_of place.entry) character (chars behind.now) }
{
    let offset = place.offset + character.len_utf8();
    if ends_line(character, behind) {
        Place {
            line: place.line + 1,
            column: 0,
            offset,
            from: behind,
            rest: behind,
        }
    } else {
        Place {
            line: place.line,
            column: place.column + 1,
            offset,
            from: place.from,
            rest: behind,
        }
    }
}

/// The place of a byte, or where the text ends, or the character that the byte is within begins.
pub(crate) fn place_at(start: usize, text: &str) -> Place<'_>
    ensures { place_of result ≡ place_at start (chars text.now) }
{
    let mut place = Place {
        line: 0,
        column: 0,
        offset: 0,
        from: text,
        rest: text,
    };
    let mut left = start;
    while let Some((character, behind)) = split_first(place.rest) {
        let width = character.len_utf8();
        if left < width {
            break;
        }
        left -= width;
        place = next(place, character, behind);
    }
    place
}
