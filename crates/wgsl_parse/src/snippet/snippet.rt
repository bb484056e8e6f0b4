//! What is shown of a part of a text.

ghost use Rattle.std.specs.Prelude.{◌≡◌, ◌+◌, ◌<◌, replicate};
ghost use Rattle.std.specs.Str.{chars};
ghost use Rattle.std.specs.Fmt.{WritesOnOk};
ghost use Rattle.wgsl_parse.specs.Snippets.{at_least_one, blank_below, blanks_below, line_text, line_with_marks, marked, marks, place_text};
ghost use Rattle.wgsl_parse.specs.Points.{place_of};

use crate::snippet::place::{Place, place_at, split_first};
use std::fmt;
use wgsl_lex::is_line_break;
use wgsl_path::Span;

/// A part of a text. It is shown as its line and column, the line that it starts in, and marks below what of it stands in that line.
#[derive(Clone, Copy)]
pub struct Snippet<'a> {
    pub text: &'a str,
    pub span: Span,
}

/// Writes a text up to its first line break.
fn write_line<W: fmt::Write>(text: &str, f: &mut fmt::Formatter<W>) -> fmt::Result
    ensures { WritesOnOk W.write_str_gives f.old result (line_text (chars text.now)) f.new }
{
    let mut rest = text;
    while let Some((character, behind)) = split_first(rest) {
        if is_line_break(character) {
            break;
        }
        f.write_char(character)?;
        rest = behind;
    }
    Ok(())
}

/// What stands below a character.
fn blank_below(character: char) -> char
    ensures { result ≡ blank_below character }
{
    if character == '\t' { '\t' } else { ' ' }
}

/// Writes what stands below the first characters of a text, so many of them.
fn write_blanks<W: fmt::Write>(count: usize, text: &str, f: &mut fmt::Formatter<W>) -> fmt::Result
    ensures { WritesOnOk W.write_str_gives f.old result (blanks_below count (chars text.now)) f.new }
{
    let mut rest = text;
    let mut left = count;
    while left > 0 {
        let Some((character, behind)) = split_first(rest) else {
            break;
        };
        f.write_char(blank_below(character))?;
        rest = behind;
        left -= 1;
    }
    Ok(())
}

/// How many characters before the first line break end within so many bytes.
fn marked(bytes: usize, text: &str) -> usize
    ensures { result ≡ marked bytes (chars text.now) }
{
    let mut rest = text;
    let mut left = bytes;
    let mut count: usize = 0;
    while let Some((character, behind)) = split_first(rest) {
        let width = character.len_utf8();
        if left < width || is_line_break(character) {
            break;
        }
        left -= width;
        count += 1;
        rest = behind;
    }
    count
}

fn write_marks<W: fmt::Write>(count: usize, f: &mut fmt::Formatter<W>) -> fmt::Result
    ensures { WritesOnOk W.write_str_gives f.old result (replicate count 94) f.new }
{
    for _mark in 0..count {
        f.write_str("^")?;
    }
    Ok(())
}

fn at_least_one(count: usize) -> usize
    ensures { result ≡ at_least_one count }
{
    if count == 0 { 1 } else { count }
}

/// A count that begins with 1.
fn ordinal(count: usize) -> u128
    ensures { result ≡ count + 1 }
{
    count as u128 + 1
}

fn write_place<W: fmt::Write>(place: &Place<'_>, f: &mut fmt::Formatter<W>) -> fmt::Result
    ensures { WritesOnOk W.write_str_gives f.old result (place_text (place_of place.now)) f.new }
{
    let line = ordinal(place.line);
    let column = ordinal(place.column);
    write!(f, "line {line}, column {column}")
}

/// Writes the line of a place, and the marks below it up to a byte.
fn write_line_with_marks<W: fmt::Write>(
    end: usize,
    place: &Place<'_>,
    f: &mut fmt::Formatter<W>,
) -> fmt::Result
    ensures { WritesOnOk W.write_str_gives f.old result (line_with_marks end (place_of place.now)) f.new }
{
    write_line(place.from, f)?;
    f.write_str("\n")?;
    write_blanks(place.column, place.from, f)?;
    let count = marked(end.saturating_sub(place.offset), place.rest);
    write_marks(at_least_one(count), f)
}

impl fmt::Display for Snippet<'_> {
    ghost use Rattle.std.specs.Prelude.{Some};
    ghost use Rattle.wgsl_parse.specs.Snippets.{snippet_text};

    ghost output = { λ x. Some (snippet_text x.text.now x.span) };

    fn fmt<W: fmt::Write>(&self, f: &mut fmt::Formatter<W>) -> fmt::Result {
        let place = place_at(self.span.start, self.text);
        write_place(&place, f)?;
        f.write_str("\n")?;
        write_line_with_marks(self.span.end, &place, f)
    }
}
