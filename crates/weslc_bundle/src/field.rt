//! The fields of an error line: one word each, whatever text they show.
//!
//! White space, control characters, U+200E, U+200F and the backslash are written as their numbers, as in `\u{20}`. A field
//! that is there and is empty is `\u{}`, one that is just `-` is `\u{2d}`, and `-` alone is a field that is missing.

ghost use Rattle.std.specs.Prelude.{◌≡◌};
ghost use Rattle.std.specs.Fmt.{WritesOnOk};
ghost use Rattle.weslc_bundle.specs.Fields.{is_escaped, escaped_char, escaped};

use std::fmt;
use std::fmt::Write;

/// A field of an error line, or `-` where there is none. It is written without memory.
#[derive(Drop)]
pub struct Field<'a, T>(pub Option<&'a T>);

impl<T: fmt::Display> fmt::Display for Field<'_, T> {
    fn fmt<W: fmt::Write>(&self, f: &mut fmt::Formatter<W>) -> fmt::Result {
        let Some(value) = self.0 else {
            return f.write_str("-");
        };
        let mut shape = Shape::Empty;
        shape.write(value)?;
        match shape {
            Shape::Empty => f.write_str("\\u{}"),
            Shape::Dash => f.write_str("\\u{2d}"),
            Shape::Word => Escaped { out: f }.write(value),
        }
    }
}

/// What a text is, as far as it was written: nothing, a dash alone, or something else.
#[derive(Clone, Copy)]
enum Shape {
    Empty,
    Dash,
    Word,
}

impl fmt::Write for Shape {
    fn write_str(&mut self, text: &str) -> fmt::Result {
        *self = match (*self, text) {
            (shape, "") => shape,
            (Shape::Empty, "-") => Shape::Dash,
            _ => Shape::Word,
        };
        Ok(())
    }
}

/// A formatter to which each text is written escaped.
#[derive(Drop)]
struct Escaped<'a, W> {
    out: &'a mut fmt::Formatter<W>,
}

impl<W: fmt::Write> fmt::Write for Escaped<'_, W> {
    fn write_str(&mut self, text: &str) -> fmt::Result {
        write_escaped_text(text, self.out)
    }
}

/// Writes each character of a text, or its number where it is one of those.
fn write_escaped_text<W: fmt::Write>(text: &str, out: &mut fmt::Formatter<W>) -> fmt::Result
    ensures { WritesOnOk W.write_str_gives out.old result (escaped text.now) out.new }
{
    for c in text.chars() {
        write_escaped(c, out)?;
    }
    Ok(())
}

/// Writes a character, or its number where it is one of those.
fn write_escaped<W: fmt::Write>(c: char, out: &mut fmt::Formatter<W>) -> fmt::Result
    ensures { WritesOnOk W.write_str_gives out.old result (escaped_char c) out.new }
{
    if is_escaped(c) {
        let code = u32::from(c);
        write!(out, "\\u{{{code:x}}}")
    } else {
        out.write_char(c)
    }
}

/// Whether a character is written as its number.
fn is_escaped(c: char) -> bool
    ensures { result ≡ is_escaped c }
{
    c.is_whitespace() || c.is_control() || c == '\u{200e}' || c == '\u{200f}' || c == '\\'
}
