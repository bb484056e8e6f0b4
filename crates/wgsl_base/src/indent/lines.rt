//! A writer that puts four spaces before each line.

ghost use Rattle.std.specs.Prelude.{◌≡◌, ◌∷◌, ◌++◌, MatchOption};
ghost use Rattle.std.specs.Fmt.{WritesOnOk};
ghost use Rattle.wgsl_base.specs.Writing.{margin_if, HasNoBreak};

use std::fmt;

/// A formatter, and whether what is written next begins a line.
#[derive(Drop)]
pub(crate) struct Lines<'f, W> {
    pub(crate) f: &'f mut fmt::Formatter<W>,
    pub(crate) begins: bool,
}

/// Writes the four spaces where a line begins.
fn write_margin<W: fmt::Write>(begins: bool, f: &mut fmt::Formatter<W>) -> fmt::Result
    ensures { WritesOnOk W.write_str_gives f.old result (margin_if begins) f.new }
{
    if begins { f.write_str("    ") } else { Ok(()) }
}

/// A text up to its first line break, and behind it.
fn first_line(text: &str) -> Option<(&str, &str)>
    ensures { MatchOption result (HasNoBreak text.now) (λ x. (text.now ≡ x.0.now ++ 10 ∷ x.1.now) × HasNoBreak x.0.now) }
{
    text.split_once('\n')
}

impl<'f, W: fmt::Write> fmt::Write for Lines<'f, W> {
    ghost use Rattle.wgsl_base.specs.Writing.{Indents};

    ghost write_str_gives = { Indents W.write_str_gives };

    fn write_str(&mut self, s: &str) -> fmt::Result {
        let mut rest = s;
        while let Some((line, behind)) = first_line(rest) {
            write_margin(self.begins, self.f)?;
            self.f.write_str(line)?;
            self.f.write_str("\n")?;
            self.begins = true;
            rest = behind;
        }
        if !rest.is_empty() {
            write_margin(self.begins, self.f)?;
            self.f.write_str(rest)?;
            self.begins = false;
        }
        Ok(())
    }
}
