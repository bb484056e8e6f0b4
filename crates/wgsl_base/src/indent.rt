//! Text with four spaces before each line.

mod lines;

ghost use Rattle.std.specs.Option.{option_map};
ghost use Rattle.wgsl_base.specs.Indented.{indented};

use crate::indent::lines::Lines;
use std::fmt;

/// A value whose text is printed with four spaces before each line. A line ends with `\n`, which belongs to it; a text that ends with
/// one has no line behind it.
#[derive(Debug, Drop)]
pub struct Indent<T>(pub T);

impl<T: fmt::Display> fmt::Display for Indent<T> {
    ghost output = { λ x. option_map indented (T.output x.0) };

    fn fmt<W: fmt::Write>(&self, f: &mut fmt::Formatter<W>) -> fmt::Result {
        let mut lines = Lines { f, begins: true };
        fmt::Write::write(&mut lines, &self.0)
    }
}

#[cfg(test)]
mod tests;
