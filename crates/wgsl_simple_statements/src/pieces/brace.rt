//! The braces round lines of statements. A level says how deep in blocks a line stands.

ghost use Rattle.std.specs.Prelude.{◌≡◌, ◌++◌, codes};
ghost use Rattle.std.specs.Fmt.{WritesOnOk};
ghost use Rattle.wgsl_simple_statements.specs.PiecesPrint.{opening, closing};

use std::fmt;
use wgsl_expressions::write_indent;

/// Writes the first brace, with lines behind it or without.
pub fn write_opening<W: fmt::Write>(filled: bool, f: &mut fmt::Formatter<W>) -> fmt::Result
    ensures { WritesOnOk W.write_str_gives f.old result (opening filled) f.new }
{
    f.write_str(if filled { "{\n" } else { "{" })
}

/// Writes the last brace, with lines before it or without.
pub fn write_closing<W: fmt::Write>(
    level: u32,
    filled: bool,
    f: &mut fmt::Formatter<W>,
) -> fmt::Result
    ensures { WritesOnOk W.write_str_gives f.old result (closing level filled) f.new }
{
    if filled {
        write_indent(level, f)?;
        f.write_str("}")
    } else {
        f.write_str("}")
    }
}

/// Writes the last brace and the end of its line.
pub fn write_last_line<W: fmt::Write>(
    level: u32,
    filled: bool,
    f: &mut fmt::Formatter<W>,
) -> fmt::Result
    ensures { WritesOnOk W.write_str_gives f.old result (closing level filled ++ codes "\n") f.new }
{
    write_closing(level, filled, f)?;
    f.write_str("\n")
}
