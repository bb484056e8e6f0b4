//! What the printers of all trees share.

ghost use Rattle.std.specs.Prelude.{◌≡◌, map};
ghost use Rattle.std.specs.Fmt.{WritesOnOk};
ghost use Rattle.wgsl_expressions.specs.View.{node_tree};
ghost use Rattle.wgsl_expressions.specs.Print.{commas, exp_text, indent};

use crate::expression::ExpressionNode;
use crate::print::write_nodes;
use std::fmt;

/// Writes the spaces at the beginning of a line of this level.
pub fn write_indent<W: fmt::Write>(level: u32, f: &mut fmt::Formatter<W>) -> fmt::Result
    ensures { WritesOnOk W.write_str_gives f.old result (indent level) f.new }
{
    for _column in 0..4 * u64::from(level) {
        f.write_str(" ")?;
    }
    Ok(())
}

/// Writes expressions with `, ` between them.
pub fn write_list<W: fmt::Write>(nodes: &[ExpressionNode], f: &mut fmt::Formatter<W>) -> fmt::Result
    ensures { WritesOnOk W.write_str_gives f.old result (commas exp_text (map node_tree nodes.now)) f.new }
{
    write_nodes(nodes, f)
}
