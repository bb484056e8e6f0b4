//! What stands before the first line of a block or of clauses: attributes, words, expressions and the first brace.

ghost use Rattle.std.specs.Prelude.{◌≡◌, ◌++◌, codes};
ghost use Rattle.std.specs.Option.{option_map};
ghost use Rattle.std.specs.Fmt.{WritesOnOk};
ghost use Rattle.wgsl_expressions.specs.View.{node_tree};
ghost use Rattle.wgsl_expressions.specs.AttributesView.{attributes_tree};
ghost use Rattle.wgsl_expressions.specs.AttributesPrint.{attrs_text};
ghost use Rattle.wgsl_simple_statements.specs.PiecesPrint.{opening, head_text, condition_text};

use crate::pieces::brace::write_opening;
use std::fmt;
use std::fmt::Display;
use wgsl_expressions::{AttributeNode, ExpressionNode, write_attributes};

/// Writes a word and an expression, up to what is in braces.
#[tactic(auto, unfolding(crate::specs::PiecesPrint::head_text))]
pub fn write_head<W: fmt::Write>(
    word: &str,
    expression: &ExpressionNode,
    f: &mut fmt::Formatter<W>,
) -> fmt::Result
    ensures { WritesOnOk W.write_str_gives f.old result (head_text word.now (node_tree expression.now)) f.new }
{
    f.write_str(word)?;
    expression.node().fmt(f)?;
    f.write_str(" ")
}

/// Writes attributes, a word and an expression, up to what is in braces.
pub fn write_attributed_head<W: fmt::Write>(
    attributes: &[AttributeNode],
    word: &str,
    expression: &ExpressionNode,
    f: &mut fmt::Formatter<W>,
) -> fmt::Result
    ensures { WritesOnOk W.write_str_gives f.old result (attrs_text (attributes_tree attributes.now) ++ head_text word.now (node_tree expression.now)) f.new }
{
    write_attributes(attributes, f)?;
    write_head(word, expression, f)
}

/// Writes the attributes of a block and its first brace.
pub fn write_block_front<W: fmt::Write>(
    attributes: &[AttributeNode],
    filled: bool,
    f: &mut fmt::Formatter<W>,
) -> fmt::Result
    ensures { WritesOnOk W.write_str_gives f.old result (attrs_text (attributes_tree attributes.now) ++ opening filled) f.new }
{
    write_attributes(attributes, f)?;
    write_opening(filled, f)
}

/// Writes attributes and a word, up to the first line of the block behind it, which has attributes of its own.
pub fn write_word_front<W: fmt::Write>(
    attributes: &[AttributeNode],
    word: &str,
    body_attributes: &[AttributeNode],
    filled: bool,
    f: &mut fmt::Formatter<W>,
) -> fmt::Result
    ensures { WritesOnOk W.write_str_gives f.old result (attrs_text (attributes_tree attributes.now) ++ word.now ++ attrs_text (attributes_tree body_attributes.now) ++ opening filled) f.new }
{
    write_attributes(attributes, f)?;
    f.write_str(word)?;
    write_block_front(body_attributes, filled, f)
}

/// Writes `switch` up to its first line.
pub fn write_switch_front<W: fmt::Write>(
    attributes: &[AttributeNode],
    expression: &ExpressionNode,
    body_attributes: &[AttributeNode],
    filled: bool,
    f: &mut fmt::Formatter<W>,
) -> fmt::Result
    ensures { WritesOnOk W.write_str_gives f.old result (attrs_text (attributes_tree attributes.now) ++ head_text (codes "switch ") (node_tree expression.now) ++ attrs_text (attributes_tree body_attributes.now) ++ opening filled) f.new }
{
    write_attributed_head(attributes, "switch ", expression, f)?;
    write_block_front(body_attributes, filled, f)
}

/// Writes `for` up to what stands in its parentheses.
pub fn write_for_front<W: fmt::Write>(
    attributes: &[AttributeNode],
    f: &mut fmt::Formatter<W>,
) -> fmt::Result
    ensures { WritesOnOk W.write_str_gives f.old result (attrs_text (attributes_tree attributes.now) ++ codes "for (") f.new }
{
    write_attributes(attributes, f)?;
    f.write_str("for (")
}

/// Writes the condition of `for` and the `;` before and behind it.
pub fn write_condition<W: fmt::Write>(
    condition: &Option<ExpressionNode>,
    f: &mut fmt::Formatter<W>,
) -> fmt::Result
    ensures { WritesOnOk W.write_str_gives f.old result (codes "; " ++ condition_text (option_map node_tree condition.now) ++ codes "; ") f.new }
{
    f.write_str("; ")?;
    if let Some(condition) = condition {
        condition.node().fmt(f)?;
    }
    f.write_str("; ")
}
