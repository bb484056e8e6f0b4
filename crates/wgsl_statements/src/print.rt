//! Statements as text. A level says how deep in blocks a line stands.

ghost use Rattle.std.specs.Prelude.{◌≡◌, ◌++◌, ◌+◌, ◌||◌, ◌==◌, not, length, Some, map, codes, is_some};
ghost use Rattle.std.specs.Option.{option_map};
ghost use Rattle.std.specs.List.{flat_map, list_any};
ghost use Rattle.std.specs.Fmt.{WritesOnOk};
ghost use Rattle.wgsl_simple_statements.specs.ExpressionsView.{node_tree};
ghost use Rattle.wgsl_simple_statements.specs.ExpressionsPrint.{indent};
ghost use Rattle.wgsl_simple_statements.specs.AttributesView.{attributes_tree};
ghost use Rattle.wgsl_simple_statements.specs.AttributesPrint.{attrs_text};
ghost use Rattle.wgsl_simple_statements.specs.View.{break_if_tree, selector_tree};
ghost use Rattle.wgsl_simple_statements.specs.Print.{case_head};
ghost use Rattle.wgsl_statements.specs.View.{statement_tree, block_tree, part, part_layer, else_layer, if_layer, switch_layer, continuing_layer, loop_layer, for_layer, while_layer};
ghost use Rattle.wgsl_statements.specs.Print.{opening, closing, head_text, break_line, bare_text, block_text, elses_text, continuing_text, part_text, behind_text, lines_text};

use crate::statement::{
    CompoundStatement, ContinuingStatement, ElseClause, ElseIfClause, ForStatement, IfStatement,
    LoopStatement, Statement, StatementNode, SwitchClause, SwitchStatement, WhileStatement,
};
use std::fmt;
use wgsl_simple_statements::{
    BreakIfStatement, Items, write_attributed_head, write_attributes, write_case_head,
    write_closing, write_condition, write_for_front, write_head, write_indent, write_last_line,
    write_opening, write_switch_front, write_word_front,
};

/// Is it more than a `;`?
#[tactic(auto, using(crate::proofs::Trees::tree_of_void, crate::proofs::Trees::tree_of_compound, crate::proofs::Trees::tree_of_assignment, crate::proofs::Trees::tree_of_increment, crate::proofs::Trees::tree_of_decrement, crate::proofs::Trees::tree_of_if, crate::proofs::Trees::tree_of_switch, crate::proofs::Trees::tree_of_loop, crate::proofs::Trees::tree_of_for, crate::proofs::Trees::tree_of_while, crate::proofs::Trees::tree_of_break, crate::proofs::Trees::tree_of_continue, crate::proofs::Trees::tree_of_return, crate::proofs::Trees::tree_of_discard, crate::proofs::Trees::tree_of_call, crate::proofs::Trees::tree_of_assertion, crate::proofs::Trees::tree_of_value))]
fn is_statement(statement: &Statement) -> bool
    ensures { result ≡ is_some (statement_tree statement.now) }
{
    match statement {
        Statement::Void => false,
        _ => true,
    }
}

/// Is one of them more than a `;`?
fn has_statement(statements: &[StatementNode]) -> bool
    ensures { result ≡ list_any (λ n. is_some (statement_tree n.node)) statements.now }
{
    statements
        .iter()
        .any(|statement| is_statement(statement.node()))
}

/// Is one of them more than a `;`, or are there more lines behind them?
fn is_filled(statements: &Items<StatementNode>, more: bool) -> bool
    ensures { result ≡ (list_any (λ n. is_some (statement_tree n.node)) statements.now || more) }
{
    has_statement(statements.as_slice()) || more
}

/// Is there a line in its braces?
fn is_block_filled(compound: &CompoundStatement) -> bool
    ensures { result ≡ list_any (λ n. is_some (statement_tree n.node)) compound.now.statements }
{
    has_statement(compound.statements.as_slice())
}

fn has_clause(clauses: &Items<SwitchClause>) -> bool
    ensures { result ≡ not (length clauses.now == 0) }
{
    !clauses.as_slice().is_empty()
}

/// Writes `continuing` up to its first line.
fn write_continuing_front<W: fmt::Write>(
    x: &ContinuingStatement,
    filled: bool,
    f: &mut fmt::Formatter<W>,
) -> fmt::Result
    ensures { WritesOnOk W.write_str_gives f.old result (attrs_text (attributes_tree x.now.attributes) ++ codes "continuing " ++ attrs_text (attributes_tree x.now.body.attributes) ++ opening filled) f.new }
{
    write_word_front(
        x.attributes.as_slice(),
        "continuing ",
        x.body.attributes.as_slice(),
        filled,
        f,
    )
}

fn write_break_if<W: fmt::Write>(
    break_if: &Option<BreakIfStatement>,
    level: u32,
    f: &mut fmt::Formatter<W>,
) -> fmt::Result
    ensures { WritesOnOk W.write_str_gives f.old result (break_line level (option_map break_if_tree break_if.now)) f.new }
{
    match break_if {
        None => Ok(()),
        Some(break_if) => {
            write_indent(level, f)?;
            break_if.write_bare(f)?;
            f.write_str(";\n")
        }
    }
}

/// Writes what stands behind a statement in its last line.
#[tactic(auto, using(crate::proofs::Texts::behind_void, crate::proofs::Texts::behind_compound, crate::proofs::Texts::behind_assignment, crate::proofs::Texts::behind_increment, crate::proofs::Texts::behind_decrement, crate::proofs::Texts::behind_if, crate::proofs::Texts::behind_switch, crate::proofs::Texts::behind_loop, crate::proofs::Texts::behind_for, crate::proofs::Texts::behind_while, crate::proofs::Texts::behind_break, crate::proofs::Texts::behind_continue, crate::proofs::Texts::behind_return, crate::proofs::Texts::behind_discard, crate::proofs::Texts::behind_call, crate::proofs::Texts::behind_assertion, crate::proofs::Texts::behind_value))]
fn write_end<W: fmt::Write>(statement: &Statement, f: &mut fmt::Formatter<W>) -> fmt::Result
    ensures { WritesOnOk W.write_str_gives f.old result (behind_text (statement_tree statement.now)) f.new }
{
    match statement {
        Statement::Void => Ok(()),
        Statement::Compound(_)
        | Statement::If(_)
        | Statement::Switch(_)
        | Statement::Loop(_)
        | Statement::For(_)
        | Statement::While(_) => f.write_str("\n"),
        _ => f.write_str(";\n"),
    }
}

/// Writes a statement without the spaces of its line and without what stands behind it.
#[cycle(display)]
#[tactic(auto, using(crate::proofs::Texts::text_of_void, crate::proofs::Texts::text_of_compound, crate::proofs::Texts::text_of_assignment, crate::proofs::Texts::text_of_increment, crate::proofs::Texts::text_of_decrement, crate::proofs::Texts::text_of_if, crate::proofs::Texts::text_of_switch, crate::proofs::Texts::text_of_loop, crate::proofs::Texts::text_of_for, crate::proofs::Texts::text_of_while, crate::proofs::Texts::text_of_break, crate::proofs::Texts::text_of_continue, crate::proofs::Texts::text_of_return, crate::proofs::Texts::text_of_discard, crate::proofs::Texts::text_of_call, crate::proofs::Texts::text_of_assertion, crate::proofs::Texts::text_of_value))]
fn write_bare<W: fmt::Write>(
    statement: &Statement,
    level: u32,
    f: &mut fmt::Formatter<W>,
) -> fmt::Result
    ensures { WritesOnOk W.write_str_gives f.old result (part_text level (part (statement_tree statement.now))) f.new }
{
    match statement {
        Statement::Void => Ok(()),
        Statement::Compound(x) => write_block(x, level, f),
        Statement::Assignment(x) => x.write_bare(f),
        Statement::Increment(x) => x.write_bare(f),
        Statement::Decrement(x) => x.write_bare(f),
        Statement::If(x) => write_if(x.get(), level, f),
        Statement::Switch(x) => write_switch(x.get(), level, f),
        Statement::Loop(x) => write_loop(x.get(), level, f),
        Statement::For(x) => write_for(x.get(), level, f),
        Statement::While(x) => write_while(x.get(), level, f),
        Statement::Break(x) => x.write_bare(f),
        Statement::Continue(x) => x.write_bare(f),
        Statement::Return(x) => x.write_bare(f),
        Statement::Discard(x) => x.write_bare(f),
        Statement::FunctionCall(x) => x.get().write_bare(f),
        Statement::ConstAssert(x) => x.write_bare(f),
        Statement::Declaration(x) => x.get().write_bare(f),
    }
}

/// Writes a statement as lines at a level. A `;` alone is no line.
#[cycle(display)]
#[tactic(auto, using(crate::proofs::Texts::lines_some, crate::proofs::Texts::lines_none))]
pub fn write_statement<W: fmt::Write>(
    statement: &Statement,
    level: u32,
    f: &mut fmt::Formatter<W>,
) -> fmt::Result
    ensures { WritesOnOk W.write_str_gives f.old result (lines_text level (statement_tree statement.now)) f.new }
{
    if !is_statement(statement) {
        return Ok(());
    }
    write_indent(level, f)?;
    write_bare(statement, level, f)?;
    write_end(statement, f)
}

/// Writes statements as lines at a level.
#[cycle(display)]
fn write_statements<W: fmt::Write>(
    statements: &[StatementNode],
    level: u32,
    f: &mut fmt::Formatter<W>,
) -> fmt::Result
    ensures { WritesOnOk W.write_str_gives f.old result (flat_map (λ n. lines_text level (statement_tree n.node)) statements.now) f.new }
{
    for statement in statements {
        write_statement(statement.node(), level, f)?;
    }
    Ok(())
}

/// Writes a block that begins in a line at a level.
#[cycle(display)]
pub fn write_block<W: fmt::Write>(
    compound: &CompoundStatement,
    level: u32,
    f: &mut fmt::Formatter<W>,
) -> fmt::Result
    ensures { WritesOnOk W.write_str_gives f.old result (block_text level (block_tree compound.now)) f.new }
{
    let filled = is_block_filled(compound);
    write_attributes(compound.attributes.as_slice(), f)?;
    write_block_pieces(&compound.statements, filled, level, f)
}

/// Writes a block without its attributes.
#[cycle(display)]
fn write_block_pieces<W: fmt::Write>(
    statements: &Items<StatementNode>,
    filled: bool,
    level: u32,
    f: &mut fmt::Formatter<W>,
) -> fmt::Result
    ensures { WritesOnOk W.write_str_gives f.old result (opening filled ++ flat_map (λ n. lines_text (level + 1) (statement_tree n.node)) statements.now ++ closing level filled) f.new }
{
    let Some(inner) = level.checked_add(1) else {
        return Err(fmt::Error);
    };
    write_opening(filled, f)?;
    write_statements(statements.as_slice(), inner, f)?;
    write_closing(level, filled, f)
}

#[cycle(display)]
pub(crate) fn write_if<W: fmt::Write>(
    x: &IfStatement,
    level: u32,
    f: &mut fmt::Formatter<W>,
) -> fmt::Result
    ensures { WritesOnOk W.write_str_gives f.old result (bare_text level (if_layer statement_tree x.now)) f.new }
{
    let clause = &x.if_clause;
    write_attributed_head(x.attributes.as_slice(), "if ", &clause.expression, f)?;
    write_block(&clause.body, level, f)?;
    write_else_ifs(x.else_if_clauses.as_slice(), level, f)?;
    write_else(&x.else_clause, level, f)
}

#[cycle(display)]
fn write_else<W: fmt::Write>(
    clause: &Option<ElseClause>,
    level: u32,
    f: &mut fmt::Formatter<W>,
) -> fmt::Result
    ensures { WritesOnOk W.write_str_gives f.old result (elses_text level (else_layer statement_tree clause.now)) f.new }
{
    match clause {
        None => Ok(()),
        Some(clause) => {
            f.write_str(" else ")?;
            write_block(&clause.body, level, f)
        }
    }
}

#[cycle(display)]
fn write_else_ifs<W: fmt::Write>(
    clauses: &[ElseIfClause],
    level: u32,
    f: &mut fmt::Formatter<W>,
) -> fmt::Result
    ensures { WritesOnOk W.write_str_gives f.old result (flat_map (λ c. codes " " ++ head_text (codes "else if ") (node_tree c.expression) ++ block_text level (block_tree c.body)) clauses.now) f.new }
{
    for clause in clauses {
        f.write_str(" ")?;
        write_head("else if ", &clause.expression, f)?;
        write_block(&clause.body, level, f)?;
    }
    Ok(())
}

#[cycle(display)]
pub(crate) fn write_switch<W: fmt::Write>(
    x: &SwitchStatement,
    level: u32,
    f: &mut fmt::Formatter<W>,
) -> fmt::Result
    ensures { WritesOnOk W.write_str_gives f.old result (bare_text level (switch_layer statement_tree x.now)) f.new }
{
    let Some(inner) = level.checked_add(1) else {
        return Err(fmt::Error);
    };
    let filled = has_clause(&x.clauses);
    write_switch_front(
        x.attributes.as_slice(),
        &x.expression,
        x.body_attributes.as_slice(),
        filled,
        f,
    )?;
    write_clauses(x.clauses.as_slice(), inner, f)?;
    write_closing(level, filled, f)
}

/// Writes clauses as lines at a level.
#[cycle(display)]
fn write_clauses<W: fmt::Write>(
    clauses: &[SwitchClause],
    level: u32,
    f: &mut fmt::Formatter<W>,
) -> fmt::Result
    ensures { WritesOnOk W.write_str_gives f.old result (flat_map (λ c. indent level ++ case_head (map selector_tree c.case_selectors) ++ codes ": " ++ block_text level (block_tree c.body) ++ codes "\n") clauses.now) f.new }
{
    for clause in clauses {
        write_indent(level, f)?;
        write_case_head(clause.case_selectors.as_slice(), f)?;
        f.write_str(": ")?;
        write_block(&clause.body, level, f)?;
        f.write_str("\n")?;
    }
    Ok(())
}

#[cycle(display)]
pub(crate) fn write_loop<W: fmt::Write>(
    x: &LoopStatement,
    level: u32,
    f: &mut fmt::Formatter<W>,
) -> fmt::Result
    ensures { WritesOnOk W.write_str_gives f.old result (bare_text level (loop_layer statement_tree x.now)) f.new }
{
    let Some(inner) = level.checked_add(1) else {
        return Err(fmt::Error);
    };
    let filled = is_filled(&x.body.statements, x.continuing.is_some());
    write_word_front(
        x.attributes.as_slice(),
        "loop ",
        x.body.attributes.as_slice(),
        filled,
        f,
    )?;
    write_statements(x.body.statements.as_slice(), inner, f)?;
    write_optional_continuing(&x.continuing, inner, f)?;
    write_closing(level, filled, f)
}

/// Writes `continuing` as lines at a level, where it is there.
#[cycle(display)]
fn write_optional_continuing<W: fmt::Write>(
    continuing: &Option<ContinuingStatement>,
    level: u32,
    f: &mut fmt::Formatter<W>,
) -> fmt::Result
    ensures { WritesOnOk W.write_str_gives f.old result (continuing_text level (continuing_layer statement_tree continuing.now)) f.new }
{
    match continuing {
        None => Ok(()),
        Some(x) => write_continuing(x, level, f),
    }
}

/// Writes `continuing` as lines at a level.
#[cycle(display)]
pub(crate) fn write_continuing<W: fmt::Write>(
    x: &ContinuingStatement,
    level: u32,
    f: &mut fmt::Formatter<W>,
) -> fmt::Result
    ensures { WritesOnOk W.write_str_gives f.old result (continuing_text level (continuing_layer statement_tree (Some x.now))) f.new }
{
    let Some(inner) = level.checked_add(1) else {
        return Err(fmt::Error);
    };
    let filled = is_filled(&x.body.statements, x.break_if.is_some());
    write_indent(level, f)?;
    write_continuing_front(x, filled, f)?;
    write_statements(x.body.statements.as_slice(), inner, f)?;
    write_break_if(&x.break_if, inner, f)?;
    write_last_line(level, filled, f)
}

#[cycle(display)]
pub(crate) fn write_for<W: fmt::Write>(
    x: &ForStatement,
    level: u32,
    f: &mut fmt::Formatter<W>,
) -> fmt::Result
    ensures { WritesOnOk W.write_str_gives f.old result (bare_text level (for_layer statement_tree x.now)) f.new }
{
    write_for_front(x.attributes.as_slice(), f)?;
    write_part(&x.initializer, level, f)?;
    write_condition(&x.condition, f)?;
    write_part(&x.update, level, f)?;
    f.write_str(") ")?;
    write_block(&x.body, level, f)
}

#[cycle(display)]
fn write_part<W: fmt::Write>(
    statement: &Option<StatementNode>,
    level: u32,
    f: &mut fmt::Formatter<W>,
) -> fmt::Result
    ensures { WritesOnOk W.write_str_gives f.old result (part_text level (part_layer statement_tree statement.now)) f.new }
{
    match statement {
        None => Ok(()),
        Some(statement) => write_bare(statement.node(), level, f),
    }
}

#[cycle(display)]
pub(crate) fn write_while<W: fmt::Write>(
    x: &WhileStatement,
    level: u32,
    f: &mut fmt::Formatter<W>,
) -> fmt::Result
    ensures { WritesOnOk W.write_str_gives f.old result (bare_text level (while_layer statement_tree x.now)) f.new }
{
    write_attributed_head(x.attributes.as_slice(), "while ", &x.condition, f)?;
    write_block(&x.body, level, f)
}
