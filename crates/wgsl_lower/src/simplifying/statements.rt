//! Statements whose inside is pruned, each by itself, in place: what is never done goes.

ghost use Rattle.std.specs.Prelude.{◌<◌, length, IfSome};

use crate::effects::{Effects, calls_in_declaration};
use std::alloc::Global;
use std::mem;
use wgsl_base::Items;
use wgsl_expressions::{Expression, ExpressionNode, LiteralExpression};
use wgsl_statements::{
    CompoundStatement, ElseIfClause, ForStatement, IfStatement, Statement, StatementNode,
    clear_statement, retain_statements,
};

/// The truth value that is written.
fn written_truth(expression: &ExpressionNode) -> Option<bool> {
    match expression.node() {
        Expression::Literal(LiteralExpression::Bool(truth)) => Some(*truth),
        _ => None,
    }
}

fn is_void(node: &StatementNode) -> bool {
    matches!(node.node(), Statement::Void)
}

/// Drops the statements of a list that are a `;` alone.
pub fn drop_voids(nodes: &mut Items<StatementNode>) {
    retain_statements(nodes, |node| !is_void(node));
}

/// Drops a part of the header of `for` that is a `;` alone.
pub fn clear_void(part: &mut Option<StatementNode>) {
    let is_empty = match part {
        None => false,
        Some(node) => is_void(node),
    };
    if is_empty {
        clear_statement(part);
    }
}

/// Prunes a statement whose inside is pruned.
pub fn reduce(alloc: Global, statement: &mut Statement, effects: &Effects<'_>) {
    if let Some(outcome) = chosen(alloc, statement) {
        put(statement, outcome);
    }
    if is_nothing(statement, effects) {
        put(statement, Statement::Void);
    }
    if let Some(only) = only_statement(statement) {
        put(statement, only);
    }
}

/// Puts a statement in the place of another, which is dropped.
fn put(statement: &mut Statement, new: Statement) {
    drop(mem::replace(statement, new));
}

/// Whether nothing is done by a statement: an empty block, or a loop that is never entered and whose header does nothing.
fn is_nothing(statement: &Statement, effects: &Effects<'_>) -> bool {
    match statement {
        Statement::Compound(x) => x.attributes.is_empty() && x.statements.is_empty(),
        Statement::While(x) => {
            let x = x.get();
            x.attributes.is_empty() && written_truth(&x.condition) == Some(false)
        }
        Statement::For(x) => is_never_entered(x.get()) && !has_effect(x.get(), effects),
        _ => false,
    }
}

/// Whether a loop without attributes has the condition `false`.
fn is_never_entered(x: &ForStatement) -> bool {
    let Some(condition) = &x.condition else {
        return false;
    };
    x.attributes.is_empty() && written_truth(condition) == Some(false)
}

/// Whether what a loop does first may do something.
fn has_effect(x: &ForStatement, effects: &Effects<'_>) -> bool {
    let Some(initializer) = &x.initializer else {
        return false;
    };
    match initializer.node() {
        Statement::Declaration(declaration) => calls_in_declaration(declaration.get(), effects),
        _ => true,
    }
}

/// The one statement of a block without attributes, taken out, unless that is a declaration.
fn only_statement(statement: &mut Statement) -> Option<Statement> {
    let Statement::Compound(block) = statement else {
        return None;
    };
    if !block.attributes.is_empty() || block.statements.len() != 1 {
        return None;
    }
    if is_declaration(block.statements.as_slice()) {
        return None;
    }
    Some(block.statements.pop()?.into_inner())
}

fn is_declaration(nodes: &[StatementNode]) -> bool {
    match nodes.first() {
        None => false,
        Some(node) => matches!(node.node(), Statement::Declaration(_)),
    }
}

/// Drops the clauses of an `if` without attributes that are never chosen. What stands in its place then, where it isn't an `if` any more.
fn chosen(alloc: Global, statement: &mut Statement) -> Option<Statement> {
    let Statement::If(x) = statement else {
        return None;
    };
    let x = x.get_mut();
    if !x.attributes.is_empty() {
        return None;
    }
    advance(x);
    drop_behind(x);
    match written_truth(&x.if_clause.expression) {
        None => None,
        Some(true) => Some(Statement::Compound(take_block(alloc, &mut x.if_clause.body))),
        Some(false) => Some(match &mut x.else_clause {
            None => Statement::Void,
            Some(clause) => Statement::Compound(take_block(alloc, &mut clause.body)),
        }),
    }
}

/// The first clause that isn't `false`.
fn first_open(clauses: &[ElseIfClause]) -> Option<usize>
    ensures { IfSome result (λ i. i < length clauses.now) }
{
    for (i, clause) in clauses.iter().enumerate() {
        if written_truth(&clause.expression) != Some(false) {
            return Some(i);
        }
    }
    None
}

/// Puts the first clause that isn't `false` before all others.
fn advance(x: &mut IfStatement) {
    if written_truth(&x.if_clause.expression) != Some(false) {
        return;
    }
    if let Some(i) = first_open(x.else_if_clauses.as_slice()) {
        let clause = x.else_if_clauses.get_mut(i);
        mem::swap(&mut x.if_clause.expression, &mut clause.expression);
        mem::swap(&mut x.if_clause.body, &mut clause.body);
    }
}

/// Drops the clauses that are `false`, and those behind one that is `true`.
fn drop_behind(x: &mut IfStatement) {
    let mut is_over = written_truth(&x.if_clause.expression) == Some(true);
    x.else_if_clauses.retain(|clause| {
        let truth = written_truth(&clause.expression);
        let is_kept = !is_over && truth != Some(false);
        is_over = is_over || truth == Some(true);
        is_kept
    });
    if is_over {
        drop(mem::replace(&mut x.else_clause, None));
    }
}

/// Takes a block, and leaves an empty one.
fn take_block(alloc: Global, block: &mut CompoundStatement) -> CompoundStatement {
    let empty = CompoundStatement {
        attributes: Items::new(alloc),
        statements: Items::new(alloc),
    };
    mem::replace(block, empty)
}
