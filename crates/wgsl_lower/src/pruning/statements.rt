//! Statements without what is never done, in place. What is inside of a statement is pruned before it.

ghost use Rattle.std.specs.Prelude.{◌≡◌};

use crate::effects::Effects;
use crate::simplifying::{clear_void, drop_voids, reduce};
use std::alloc::Global;
use wgsl_base::Items;
use wgsl_statements::{
    CompoundStatement, ForStatement, IfStatement, LoopStatement, Statement, StatementNode,
    SwitchStatement,
};

/// Prunes the statements inside of a statement.
#[cycle(statements)]
fn prune_inside(alloc: Global, statement: &mut Statement, effects: &Effects<'_>) {
    match statement {
        Statement::Compound(x) => prune_block(alloc, x, effects),
        Statement::If(x) => prune_clauses(alloc, x.get_mut(), effects),
        Statement::Switch(x) => prune_switch(alloc, x.get_mut(), effects),
        Statement::Loop(x) => prune_loop(alloc, x.get_mut(), effects),
        Statement::For(x) => prune_for(alloc, x.get_mut(), effects),
        Statement::While(x) => prune_block(alloc, &mut x.get_mut().body, effects),
        Statement::Void => {}
        Statement::Assignment(_) => {}
        Statement::Increment(_) => {}
        Statement::Decrement(_) => {}
        Statement::Break(_) => {}
        Statement::Continue(_) => {}
        Statement::Return(_) => {}
        Statement::Discard(_) => {}
        Statement::FunctionCall(_) => {}
        Statement::ConstAssert(_) => {}
        Statement::Declaration(_) => {}
    }
}

/// Prunes the statements of a block, and drops those of which nothing is left.
#[cycle(statements)]
pub fn prune_block(alloc: Global, block: &mut CompoundStatement, effects: &Effects<'_>)
    ensures { block.new.attributes ≡ block.old.attributes }
{
    prune_each(alloc, &mut block.statements, effects);
    drop_voids(&mut block.statements);
}

/// Prunes statements. Where nothing is left of one, it is a `;`.
#[cycle(statements)]
fn prune_each(alloc: Global, nodes: &mut Items<StatementNode>, effects: &Effects<'_>) {
    for i in 0..nodes.len() {
        let statement = nodes.get_mut(i).node_mut();
        prune_inside(alloc, statement, effects);
        reduce(alloc, statement, effects);
    }
}

/// Prunes the bodies of the clauses of `if`.
#[cycle(statements)]
fn prune_clauses(alloc: Global, x: &mut IfStatement, effects: &Effects<'_>) {
    prune_block(alloc, &mut x.if_clause.body, effects);
    for i in 0..x.else_if_clauses.len() {
        prune_block(alloc, &mut x.else_if_clauses.get_mut(i).body, effects);
    }
    if let Some(clause) = &mut x.else_clause {
        prune_block(alloc, &mut clause.body, effects);
    }
}

/// Prunes the bodies of the clauses of `switch`.
#[cycle(statements)]
fn prune_switch(alloc: Global, x: &mut SwitchStatement, effects: &Effects<'_>) {
    for i in 0..x.clauses.len() {
        prune_block(alloc, &mut x.clauses.get_mut(i).body, effects);
    }
}

/// Prunes the body of `loop` and of its `continuing`.
#[cycle(statements)]
fn prune_loop(alloc: Global, x: &mut LoopStatement, effects: &Effects<'_>) {
    prune_block(alloc, &mut x.body, effects);
    if let Some(continuing) = &mut x.continuing {
        prune_block(alloc, &mut continuing.body, effects);
    }
}

/// Prunes the header and the body of `for`.
#[cycle(statements)]
fn prune_for(alloc: Global, x: &mut ForStatement, effects: &Effects<'_>) {
    prune_part(alloc, &mut x.initializer, effects);
    clear_void(&mut x.initializer);
    prune_part(alloc, &mut x.update, effects);
    clear_void(&mut x.update);
    prune_block(alloc, &mut x.body, effects);
}

/// Prunes a part of the header of `for`.
#[cycle(statements)]
fn prune_part(alloc: Global, part: &mut Option<StatementNode>, effects: &Effects<'_>) {
    if let Some(node) = part {
        let statement = node.node_mut();
        prune_inside(alloc, statement, effects);
        reduce(alloc, statement, effects);
    }
}
