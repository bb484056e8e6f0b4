//! Statements without their empty items, in place.

ghost use Rattle.std.specs.Prelude.{◌≡◌, map};
ghost use Rattle.std.specs.Option.{option_map};
ghost use Rattle.wgsl_empty_items.specs.Statements.{is_void, with_node, with_nodes, with_block, with_if, with_if_clause, with_else_if, with_else, with_switch, with_clause, with_loop, with_continuing, with_for, with_part, with_while, kept, kept_part, without_voids};

use crate::meaning::{
    CompoundStatement, ContinuingStatement, ElseClause, ElseIfClause, ForStatement, IfClause,
    IfStatement, LoopStatement, Statement, StatementNode, SwitchClause, SwitchStatement,
    WhileStatement, clear_statement, retain_statements,
};
use wgsl_base::Items;

/// Whether it is a `;` alone.
fn is_empty(statement: &Statement) -> bool
    ensures { result ≡ is_void statement.now }
{
    matches!(statement, Statement::Void)
}

/// Removes each empty item inside a statement. An empty statement stays one.
#[cycle(voids)]
#[tactic(auto, using(crate::proofs::Equations::without_void, crate::proofs::Equations::without_compound, crate::proofs::Equations::without_assignment, crate::proofs::Equations::without_increment, crate::proofs::Equations::without_decrement, crate::proofs::Equations::without_if, crate::proofs::Equations::without_switch, crate::proofs::Equations::without_loop, crate::proofs::Equations::without_for, crate::proofs::Equations::without_while, crate::proofs::Equations::without_break, crate::proofs::Equations::without_continue, crate::proofs::Equations::without_return, crate::proofs::Equations::without_discard, crate::proofs::Equations::without_function_call, crate::proofs::Equations::without_const_assert, crate::proofs::Equations::without_declaration))]
pub fn remove_voids_in_statement(statement: &mut Statement)
    ensures { statement.new ≡ without_voids statement.old }
{
    match statement {
        Statement::Compound(x) => remove_voids_in_block(x),
        Statement::If(x) => remove_in_if(x.get_mut()),
        Statement::Switch(x) => remove_in_switch(x.get_mut()),
        Statement::Loop(x) => remove_in_loop(x.get_mut()),
        Statement::For(x) => remove_in_for(x.get_mut()),
        Statement::While(x) => remove_in_while(x.get_mut()),
        Statement::Void => {}
        Statement::Assignment(_) => {}
        Statement::Increment(_) => {}
        Statement::Decrement(_) => {}
        Statement::Break(_) => {}
        Statement::Continue(_) => {}
        Statement::Return(_) => {}
        Statement::Discard(_) => {}
        Statement::FunctionCall(_) => {}
        Statement::ConstAssert(_) => {}
        Statement::Declaration(_) => {}
    }
}

#[cycle(voids)]
fn remove_in_node(node: &mut StatementNode)
    ensures { node.new ≡ with_node without_voids node.old }
{
    remove_voids_in_statement(node.node_mut());
}

/// Removes each empty item of a block, at every depth.
#[cycle(voids)]
pub fn remove_voids_in_block(block: &mut CompoundStatement)
    ensures { block.new ≡ with_block without_voids block.old }
{
    remove_inside(&mut block.statements);
    keep(&mut block.statements);
}

/// Removes the empty items inside each statement of a list.
#[cycle(voids)]
fn remove_inside(nodes: &mut Items<StatementNode>)
    ensures { nodes.new ≡ map (with_node without_voids) nodes.old }
{
    for i in 0..nodes.len() {
        remove_in_node(nodes.get_mut(i));
    }
}

/// Removes the empty items of a list itself.
fn keep(nodes: &mut Items<StatementNode>)
    ensures { nodes.new ≡ kept nodes.old }
{
    retain_statements(nodes, |node| !is_empty(node.node()));
}

#[cycle(voids)]
fn remove_in_if(x: &mut IfStatement)
    ensures { x.new ≡ with_if without_voids x.old }
{
    remove_in_if_clause(&mut x.if_clause);
    remove_in_else_ifs(&mut x.else_if_clauses);
    remove_in_else(&mut x.else_clause);
}

#[cycle(voids)]
fn remove_in_if_clause(clause: &mut IfClause)
    ensures { clause.new ≡ with_if_clause without_voids clause.old }
{
    remove_voids_in_block(&mut clause.body);
}

#[cycle(voids)]
fn remove_in_else_ifs(clauses: &mut Items<ElseIfClause>)
    ensures { clauses.new ≡ map (with_else_if without_voids) clauses.old }
{
    for i in 0..clauses.len() {
        remove_in_else_if(clauses.get_mut(i));
    }
}

#[cycle(voids)]
fn remove_in_else_if(clause: &mut ElseIfClause)
    ensures { clause.new ≡ with_else_if without_voids clause.old }
{
    remove_voids_in_block(&mut clause.body);
}

#[cycle(voids)]
fn remove_in_else(clause: &mut Option<ElseClause>)
    ensures { clause.new ≡ option_map (with_else without_voids) clause.old }
{
    match clause {
        None => {}
        Some(clause) => remove_voids_in_block(&mut clause.body),
    }
}

#[cycle(voids)]
fn remove_in_switch(x: &mut SwitchStatement)
    ensures { x.new ≡ with_switch without_voids x.old }
{
    remove_in_clauses(&mut x.clauses);
}

#[cycle(voids)]
fn remove_in_clauses(clauses: &mut Items<SwitchClause>)
    ensures { clauses.new ≡ map (with_clause without_voids) clauses.old }
{
    for i in 0..clauses.len() {
        remove_in_clause(clauses.get_mut(i));
    }
}

#[cycle(voids)]
fn remove_in_clause(clause: &mut SwitchClause)
    ensures { clause.new ≡ with_clause without_voids clause.old }
{
    remove_voids_in_block(&mut clause.body);
}

#[cycle(voids)]
fn remove_in_loop(x: &mut LoopStatement)
    ensures { x.new ≡ with_loop without_voids x.old }
{
    remove_voids_in_block(&mut x.body);
    remove_in_continuing(&mut x.continuing);
}

#[cycle(voids)]
fn remove_in_continuing(continuing: &mut Option<ContinuingStatement>)
    ensures { continuing.new ≡ option_map (with_continuing without_voids) continuing.old }
{
    match continuing {
        None => {}
        Some(x) => remove_voids_in_block(&mut x.body),
    }
}

/// In the header of `for` a part that is a `;` alone becomes absent.
#[cycle(voids)]
fn remove_in_for(x: &mut ForStatement)
    ensures { x.new ≡ with_for without_voids x.old }
{
    remove_in_part(&mut x.initializer);
    keep_part(&mut x.initializer);
    remove_in_part(&mut x.update);
    keep_part(&mut x.update);
    remove_voids_in_block(&mut x.body);
}

#[cycle(voids)]
fn remove_in_part(part: &mut Option<StatementNode>)
    ensures { part.new ≡ option_map (with_node without_voids) part.old }
{
    match part {
        None => {}
        Some(node) => remove_in_node(node),
    }
}

/// Removes a part that is a `;` alone.
fn keep_part(part: &mut Option<StatementNode>)
    ensures { part.new ≡ kept_part part.old }
{
    let is_void = match part {
        None => false,
        Some(node) => is_empty(node.node()),
    };
    if is_void {
        clear_statement(part);
    }
}

#[cycle(voids)]
fn remove_in_while(x: &mut WhileStatement)
    ensures { x.new ≡ with_while without_voids x.old }
{
    remove_voids_in_block(&mut x.body);
}
