//! Statements with others in them, and lists of statements.

use crate::folding::calls::fold_call_statement;
use crate::folding::simple::{
    fold_assignment, fold_break_if, fold_local, fold_return, fold_selectors, fold_stepped,
};
use wgsl_base::Items;
use wgsl_lower_expressions::{Evaluator, Stop, clear, fold, fold_attributes, fold_maybe};
use wgsl_shader_type::Type;
use wgsl_simple_statements::DeclarationKind;
use wgsl_statements::{
    CompoundStatement, ContinuingStatement, ForStatement, IfStatement, LoopStatement, Statement,
    StatementNode, SwitchStatement, WhileStatement,
};

/// Whether a statement is a const or an assertion, which goes once it is done.
fn is_done_away(node: &StatementNode) -> bool {
    match node.node() {
        Statement::ConstAssert(_) => true,
        Statement::Declaration(x) => x.get().kind == DeclarationKind::Const,
        _ => false,
    }
}

/// Folds a statement, with the type of the function's result. What goes is a `;` alone.
#[cycle(statements)]
fn fold_statement(
    evaluator: &mut Evaluator<'_>,
    node: &mut StatementNode,
    returns: Option<&Type>,
) -> Result<(), Stop> {
    if is_done_away(node) {
        evaluator.do_statement(node)?;
        clear(node.node_mut());
        return Ok(());
    }
    if fold_inside(evaluator, node.node_mut(), returns)? {
        clear(node.node_mut());
    }
    Ok(())
}

/// A statement stays, unless folding it stops.
fn stays(folded: Result<(), Stop>) -> Result<bool, Stop> {
    match folded {
        Ok(()) => Ok(false),
        Err(stop) => Err(stop),
    }
}

/// Folds what is in a statement. It answers whether the statement goes.
#[cycle(statements)]
fn fold_inside(
    evaluator: &mut Evaluator<'_>,
    statement: &mut Statement,
    returns: Option<&Type>,
) -> Result<bool, Stop> {
    match statement {
        Statement::Void => Ok(false),
        Statement::Compound(x) => stays(fold_block(evaluator, x, returns)),
        Statement::Assignment(x) => stays(fold_assignment(evaluator, x)),
        Statement::Increment(x) => {
            stays(fold_stepped(evaluator, &mut x.attributes, &mut x.expression))
        }
        Statement::Decrement(x) => {
            stays(fold_stepped(evaluator, &mut x.attributes, &mut x.expression))
        }
        Statement::If(x) => stays(fold_if(evaluator, x.get_mut(), returns)),
        Statement::Switch(x) => stays(fold_switch(evaluator, x.get_mut(), returns)),
        Statement::Loop(x) => stays(fold_loop(evaluator, x.get_mut(), returns)),
        Statement::For(x) => stays(fold_for(evaluator, x.get_mut(), returns)),
        Statement::While(x) => stays(fold_while(evaluator, x.get_mut(), returns)),
        Statement::Break(x) => stays(fold_attributes(evaluator, &mut x.attributes)),
        Statement::Continue(x) => stays(fold_attributes(evaluator, &mut x.attributes)),
        Statement::Return(x) => stays(fold_return(evaluator, x, returns)),
        Statement::Discard(x) => stays(fold_attributes(evaluator, &mut x.attributes)),
        Statement::FunctionCall(x) => fold_call_statement(evaluator, x.get_mut()),
        Statement::ConstAssert(_) => Ok(false),
        Statement::Declaration(x) => stays(fold_local(evaluator, x.get_mut())),
    }
}

/// Folds statements, in order, in the level of names that there is.
#[cycle(statements)]
pub fn fold_statements(
    evaluator: &mut Evaluator<'_>,
    nodes: &mut Items<StatementNode>,
    returns: Option<&Type>,
) -> Result<(), Stop> {
    for i in 0..nodes.len() {
        fold_statement(evaluator, nodes.get_mut(i), returns)?;
    }
    Ok(())
}

/// Folds a block: its attributes, and its statements in a level of their own.
#[cycle(statements)]
pub fn fold_block(
    evaluator: &mut Evaluator<'_>,
    block: &mut CompoundStatement,
    returns: Option<&Type>,
) -> Result<(), Stop> {
    fold_attributes(evaluator, &mut block.attributes)?;
    evaluator.enter()?;
    fold_statements(evaluator, &mut block.statements, returns)?;
    evaluator.leave();
    Ok(())
}

#[cycle(statements)]
fn fold_if(
    evaluator: &mut Evaluator<'_>,
    x: &mut IfStatement,
    returns: Option<&Type>,
) -> Result<(), Stop> {
    fold_attributes(evaluator, &mut x.attributes)?;
    fold(evaluator, &mut x.if_clause.expression)?;
    fold_block(evaluator, &mut x.if_clause.body, returns)?;
    for i in 0..x.else_if_clauses.len() {
        let clause = x.else_if_clauses.get_mut(i);
        fold(evaluator, &mut clause.expression)?;
        fold_block(evaluator, &mut clause.body, returns)?;
    }
    match &mut x.else_clause {
        None => Ok(()),
        Some(clause) => fold_block(evaluator, &mut clause.body, returns),
    }
}

#[cycle(statements)]
fn fold_switch(
    evaluator: &mut Evaluator<'_>,
    x: &mut SwitchStatement,
    returns: Option<&Type>,
) -> Result<(), Stop> {
    fold_attributes(evaluator, &mut x.attributes)?;
    fold(evaluator, &mut x.expression)?;
    fold_attributes(evaluator, &mut x.body_attributes)?;
    for i in 0..x.clauses.len() {
        let clause = x.clauses.get_mut(i);
        fold_selectors(evaluator, &mut clause.case_selectors)?;
        fold_block(evaluator, &mut clause.body, returns)?;
    }
    Ok(())
}

/// `continuing` stands in the level of the loop's body.
#[cycle(statements)]
fn fold_loop(
    evaluator: &mut Evaluator<'_>,
    x: &mut LoopStatement,
    returns: Option<&Type>,
) -> Result<(), Stop> {
    fold_attributes(evaluator, &mut x.attributes)?;
    fold_attributes(evaluator, &mut x.body.attributes)?;
    evaluator.enter()?;
    fold_statements(evaluator, &mut x.body.statements, returns)?;
    if let Some(continuing) = &mut x.continuing {
        fold_continuing(evaluator, continuing, returns)?;
    }
    evaluator.leave();
    Ok(())
}

#[cycle(statements)]
fn fold_continuing(
    evaluator: &mut Evaluator<'_>,
    x: &mut ContinuingStatement,
    returns: Option<&Type>,
) -> Result<(), Stop> {
    fold_attributes(evaluator, &mut x.attributes)?;
    fold_attributes(evaluator, &mut x.body.attributes)?;
    evaluator.enter()?;
    fold_statements(evaluator, &mut x.body.statements, returns)?;
    fold_break_if(evaluator, &mut x.break_if)?;
    evaluator.leave();
    Ok(())
}

/// The header of a `for` stands in the level of its body.
#[cycle(statements)]
fn fold_for(
    evaluator: &mut Evaluator<'_>,
    x: &mut ForStatement,
    returns: Option<&Type>,
) -> Result<(), Stop> {
    fold_attributes(evaluator, &mut x.attributes)?;
    evaluator.enter()?;
    fold_part(evaluator, &mut x.initializer, returns)?;
    fold_maybe(evaluator, &mut x.condition)?;
    fold_part(evaluator, &mut x.update, returns)?;
    fold_attributes(evaluator, &mut x.body.attributes)?;
    fold_statements(evaluator, &mut x.body.statements, returns)?;
    evaluator.leave();
    Ok(())
}

#[cycle(statements)]
fn fold_part(
    evaluator: &mut Evaluator<'_>,
    part: &mut Option<StatementNode>,
    returns: Option<&Type>,
) -> Result<(), Stop> {
    match part {
        None => Ok(()),
        Some(node) => fold_statement(evaluator, node, returns),
    }
}

#[cycle(statements)]
fn fold_while(
    evaluator: &mut Evaluator<'_>,
    x: &mut WhileStatement,
    returns: Option<&Type>,
) -> Result<(), Stop> {
    fold_attributes(evaluator, &mut x.attributes)?;
    fold(evaluator, &mut x.condition)?;
    fold_block(evaluator, &mut x.body, returns)
}
