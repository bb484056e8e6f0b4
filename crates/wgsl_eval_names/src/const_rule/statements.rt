//! The walk over statements.

use crate::const_rule::walk::{Left, Place, Walk};
use std::alloc::AllocError;
use wgsl_expressions::{Expression, ExpressionNode};
use wgsl_simple_statements::{AssignmentStatement, CaseSelector, Declaration};
use wgsl_statements::{
    CompoundStatement, ForStatement, IfStatement, LoopStatement, Statement, StatementNode,
    SwitchStatement, WhileStatement,
};

/// The statements of a list, the first next.
pub(crate) fn list<'s>(walk: &mut Walk<'s>, x: &'s CompoundStatement) -> Result<(), AllocError> {
    for statement in x.statements.as_slice().iter().rev() {
        walk.then(Left::Statement(statement))?;
    }
    Ok(())
}

fn block<'s>(walk: &mut Walk<'s>, x: &'s CompoundStatement) -> Result<(), AllocError> {
    walk.then(Left::Leave)?;
    list(walk, x)?;
    walk.then(Left::Enter)?;
    walk.then(Left::Attributes(x.attributes.as_slice()))
}

/// The declaration of a value. Its name, if it is a local one, is declared behind it.
pub(crate) fn value<'s>(walk: &mut Walk<'s>, x: &'s Declaration) -> Result<(), AllocError> {
    if let Some(initializer) = &x.initializer {
        walk.expression(initializer)?;
    }
    if let Some(ty) = &x.ty {
        walk.then(Left::Type(ty, Place::Plain))?;
    }
    walk.then(Left::Attributes(x.attributes.as_slice()))
}

fn is_phony(node: &ExpressionNode) -> bool {
    match node.node() {
        Expression::TypeOrIdentifier(x) => x.ident.name() == "_",
        _ => false,
    }
}

fn assignment<'s>(walk: &mut Walk<'s>, x: &'s AssignmentStatement) -> Result<(), AllocError> {
    walk.expression(&x.rhs)?;
    if !is_phony(&x.lhs) {
        walk.expression(&x.lhs)?;
    }
    walk.then(Left::Attributes(x.attributes.as_slice()))
}

fn branches<'s>(walk: &mut Walk<'s>, x: &'s IfStatement) -> Result<(), AllocError> {
    if let Some(clause) = &x.else_clause {
        block(walk, &clause.body)?;
    }
    for clause in x.else_if_clauses.as_slice().iter().rev() {
        block(walk, &clause.body)?;
        walk.expression(&clause.expression)?;
    }
    block(walk, &x.if_clause.body)?;
    walk.expression(&x.if_clause.expression)?;
    walk.then(Left::Attributes(x.attributes.as_slice()))
}

fn selectors<'s>(walk: &mut Walk<'s>, selectors: &'s [CaseSelector]) -> Result<(), AllocError> {
    for selector in selectors.iter().rev() {
        if let CaseSelector::Expression(x) = selector {
            walk.expression(x)?;
        }
    }
    Ok(())
}

fn switch<'s>(walk: &mut Walk<'s>, x: &'s SwitchStatement) -> Result<(), AllocError> {
    for clause in x.clauses.as_slice().iter().rev() {
        block(walk, &clause.body)?;
        selectors(walk, clause.case_selectors.as_slice())?;
    }
    walk.then(Left::Attributes(x.body_attributes.as_slice()))?;
    walk.expression(&x.expression)?;
    walk.then(Left::Attributes(x.attributes.as_slice()))
}

fn loop_of<'s>(walk: &mut Walk<'s>, x: &'s LoopStatement) -> Result<(), AllocError> {
    walk.then(Left::Leave)?;
    if let Some(continuing) = &x.continuing {
        walk.then(Left::Leave)?;
        if let Some(break_if) = &continuing.break_if {
            walk.expression(&break_if.expression)?;
            walk.then(Left::Attributes(break_if.attributes.as_slice()))?;
        }
        list(walk, &continuing.body)?;
        walk.then(Left::Enter)?;
        walk.then(Left::Attributes(continuing.body.attributes.as_slice()))?;
        walk.then(Left::Attributes(continuing.attributes.as_slice()))?;
    }
    list(walk, &x.body)?;
    walk.then(Left::Enter)?;
    walk.then(Left::Attributes(x.body.attributes.as_slice()))?;
    walk.then(Left::Attributes(x.attributes.as_slice()))
}

fn for_of<'s>(walk: &mut Walk<'s>, x: &'s ForStatement) -> Result<(), AllocError> {
    walk.then(Left::Leave)?;
    list(walk, &x.body)?;
    walk.then(Left::Attributes(x.body.attributes.as_slice()))?;
    if let Some(update) = &x.update {
        walk.then(Left::Statement(update))?;
    }
    if let Some(condition) = &x.condition {
        walk.expression(condition)?;
    }
    if let Some(initializer) = &x.initializer {
        walk.then(Left::Statement(initializer))?;
    }
    walk.then(Left::Enter)?;
    walk.then(Left::Attributes(x.attributes.as_slice()))
}

fn while_of<'s>(walk: &mut Walk<'s>, x: &'s WhileStatement) -> Result<(), AllocError> {
    block(walk, &x.body)?;
    walk.expression(&x.condition)?;
    walk.then(Left::Attributes(x.attributes.as_slice()))
}

/// What is in a statement comes next.
pub(crate) fn statement<'s>(
    walk: &mut Walk<'s>,
    node: &'s StatementNode,
) -> Result<(), AllocError> {
    match node.node() {
        Statement::Void => Ok(()),
        Statement::Compound(x) => block(walk, x),
        Statement::Assignment(x) => assignment(walk, x),
        Statement::Increment(x) => {
            walk.expression(&x.expression)?;
            walk.then(Left::Attributes(x.attributes.as_slice()))
        }
        Statement::Decrement(x) => {
            walk.expression(&x.expression)?;
            walk.then(Left::Attributes(x.attributes.as_slice()))
        }
        Statement::If(x) => branches(walk, x.get()),
        Statement::Switch(x) => switch(walk, x.get()),
        Statement::Loop(x) => loop_of(walk, x.get()),
        Statement::For(x) => for_of(walk, x.get()),
        Statement::While(x) => while_of(walk, x.get()),
        Statement::Break(x) => walk.then(Left::Attributes(x.attributes.as_slice())),
        Statement::Continue(x) => walk.then(Left::Attributes(x.attributes.as_slice())),
        Statement::Return(x) => {
            if let Some(expression) = &x.expression {
                walk.expression(expression)?;
            }
            walk.then(Left::Attributes(x.attributes.as_slice()))
        }
        Statement::Discard(x) => {
            walk.is_clean = false;
            walk.then(Left::Attributes(x.attributes.as_slice()))
        }
        Statement::FunctionCall(x) => {
            for argument in x.get().call.arguments.as_slice().iter().rev() {
                walk.expression(argument)?;
            }
            walk.then(Left::Type(&x.get().call.ty, Place::Plain))?;
            walk.then(Left::Attributes(x.get().attributes.as_slice()))
        }
        Statement::ConstAssert(x) => {
            walk.expression(&x.expression)?;
            walk.then(Left::Attributes(x.attributes.as_slice()))
        }
        Statement::Declaration(x) => {
            walk.then(Left::Declare(x.get().ident.name()))?;
            value(walk, x.get())
        }
    }
}
