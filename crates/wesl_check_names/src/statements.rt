//! The steps of statements.

use crate::expressions::{
    push_value, walk_attributes, walk_call, walk_expression, walk_optional, walk_optional_type,
    walk_scalar,
};
use std::alloc::AllocError;
use wesl_name_rules::{DeclareStep, Role, Step, StepList, ValueStep};
use wgsl_declarations::{
    AssignmentStatement, BreakIfStatement, CaseSelector, CompoundStatement, ConstAssert,
    ContinuingStatement, Declaration, ForStatement, FunctionCallStatement, IfStatement,
    LoopStatement, ReturnStatement, Statement, StatementNode, SwitchStatement, WhileStatement,
};
use wgsl_expressions::{AssignmentOperator, AttributeNode, BinaryOperator, ExpressionNode, Span};

/// The stack is no longer needed.
fn push_clear(list: &mut StepList) -> Result<(), AllocError> {
    list.push(Step::Clear, Span { start: 0, end: 0 })
}

/// The steps of attributes, and of the scalar behind them.
fn walk_marked(
    attributes: &[AttributeNode],
    expression: &ExpressionNode,
    list: &mut StepList,
) -> Result<(), AllocError> {
    walk_attributes(attributes, list)?;
    walk_scalar(expression, list)?;
    push_clear(list)
}

/// The operation of an assignment, where it has one.
fn operation_of(operator: AssignmentOperator) -> Option<BinaryOperator> {
    match operator {
        AssignmentOperator::Equal => None,
        AssignmentOperator::PlusEqual => Some(BinaryOperator::Addition),
        AssignmentOperator::MinusEqual => Some(BinaryOperator::Subtraction),
        AssignmentOperator::TimesEqual => Some(BinaryOperator::Multiplication),
        AssignmentOperator::DivisionEqual => Some(BinaryOperator::Division),
        AssignmentOperator::ModuloEqual => Some(BinaryOperator::Remainder),
        AssignmentOperator::AndEqual => Some(BinaryOperator::BitwiseAnd),
        AssignmentOperator::OrEqual => Some(BinaryOperator::BitwiseOr),
        AssignmentOperator::XorEqual => Some(BinaryOperator::BitwiseXor),
        AssignmentOperator::ShiftRightAssign => Some(BinaryOperator::ShiftRight),
        AssignmentOperator::ShiftLeftAssign => Some(BinaryOperator::ShiftLeft),
    }
}

/// The steps of an assignment.
fn walk_assignment(
    x: &AssignmentStatement,
    span: Span,
    list: &mut StepList,
) -> Result<(), AllocError> {
    walk_attributes(x.attributes.as_slice(), list)?;
    walk_expression(&x.lhs, Role::Value, list)?;
    walk_expression(&x.rhs, Role::Value, list)?;
    push_value(ValueStep::Assign(operation_of(x.operator)), span, list)?;
    push_clear(list)
}

/// The steps of `return`.
fn walk_return(x: &ReturnStatement, span: Span, list: &mut StepList) -> Result<(), AllocError> {
    walk_attributes(x.attributes.as_slice(), list)?;
    if let Some(expression) = &x.expression {
        walk_expression(expression, Role::Value, list)?;
        push_value(ValueStep::Return, span, list)?;
    }
    push_clear(list)
}

/// The steps of a call as a statement.
fn walk_call_statement(
    x: &FunctionCallStatement,
    span: Span,
    list: &mut StepList,
) -> Result<(), AllocError> {
    walk_attributes(x.attributes.as_slice(), list)?;
    walk_call(&x.call, span, list)?;
    push_clear(list)
}

/// The steps of a constant assertion.
pub(crate) fn walk_assertion(x: &ConstAssert, list: &mut StepList) -> Result<(), AllocError> {
    walk_marked(x.attributes.as_slice(), &x.expression, list)
}

/// The steps of a declaration of a local.
fn walk_value(x: &Declaration, span: Span, list: &mut StepList) -> Result<(), AllocError> {
    walk_attributes(x.attributes.as_slice(), list)?;
    walk_optional_type(&x.ty, span, list)?;
    walk_optional(&x.initializer, list)?;
    let step = DeclareStep::Local {
        name: list.number(x.ident.as_str())?,
        has_type: x.ty.is_some(),
        has_value: x.initializer.is_some(),
    };
    list.push(Step::Declare(step), span)?;
    push_clear(list)
}

/// The steps of `break if`, where it is there.
fn walk_break_if(x: &Option<BreakIfStatement>, list: &mut StepList) -> Result<(), AllocError> {
    match x {
        None => Ok(()),
        Some(x) => walk_marked(x.attributes.as_slice(), &x.expression, list),
    }
}

/// The steps of selectors, one by one.
fn walk_selectors(selectors: &[CaseSelector], list: &mut StepList) -> Result<(), AllocError> {
    for selector in selectors {
        if let CaseSelector::Expression(x) = selector {
            walk_scalar(x, list)?;
        }
    }
    Ok(())
}

/// The steps of a statement at a place in the text.
#[cycle(statements)]
fn walk_statement(
    statement: &Statement,
    span: Span,
    list: &mut StepList,
) -> Result<(), AllocError> {
    match statement {
        Statement::Void => Ok(()),
        Statement::Compound(x) => walk_block(x, list),
        Statement::Assignment(x) => walk_assignment(x, span, list),
        Statement::Increment(x) => walk_marked(x.attributes.as_slice(), &x.expression, list),
        Statement::Decrement(x) => walk_marked(x.attributes.as_slice(), &x.expression, list),
        Statement::If(x) => walk_if(x.get(), list),
        Statement::Switch(x) => walk_switch(x.get(), list),
        Statement::Loop(x) => walk_loop(x.get(), list),
        Statement::For(x) => walk_for(x.get(), list),
        Statement::While(x) => walk_while(x.get(), list),
        Statement::Break(x) => walk_attributes(x.attributes.as_slice(), list),
        Statement::Continue(x) => walk_attributes(x.attributes.as_slice(), list),
        Statement::Return(x) => walk_return(x, span, list),
        Statement::Discard(x) => walk_attributes(x.attributes.as_slice(), list),
        Statement::FunctionCall(x) => walk_call_statement(x.get(), span, list),
        Statement::ConstAssert(x) => walk_assertion(x, list),
        Statement::Declaration(x) => walk_value(x.get(), span, list),
    }
}

/// The steps of statements, one by one.
#[cycle(statements)]
pub(crate) fn walk_statements(
    statements: &[StatementNode],
    list: &mut StepList,
) -> Result<(), AllocError> {
    for statement in statements {
        walk_statement(statement.node(), statement.span, list)?;
    }
    Ok(())
}

/// The steps of a block, which is a scope.
#[cycle(statements)]
fn walk_block(x: &CompoundStatement, list: &mut StepList) -> Result<(), AllocError> {
    walk_attributes(x.attributes.as_slice(), list)?;
    list.push(Step::Enter, Span { start: 0, end: 0 })?;
    walk_statements(x.statements.as_slice(), list)?;
    list.push(Step::Leave, Span { start: 0, end: 0 })
}

/// The steps of `if`.
#[cycle(statements)]
fn walk_if(x: &IfStatement, list: &mut StepList) -> Result<(), AllocError> {
    walk_marked(x.attributes.as_slice(), &x.if_clause.expression, list)?;
    walk_block(&x.if_clause.body, list)?;
    for clause in x.else_if_clauses.as_slice() {
        walk_scalar(&clause.expression, list)?;
        walk_block(&clause.body, list)?;
    }
    match &x.else_clause {
        None => Ok(()),
        Some(clause) => walk_block(&clause.body, list),
    }
}

/// The steps of `switch`.
#[cycle(statements)]
fn walk_switch(x: &SwitchStatement, list: &mut StepList) -> Result<(), AllocError> {
    walk_marked(x.attributes.as_slice(), &x.expression, list)?;
    walk_attributes(x.body_attributes.as_slice(), list)?;
    for clause in x.clauses.as_slice() {
        walk_selectors(clause.case_selectors.as_slice(), list)?;
        walk_block(&clause.body, list)?;
    }
    Ok(())
}

/// The steps of `loop`. What `continuing` declares stands inside of the body.
#[cycle(statements)]
fn walk_loop(x: &LoopStatement, list: &mut StepList) -> Result<(), AllocError> {
    walk_attributes(x.attributes.as_slice(), list)?;
    walk_attributes(x.body.attributes.as_slice(), list)?;
    list.push(Step::Enter, Span { start: 0, end: 0 })?;
    walk_statements(x.body.statements.as_slice(), list)?;
    walk_continuing(&x.continuing, list)?;
    list.push(Step::Leave, Span { start: 0, end: 0 })
}

/// The steps of `continuing`, where it is there.
#[cycle(statements)]
fn walk_continuing(x: &Option<ContinuingStatement>, list: &mut StepList) -> Result<(), AllocError> {
    match x {
        None => Ok(()),
        Some(x) => {
            walk_attributes(x.attributes.as_slice(), list)?;
            walk_attributes(x.body.attributes.as_slice(), list)?;
            list.push(Step::Enter, Span { start: 0, end: 0 })?;
            walk_statements(x.body.statements.as_slice(), list)?;
            walk_break_if(&x.break_if, list)?;
            list.push(Step::Leave, Span { start: 0, end: 0 })
        }
    }
}

/// The steps of `for`, whose body is a scope in that of its header.
#[cycle(statements)]
fn walk_for(x: &ForStatement, list: &mut StepList) -> Result<(), AllocError> {
    walk_attributes(x.attributes.as_slice(), list)?;
    list.push(Step::Enter, Span { start: 0, end: 0 })?;
    walk_part(&x.initializer, list)?;
    if let Some(condition) = &x.condition {
        walk_scalar(condition, list)?;
    }
    walk_part(&x.update, list)?;
    walk_block(&x.body, list)?;
    list.push(Step::Leave, Span { start: 0, end: 0 })
}

/// The steps of a part of the header of `for`, where it is there.
#[cycle(statements)]
fn walk_part(part: &Option<StatementNode>, list: &mut StepList) -> Result<(), AllocError> {
    match part {
        None => Ok(()),
        Some(node) => walk_statement(node.node(), node.span, list),
    }
}

/// The steps of `while`.
#[cycle(statements)]
fn walk_while(x: &WhileStatement, list: &mut StepList) -> Result<(), AllocError> {
    walk_marked(x.attributes.as_slice(), &x.condition, list)?;
    walk_block(&x.body, list)
}
