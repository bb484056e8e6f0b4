//! Statements that hold no other statement (WGSL, "Statements").

use wgsl_expressions::{AssignmentOperator, Attributes, ExpressionNode, FunctionCall};

/// A value that is assigned, maybe by a compound sign. The place `_` is an identifier of that name.
#[derive(Debug, Drop, PartialEq)]
pub struct AssignmentStatement {
    pub attributes: Attributes,
    pub operator: AssignmentOperator,
    pub lhs: ExpressionNode,
    pub rhs: ExpressionNode,
}

/// A place and `++`.
#[derive(Debug, Drop, PartialEq)]
pub struct IncrementStatement {
    pub attributes: Attributes,
    pub expression: ExpressionNode,
}

/// A place and `--`.
#[derive(Debug, Drop, PartialEq)]
pub struct DecrementStatement {
    pub attributes: Attributes,
    pub expression: ExpressionNode,
}

/// `break`.
#[derive(Debug, Drop, PartialEq)]
pub struct BreakStatement {
    pub attributes: Attributes,
}

/// `continue`.
#[derive(Debug, Drop, PartialEq)]
pub struct ContinueStatement {
    pub attributes: Attributes,
}

/// `return`, maybe with a value.
#[derive(Debug, Drop, PartialEq)]
pub struct ReturnStatement {
    pub attributes: Attributes,
    pub expression: Option<ExpressionNode>,
}

/// `discard`.
#[derive(Debug, Drop, PartialEq)]
pub struct DiscardStatement {
    pub attributes: Attributes,
}

/// A call as a statement.
#[derive(Debug, Drop, PartialEq)]
pub struct FunctionCallStatement {
    pub attributes: Attributes,
    pub call: FunctionCall,
}

/// `break if` and a condition, at the end of `continuing`.
#[derive(Debug, Drop, PartialEq)]
pub struct BreakIfStatement {
    pub attributes: Attributes,
    pub expression: ExpressionNode,
}

/// A selector of a clause of `switch`.
#[derive(Debug, Drop, PartialEq)]
pub enum CaseSelector {
    Default,
    Expression(ExpressionNode),
}
