//! Statements (WGSL, "Statements").

use crate::declaration::Attributes;
use crate::expression::ExpressionNode;
use wgsl_path::{Items, Spanned};

/// A statement and its place.
pub type StatementNode = Spanned<Statement>;

pub type CompoundStatement = CompoundStatementOf<Statement>;

/// A statement.
#[derive(Debug, Drop, PartialEq)]
pub enum Statement {
    Return(ReturnStatement),
}

/// Statements in braces.
#[derive(Debug, Drop, PartialEq)]
pub struct CompoundStatementOf<S> {
    pub attributes: Attributes,
    pub statements: Items<Spanned<S>>,
}

/// `return`, maybe with a value.
#[derive(Debug, Drop, PartialEq)]
pub struct ReturnStatement {
    pub attributes: Attributes,
    pub expression: Option<ExpressionNode>,
}
