//! A part of a statement, a declaration or a module.

use wgsl_expressions::{AttributeNode, ExpressionNode, TypeExpression};

/// A reference to a part.
#[derive(Clone, Copy, Drop)]
pub enum PartRef<'a> {
    Attribute(&'a AttributeNode),
    Expression(&'a ExpressionNode),
    Type(&'a TypeExpression),
}
