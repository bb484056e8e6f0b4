//! A node of a declaration.

use wgsl_declarations::{FormalParameter, StructMember};
use wgsl_expressions::{Attribute, Expression, TypeExpression};
use wgsl_statements::Statement;

/// A reference to a node.
#[derive(Clone, Copy, Drop)]
pub enum NodeRef<'a> {
    Attribute(&'a Attribute),
    Expression(&'a Expression),
    Type(&'a TypeExpression),
    Statement(&'a Statement),
    Member(&'a StructMember),
    Parameter(&'a FormalParameter),
}
