//! Trees that stand in the place of others, which are dropped. Crates above that drop trees by these calls alone need no proof of their own of
//! the drop of a tree and of all that it owns.

use std::alloc::{AllocError, Global};
use std::mem;
use wgsl_expressions::{
    Boxed, Expression, ExpressionNode, FromIn, FunctionCall, Ident, Items, LiteralExpression,
    Spanned, Text, TypeExpression,
};
use wgsl_statements::{CompoundStatement, Statement, retain_statements};

/// Puts an expression in the place of a node's, which keeps its place in the text.
pub fn put_expression(node: &mut ExpressionNode, new: Expression) {
    drop(mem::replace(node.node_mut(), new));
}

/// Puts a type expression in the place of another.
pub fn put_type(ty: &mut TypeExpression, new: TypeExpression) {
    drop(mem::replace(ty, new));
}

/// Puts a type expression in the place of another, which may be absent.
pub fn put_type_of(ty: &mut Option<TypeExpression>, new: TypeExpression) {
    drop(mem::replace(ty, Some(new)));
}

/// Gives a type expression another name, without path and template arguments.
pub fn rename_type(alloc: Global, ty: &mut TypeExpression, name: &str) -> Result<(), AllocError> {
    let name = Text::from_str(alloc, name)?;
    put_type(ty, TypeExpression::new(Ident::new(name)));
    Ok(())
}

/// A call by a type, of something that is yet to be put in its place.
fn spare_call(alloc: Global, ty: TypeExpression) -> Result<ExpressionNode, AllocError> {
    let spare = Spanned::from_in(alloc, Expression::Literal(LiteralExpression::Bool(false)))?;
    let mut arguments = Items::new(alloc);
    arguments.push(spare)?;
    let call = Boxed::new(alloc, FunctionCall { ty, arguments })?;
    Spanned::from_in(alloc, Expression::FunctionCall(call))
}

/// An expression becomes the one argument of a call by a type.
pub fn wrap_in_call(
    alloc: Global,
    node: &mut ExpressionNode,
    ty: TypeExpression,
) -> Result<(), AllocError> {
    let mut outer = spare_call(alloc, ty)?;
    if let Expression::FunctionCall(call) = outer.node_mut() {
        let arguments = &mut call.get_mut().arguments;
        if !arguments.is_empty() {
            mem::swap(arguments.get_mut(0), node);
        }
    }
    mem::swap(node, &mut outer);
    drop(outer);
    Ok(())
}

/// A statement becomes a `;` alone.
pub fn clear(statement: &mut Statement) {
    drop(mem::replace(statement, Statement::Void));
}

/// All statements of a block go.
pub fn clear_block(block: &mut CompoundStatement) {
    retain_statements(&mut block.statements, |_node| false);
}
