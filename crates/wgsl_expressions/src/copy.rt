//! Copies of trees. Each equals what it copies, places too.

ghost use Rattle.std.specs.Prelude.{◌≡◌, IfOk};

use crate::expression::{
    BinaryExpression, Expression, ExpressionNode, FunctionCall, IndexingExpression,
    LiteralExpression, NamedComponentExpression, ParenthesizedExpression, TemplateArg,
    TypeExpression, UnaryExpression,
};
use std::alloc::{AllocError, Global};
use wgsl_path::{Boxed, CloneIn, Items, Spanned};

#[cycle(copy)]
fn copied(expression: &Expression, alloc: Global) -> Result<Expression, AllocError>
    ensures { IfOk result (λ copy. copy ≡ expression.now) }
{
    match expression {
        Expression::Literal(x) => Ok(Expression::Literal(x.clone_in(alloc)?)),
        Expression::Parenthesized(x) => Ok(Expression::Parenthesized(ParenthesizedExpression {
            expression: copied_node(&x.expression, alloc)?,
        })),
        Expression::NamedComponent(x) => Ok(Expression::NamedComponent(NamedComponentExpression {
            base: copied_node(&x.base, alloc)?,
            component: x.component.clone_in(alloc)?,
        })),
        Expression::Indexing(x) => Ok(Expression::Indexing(copied_indexing(x, alloc)?)),
        Expression::Unary(x) => Ok(Expression::Unary(UnaryExpression {
            operator: x.operator,
            operand: copied_node(&x.operand, alloc)?,
        })),
        Expression::Binary(x) => Ok(Expression::Binary(copied_binary(x, alloc)?)),
        Expression::FunctionCall(x) => {
            let call = copied_call(x.get(), alloc)?;
            Ok(Expression::FunctionCall(Boxed::new(alloc, call)?))
        }
        Expression::TypeOrIdentifier(x) => Ok(Expression::TypeOrIdentifier(copied_type(x, alloc)?)),
    }
}

#[cycle(copy)]
fn copied_node(node: &ExpressionNode, alloc: Global) -> Result<ExpressionNode, AllocError>
    ensures { IfOk result (λ copy. copy ≡ node.now) }
{
    Spanned::new(alloc, copied(node.node(), alloc)?, node.span)
}

#[cycle(copy)]
fn copied_nodes(
    nodes: &[ExpressionNode],
    alloc: Global,
) -> Result<Items<ExpressionNode>, AllocError>
    ensures { IfOk result (λ copy. copy ≡ nodes.now) }
{
    let mut copies = Items::new(alloc);
    for node in nodes {
        copies.push(copied_node(node, alloc)?)?;
    }
    Ok(copies)
}

#[cycle(copy)]
fn copied_indexing(x: &IndexingExpression, alloc: Global) -> Result<IndexingExpression, AllocError>
    ensures { IfOk result (λ copy. copy ≡ x.now) }
{
    Ok(IndexingExpression {
        base: copied_node(&x.base, alloc)?,
        index: copied_node(&x.index, alloc)?,
    })
}

#[cycle(copy)]
fn copied_binary(x: &BinaryExpression, alloc: Global) -> Result<BinaryExpression, AllocError>
    ensures { IfOk result (λ copy. copy ≡ x.now) }
{
    Ok(BinaryExpression {
        operator: x.operator,
        left: copied_node(&x.left, alloc)?,
        right: copied_node(&x.right, alloc)?,
    })
}

#[cycle(copy)]
fn copied_call(x: &FunctionCall, alloc: Global) -> Result<FunctionCall, AllocError>
    ensures { IfOk result (λ copy. copy ≡ x.now) }
{
    Ok(FunctionCall {
        ty: copied_type(&x.ty, alloc)?,
        arguments: copied_nodes(x.arguments.as_slice(), alloc)?,
    })
}

#[cycle(copy)]
fn copied_type(x: &TypeExpression, alloc: Global) -> Result<TypeExpression, AllocError>
    ensures { IfOk result (λ copy. copy ≡ x.now) }
{
    let template_args = match &x.template_args {
        None => None,
        Some(arguments) => Some(Boxed::new(
            alloc,
            copied_arguments(arguments.get().as_slice(), alloc)?,
        )?),
    };
    Ok(TypeExpression {
        path: x.path.clone_in(alloc)?,
        ident: x.ident.clone_in(alloc)?,
        template_args,
    })
}

#[cycle(copy)]
fn copied_arguments(
    arguments: &[TemplateArg],
    alloc: Global,
) -> Result<Items<TemplateArg>, AllocError>
    ensures { IfOk result (λ copy. copy ≡ arguments.now) }
{
    let mut copies = Items::new(alloc);
    for argument in arguments {
        copies.push(TemplateArg {
            expression: copied_node(&argument.expression, alloc)?,
        })?;
    }
    Ok(copies)
}

impl CloneIn for Expression {
    fn clone_in(&self, alloc: Global) -> Result<Expression, AllocError> {
        copied(self, alloc)
    }
}

impl CloneIn for LiteralExpression {
    fn clone_in(&self, alloc: Global) -> Result<LiteralExpression, AllocError> {
        match self {
            LiteralExpression::Bool(truth) => Ok(LiteralExpression::Bool(*truth)),
            LiteralExpression::AbstractInt(n) => Ok(LiteralExpression::AbstractInt(*n)),
            LiteralExpression::AbstractFloat(spelled) => {
                Ok(LiteralExpression::AbstractFloat(spelled.clone_in(alloc)?))
            }
            LiteralExpression::I32(n) => Ok(LiteralExpression::I32(*n)),
            LiteralExpression::U32(n) => Ok(LiteralExpression::U32(*n)),
            LiteralExpression::F32(spelled) => Ok(LiteralExpression::F32(spelled.clone_in(alloc)?)),
            LiteralExpression::F16(spelled) => Ok(LiteralExpression::F16(spelled.clone_in(alloc)?)),
        }
    }
}

impl CloneIn for ParenthesizedExpression {
    fn clone_in(&self, alloc: Global) -> Result<ParenthesizedExpression, AllocError> {
        Ok(ParenthesizedExpression {
            expression: self.expression.clone_in(alloc)?,
        })
    }
}

impl CloneIn for NamedComponentExpression {
    fn clone_in(&self, alloc: Global) -> Result<NamedComponentExpression, AllocError> {
        Ok(NamedComponentExpression {
            base: self.base.clone_in(alloc)?,
            component: self.component.clone_in(alloc)?,
        })
    }
}

impl CloneIn for IndexingExpression {
    fn clone_in(&self, alloc: Global) -> Result<IndexingExpression, AllocError> {
        copied_indexing(self, alloc)
    }
}

impl CloneIn for UnaryExpression {
    fn clone_in(&self, alloc: Global) -> Result<UnaryExpression, AllocError> {
        Ok(UnaryExpression {
            operator: self.operator,
            operand: self.operand.clone_in(alloc)?,
        })
    }
}

impl CloneIn for BinaryExpression {
    fn clone_in(&self, alloc: Global) -> Result<BinaryExpression, AllocError> {
        copied_binary(self, alloc)
    }
}

impl CloneIn for FunctionCall {
    fn clone_in(&self, alloc: Global) -> Result<FunctionCall, AllocError> {
        copied_call(self, alloc)
    }
}

impl CloneIn for TypeExpression {
    fn clone_in(&self, alloc: Global) -> Result<TypeExpression, AllocError> {
        copied_type(self, alloc)
    }
}

impl CloneIn for TemplateArg {
    fn clone_in(&self, alloc: Global) -> Result<TemplateArg, AllocError> {
        Ok(TemplateArg {
            expression: self.expression.clone_in(alloc)?,
        })
    }
}
