//! Copies of trees. Each equals what it copies, places too.

ghost use Rattle.std.specs.Prelude.{◌≡◌, IfOk};

use crate::declaration::{Attribute, Declaration, FormalParameter, Function, GlobalDeclaration};
use crate::expression::{
    BinaryExpression, Expression, ExpressionNode, FunctionCall, LiteralExpression,
    ParenthesizedExpression, TemplateArg, TypeExpression, UnaryExpression,
};
use crate::import::{ImportContent, ImportItem, ImportStatement};
use crate::statement::{CompoundStatement, ReturnStatement, Statement};
use crate::unit::TranslationUnit;
use std::alloc::{AllocError, Global};
use wgsl_path::{Boxed, CloneIn, Items, Spanned, both, three};

#[cycle(copy)]
fn copied(expression: &Expression, alloc: Global) -> Result<Expression, AllocError>
    ensures { IfOk result (λ copy. copy ≡ expression.now) }
{
    match expression {
        Expression::Literal(x) => Ok(Expression::Literal(*x)),
        Expression::Parenthesized(x) => Ok(Expression::Parenthesized(ParenthesizedExpression {
            expression: copied_node(&x.expression, alloc)?,
        })),
        Expression::Unary(x) => Ok(Expression::Unary(UnaryExpression {
            operator: x.operator,
            operand: copied_node(&x.operand, alloc)?,
        })),
        Expression::Binary(x) => Ok(Expression::Binary(copied_binary(x, alloc)?)),
        Expression::FunctionCall(x) => {
            let call = copied_call(x.get(), alloc)?;
            Ok(Expression::FunctionCall(Boxed::new(alloc, call)?))
        }
        Expression::TypeOrIdentifier(x) => Ok(Expression::TypeOrIdentifier(copied_type(x, alloc)?)),
    }
}

#[cycle(copy)]
fn copied_node(node: &ExpressionNode, alloc: Global) -> Result<ExpressionNode, AllocError>
    ensures { IfOk result (λ copy. copy ≡ node.now) }
{
    Spanned::new(alloc, copied(node.node(), alloc)?, node.span)
}

#[cycle(copy)]
fn copied_nodes(
    nodes: &[ExpressionNode],
    alloc: Global,
) -> Result<Items<ExpressionNode>, AllocError>
    ensures { IfOk result (λ copy. copy ≡ nodes.now) }
{
    let mut copies = Items::new(alloc);
    for node in nodes {
        copies.push(copied_node(node, alloc)?)?;
    }
    Ok(copies)
}

#[cycle(copy)]
fn copied_binary(x: &BinaryExpression, alloc: Global) -> Result<BinaryExpression, AllocError>
    ensures { IfOk result (λ copy. copy ≡ x.now) }
{
    Ok(BinaryExpression {
        operator: x.operator,
        left: copied_node(&x.left, alloc)?,
        right: copied_node(&x.right, alloc)?,
    })
}

#[cycle(copy)]
fn copied_call(x: &FunctionCall, alloc: Global) -> Result<FunctionCall, AllocError>
    ensures { IfOk result (λ copy. copy ≡ x.now) }
{
    Ok(FunctionCall {
        ty: copied_type(&x.ty, alloc)?,
        arguments: copied_nodes(x.arguments.as_slice(), alloc)?,
    })
}

#[cycle(copy)]
fn copied_type(x: &TypeExpression, alloc: Global) -> Result<TypeExpression, AllocError>
    ensures { IfOk result (λ copy. copy ≡ x.now) }
{
    let template_args = match &x.template_args {
        None => None,
        Some(arguments) => Some(Boxed::new(
            alloc,
            copied_arguments(arguments.get().as_slice(), alloc)?,
        )?),
    };
    Ok(TypeExpression {
        path: x.path.clone_in(alloc)?,
        ident: x.ident.clone_in(alloc)?,
        template_args,
    })
}

#[cycle(copy)]
fn copied_arguments(
    arguments: &[TemplateArg],
    alloc: Global,
) -> Result<Items<TemplateArg>, AllocError>
    ensures { IfOk result (λ copy. copy ≡ arguments.now) }
{
    let mut copies = Items::new(alloc);
    for argument in arguments {
        copies.push(TemplateArg {
            expression: copied_node(&argument.expression, alloc)?,
        })?;
    }
    Ok(copies)
}

impl CloneIn for Expression {
    fn clone_in(&self, alloc: Global) -> Result<Expression, AllocError> {
        copied(self, alloc)
    }
}

impl CloneIn for LiteralExpression {
    fn clone_in(&self, _alloc: Global) -> Result<LiteralExpression, AllocError> {
        Ok(*self)
    }
}

impl CloneIn for ParenthesizedExpression {
    fn clone_in(&self, alloc: Global) -> Result<ParenthesizedExpression, AllocError> {
        Ok(ParenthesizedExpression {
            expression: self.expression.clone_in(alloc)?,
        })
    }
}

impl CloneIn for UnaryExpression {
    fn clone_in(&self, alloc: Global) -> Result<UnaryExpression, AllocError> {
        Ok(UnaryExpression {
            operator: self.operator,
            operand: self.operand.clone_in(alloc)?,
        })
    }
}

impl CloneIn for BinaryExpression {
    fn clone_in(&self, alloc: Global) -> Result<BinaryExpression, AllocError> {
        copied_binary(self, alloc)
    }
}

impl CloneIn for FunctionCall {
    fn clone_in(&self, alloc: Global) -> Result<FunctionCall, AllocError> {
        copied_call(self, alloc)
    }
}

impl CloneIn for TypeExpression {
    fn clone_in(&self, alloc: Global) -> Result<TypeExpression, AllocError> {
        copied_type(self, alloc)
    }
}

impl CloneIn for TemplateArg {
    fn clone_in(&self, alloc: Global) -> Result<TemplateArg, AllocError> {
        Ok(TemplateArg {
            expression: self.expression.clone_in(alloc)?,
        })
    }
}

impl CloneIn for Attribute {
    fn clone_in(&self, alloc: Global) -> Result<Attribute, AllocError> {
        match self {
            Attribute::Fragment => Ok(Attribute::Fragment),
            Attribute::Location(number) => Ok(Attribute::Location(number.clone_in(alloc)?)),
        }
    }
}

impl CloneIn for ReturnStatement {
    fn clone_in(&self, alloc: Global) -> Result<ReturnStatement, AllocError> {
        Ok(ReturnStatement {
            attributes: self.attributes.clone_in(alloc)?,
            expression: self.expression.clone_in(alloc)?,
        })
    }
}

impl CloneIn for Statement {
    fn clone_in(&self, alloc: Global) -> Result<Statement, AllocError> {
        match self {
            Statement::Return(x) => Ok(Statement::Return(x.clone_in(alloc)?)),
        }
    }
}

impl CloneIn for CompoundStatement {
    fn clone_in(&self, alloc: Global) -> Result<CompoundStatement, AllocError> {
        Ok(CompoundStatement {
            attributes: self.attributes.clone_in(alloc)?,
            statements: self.statements.clone_in(alloc)?,
        })
    }
}

impl CloneIn for FormalParameter {
    fn clone_in(&self, alloc: Global) -> Result<FormalParameter, AllocError> {
        let attributes = self.attributes.clone_in(alloc);
        let ident = self.ident.clone_in(alloc);
        let ty = self.ty.clone_in(alloc);
        let (attributes, ident, ty) = three(attributes, ident, ty)?;
        Ok(FormalParameter {
            attributes,
            ident,
            ty,
        })
    }
}

impl CloneIn for Declaration {
    fn clone_in(&self, alloc: Global) -> Result<Declaration, AllocError> {
        let attributes = self.attributes.clone_in(alloc);
        let ident = self.ident.clone_in(alloc);
        let ty = self.ty.clone_in(alloc);
        let initializer = self.initializer.clone_in(alloc);
        let ((attributes, ident), (ty, initializer)) = both(
            both(attributes, ident),
            both(ty, initializer),
        )?;
        Ok(Declaration {
            attributes,
            kind: self.kind,
            ident,
            ty,
            initializer,
        })
    }
}

impl CloneIn for Function {
    fn clone_in(&self, alloc: Global) -> Result<Function, AllocError> {
        let attributes = self.attributes.clone_in(alloc);
        let ident = self.ident.clone_in(alloc);
        let parameters = self.parameters.clone_in(alloc);
        let return_attributes = self.return_attributes.clone_in(alloc);
        let return_type = self.return_type.clone_in(alloc);
        let body = self.body.clone_in(alloc);
        let before = three(attributes, ident, parameters);
        let behind = three(return_attributes, return_type, body);
        let ((attributes, ident, parameters), (return_attributes, return_type, body)) = both(
            before, behind,
        )?;
        Ok(Function {
            attributes,
            ident,
            parameters,
            return_attributes,
            return_type,
            body,
        })
    }
}

impl CloneIn for GlobalDeclaration {
    fn clone_in(&self, alloc: Global) -> Result<GlobalDeclaration, AllocError> {
        match self {
            GlobalDeclaration::Declaration(x) => Ok(GlobalDeclaration::Declaration(x.clone_in(
                alloc,
            )?)),
            GlobalDeclaration::Function(x) => Ok(GlobalDeclaration::Function(x.clone_in(alloc)?)),
        }
    }
}

impl CloneIn for ImportItem {
    fn clone_in(&self, alloc: Global) -> Result<ImportItem, AllocError> {
        Ok(ImportItem {
            ident: self.ident.clone_in(alloc)?,
            rename: self.rename.clone_in(alloc)?,
        })
    }
}

impl CloneIn for ImportContent {
    fn clone_in(&self, alloc: Global) -> Result<ImportContent, AllocError> {
        match self {
            ImportContent::Item(x) => Ok(ImportContent::Item(x.clone_in(alloc)?)),
        }
    }
}

impl CloneIn for ImportStatement {
    fn clone_in(&self, alloc: Global) -> Result<ImportStatement, AllocError> {
        let attributes = self.attributes.clone_in(alloc);
        let path = self.path.clone_in(alloc);
        let content = self.content.clone_in(alloc);
        let (attributes, path, content) = three(attributes, path, content)?;
        Ok(ImportStatement {
            attributes,
            path,
            content,
        })
    }
}

impl CloneIn for TranslationUnit {
    fn clone_in(&self, alloc: Global) -> Result<TranslationUnit, AllocError> {
        Ok(TranslationUnit {
            imports: self.imports.clone_in(alloc)?,
            global_declarations: self.global_declarations.clone_in(alloc)?,
        })
    }
}
