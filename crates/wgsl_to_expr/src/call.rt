//! Names, and calls of them.

ghost use Rattle.std.specs.Prelude.{◌≡◌, [], ◌∷◌, ◌++◌, map, IfOk, OnOk};
ghost use Rattle.wgsl_expressions.specs.Tree as T;
ghost use Rattle.wgsl_expressions.specs.View.{tree, node_tree, type_tree};
ghost use Rattle.wgsl_to_expr.specs.Written.{name_alone, template_of, call_of, argument_tree};

use std::alloc::{AllocError, Global};
use wgsl_expressions::{
    Boxed, Expression, ExpressionNode, FromIn, FunctionCall, Ident, Items, Spanned, TemplateArg,
    Text, TypeExpression,
};

/// A name alone.
pub fn named(alloc: Global, name: &str) -> Result<TypeExpression, AllocError>
    ensures { IfOk result (λ ty. type_tree ty ≡ name_alone name.now) }
{
    let name = Text::from_str(alloc, name)?;
    Ok(TypeExpression::new(Ident::new(name)))
}

/// A name behind which stand template arguments.
pub(crate) fn templated(
    alloc: Global,
    name: &str,
    arguments: Items<TemplateArg>,
) -> Result<TypeExpression, AllocError>
    ensures { IfOk result (λ ty. type_tree ty ≡ template_of name.now (map argument_tree arguments)) }
{
    let arguments = Boxed::new(alloc, arguments)?;
    let name = Text::from_str(alloc, name)?;
    Ok(TypeExpression {
        path: None,
        ident: Ident::new(name),
        template_args: Some(arguments),
    })
}

/// A call by a name alone.
pub(crate) fn call(
    alloc: Global,
    name: &str,
    arguments: Items<ExpressionNode>,
) -> Result<Expression, AllocError>
    ensures { IfOk result (λ e. tree e ≡ call_of name.now (map node_tree arguments)) }
{
    let name = Text::from_str(alloc, name)?;
    let ty = TypeExpression::new(Ident::new(name));
    let call = Boxed::new(alloc, FunctionCall { ty, arguments })?;
    Ok(Expression::FunctionCall(call))
}

/// Adds an expression at the end of a list.
pub(crate) fn push_node(
    alloc: Global,
    nodes: &mut Items<ExpressionNode>,
    expression: Expression,
) -> Result<(), AllocError>
    ensures { OnOk result (map node_tree nodes.new ≡ map node_tree nodes.old ++ tree expression ∷ []) }
{
    nodes.push(Spanned::from_in(alloc, expression)?)
}

/// Adds a type at the end of a list of template arguments.
pub(crate) fn push_type(
    alloc: Global,
    arguments: &mut Items<TemplateArg>,
    ty: TypeExpression,
) -> Result<(), AllocError>
    ensures { OnOk result (map argument_tree arguments.new ≡ map argument_tree arguments.old ++ T.named (type_tree ty) ∷ []) }
{
    push_argument(alloc, arguments, Expression::TypeOrIdentifier(ty))
}

/// Adds an expression at the end of a list of template arguments.
pub(crate) fn push_argument(
    alloc: Global,
    arguments: &mut Items<TemplateArg>,
    argument: Expression,
) -> Result<(), AllocError>
    ensures { OnOk result (map argument_tree arguments.new ≡ map argument_tree arguments.old ++ tree argument ∷ []) }
{
    let expression = Spanned::from_in(alloc, argument)?;
    arguments.push(TemplateArg { expression })
}
