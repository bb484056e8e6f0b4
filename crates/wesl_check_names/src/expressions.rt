//! The steps of expressions, types and attributes.

use std::alloc::AllocError;
use wesl_name_rules::{Choice, Role, Step, StepList, ValueStep};
use wgsl_expressions::{
    Attribute, AttributeNode, Expression, ExpressionNode, FunctionCall, Span, TypeExpression,
};

/// A value step.
pub(crate) fn push_value(
    step: ValueStep,
    span: Span,
    list: &mut StepList,
) -> Result<(), AllocError> {
    list.push(Step::Value(step), span)
}

/// A count as a `u32`. One that does not fit is out of memory.
pub(crate) fn counted(count: usize) -> Result<u32, AllocError> {
    match u32::try_from(count) {
        Ok(count) => Ok(count),
        Err(_) => Err(AllocError),
    }
}

/// What a template argument stands as, by the name in front of the list and its number in it.
fn template_role(name: &str, number: usize) -> Role {
    if name.starts_with("texture_storage_") {
        return match number {
            0 => Role::Enumerant(Choice::TexelFormat),
            _ => Role::Enumerant(Choice::AccessMode),
        };
    }
    match (name, number) {
        ("ptr", 0) => Role::Enumerant(Choice::AddressSpace),
        ("ptr", 2) => Role::Enumerant(Choice::AccessMode),
        ("array", 1) | ("binding_array", 1) => Role::Value,
        ("ptr", 1) | ("array", 0) | ("binding_array", 0) => Role::Type,
        ("atomic", 0) | ("bitcast", 0) => Role::Type,
        _ if number == 0 && is_of_type(name) => Role::Type,
        _ => Role::Template,
    }
}

/// Whether a name is that of a vector, matrix or sampled texture.
fn is_of_type(name: &str) -> bool {
    name.starts_with("vec") || name.starts_with("mat") || name.starts_with("texture_")
}

/// The steps of an expression, which stands as the role says where it is a name.
#[cycle(expressions)]
pub(crate) fn walk_expression(
    node: &ExpressionNode,
    role: Role,
    list: &mut StepList,
) -> Result<(), AllocError> {
    let span = node.span;
    match node.node() {
        Expression::Literal(_) => push_value(ValueStep::Literal, span, list),
        Expression::Parenthesized(x) => walk_expression(&x.expression, Role::Value, list),
        Expression::NamedComponent(x) => {
            walk_expression(&x.base, Role::Value, list)?;
            let name = list.number(x.component.as_str())?;
            push_value(ValueStep::Select(name), span, list)
        }
        Expression::Indexing(x) => {
            walk_expression(&x.base, Role::Value, list)?;
            walk_expression(&x.index, Role::Value, list)?;
            push_value(ValueStep::Index, span, list)
        }
        Expression::Unary(x) => {
            walk_expression(&x.operand, Role::Value, list)?;
            push_value(ValueStep::Unary(x.operator), span, list)
        }
        Expression::Binary(x) => {
            walk_expression(&x.left, Role::Value, list)?;
            walk_expression(&x.right, Role::Value, list)?;
            push_value(ValueStep::Binary(x.operator), span, list)
        }
        Expression::FunctionCall(x) => walk_call(x.get(), span, list),
        Expression::TypeOrIdentifier(x) => walk_type(x, role, span, list),
    }
}

/// The steps of values, one by one.
#[cycle(expressions)]
fn walk_values(nodes: &[ExpressionNode], list: &mut StepList) -> Result<(), AllocError> {
    for node in nodes {
        walk_expression(node, Role::Value, list)?;
    }
    Ok(())
}

/// The steps of template arguments. How many there are.
#[cycle(expressions)]
fn walk_templates(ty: &TypeExpression, list: &mut StepList) -> Result<u32, AllocError> {
    match &ty.template_args {
        None => Ok(0),
        Some(inside) => {
            let arguments = inside.get().as_slice();
            for (number, argument) in arguments.iter().enumerate() {
                let role = template_role(ty.ident.as_str(), number);
                walk_expression(&argument.expression, role, list)?;
            }
            counted(arguments.len())
        }
    }
}

/// The number of a name that is used, which is told. One behind the path of a module has no name here.
fn mention(
    ty: &TypeExpression,
    role: Role,
    span: Span,
    list: &mut StepList,
) -> Result<u32, AllocError> {
    if ty.path.is_some() {
        return list.number("");
    }
    list.mention(ty.ident.as_str(), role, ty.template_args.is_some(), span)
}

/// The steps of a call.
#[cycle(expressions)]
pub(crate) fn walk_call(
    x: &FunctionCall,
    span: Span,
    list: &mut StepList,
) -> Result<(), AllocError> {
    let count = counted(x.arguments.len())?;
    let name = mention(&x.ty, Role::Callee(count), span, list)?;
    let templates = walk_templates(&x.ty, list)?;
    walk_values(x.arguments.as_slice(), list)?;
    let apply = ValueStep::Apply {
        name,
        templates,
        arguments: Some(count),
    };
    push_value(apply, span, list)
}

/// The steps of a type or a name. `_` is none.
#[cycle(expressions)]
pub(crate) fn walk_type(
    ty: &TypeExpression,
    role: Role,
    span: Span,
    list: &mut StepList,
) -> Result<(), AllocError> {
    if ty.path.is_none() && ty.ident.as_str() == "_" {
        return push_value(ValueStep::Unknown, span, list);
    }
    let name = mention(ty, role, span, list)?;
    let templates = walk_templates(ty, list)?;
    let apply = ValueStep::Apply {
        name,
        templates,
        arguments: None,
    };
    push_value(apply, span, list)
}

/// The steps of a value that is a scalar.
pub(crate) fn walk_scalar(node: &ExpressionNode, list: &mut StepList) -> Result<(), AllocError> {
    walk_expression(node, Role::Value, list)?;
    push_value(ValueStep::Scalar, node.span, list)
}

/// The steps of a value, where there is one.
pub(crate) fn walk_optional(
    node: &Option<ExpressionNode>,
    list: &mut StepList,
) -> Result<(), AllocError> {
    match node {
        None => Ok(()),
        Some(node) => walk_expression(node, Role::Value, list),
    }
}

/// The steps of a type, where there is one.
pub(crate) fn walk_optional_type(
    ty: &Option<TypeExpression>,
    span: Span,
    list: &mut StepList,
) -> Result<(), AllocError> {
    match ty {
        None => Ok(()),
        Some(ty) => walk_type(ty, Role::Type, span, list),
    }
}

/// The steps of an attribute.
fn walk_attribute(
    attribute: &Attribute,
    span: Span,
    list: &mut StepList,
) -> Result<(), AllocError> {
    match attribute {
        Attribute::Align(x)
        | Attribute::Binding(x)
        | Attribute::BlendSrc(x)
        | Attribute::Group(x)
        | Attribute::Id(x)
        | Attribute::Location(x)
        | Attribute::Size(x) => walk_expression(x, Role::Value, list),
        Attribute::WorkgroupSize(x) => {
            let x = x.get();
            walk_expression(&x.x, Role::Value, list)?;
            walk_optional(&x.y, list)?;
            walk_optional(&x.z, list)
        }
        Attribute::Custom(x) => {
            let name = list.number(x.get().name.as_str())?;
            list.push(Step::Attribute(name), span)
        }
        _ => Ok(()),
    }
}

/// The steps of attributes, one by one.
pub(crate) fn walk_attributes(
    attributes: &[AttributeNode],
    list: &mut StepList,
) -> Result<(), AllocError> {
    for attribute in attributes {
        walk_attribute(attribute.node(), attribute.span, list)?;
    }
    list.push(Step::Clear, Span { start: 0, end: 0 })
}
