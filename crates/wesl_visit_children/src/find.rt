//! Lists of attributes, expressions and types as parts.

ghost use Rattle.std.specs.Prelude.{◌≡◌, ◌++◌, OnOk};
ghost use Rattle.wesl_visit_children.specs.Parts.{in_attributes, in_expression, in_option, in_ty, in_optional_type, in_arguments, in_call};
ghost use Rattle.wesl_visit_children.specs.Listed.{parts};

use crate::part::PartRef;
use std::alloc::AllocError;
use wgsl_expressions::{AttributeNode, ExpressionNode, FunctionCall, TypeExpression};

/// Lists attributes, one by one.
pub(crate) fn find_attributes<'a>(
    attributes: &'a [AttributeNode],
    found: &mut Vec<PartRef<'a>>,
) -> Result<(), AllocError>
    ensures { OnOk result (parts found.new.items ≡ parts found.old.items ++ (in_attributes attributes.now)) }
{
    for attribute in attributes {
        found.push(PartRef::Attribute(attribute))?;
    }
    Ok(())
}

/// Lists an expression.
pub(crate) fn find_expression<'a>(
    expression: &'a ExpressionNode,
    found: &mut Vec<PartRef<'a>>,
) -> Result<(), AllocError>
    ensures { OnOk result (parts found.new.items ≡ parts found.old.items ++ (in_expression expression.now)) }
{
    found.push(PartRef::Expression(expression))?;
    Ok(())
}

/// Lists an expression, where there is one.
pub(crate) fn find_option<'a>(
    expression: &'a Option<ExpressionNode>,
    found: &mut Vec<PartRef<'a>>,
) -> Result<(), AllocError>
    ensures { OnOk result (parts found.new.items ≡ parts found.old.items ++ (in_option expression.now)) }
{
    match expression {
        None => Ok(()),
        Some(expression) => find_expression(expression, found),
    }
}

/// Lists a type.
pub(crate) fn find_type<'a>(
    ty: &'a TypeExpression,
    found: &mut Vec<PartRef<'a>>,
) -> Result<(), AllocError>
    ensures { OnOk result (parts found.new.items ≡ parts found.old.items ++ (in_ty ty.now)) }
{
    found.push(PartRef::Type(ty))?;
    Ok(())
}

/// Lists a type, where there is one.
pub(crate) fn find_optional_type<'a>(
    ty: &'a Option<TypeExpression>,
    found: &mut Vec<PartRef<'a>>,
) -> Result<(), AllocError>
    ensures { OnOk result (parts found.new.items ≡ parts found.old.items ++ (in_optional_type ty.now)) }
{
    match ty {
        None => Ok(()),
        Some(ty) => find_type(ty, found),
    }
}

/// Lists arguments, one by one.
fn find_arguments<'a>(
    arguments: &'a [ExpressionNode],
    found: &mut Vec<PartRef<'a>>,
) -> Result<(), AllocError>
    ensures { OnOk result (parts found.new.items ≡ parts found.old.items ++ (in_arguments arguments.now)) }
{
    for argument in arguments {
        find_expression(argument, found)?;
    }
    Ok(())
}

/// Lists what is called, and the arguments.
pub(crate) fn find_call<'a>(
    x: &'a FunctionCall,
    found: &mut Vec<PartRef<'a>>,
) -> Result<(), AllocError>
    ensures { OnOk result (parts found.new.items ≡ parts found.old.items ++ (in_call x.now)) }
{
    find_type(&x.ty, found)?;
    find_arguments(x.arguments.as_slice(), found)
}
