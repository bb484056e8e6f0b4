//! Lists of the outermost expressions inside a part of a module.

ghost use Rattle.std.specs.Prelude.{◌≡◌, ◌∷◌, ◌++◌, [], OnOk};
ghost use Rattle.wesl_visit_expressions.specs.Expressions.{in_argument, in_type, in_call, in_option, expressions_in};
ghost use Rattle.wesl_visit_expressions.specs.Attributes.{in_sizes, in_custom, expressions_in_attribute};
ghost use Rattle.wesl_visit_children.specs.Turns.{pointed};
ghost use Rattle.std.specs.List.{flat_map};

use std::alloc::AllocError;
use wgsl_expressions::{
    Attribute, CustomAttribute, Expression, ExpressionNode, FunctionCall, TemplateArg,
    TypeExpression, WorkgroupSizeAttribute,
};

/// Lists the expressions in an expression.
#[tactic(auto, using(crate::proofs::Cases::inner))]
pub fn find_expression<'a>(
    expression: &'a Expression,
    found: &mut Vec<&'a ExpressionNode>,
) -> Result<(), AllocError>
    ensures { OnOk result (pointed found.new.items ≡ pointed found.old.items ++ (expressions_in expression.now)) }
{
    match expression {
        Expression::Literal(_) => Ok(()),
        Expression::Parenthesized(x) => find_node(&x.expression, found),
        Expression::NamedComponent(x) => find_node(&x.base, found),
        Expression::Indexing(x) => find_two(&x.base, &x.index, found),
        Expression::Unary(x) => find_node(&x.operand, found),
        Expression::Binary(x) => find_two(&x.left, &x.right, found),
        Expression::FunctionCall(x) => find_call(x.get(), found),
        Expression::TypeOrIdentifier(x) => find_type(x, found),
    }
}

/// Lists an expression.
pub fn find_node<'a>(
    node: &'a ExpressionNode,
    found: &mut Vec<&'a ExpressionNode>,
) -> Result<(), AllocError>
    ensures { OnOk result (pointed found.new.items ≡ pointed found.old.items ++ (node.now ∷ [])) }
{
    found.push(node)?;
    Ok(())
}

/// Lists expressions, one by one.
pub fn find_nodes<'a>(
    nodes: &'a [ExpressionNode],
    found: &mut Vec<&'a ExpressionNode>,
) -> Result<(), AllocError>
    ensures { OnOk result (pointed found.new.items ≡ pointed found.old.items ++ nodes.now) }
{
    for node in nodes {
        find_node(node, found)?;
    }
    Ok(())
}

/// Lists two expressions.
fn find_two<'a>(
    left: &'a ExpressionNode,
    right: &'a ExpressionNode,
    found: &mut Vec<&'a ExpressionNode>,
) -> Result<(), AllocError>
    ensures { OnOk result (pointed found.new.items ≡ pointed found.old.items ++ (left.now ∷ right.now ∷ [])) }
{
    find_node(left, found)?;
    find_node(right, found)
}

/// Lists the expressions in a call.
pub fn find_call<'a>(
    x: &'a FunctionCall,
    found: &mut Vec<&'a ExpressionNode>,
) -> Result<(), AllocError>
    ensures { OnOk result (pointed found.new.items ≡ pointed found.old.items ++ (in_call x.now)) }
{
    find_type(&x.ty, found)?;
    find_nodes(&x.arguments.as_slice(), found)
}

/// Lists the expressions in a type.
pub fn find_type<'a>(
    ty: &'a TypeExpression,
    found: &mut Vec<&'a ExpressionNode>,
) -> Result<(), AllocError>
    ensures { OnOk result (pointed found.new.items ≡ pointed found.old.items ++ (in_type ty.now)) }
{
    match &ty.template_args {
        None => Ok(()),
        Some(arguments) => find_arguments(arguments.get().as_slice(), found),
    }
}

/// Lists template arguments, one by one.
fn find_arguments<'a>(
    arguments: &'a [TemplateArg],
    found: &mut Vec<&'a ExpressionNode>,
) -> Result<(), AllocError>
    ensures { OnOk result (pointed found.new.items ≡ pointed found.old.items ++ (flat_map in_argument arguments.now)) }
{
    for argument in arguments {
        find_node(&argument.expression, found)?;
    }
    Ok(())
}

/// Lists an expression, where there is one.
pub fn find_option<'a>(
    node: &'a Option<ExpressionNode>,
    found: &mut Vec<&'a ExpressionNode>,
) -> Result<(), AllocError>
    ensures { OnOk result (pointed found.new.items ≡ pointed found.old.items ++ (in_option node.now)) }
{
    match node {
        None => Ok(()),
        Some(node) => find_node(node, found),
    }
}

/// Lists the sizes of `@workgroup_size`.
fn find_sizes<'a>(
    x: &'a WorkgroupSizeAttribute,
    found: &mut Vec<&'a ExpressionNode>,
) -> Result<(), AllocError>
    ensures { OnOk result (pointed found.new.items ≡ pointed found.old.items ++ (in_sizes x.now)) }
{
    find_node(&x.x, found)?;
    find_option(&x.y, found)?;
    find_option(&x.z, found)
}

/// Lists the arguments of a custom attribute.
fn find_custom<'a>(
    x: &'a CustomAttribute,
    found: &mut Vec<&'a ExpressionNode>,
) -> Result<(), AllocError>
    ensures { OnOk result (pointed found.new.items ≡ pointed found.old.items ++ (in_custom x.now)) }
{
    match &x.arguments {
        None => Ok(()),
        Some(arguments) => find_nodes(arguments.as_slice(), found),
    }
}

/// Lists the expressions in an attribute.
pub fn find_attribute<'a>(
    attribute: &'a Attribute,
    found: &mut Vec<&'a ExpressionNode>,
) -> Result<(), AllocError>
    ensures { OnOk result (pointed found.new.items ≡ pointed found.old.items ++ (expressions_in_attribute attribute.now)) }
{
    match attribute {
        Attribute::Align(x) => find_node(x, found),
        Attribute::Binding(x) => find_node(x, found),
        Attribute::BlendSrc(x) => find_node(x, found),
        Attribute::Group(x) => find_node(x, found),
        Attribute::Id(x) => find_node(x, found),
        Attribute::Location(x) => find_node(x, found),
        Attribute::Size(x) => find_node(x, found),
        Attribute::If(x) => find_node(x, found),
        Attribute::Elif(x) => find_node(x, found),
        Attribute::WorkgroupSize(x) => find_sizes(x.get(), found),
        Attribute::Custom(x) => find_custom(x.get(), found),
        Attribute::Builtin(_) => Ok(()),
        Attribute::Diagnostic(_) => Ok(()),
        Attribute::Interpolate(_) => Ok(()),
        Attribute::Const => Ok(()),
        Attribute::Invariant => Ok(()),
        Attribute::MustUse => Ok(()),
        Attribute::Vertex => Ok(()),
        Attribute::Fragment => Ok(()),
        Attribute::Compute => Ok(()),
        Attribute::Publish => Ok(()),
        Attribute::Else => Ok(()),
    }
}
