//! Lists of the outermost types inside a part of a module.

ghost use Rattle.std.specs.Prelude.{◌≡◌, ◌∷◌, ◌++◌, [], OnOk};
ghost use Rattle.wesl_visit_expressions.specs.Types.{types_in, types_inside, in_node, in_call, in_option};
ghost use Rattle.wesl_visit_expressions.specs.TypesAttributes.{in_sizes, in_custom, types_in_attribute};
ghost use Rattle.wesl_visit_children.specs.Turns.{pointed};
ghost use Rattle.std.specs.List.{flat_map};

use std::alloc::AllocError;
use wgsl_expressions::{
    Attribute, CustomAttribute, Expression, ExpressionNode, FunctionCall, TypeExpression,
    WorkgroupSizeAttribute,
};

/// Lists the types in an expression.
#[cycle(find)]
#[tactic(auto, using(crate::proofs::TypesCases::inner))]
pub fn find_expression<'a>(
    expression: &'a Expression,
    found: &mut Vec<&'a TypeExpression>,
) -> Result<(), AllocError>
    ensures { OnOk result (pointed found.new.items ≡ pointed found.old.items ++ (types_in expression.now)) }
{
    match expression {
        Expression::Literal(_) => Ok(()),
        Expression::Parenthesized(x) => find_expression(x.expression.node(), found),
        Expression::NamedComponent(x) => find_expression(x.base.node(), found),
        Expression::Indexing(x) => {
            find_expression(x.base.node(), found)?;
            find_expression(x.index.node(), found)
        }
        Expression::Unary(x) => find_expression(x.operand.node(), found),
        Expression::Binary(x) => {
            find_expression(x.left.node(), found)?;
            find_expression(x.right.node(), found)
        }
        Expression::FunctionCall(x) => find_call(x.get(), found),
        Expression::TypeOrIdentifier(x) => find_type(x, found),
    }
}

/// Lists a type.
pub fn find_type<'a>(
    ty: &'a TypeExpression,
    found: &mut Vec<&'a TypeExpression>,
) -> Result<(), AllocError>
    ensures { OnOk result (pointed found.new.items ≡ pointed found.old.items ++ (ty.now ∷ [])) }
{
    found.push(ty)?;
    Ok(())
}

/// Lists the types in a call: that of its callee and those in its arguments.
#[cycle(find)]
pub fn find_call<'a>(
    x: &'a FunctionCall,
    found: &mut Vec<&'a TypeExpression>,
) -> Result<(), AllocError>
    ensures { OnOk result (pointed found.new.items ≡ pointed found.old.items ++ (in_call x.now)) }
{
    find_type(&x.ty, found)?;
    find_nodes(x.arguments.as_slice(), found)
}

/// Lists the types in expressions, one by one.
#[cycle(find)]
pub fn find_nodes<'a>(
    nodes: &'a [ExpressionNode],
    found: &mut Vec<&'a TypeExpression>,
) -> Result<(), AllocError>
    ensures { OnOk result (pointed found.new.items ≡ pointed found.old.items ++ (flat_map in_node nodes.now)) }
{
    for node in nodes {
        find_expression(node.node(), found)?;
    }
    Ok(())
}

/// Lists the types inside a type, in its template arguments.
pub fn find_arguments<'a>(
    ty: &'a TypeExpression,
    found: &mut Vec<&'a TypeExpression>,
) -> Result<(), AllocError>
    ensures { OnOk result (pointed found.new.items ≡ pointed found.old.items ++ (types_inside ty.now)) }
{
    if let Some(arguments) = &ty.template_args {
        for argument in arguments.get().as_slice() {
            find_expression(argument.expression.node(), found)?;
        }
    }
    Ok(())
}

/// Lists the types in an expression, where there is one.
pub fn find_option<'a>(
    node: &'a Option<ExpressionNode>,
    found: &mut Vec<&'a TypeExpression>,
) -> Result<(), AllocError>
    ensures { OnOk result (pointed found.new.items ≡ pointed found.old.items ++ (in_option node.now)) }
{
    match node {
        None => Ok(()),
        Some(node) => find_expression(node.node(), found),
    }
}

/// Lists the types in the sizes of `@workgroup_size`.
fn find_sizes<'a>(
    x: &'a WorkgroupSizeAttribute,
    found: &mut Vec<&'a TypeExpression>,
) -> Result<(), AllocError>
    ensures { OnOk result (pointed found.new.items ≡ pointed found.old.items ++ (in_sizes x.now)) }
{
    find_expression(x.x.node(), found)?;
    find_option(&x.y, found)?;
    find_option(&x.z, found)
}

/// Lists the types in the arguments of a custom attribute.
fn find_custom<'a>(
    x: &'a CustomAttribute,
    found: &mut Vec<&'a TypeExpression>,
) -> Result<(), AllocError>
    ensures { OnOk result (pointed found.new.items ≡ pointed found.old.items ++ (in_custom x.now)) }
{
    match &x.arguments {
        None => Ok(()),
        Some(arguments) => find_nodes(arguments.as_slice(), found),
    }
}

/// Lists the types in an attribute.
pub fn find_attribute<'a>(
    attribute: &'a Attribute,
    found: &mut Vec<&'a TypeExpression>,
) -> Result<(), AllocError>
    ensures { OnOk result (pointed found.new.items ≡ pointed found.old.items ++ (types_in_attribute attribute.now)) }
{
    match attribute {
        Attribute::Align(x) => find_expression(x.node(), found),
        Attribute::Binding(x) => find_expression(x.node(), found),
        Attribute::BlendSrc(x) => find_expression(x.node(), found),
        Attribute::Group(x) => find_expression(x.node(), found),
        Attribute::Id(x) => find_expression(x.node(), found),
        Attribute::Location(x) => find_expression(x.node(), found),
        Attribute::Size(x) => find_expression(x.node(), found),
        Attribute::If(x) => find_expression(x.node(), found),
        Attribute::Elif(x) => find_expression(x.node(), found),
        Attribute::WorkgroupSize(x) => find_sizes(x.get(), found),
        Attribute::Custom(x) => find_custom(x.get(), found),
        Attribute::Builtin(_) => Ok(()),
        Attribute::Diagnostic(_) => Ok(()),
        Attribute::Interpolate(_) => Ok(()),
        Attribute::Const => Ok(()),
        Attribute::Invariant => Ok(()),
        Attribute::MustUse => Ok(()),
        Attribute::Vertex => Ok(()),
        Attribute::Fragment => Ok(()),
        Attribute::Compute => Ok(()),
        Attribute::Publish => Ok(()),
        Attribute::Else => Ok(()),
    }
}
