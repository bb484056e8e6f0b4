//! A closure that is called at each type and behind it at those inside it.

ghost use Rattle.std.specs.Prelude.{◌∷◌, []};
ghost use Rattle.wesl_visit_expressions.specs.Types.{types_in, types_inside, in_node, in_call, in_option};
ghost use Rattle.wesl_visit_expressions.specs.TypesAttributes.{in_sizes, in_custom, types_in_attribute};
ghost use Rattle.wesl_visit_children.specs.Turns.{CalledDeep};
ghost use Rattle.std.specs.Fn.{CalledAt};
ghost use Rattle.std.specs.List.{flat_map};

use wgsl_expressions::{
    Attribute, CustomAttribute, Expression, ExpressionNode, FunctionCall, TypeExpression,
    WorkgroupSizeAttribute,
};

/// Meets the types in an expression.
#[cycle(meet)]
#[tactic(auto, using(crate::proofs::TypesCases::inner))]
pub fn meet_expression<E, F: FnMut(&TypeExpression) -> Result<(), E>>(
    expression: &Expression,
    f: &mut F,
) -> Result<(), E>
    requires { F.IsAlwaysCallable f.old }
    ensures met { CalledDeep types_inside (CalledAt F.FnMut) f.old (types_in expression.now) result f.new }
    ensures callable { F.IsAlwaysCallable f.new }
{
    match expression {
        Expression::Literal(_) => Ok(()),
        Expression::Parenthesized(x) => meet_expression(x.expression.node(), f),
        Expression::NamedComponent(x) => meet_expression(x.base.node(), f),
        Expression::Indexing(x) => {
            meet_expression(x.base.node(), f)?;
            meet_expression(x.index.node(), f)
        }
        Expression::Unary(x) => meet_expression(x.operand.node(), f),
        Expression::Binary(x) => {
            meet_expression(x.left.node(), f)?;
            meet_expression(x.right.node(), f)
        }
        Expression::FunctionCall(x) => meet_call(x.get(), f),
        Expression::TypeOrIdentifier(x) => meet_type(x, f),
    }
}

/// Meets a type.
#[cycle(meet)]
pub fn meet_type<E, F: FnMut(&TypeExpression) -> Result<(), E>>(
    ty: &TypeExpression,
    f: &mut F,
) -> Result<(), E>
    requires { F.IsAlwaysCallable f.old }
    ensures met { CalledDeep types_inside (CalledAt F.FnMut) f.old (ty.now ∷ []) result f.new }
    ensures callable { F.IsAlwaysCallable f.new }
{
    f(ty)?;
    meet_arguments(ty, f)
}

/// Meets the types inside a type, in its template arguments.
#[cycle(meet)]
pub fn meet_arguments<E, F: FnMut(&TypeExpression) -> Result<(), E>>(
    ty: &TypeExpression,
    f: &mut F,
) -> Result<(), E>
    requires { F.IsAlwaysCallable f.old }
    ensures met { CalledDeep types_inside (CalledAt F.FnMut) f.old (types_inside ty.now) result f.new }
    ensures callable { F.IsAlwaysCallable f.new }
{
    match &ty.template_args {
        None => Ok(()),
        Some(arguments) => {
            for argument in arguments.get().as_slice() {
                meet_expression(argument.expression.node(), f)?;
            }
            Ok(())
        }
    }
}

/// Meets the types in a call: that of its callee and those in its arguments.
#[cycle(meet)]
pub fn meet_call<E, F: FnMut(&TypeExpression) -> Result<(), E>>(
    x: &FunctionCall,
    f: &mut F,
) -> Result<(), E>
    requires { F.IsAlwaysCallable f.old }
    ensures met { CalledDeep types_inside (CalledAt F.FnMut) f.old (in_call x.now) result f.new }
    ensures callable { F.IsAlwaysCallable f.new }
{
    meet_type(&x.ty, f)?;
    meet_nodes(x.arguments.as_slice(), f)
}

/// Meets the types in expressions, one by one.
#[cycle(meet)]
pub fn meet_nodes<E, F: FnMut(&TypeExpression) -> Result<(), E>>(
    nodes: &[ExpressionNode],
    f: &mut F,
) -> Result<(), E>
    requires { F.IsAlwaysCallable f.old }
    ensures met { CalledDeep types_inside (CalledAt F.FnMut) f.old (flat_map in_node nodes.now) result f.new }
    ensures callable { F.IsAlwaysCallable f.new }
{
    for node in nodes {
        meet_expression(node.node(), f)?;
    }
    Ok(())
}

/// Meets the types in an expression, where there is one.
pub fn meet_option<E, F: FnMut(&TypeExpression) -> Result<(), E>>(
    node: &Option<ExpressionNode>,
    f: &mut F,
) -> Result<(), E>
    requires { F.IsAlwaysCallable f.old }
    ensures met { CalledDeep types_inside (CalledAt F.FnMut) f.old (in_option node.now) result f.new }
    ensures callable { F.IsAlwaysCallable f.new }
{
    match node {
        None => Ok(()),
        Some(node) => meet_expression(node.node(), f),
    }
}

/// Meets the types in the sizes of `@workgroup_size`.
fn meet_sizes<E, F: FnMut(&TypeExpression) -> Result<(), E>>(
    x: &WorkgroupSizeAttribute,
    f: &mut F,
) -> Result<(), E>
    requires { F.IsAlwaysCallable f.old }
    ensures met { CalledDeep types_inside (CalledAt F.FnMut) f.old (in_sizes x.now) result f.new }
    ensures callable { F.IsAlwaysCallable f.new }
{
    meet_expression(x.x.node(), f)?;
    meet_option(&x.y, f)?;
    meet_option(&x.z, f)
}

/// Meets the types in the arguments of a custom attribute.
fn meet_custom<E, F: FnMut(&TypeExpression) -> Result<(), E>>(
    x: &CustomAttribute,
    f: &mut F,
) -> Result<(), E>
    requires { F.IsAlwaysCallable f.old }
    ensures met { CalledDeep types_inside (CalledAt F.FnMut) f.old (in_custom x.now) result f.new }
    ensures callable { F.IsAlwaysCallable f.new }
{
    match &x.arguments {
        None => Ok(()),
        Some(arguments) => meet_nodes(arguments.as_slice(), f),
    }
}

/// Meets the types in an attribute.
pub fn meet_attribute<E, F: FnMut(&TypeExpression) -> Result<(), E>>(
    attribute: &Attribute,
    f: &mut F,
) -> Result<(), E>
    requires { F.IsAlwaysCallable f.old }
    ensures met { CalledDeep types_inside (CalledAt F.FnMut) f.old (types_in_attribute attribute.now) result f.new }
    ensures callable { F.IsAlwaysCallable f.new }
{
    match attribute {
        Attribute::Align(x) => meet_expression(x.node(), f),
        Attribute::Binding(x) => meet_expression(x.node(), f),
        Attribute::BlendSrc(x) => meet_expression(x.node(), f),
        Attribute::Group(x) => meet_expression(x.node(), f),
        Attribute::Id(x) => meet_expression(x.node(), f),
        Attribute::Location(x) => meet_expression(x.node(), f),
        Attribute::Size(x) => meet_expression(x.node(), f),
        Attribute::If(x) => meet_expression(x.node(), f),
        Attribute::Elif(x) => meet_expression(x.node(), f),
        Attribute::WorkgroupSize(x) => meet_sizes(x.get(), f),
        Attribute::Custom(x) => meet_custom(x.get(), f),
        Attribute::Builtin(_) => Ok(()),
        Attribute::Diagnostic(_) => Ok(()),
        Attribute::Interpolate(_) => Ok(()),
        Attribute::Const => Ok(()),
        Attribute::Invariant => Ok(()),
        Attribute::MustUse => Ok(()),
        Attribute::Vertex => Ok(()),
        Attribute::Fragment => Ok(()),
        Attribute::Compute => Ok(()),
        Attribute::Publish => Ok(()),
        Attribute::Else => Ok(()),
    }
}
