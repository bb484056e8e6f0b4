//! A closure that is called at each expression and behind it at those inside it.

ghost use Rattle.std.specs.Prelude.{◌∷◌, []};
ghost use Rattle.wesl_visit_expressions.specs.Expressions.{in_argument, in_type, in_call, in_option, expressions_in, expressions_inside};
ghost use Rattle.wesl_visit_expressions.specs.Attributes.{in_sizes, in_custom, expressions_in_attribute};
ghost use Rattle.wesl_visit_children.specs.Turns.{CalledDeep};
ghost use Rattle.std.specs.Fn.{CalledAt};
ghost use Rattle.std.specs.List.{flat_map};

use wgsl_expressions::{
    Attribute, BinaryExpression, CustomAttribute, Expression, ExpressionNode, FunctionCall,
    IndexingExpression, TemplateArg, TypeExpression, WorkgroupSizeAttribute,
};

/// Meets the expressions in an expression.
#[cycle(meet)]
#[tactic(auto, using(crate::proofs::Cases::inner))]
pub fn meet_expression<E, F: FnMut(&ExpressionNode) -> Result<(), E>>(
    expression: &Expression,
    f: &mut F,
) -> Result<(), E>
    requires { F.IsAlwaysCallable f.old }
    ensures met { CalledDeep expressions_inside (CalledAt F.FnMut) f.old (expressions_in expression.now) result f.new }
    ensures callable { F.IsAlwaysCallable f.new }
{
    match expression {
        Expression::Literal(_) => Ok(()),
        Expression::Parenthesized(x) => meet_node(&x.expression, f),
        Expression::NamedComponent(x) => meet_node(&x.base, f),
        Expression::Indexing(x) => meet_indexing(x, f),
        Expression::Unary(x) => meet_node(&x.operand, f),
        Expression::Binary(x) => meet_binary(x, f),
        Expression::FunctionCall(x) => meet_call(x.get(), f),
        Expression::TypeOrIdentifier(x) => meet_type(x, f),
    }
}

/// Meets an expression.
#[cycle(meet)]
pub fn meet_node<E, F: FnMut(&ExpressionNode) -> Result<(), E>>(
    node: &ExpressionNode,
    f: &mut F,
) -> Result<(), E>
    requires { F.IsAlwaysCallable f.old }
    ensures met { CalledDeep expressions_inside (CalledAt F.FnMut) f.old (node.now ∷ []) result f.new }
    ensures callable { F.IsAlwaysCallable f.new }
{
    f(node)?;
    meet_expression(node.node(), f)
}

/// Meets expressions, one by one.
#[cycle(meet)]
pub fn meet_nodes<E, F: FnMut(&ExpressionNode) -> Result<(), E>>(
    nodes: &[ExpressionNode],
    f: &mut F,
) -> Result<(), E>
    requires { F.IsAlwaysCallable f.old }
    ensures met { CalledDeep expressions_inside (CalledAt F.FnMut) f.old nodes.now result f.new }
    ensures callable { F.IsAlwaysCallable f.new }
{
    for node in nodes {
        meet_node(node, f)?;
    }
    Ok(())
}

/// Meets a base and its index.
#[cycle(meet)]
fn meet_indexing<E, F: FnMut(&ExpressionNode) -> Result<(), E>>(
    x: &IndexingExpression,
    f: &mut F,
) -> Result<(), E>
    requires { F.IsAlwaysCallable f.old }
    ensures met { CalledDeep expressions_inside (CalledAt F.FnMut) f.old (x.now.base ∷ x.now.index ∷ []) result f.new }
    ensures callable { F.IsAlwaysCallable f.new }
{
    meet_node(&x.base, f)?;
    meet_node(&x.index, f)
}

/// Meets two operands.
#[cycle(meet)]
fn meet_binary<E, F: FnMut(&ExpressionNode) -> Result<(), E>>(
    x: &BinaryExpression,
    f: &mut F,
) -> Result<(), E>
    requires { F.IsAlwaysCallable f.old }
    ensures met { CalledDeep expressions_inside (CalledAt F.FnMut) f.old (x.now.left ∷ x.now.right ∷ []) result f.new }
    ensures callable { F.IsAlwaysCallable f.new }
{
    meet_node(&x.left, f)?;
    meet_node(&x.right, f)
}

/// Meets the expressions in a call.
#[cycle(meet)]
pub fn meet_call<E, F: FnMut(&ExpressionNode) -> Result<(), E>>(
    x: &FunctionCall,
    f: &mut F,
) -> Result<(), E>
    requires { F.IsAlwaysCallable f.old }
    ensures met { CalledDeep expressions_inside (CalledAt F.FnMut) f.old (in_call x.now) result f.new }
    ensures callable { F.IsAlwaysCallable f.new }
{
    meet_type(&x.ty, f)?;
    meet_nodes(&x.arguments.as_slice(), f)
}

/// Meets the expressions in a type.
#[cycle(meet)]
pub fn meet_type<E, F: FnMut(&ExpressionNode) -> Result<(), E>>(
    ty: &TypeExpression,
    f: &mut F,
) -> Result<(), E>
    requires { F.IsAlwaysCallable f.old }
    ensures met { CalledDeep expressions_inside (CalledAt F.FnMut) f.old (in_type ty.now) result f.new }
    ensures callable { F.IsAlwaysCallable f.new }
{
    match &ty.template_args {
        None => Ok(()),
        Some(arguments) => meet_arguments(arguments.get().as_slice(), f),
    }
}

/// Meets template arguments, one by one.
#[cycle(meet)]
fn meet_arguments<E, F: FnMut(&ExpressionNode) -> Result<(), E>>(
    arguments: &[TemplateArg],
    f: &mut F,
) -> Result<(), E>
    requires { F.IsAlwaysCallable f.old }
    ensures met { CalledDeep expressions_inside (CalledAt F.FnMut) f.old (flat_map in_argument arguments.now) result f.new }
    ensures callable { F.IsAlwaysCallable f.new }
{
    for argument in arguments {
        meet_node(&argument.expression, f)?;
    }
    Ok(())
}

/// Meets an expression, where there is one.
pub fn meet_option<E, F: FnMut(&ExpressionNode) -> Result<(), E>>(
    node: &Option<ExpressionNode>,
    f: &mut F,
) -> Result<(), E>
    requires { F.IsAlwaysCallable f.old }
    ensures met { CalledDeep expressions_inside (CalledAt F.FnMut) f.old (in_option node.now) result f.new }
    ensures callable { F.IsAlwaysCallable f.new }
{
    match node {
        None => Ok(()),
        Some(node) => meet_node(node, f),
    }
}

/// Meets the sizes of `@workgroup_size`.
fn meet_sizes<E, F: FnMut(&ExpressionNode) -> Result<(), E>>(
    x: &WorkgroupSizeAttribute,
    f: &mut F,
) -> Result<(), E>
    requires { F.IsAlwaysCallable f.old }
    ensures met { CalledDeep expressions_inside (CalledAt F.FnMut) f.old (in_sizes x.now) result f.new }
    ensures callable { F.IsAlwaysCallable f.new }
{
    meet_node(&x.x, f)?;
    meet_option(&x.y, f)?;
    meet_option(&x.z, f)
}

/// Meets the arguments of a custom attribute.
fn meet_custom<E, F: FnMut(&ExpressionNode) -> Result<(), E>>(
    x: &CustomAttribute,
    f: &mut F,
) -> Result<(), E>
    requires { F.IsAlwaysCallable f.old }
    ensures met { CalledDeep expressions_inside (CalledAt F.FnMut) f.old (in_custom x.now) result f.new }
    ensures callable { F.IsAlwaysCallable f.new }
{
    match &x.arguments {
        None => Ok(()),
        Some(arguments) => meet_nodes(arguments.as_slice(), f),
    }
}

/// Meets the expressions in an attribute.
pub fn meet_attribute<E, F: FnMut(&ExpressionNode) -> Result<(), E>>(
    attribute: &Attribute,
    f: &mut F,
) -> Result<(), E>
    requires { F.IsAlwaysCallable f.old }
    ensures met { CalledDeep expressions_inside (CalledAt F.FnMut) f.old (expressions_in_attribute attribute.now) result f.new }
    ensures callable { F.IsAlwaysCallable f.new }
{
    match attribute {
        Attribute::Align(x) => meet_node(x, f),
        Attribute::Binding(x) => meet_node(x, f),
        Attribute::BlendSrc(x) => meet_node(x, f),
        Attribute::Group(x) => meet_node(x, f),
        Attribute::Id(x) => meet_node(x, f),
        Attribute::Location(x) => meet_node(x, f),
        Attribute::Size(x) => meet_node(x, f),
        Attribute::If(x) => meet_node(x, f),
        Attribute::Elif(x) => meet_node(x, f),
        Attribute::WorkgroupSize(x) => meet_sizes(x.get(), f),
        Attribute::Custom(x) => meet_custom(x.get(), f),
        Attribute::Builtin(_) => Ok(()),
        Attribute::Diagnostic(_) => Ok(()),
        Attribute::Interpolate(_) => Ok(()),
        Attribute::Const => Ok(()),
        Attribute::Invariant => Ok(()),
        Attribute::MustUse => Ok(()),
        Attribute::Vertex => Ok(()),
        Attribute::Fragment => Ok(()),
        Attribute::Compute => Ok(()),
        Attribute::Publish => Ok(()),
        Attribute::Else => Ok(()),
    }
}
