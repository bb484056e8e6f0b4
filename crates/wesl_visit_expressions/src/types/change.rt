//! A closure that is called at types, which it may change: the outermost ones, or, where the visit is deep, those inside each type and
//! behind them the type itself.

ghost use Rattle.std.specs.Prelude.{◌≡◌, ◌∷◌, ◌++◌, [], map};
ghost use Rattle.wesl_visit_expressions.specs.Types.{types_in, types_inside, in_node, in_call, in_option, around_types, around_node, around_call, around_inside, inside_by, around_by};
ghost use Rattle.wesl_visit_expressions.specs.TypesAttributes.{in_sizes, in_custom, types_in_attribute, around_sizes, around_custom, around_type_attribute};
ghost use Rattle.wesl_visit_children.specs.Turns.{ChangedDeep};
ghost use Rattle.std.specs.Fn.{CalledAtMut};
ghost use Rattle.std.specs.List.{flat_map};
ghost use Rattle.std.specs.Option.{option_map};

use wgsl_base::Items;
use wgsl_expressions::{
    Attribute, CustomAttribute, Expression, ExpressionNode, FunctionCall, TypeExpression,
    WorkgroupSizeAttribute,
};

/// Meets the types in an expression.
#[cycle(change)]
pub fn change_expression<E, F: FnMut(&mut TypeExpression) -> Result<(), E>>(
    expression: &mut Expression,
    deep: bool,
    f: &mut F,
) -> Result<(), E>
    requires { F.IsAlwaysCallable f.old }
    ensures changed { ChangedDeep (inside_by deep) (around_by deep) (CalledAtMut F.FnMut) f.old (types_in expression.old) result f.new (types_in expression.new) }
    ensures rest { around_types expression.new ≡ around_types expression.old }
    ensures callable { F.IsAlwaysCallable f.new }
{
    match expression {
        Expression::Literal(_) => Ok(()),
        Expression::Parenthesized(x) => change_expression(x.expression.node_mut(), deep, f),
        Expression::NamedComponent(x) => change_expression(x.base.node_mut(), deep, f),
        Expression::Indexing(x) => {
            change_expression(x.base.node_mut(), deep, f)?;
            change_expression(x.index.node_mut(), deep, f)
        }
        Expression::Unary(x) => change_expression(x.operand.node_mut(), deep, f),
        Expression::Binary(x) => {
            change_expression(x.left.node_mut(), deep, f)?;
            change_expression(x.right.node_mut(), deep, f)
        }
        Expression::FunctionCall(x) => change_call(x.get_mut(), deep, f),
        Expression::TypeOrIdentifier(x) => change_type(x, deep, f),
    }
}

/// Meets a type.
#[cycle(change)]
pub fn change_type<E, F: FnMut(&mut TypeExpression) -> Result<(), E>>(
    ty: &mut TypeExpression,
    deep: bool,
    f: &mut F,
) -> Result<(), E>
    requires { F.IsAlwaysCallable f.old }
    ensures changed { ChangedDeep (inside_by deep) (around_by deep) (CalledAtMut F.FnMut) f.old (ty.old ∷ []) result f.new (ty.new ∷ []) }
    ensures callable { F.IsAlwaysCallable f.new }
{
    change_inside(ty, deep, f)?;
    f(ty)
}

/// Meets what a visit meets inside a type before it.
#[cycle(change)]
fn change_inside<E, F: FnMut(&mut TypeExpression) -> Result<(), E>>(
    ty: &mut TypeExpression,
    deep: bool,
    f: &mut F,
) -> Result<(), E>
    requires { F.IsAlwaysCallable f.old }
    ensures changed { ChangedDeep (inside_by deep) (around_by deep) (CalledAtMut F.FnMut) f.old (inside_by deep ty.old) result f.new (inside_by deep ty.new) }
    ensures rest { around_by deep ty.new ≡ around_by deep ty.old }
    ensures callable { F.IsAlwaysCallable f.new }
{
    if deep {
        change_arguments(ty, deep, f)
    } else {
        Ok(())
    }
}

/// Meets the types inside a type, in its template arguments.
#[cycle(change)]
pub fn change_arguments<E, F: FnMut(&mut TypeExpression) -> Result<(), E>>(
    ty: &mut TypeExpression,
    deep: bool,
    f: &mut F,
) -> Result<(), E>
    requires { F.IsAlwaysCallable f.old }
    ensures changed { ChangedDeep (inside_by deep) (around_by deep) (CalledAtMut F.FnMut) f.old (types_inside ty.old) result f.new (types_inside ty.new) }
    ensures rest { around_inside ty.new ≡ around_inside ty.old }
    ensures callable { F.IsAlwaysCallable f.new }
{
    match &mut ty.template_args {
        None => Ok(()),
        Some(arguments) => {
            let arguments = arguments.get_mut();
            for i in 0..arguments.len() {
                change_expression(arguments.get_mut(i).expression.node_mut(), deep, f)?;
            }
            Ok(())
        }
    }
}

/// Meets the types in a call: that of its callee and those in its arguments.
#[cycle(change)]
pub fn change_call<E, F: FnMut(&mut TypeExpression) -> Result<(), E>>(
    x: &mut FunctionCall,
    deep: bool,
    f: &mut F,
) -> Result<(), E>
    requires { F.IsAlwaysCallable f.old }
    ensures changed { ChangedDeep (inside_by deep) (around_by deep) (CalledAtMut F.FnMut) f.old (in_call x.old) result f.new (in_call x.new) }
    ensures rest { around_call around_types x.new ≡ around_call around_types x.old }
    ensures callable { F.IsAlwaysCallable f.new }
{
    change_type(&mut x.ty, deep, f)?;
    change_nodes(&mut x.arguments, deep, f)
}

/// Meets the types in expressions, one by one.
#[cycle(change)]
pub fn change_nodes<E, F: FnMut(&mut TypeExpression) -> Result<(), E>>(
    nodes: &mut Items<ExpressionNode>,
    deep: bool,
    f: &mut F,
) -> Result<(), E>
    requires { F.IsAlwaysCallable f.old }
    ensures changed { ChangedDeep (inside_by deep) (around_by deep) (CalledAtMut F.FnMut) f.old (flat_map in_node nodes.old) result f.new (flat_map in_node nodes.new) }
    ensures rest { map around_node nodes.new ≡ map around_node nodes.old }
    ensures callable { F.IsAlwaysCallable f.new }
{
    for i in 0..nodes.len() {
        change_expression(nodes.get_mut(i).node_mut(), deep, f)?;
    }
    Ok(())
}

/// Meets the types in an expression, where there is one.
pub fn change_option<E, F: FnMut(&mut TypeExpression) -> Result<(), E>>(
    node: &mut Option<ExpressionNode>,
    deep: bool,
    f: &mut F,
) -> Result<(), E>
    requires { F.IsAlwaysCallable f.old }
    ensures changed { ChangedDeep (inside_by deep) (around_by deep) (CalledAtMut F.FnMut) f.old (in_option node.old) result f.new (in_option node.new) }
    ensures rest { option_map around_node node.new ≡ option_map around_node node.old }
    ensures callable { F.IsAlwaysCallable f.new }
{
    match node {
        None => Ok(()),
        Some(node) => change_expression(node.node_mut(), deep, f),
    }
}

/// Meets the types in the sizes of `@workgroup_size`.
fn change_sizes<E, F: FnMut(&mut TypeExpression) -> Result<(), E>>(
    x: &mut WorkgroupSizeAttribute,
    deep: bool,
    f: &mut F,
) -> Result<(), E>
    requires { F.IsAlwaysCallable f.old }
    ensures changed { ChangedDeep (inside_by deep) (around_by deep) (CalledAtMut F.FnMut) f.old (in_sizes x.old) result f.new (in_sizes x.new) }
    ensures rest { around_sizes x.new ≡ around_sizes x.old }
    ensures callable { F.IsAlwaysCallable f.new }
{
    change_expression(x.x.node_mut(), deep, f)?;
    change_option(&mut x.y, deep, f)?;
    change_option(&mut x.z, deep, f)
}

/// Meets the types in the arguments of a custom attribute.
fn change_custom<E, F: FnMut(&mut TypeExpression) -> Result<(), E>>(
    x: &mut CustomAttribute,
    deep: bool,
    f: &mut F,
) -> Result<(), E>
    requires { F.IsAlwaysCallable f.old }
    ensures changed { ChangedDeep (inside_by deep) (around_by deep) (CalledAtMut F.FnMut) f.old (in_custom x.old) result f.new (in_custom x.new) }
    ensures rest { around_custom x.new ≡ around_custom x.old }
    ensures callable { F.IsAlwaysCallable f.new }
{
    match &mut x.arguments {
        None => Ok(()),
        Some(arguments) => change_nodes(arguments, deep, f),
    }
}

/// Meets the types in an attribute.
pub fn change_attribute<E, F: FnMut(&mut TypeExpression) -> Result<(), E>>(
    attribute: &mut Attribute,
    deep: bool,
    f: &mut F,
) -> Result<(), E>
    requires { F.IsAlwaysCallable f.old }
    ensures changed { ChangedDeep (inside_by deep) (around_by deep) (CalledAtMut F.FnMut) f.old (types_in_attribute attribute.old) result f.new (types_in_attribute attribute.new) }
    ensures rest { around_type_attribute attribute.new ≡ around_type_attribute attribute.old }
    ensures callable { F.IsAlwaysCallable f.new }
{
    match attribute {
        Attribute::Align(x) => change_expression(x.node_mut(), deep, f),
        Attribute::Binding(x) => change_expression(x.node_mut(), deep, f),
        Attribute::BlendSrc(x) => change_expression(x.node_mut(), deep, f),
        Attribute::Group(x) => change_expression(x.node_mut(), deep, f),
        Attribute::Id(x) => change_expression(x.node_mut(), deep, f),
        Attribute::Location(x) => change_expression(x.node_mut(), deep, f),
        Attribute::Size(x) => change_expression(x.node_mut(), deep, f),
        Attribute::If(x) => change_expression(x.node_mut(), deep, f),
        Attribute::Elif(x) => change_expression(x.node_mut(), deep, f),
        Attribute::WorkgroupSize(x) => change_sizes(x.get_mut(), deep, f),
        Attribute::Custom(x) => change_custom(x.get_mut(), deep, f),
        Attribute::Builtin(_) => Ok(()),
        Attribute::Diagnostic(_) => Ok(()),
        Attribute::Interpolate(_) => Ok(()),
        Attribute::Const => Ok(()),
        Attribute::Invariant => Ok(()),
        Attribute::MustUse => Ok(()),
        Attribute::Vertex => Ok(()),
        Attribute::Fragment => Ok(()),
        Attribute::Compute => Ok(()),
        Attribute::Publish => Ok(()),
        Attribute::Else => Ok(()),
    }
}
