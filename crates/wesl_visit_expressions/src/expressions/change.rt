//! A closure that is called at expressions, which it may change: the outermost ones, or, where the visit is deep, those inside each
//! expression and behind them the expression itself.

ghost use Rattle.std.specs.Prelude.{◌≡◌, ◌∷◌, [], map};
ghost use Rattle.wesl_visit_expressions.specs.Expressions.{in_argument, in_type, in_call, in_option, expressions_in, around_node, around_parenthesized, around_component, around_indexing, around_unary, around_binary, around_argument, around_type, around_call, around_expressions, inside_by, around_by};
ghost use Rattle.wesl_visit_expressions.specs.Attributes.{in_sizes, in_custom, expressions_in_attribute, around_sizes, around_custom, around_attribute};
ghost use Rattle.wesl_visit_children.specs.Turns.{ChangedDeep};
ghost use Rattle.std.specs.Fn.{CalledAtMut};
ghost use Rattle.std.specs.List.{flat_map};
ghost use Rattle.std.specs.Option.{option_map};

use wgsl_base::Items;
use wgsl_expressions::{
    Attribute, BinaryExpression, CustomAttribute, Expression, ExpressionNode, FunctionCall,
    IndexingExpression, NamedComponentExpression, ParenthesizedExpression, TemplateArg,
    TypeExpression, UnaryExpression, WorkgroupSizeAttribute,
};

/// Meets the expressions in an expression.
#[cycle(change)]
#[tactic(auto, using(crate::proofs::Cases::inner, crate::proofs::Cases::outer))]
pub fn change_expression<E, F: FnMut(&mut ExpressionNode) -> Result<(), E>>(
    expression: &mut Expression,
    deep: bool,
    f: &mut F,
) -> Result<(), E>
    requires { F.IsAlwaysCallable f.old }
    ensures changed { ChangedDeep (inside_by deep) (around_by deep) (CalledAtMut F.FnMut) f.old (expressions_in expression.old) result f.new (expressions_in expression.new) }
    ensures rest { around_expressions expression.new ≡ around_expressions expression.old }
    ensures callable { F.IsAlwaysCallable f.new }
{
    match expression {
        Expression::Literal(_) => Ok(()),
        Expression::Parenthesized(x) => change_parenthesized(x, deep, f),
        Expression::NamedComponent(x) => change_component(x, deep, f),
        Expression::Indexing(x) => change_indexing(x, deep, f),
        Expression::Unary(x) => change_unary(x, deep, f),
        Expression::Binary(x) => change_binary(x, deep, f),
        Expression::FunctionCall(x) => change_call(x.get_mut(), deep, f),
        Expression::TypeOrIdentifier(x) => change_type(x, deep, f),
    }
}

/// Meets what a visit meets inside an expression before it.
#[cycle(change)]
fn change_inside<E, F: FnMut(&mut ExpressionNode) -> Result<(), E>>(
    node: &mut ExpressionNode,
    deep: bool,
    f: &mut F,
) -> Result<(), E>
    requires { F.IsAlwaysCallable f.old }
    ensures changed { ChangedDeep (inside_by deep) (around_by deep) (CalledAtMut F.FnMut) f.old (inside_by deep node.old) result f.new (inside_by deep node.new) }
    ensures rest { around_by deep node.new ≡ around_by deep node.old }
    ensures callable { F.IsAlwaysCallable f.new }
{
    if deep {
        change_expression(node.node_mut(), deep, f)
    } else {
        Ok(())
    }
}

/// Meets an expression.
#[cycle(change)]
pub fn change_node<E, F: FnMut(&mut ExpressionNode) -> Result<(), E>>(
    node: &mut ExpressionNode,
    deep: bool,
    f: &mut F,
) -> Result<(), E>
    requires { F.IsAlwaysCallable f.old }
    ensures changed { ChangedDeep (inside_by deep) (around_by deep) (CalledAtMut F.FnMut) f.old (node.old ∷ []) result f.new (node.new ∷ []) }
    ensures callable { F.IsAlwaysCallable f.new }
{
    change_inside(node, deep, f)?;
    f(node)
}

/// Meets expressions, one by one.
#[cycle(change)]
pub fn change_nodes<E, F: FnMut(&mut ExpressionNode) -> Result<(), E>>(
    nodes: &mut Items<ExpressionNode>,
    deep: bool,
    f: &mut F,
) -> Result<(), E>
    requires { F.IsAlwaysCallable f.old }
    ensures changed { ChangedDeep (inside_by deep) (around_by deep) (CalledAtMut F.FnMut) f.old nodes.old result f.new nodes.new }
    ensures rest { map around_node nodes.new ≡ map around_node nodes.old }
    ensures callable { F.IsAlwaysCallable f.new }
{
    for i in 0..nodes.len() {
        change_node(nodes.get_mut(i), deep, f)?;
    }
    Ok(())
}

/// Meets the expression in parentheses.
#[cycle(change)]
fn change_parenthesized<E, F: FnMut(&mut ExpressionNode) -> Result<(), E>>(
    x: &mut ParenthesizedExpression,
    deep: bool,
    f: &mut F,
) -> Result<(), E>
    requires { F.IsAlwaysCallable f.old }
    ensures changed { ChangedDeep (inside_by deep) (around_by deep) (CalledAtMut F.FnMut) f.old (x.old.expression ∷ []) result f.new (x.new.expression ∷ []) }
    ensures rest { around_parenthesized x.new ≡ around_parenthesized x.old }
    ensures callable { F.IsAlwaysCallable f.new }
{
    change_node(&mut x.expression, deep, f)
}

/// Meets the base of a component.
#[cycle(change)]
fn change_component<E, F: FnMut(&mut ExpressionNode) -> Result<(), E>>(
    x: &mut NamedComponentExpression,
    deep: bool,
    f: &mut F,
) -> Result<(), E>
    requires { F.IsAlwaysCallable f.old }
    ensures changed { ChangedDeep (inside_by deep) (around_by deep) (CalledAtMut F.FnMut) f.old (x.old.base ∷ []) result f.new (x.new.base ∷ []) }
    ensures rest { around_component x.new ≡ around_component x.old }
    ensures callable { F.IsAlwaysCallable f.new }
{
    change_node(&mut x.base, deep, f)
}

/// Meets a base and its index.
#[cycle(change)]
fn change_indexing<E, F: FnMut(&mut ExpressionNode) -> Result<(), E>>(
    x: &mut IndexingExpression,
    deep: bool,
    f: &mut F,
) -> Result<(), E>
    requires { F.IsAlwaysCallable f.old }
    ensures changed { ChangedDeep (inside_by deep) (around_by deep) (CalledAtMut F.FnMut) f.old (x.old.base ∷ x.old.index ∷ []) result f.new (x.new.base ∷ x.new.index ∷ []) }
    ensures rest { around_indexing x.new ≡ around_indexing x.old }
    ensures callable { F.IsAlwaysCallable f.new }
{
    change_node(&mut x.base, deep, f)?;
    change_node(&mut x.index, deep, f)
}

/// Meets an operand.
#[cycle(change)]
fn change_unary<E, F: FnMut(&mut ExpressionNode) -> Result<(), E>>(
    x: &mut UnaryExpression,
    deep: bool,
    f: &mut F,
) -> Result<(), E>
    requires { F.IsAlwaysCallable f.old }
    ensures changed { ChangedDeep (inside_by deep) (around_by deep) (CalledAtMut F.FnMut) f.old (x.old.operand ∷ []) result f.new (x.new.operand ∷ []) }
    ensures rest { around_unary x.new ≡ around_unary x.old }
    ensures callable { F.IsAlwaysCallable f.new }
{
    change_node(&mut x.operand, deep, f)
}

/// Meets two operands.
#[cycle(change)]
fn change_binary<E, F: FnMut(&mut ExpressionNode) -> Result<(), E>>(
    x: &mut BinaryExpression,
    deep: bool,
    f: &mut F,
) -> Result<(), E>
    requires { F.IsAlwaysCallable f.old }
    ensures changed { ChangedDeep (inside_by deep) (around_by deep) (CalledAtMut F.FnMut) f.old (x.old.left ∷ x.old.right ∷ []) result f.new (x.new.left ∷ x.new.right ∷ []) }
    ensures rest { around_binary x.new ≡ around_binary x.old }
    ensures callable { F.IsAlwaysCallable f.new }
{
    change_node(&mut x.left, deep, f)?;
    change_node(&mut x.right, deep, f)
}

/// Meets the expressions in a call.
#[cycle(change)]
pub fn change_call<E, F: FnMut(&mut ExpressionNode) -> Result<(), E>>(
    x: &mut FunctionCall,
    deep: bool,
    f: &mut F,
) -> Result<(), E>
    requires { F.IsAlwaysCallable f.old }
    ensures changed { ChangedDeep (inside_by deep) (around_by deep) (CalledAtMut F.FnMut) f.old (in_call x.old) result f.new (in_call x.new) }
    ensures rest { around_call x.new ≡ around_call x.old }
    ensures callable { F.IsAlwaysCallable f.new }
{
    change_type(&mut x.ty, deep, f)?;
    change_nodes(&mut x.arguments, deep, f)
}

/// Meets the expressions in a type.
#[cycle(change)]
pub fn change_type<E, F: FnMut(&mut ExpressionNode) -> Result<(), E>>(
    ty: &mut TypeExpression,
    deep: bool,
    f: &mut F,
) -> Result<(), E>
    requires { F.IsAlwaysCallable f.old }
    ensures changed { ChangedDeep (inside_by deep) (around_by deep) (CalledAtMut F.FnMut) f.old (in_type ty.old) result f.new (in_type ty.new) }
    ensures rest { around_type ty.new ≡ around_type ty.old }
    ensures callable { F.IsAlwaysCallable f.new }
{
    match &mut ty.template_args {
        None => Ok(()),
        Some(arguments) => change_arguments(arguments.get_mut(), deep, f),
    }
}

/// Meets template arguments, one by one.
#[cycle(change)]
fn change_arguments<E, F: FnMut(&mut ExpressionNode) -> Result<(), E>>(
    arguments: &mut Items<TemplateArg>,
    deep: bool,
    f: &mut F,
) -> Result<(), E>
    requires { F.IsAlwaysCallable f.old }
    ensures changed { ChangedDeep (inside_by deep) (around_by deep) (CalledAtMut F.FnMut) f.old (flat_map in_argument arguments.old) result f.new (flat_map in_argument arguments.new) }
    ensures rest { map around_argument arguments.new ≡ map around_argument arguments.old }
    ensures callable { F.IsAlwaysCallable f.new }
{
    for i in 0..arguments.len() {
        change_node(&mut arguments.get_mut(i).expression, deep, f)?;
    }
    Ok(())
}

/// Meets an expression, where there is one.
pub fn change_option<E, F: FnMut(&mut ExpressionNode) -> Result<(), E>>(
    node: &mut Option<ExpressionNode>,
    deep: bool,
    f: &mut F,
) -> Result<(), E>
    requires { F.IsAlwaysCallable f.old }
    ensures changed { ChangedDeep (inside_by deep) (around_by deep) (CalledAtMut F.FnMut) f.old (in_option node.old) result f.new (in_option node.new) }
    ensures rest { option_map around_node node.new ≡ option_map around_node node.old }
    ensures callable { F.IsAlwaysCallable f.new }
{
    match node {
        None => Ok(()),
        Some(node) => change_node(node, deep, f),
    }
}

/// Meets the sizes of `@workgroup_size`.
fn change_sizes<E, F: FnMut(&mut ExpressionNode) -> Result<(), E>>(
    x: &mut WorkgroupSizeAttribute,
    deep: bool,
    f: &mut F,
) -> Result<(), E>
    requires { F.IsAlwaysCallable f.old }
    ensures changed { ChangedDeep (inside_by deep) (around_by deep) (CalledAtMut F.FnMut) f.old (in_sizes x.old) result f.new (in_sizes x.new) }
    ensures rest { around_sizes x.new ≡ around_sizes x.old }
    ensures callable { F.IsAlwaysCallable f.new }
{
    change_node(&mut x.x, deep, f)?;
    change_option(&mut x.y, deep, f)?;
    change_option(&mut x.z, deep, f)
}

/// Meets the arguments of a custom attribute.
fn change_custom<E, F: FnMut(&mut ExpressionNode) -> Result<(), E>>(
    x: &mut CustomAttribute,
    deep: bool,
    f: &mut F,
) -> Result<(), E>
    requires { F.IsAlwaysCallable f.old }
    ensures changed { ChangedDeep (inside_by deep) (around_by deep) (CalledAtMut F.FnMut) f.old (in_custom x.old) result f.new (in_custom x.new) }
    ensures rest { around_custom x.new ≡ around_custom x.old }
    ensures callable { F.IsAlwaysCallable f.new }
{
    match &mut x.arguments {
        None => Ok(()),
        Some(arguments) => change_nodes(arguments, deep, f),
    }
}

/// Meets the expressions in an attribute.
pub fn change_attribute<E, F: FnMut(&mut ExpressionNode) -> Result<(), E>>(
    attribute: &mut Attribute,
    deep: bool,
    f: &mut F,
) -> Result<(), E>
    requires { F.IsAlwaysCallable f.old }
    ensures changed { ChangedDeep (inside_by deep) (around_by deep) (CalledAtMut F.FnMut) f.old (expressions_in_attribute attribute.old) result f.new (expressions_in_attribute attribute.new) }
    ensures rest { around_attribute attribute.new ≡ around_attribute attribute.old }
    ensures callable { F.IsAlwaysCallable f.new }
{
    match attribute {
        Attribute::Align(x) => change_node(x, deep, f),
        Attribute::Binding(x) => change_node(x, deep, f),
        Attribute::BlendSrc(x) => change_node(x, deep, f),
        Attribute::Group(x) => change_node(x, deep, f),
        Attribute::Id(x) => change_node(x, deep, f),
        Attribute::Location(x) => change_node(x, deep, f),
        Attribute::Size(x) => change_node(x, deep, f),
        Attribute::If(x) => change_node(x, deep, f),
        Attribute::Elif(x) => change_node(x, deep, f),
        Attribute::WorkgroupSize(x) => change_sizes(x.get_mut(), deep, f),
        Attribute::Custom(x) => change_custom(x.get_mut(), deep, f),
        Attribute::Builtin(_) => Ok(()),
        Attribute::Diagnostic(_) => Ok(()),
        Attribute::Interpolate(_) => Ok(()),
        Attribute::Const => Ok(()),
        Attribute::Invariant => Ok(()),
        Attribute::MustUse => Ok(()),
        Attribute::Vertex => Ok(()),
        Attribute::Fragment => Ok(()),
        Attribute::Compute => Ok(()),
        Attribute::Publish => Ok(()),
        Attribute::Else => Ok(()),
    }
}
