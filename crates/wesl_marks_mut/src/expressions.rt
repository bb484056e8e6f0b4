//! What is put into expressions and types.

ghost use Rattle.std.specs.Prelude.{◌≡◌, map};
ghost use Rattle.wgsl_expressions.specs.Tree.{exps};
ghost use Rattle.wgsl_expressions.specs.View.{tree, node_tree, type_tree, call_layer};
ghost use Rattle.std.specs.Option.{option_map};
ghost use Rattle.wesl_marks_mut.specs.Walks.{each, if_there};
ghost use Rattle.wesl_marks_mut.specs.Written.{written, all_written, type_written, takes_none};

use crate::script::Script;
use wgsl_base::Items;
use wgsl_expressions::{
    BinaryExpression, Expression, ExpressionNode, FunctionCall, IndexingExpression,
    NamedComponentExpression, ParenthesizedExpression, TemplateArg, TypeExpression,
    UnaryExpression,
};

/// Writes an expression.
#[cycle(expressions)]
#[tactic(auto, using(wgsl_expressions::proofs::Trees::tree_of_literal, wgsl_expressions::proofs::Trees::tree_of_parenthesized, wgsl_expressions::proofs::Trees::tree_of_component, wgsl_expressions::proofs::Trees::tree_of_indexed, wgsl_expressions::proofs::Trees::tree_of_unary, wgsl_expressions::proofs::Trees::tree_of_binary, wgsl_expressions::proofs::Trees::tree_of_call, wgsl_expressions::proofs::Trees::tree_of_named))]
pub(crate) fn write_expression(expression: &mut Expression, script: &mut Script)
    ensures tree { tree expression.new ≡ (written (tree expression.old) script.old.rest.items).0 }
    ensures rest { script.new.rest.items ≡ (written (tree expression.old) script.old.rest.items).1 }
{
    match expression {
        Expression::Literal(_) => {}
        Expression::Parenthesized(x) => write_parenthesized(x, script),
        Expression::NamedComponent(x) => write_component(x, script),
        Expression::Indexing(x) => write_indexing(x, script),
        Expression::Unary(x) => write_unary(x, script),
        Expression::Binary(x) => write_binary(x, script),
        Expression::FunctionCall(x) => write_call(x.get_mut(), script),
        Expression::TypeOrIdentifier(x) => write_type(x, script),
    }
}

/// Writes an expression in parentheses.
#[cycle(expressions)]
fn write_parenthesized(x: &mut ParenthesizedExpression, script: &mut Script)
    ensures tree { node_tree x.new.expression ≡ (written (node_tree x.old.expression) script.old.rest.items).0 }
    ensures rest { script.new.rest.items ≡ (written (node_tree x.old.expression) script.old.rest.items).1 }
{
    write_expression(x.expression.node_mut(), script);
}

/// Writes what a component is taken of.
#[cycle(expressions)]
fn write_component(x: &mut NamedComponentExpression, script: &mut Script)
    ensures name { x.new.component ≡ x.old.component }
    ensures tree { node_tree x.new.base ≡ (written (node_tree x.old.base) script.old.rest.items).0 }
    ensures rest { script.new.rest.items ≡ (written (node_tree x.old.base) script.old.rest.items).1 }
{
    write_expression(x.base.node_mut(), script);
}

/// Writes what is indexed, and the index.
#[cycle(expressions)]
fn write_indexing(x: &mut IndexingExpression, script: &mut Script)
    ensures base { node_tree x.new.base ≡ (written (node_tree x.old.base) script.old.rest.items).0 }
    ensures index { node_tree x.new.index ≡ (written (node_tree x.old.index) (written (node_tree x.old.base) script.old.rest.items).1).0 }
    ensures rest { script.new.rest.items ≡ (written (node_tree x.old.index) (written (node_tree x.old.base) script.old.rest.items).1).1 }
{
    write_expression(x.base.node_mut(), script);
    write_expression(x.index.node_mut(), script);
}

/// Writes an operand.
#[cycle(expressions)]
fn write_unary(x: &mut UnaryExpression, script: &mut Script)
    ensures operator { x.new.operator ≡ x.old.operator }
    ensures tree { node_tree x.new.operand ≡ (written (node_tree x.old.operand) script.old.rest.items).0 }
    ensures rest { script.new.rest.items ≡ (written (node_tree x.old.operand) script.old.rest.items).1 }
{
    write_expression(x.operand.node_mut(), script);
}

/// Writes two operands.
#[cycle(expressions)]
fn write_binary(x: &mut BinaryExpression, script: &mut Script)
    ensures operator { x.new.operator ≡ x.old.operator }
    ensures left { node_tree x.new.left ≡ (written (node_tree x.old.left) script.old.rest.items).0 }
    ensures right { node_tree x.new.right ≡ (written (node_tree x.old.right) (written (node_tree x.old.left) script.old.rest.items).1).0 }
    ensures rest { script.new.rest.items ≡ (written (node_tree x.old.right) (written (node_tree x.old.left) script.old.rest.items).1).1 }
{
    write_expression(x.left.node_mut(), script);
    write_expression(x.right.node_mut(), script);
}

/// Writes expressions, one by one.
#[cycle(expressions)]
pub(crate) fn write_expressions(nodes: &mut Items<ExpressionNode>, script: &mut Script)
    ensures tree { exps (map node_tree nodes.new) ≡ (all_written (exps (map node_tree nodes.old)) script.old.rest.items).0 }
    ensures rest { script.new.rest.items ≡ (all_written (exps (map node_tree nodes.old)) script.old.rest.items).1 }
    ensures list { map node_tree nodes.new ≡ (each written (map node_tree nodes.old) script.old.rest.items).0 }
    ensures behind { script.new.rest.items ≡ (each written (map node_tree nodes.old) script.old.rest.items).1 }
{
    for i in 0..nodes.len() {
        write_expression(nodes.get_mut(i).node_mut(), script);
    }
}

/// Writes template arguments, one by one.
#[cycle(expressions)]
pub(crate) fn write_arguments(arguments: &mut Items<TemplateArg>, script: &mut Script)
    ensures tree { exps (map (λ a. node_tree a.expression) arguments.new) ≡ (all_written (exps (map (λ a. node_tree a.expression) arguments.old)) script.old.rest.items).0 }
    ensures rest { script.new.rest.items ≡ (all_written (exps (map (λ a. node_tree a.expression) arguments.old)) script.old.rest.items).1 }
{
    for i in 0..arguments.len() {
        write_expression(arguments.get_mut(i).expression.node_mut(), script);
    }
}

/// Writes a call.
#[cycle(expressions)]
pub(crate) fn write_call(x: &mut FunctionCall, script: &mut Script)
    ensures tree { call_layer tree x.new ≡ (written (call_layer tree x.old) script.old.rest.items).0 }
    ensures rest { script.new.rest.items ≡ (written (call_layer tree x.old) script.old.rest.items).1 }
{
    write_type(&mut x.ty, script);
    write_expressions(&mut x.arguments, script);
}

/// Is it `_`, which stands for no declaration?
fn is_underscore(ty: &TypeExpression) -> bool
    ensures { result ≡ takes_none (type_tree ty.now) }
{
    ty.path.is_none() && ty.template_args.is_none() && ty.ident.as_str() == "_"
}

/// Writes a type or a name.
#[cycle(expressions)]
pub(crate) fn write_type(ty: &mut TypeExpression, script: &mut Script)
    ensures tree { type_tree ty.new ≡ (type_written (type_tree ty.old) script.old.rest.items).0 }
    ensures rest { script.new.rest.items ≡ (type_written (type_tree ty.old) script.old.rest.items).1 }
{
    if is_underscore(ty) {
        return;
    }
    script.write_used(&mut ty.path, &mut ty.ident);
    if let Some(arguments) = &mut ty.template_args {
        write_arguments(arguments.get_mut(), script);
    }
}

/// Writes an expression, where there is one.
pub(crate) fn write_optional(node: &mut Option<ExpressionNode>, script: &mut Script)
    ensures tree { option_map node_tree node.new ≡ (if_there written (option_map node_tree node.old) script.old.rest.items).0 }
    ensures rest { script.new.rest.items ≡ (if_there written (option_map node_tree node.old) script.old.rest.items).1 }
{
    if let Some(node) = node {
        write_expression(node.node_mut(), script);
    }
}

/// Writes a type, where there is one.
pub(crate) fn write_optional_type(ty: &mut Option<TypeExpression>, script: &mut Script)
    ensures tree { option_map type_tree ty.new ≡ (if_there type_written (option_map type_tree ty.old) script.old.rest.items).0 }
    ensures rest { script.new.rest.items ≡ (if_there type_written (option_map type_tree ty.old) script.old.rest.items).1 }
{
    if let Some(ty) = ty {
        write_type(ty, script);
    }
}
