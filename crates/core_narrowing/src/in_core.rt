//! Whether a unit has nothing but the part of the language that `link` and `compile` read.

ghost use Rattle.std.specs.Prelude.{◌≡◌, map};
ghost use Rattle.std.specs.List.{list_all};
ghost use Rattle.std.specs.Option.{option_map};
ghost use Rattle.core_syntax.specs.Tree.{exps};
ghost use Rattle.core_syntax.specs.View.{tree, node_tree, type_tree, call_layer, attribute_tree, attributes_tree, statement_tree, block_tree, parameter_tree, declaration_tree, import_tree, unit_tree};
ghost use Rattle.core_narrowing.specs.Trees.{statements_tree, parameters_tree, declarations_tree, imports_tree, variable_tree, function_tree};
ghost use Rattle.core_narrowing.specs.InCore as spec;

use core_syntax::{
    Attribute, AttributeNode, BinaryOperator, CompoundStatement, Declaration, Expression,
    ExpressionNode, FormalParameter, Function, FunctionCall, GlobalDeclaration,
    GlobalDeclarationNode, ImportContent, ImportStatement, Statement, StatementNode,
    TranslationUnit, TypeExpression, UnaryOperator,
};
use wgsl_path::PathOrigin;

fn is_sign(operator: UnaryOperator) -> bool
    ensures { result ≡ spec.is_sign operator }
{
    match operator {
        UnaryOperator::Negation => true,
        _ => false,
    }
}

fn is_arithmetic(operator: BinaryOperator) -> bool
    ensures { result ≡ spec.is_arithmetic operator }
{
    match operator {
        BinaryOperator::Addition
        | BinaryOperator::Subtraction
        | BinaryOperator::Multiplication
        | BinaryOperator::Division
        | BinaryOperator::Remainder => true,
        _ => false,
    }
}

fn is_name(ty: &TypeExpression) -> bool
    ensures { result ≡ spec.is_name (type_tree ty.now) }
{
    ty.path.is_none() && ty.template_args.is_none()
}

#[cycle(in_core)]
#[tactic(auto, using(core_syntax::proofs::Trees::tree_of_literal, core_syntax::proofs::Trees::tree_of_parenthesized, core_syntax::proofs::Trees::tree_of_unary, core_syntax::proofs::Trees::tree_of_binary, core_syntax::proofs::Trees::tree_of_call, core_syntax::proofs::Trees::tree_of_named))]
fn is_expression(expression: &Expression) -> bool
    ensures { result ≡ spec.is_expression (tree expression.now) }
{
    match expression {
        Expression::Literal(_) => true,
        Expression::Parenthesized(x) => is_expression(x.expression.node()),
        Expression::Unary(x) => is_sign(x.operator) && is_expression(x.operand.node()),
        Expression::Binary(x) => {
            is_arithmetic(x.operator)
                && (is_expression(x.left.node()) && is_expression(x.right.node()))
        }
        Expression::FunctionCall(x) => is_call(x.get()),
        Expression::TypeOrIdentifier(x) => is_name(x),
    }
}

#[cycle(in_core)]
fn is_call(call: &FunctionCall) -> bool
    ensures { result ≡ spec.is_expression (call_layer tree call.now) }
{
    is_name(&call.ty) && are_expressions(call.arguments.as_slice())
}

#[cycle(in_core)]
fn are_expressions(nodes: &[ExpressionNode]) -> bool
    ensures { result ≡ spec.are_expressions (exps (map node_tree nodes.now)) }
{
    for node in nodes {
        if !is_expression(node.node()) {
            return false;
        }
    }
    true
}

fn maybe_expression(node: &Option<ExpressionNode>) -> bool
    ensures { result ≡ spec.maybe_expression (option_map node_tree node.now) }
{
    match node {
        None => true,
        Some(node) => is_expression(node.node()),
    }
}

fn some_expression(node: &Option<ExpressionNode>) -> bool
    ensures { result ≡ spec.some_expression (option_map node_tree node.now) }
{
    match node {
        None => false,
        Some(node) => is_expression(node.node()),
    }
}

fn maybe_name(ty: &Option<TypeExpression>) -> bool
    ensures { result ≡ spec.maybe_name (option_map type_tree ty.now) }
{
    match ty {
        None => true,
        Some(ty) => is_name(ty),
    }
}

fn are_none(attributes: &[AttributeNode]) -> bool
    ensures { result ≡ spec.are_none (attributes_tree attributes.now) }
{
    match attributes {
        [] => true,
        [..] => false,
    }
}

fn is_attribute(attribute: &Attribute) -> bool
    ensures { result ≡ spec.is_attribute (attribute_tree attribute.now) }
{
    match attribute {
        Attribute::Fragment => true,
        Attribute::Location(node) => is_expression(node.node()),
    }
}

fn are_attributes(attributes: &[AttributeNode]) -> bool
    ensures { result ≡ spec.are_attributes (attributes_tree attributes.now) }
{
    for attribute in attributes {
        if !is_attribute(attribute.node()) {
            return false;
        }
    }
    true
}

fn is_statement(statement: &Statement) -> bool
    ensures { result ≡ spec.is_statement (statement_tree statement.now) }
{
    match statement {
        Statement::Return(x) => {
            are_none(x.attributes.as_slice()) && maybe_expression(&x.expression)
        }
    }
}

fn is_body(statements: &[StatementNode]) -> bool
    ensures { result ≡ spec.is_body (statements_tree statements.now) }
{
    match statements {
        [] => true,
        [only] => is_statement(only.node()),
        _ => false,
    }
}

fn is_block(block: &CompoundStatement) -> bool
    ensures { result ≡ spec.is_block (block_tree block.now) }
{
    are_none(block.attributes.as_slice()) && is_body(block.statements.as_slice())
}

fn is_parameter(x: &FormalParameter) -> bool
    ensures { result ≡ spec.is_parameter (parameter_tree x.now) }
{
    are_attributes(x.attributes.as_slice()) && is_name(&x.ty)
}

fn are_parameters(parameters: &[FormalParameter]) -> bool
    ensures { result ≡ list_all spec.is_parameter (parameters_tree parameters.now) }
{
    for parameter in parameters {
        if !is_parameter(parameter) {
            return false;
        }
    }
    true
}

fn is_result(attributes: &[AttributeNode], ty: &Option<TypeExpression>) -> bool
    ensures { result ≡ spec.is_result (attributes_tree attributes.now) (option_map type_tree ty.now) }
{
    match ty {
        None => are_none(attributes),
        Some(ty) => are_attributes(attributes) && is_name(ty),
    }
}

fn is_value(x: &Declaration) -> bool
    ensures { result ≡ spec.is_declaration (variable_tree x.now) }
{
    are_none(x.attributes.as_slice()) && (maybe_name(&x.ty) && some_expression(&x.initializer))
}

fn is_function(x: &Function) -> bool
    ensures { result ≡ spec.is_declaration (function_tree x.now) }
{
    are_attributes(x.attributes.as_slice())
        && (are_parameters(x.parameters.as_slice())
            && (is_result(x.return_attributes.as_slice(), &x.return_type) && is_block(&x.body)))
}

fn is_declaration(declaration: &GlobalDeclaration) -> bool
    ensures { result ≡ spec.is_declaration (declaration_tree declaration.now) }
{
    match declaration {
        GlobalDeclaration::Declaration(x) => is_value(x),
        GlobalDeclaration::Function(x) => is_function(x),
    }
}

fn are_declarations(declarations: &[GlobalDeclarationNode]) -> bool
    ensures { result ≡ list_all spec.is_declaration (declarations_tree declarations.now) }
{
    for declaration in declarations {
        if !is_declaration(declaration.node()) {
            return false;
        }
    }
    true
}

fn is_from_root(import: &ImportStatement) -> bool
    ensures { result ≡ spec.is_from_root import.now.path }
{
    match &import.path {
        None => false,
        Some(path) => match path.get().origin {
            PathOrigin::Absolute => true,
            _ => false,
        },
    }
}

fn is_import(import: &ImportStatement) -> bool
    ensures { result ≡ spec.is_import (import_tree import.now) }
{
    match &import.content {
        ImportContent::Item(item) => {
            are_none(import.attributes.as_slice())
                && (is_from_root(import) && item.rename.is_none())
        }
    }
}

fn are_imports(imports: &[ImportStatement]) -> bool
    ensures { result ≡ list_all spec.is_import (imports_tree imports.now) }
{
    for import in imports {
        if !is_import(import) {
            return false;
        }
    }
    true
}

/// Whether a unit has nothing but the part of the language that `link` and `compile` read: imports from the root that rename nothing,
/// constants, and functions with at most one `return`, over whole numbers, names, calls, parentheses, `-` in front, and `+ - * / %`, with
/// `@fragment` and `@location(..)` before functions, parameters and results.
pub fn is_in_core(unit: &TranslationUnit) -> bool
    ensures { result ≡ spec.is_unit (unit_tree unit.now) }
{
    are_imports(unit.imports.as_slice()) && are_declarations(unit.global_declarations.as_slice())
}
