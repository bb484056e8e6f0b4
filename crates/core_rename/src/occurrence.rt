//! The names that occur in a declaration and that no parameter hides.

ghost use Rattle.std.specs.Prelude.{◌≡◌, [], ◌++◌, map, IfOk, OnOk};
ghost use Rattle.std.specs.Option.{option_map};
ghost use Rattle.std.specs.List.{flat_map};
ghost use Rattle.core_syntax.specs.View.{tree, type_tree, node_tree, attribute_tree, attributes_tree, statement_tree, block_tree, parameter_tree, declaration_tree};
ghost use Rattle.core_syntax.specs.Tree.{exps};
ghost use Rattle.core_link_spec.specs.Occurrences as spec;
ghost use Rattle.core_rename.specs.Scopes.{texts};
ghost use Rattle.core_rename.specs.Parts.{Adds, in_value, in_signature, in_call};

use crate::scope::Scope;
use core_syntax::{
    Attribute, Attributes, CompoundStatement, Declaration, Expression, ExpressionNode,
    FormalParameter, Function, FunctionCall, GlobalDeclaration, Statement, TemplateArg,
    TypeExpression,
};
use std::alloc::{AllocError, Global};

/// The names that occur in a declaration before its own name: in its attributes.
pub fn names_before<'a>(
    alloc: Global,
    declaration: &'a GlobalDeclaration,
) -> Result<Vec<&'a str>, AllocError>
    ensures { IfOk result (λ found. texts found.items ≡ spec.names_before (declaration_tree declaration.now)) }
{
    let mut found = Vec::new(alloc);
    let scope = Scope::module(alloc);
    match declaration {
        GlobalDeclaration::Declaration(declaration) => {
            add_attributes(&mut found, &scope, &declaration.attributes)?
        }
        GlobalDeclaration::Function(function) => add_attributes(
            &mut found,
            &scope,
            &function.attributes,
        )?,
    }
    Ok(found)
}

/// The names that occur behind a declaration's own name, in the scope of the module.
pub fn names_behind<'a>(
    alloc: Global,
    declaration: &'a GlobalDeclaration,
) -> Result<Vec<&'a str>, AllocError>
    ensures { IfOk result (λ found. texts found.items ≡ spec.names_behind (declaration_tree declaration.now)) }
{
    let mut found = Vec::new(alloc);
    let scope = Scope::module(alloc);
    match declaration {
        GlobalDeclaration::Declaration(declaration) => add_value(&mut found, &scope, declaration)?,
        GlobalDeclaration::Function(function) => add_signature(&mut found, &scope, function)?,
    }
    Ok(found)
}

/// The names that occur in a function's body and that no parameter hides.
pub fn names_in_body<'a>(
    alloc: Global,
    declaration: &'a GlobalDeclaration,
) -> Result<Vec<&'a str>, AllocError>
    ensures { IfOk result (λ found. texts found.items ≡ spec.names_in_body (declaration_tree declaration.now)) }
{
    let mut found = Vec::new(alloc);
    if let GlobalDeclaration::Function(function) = declaration {
        let body = Scope::body(alloc, function.parameters.as_slice())?;
        add_block(&mut found, &body, &function.body)?;
    }
    Ok(found)
}

/// The names that occur in a declaration, in text order.
pub fn occurrences<'a>(
    alloc: Global,
    declaration: &'a GlobalDeclaration,
) -> Result<Vec<&'a str>, AllocError>
    ensures { IfOk result (λ found. texts found.items ≡ spec.occurrences (declaration_tree declaration.now)) }
{
    let mut found = names_before(alloc, declaration)?;
    let behind = names_behind(alloc, declaration)?;
    let body = names_in_body(alloc, declaration)?;
    found.extend_from_slice(behind.as_slice())?;
    found.extend_from_slice(body.as_slice())?;
    Ok(found)
}

fn add_value<'a>(
    found: &mut Vec<&'a str>,
    scope: &Scope<'a>,
    declaration: &'a Declaration,
) -> Result<(), AllocError>
    ensures { OnOk result (Adds found.old.items found.new.items (in_value scope.now declaration.now)) }
{
    if let Some(ty) = &declaration.ty {
        add_type(found, scope, ty)?;
    }
    if let Some(initializer) = &declaration.initializer {
        add_expression(found, scope, initializer.node())?;
    }
    Ok(())
}

fn add_signature<'a>(
    found: &mut Vec<&'a str>,
    scope: &Scope<'a>,
    function: &'a Function,
) -> Result<(), AllocError>
    requires { scope.now ≡ [] }
    ensures { OnOk result (Adds found.old.items found.new.items (in_signature function.now)) }
{
    for parameter in function.parameters.as_slice() {
        add_parameter(found, scope, parameter)?;
    }
    add_attributes(found, scope, &function.return_attributes)?;
    if let Some(ty) = &function.return_type {
        add_type(found, scope, ty)?;
    }
    Ok(())
}

fn add_parameter<'a>(
    found: &mut Vec<&'a str>,
    scope: &Scope<'a>,
    parameter: &'a FormalParameter,
) -> Result<(), AllocError>
    requires { scope.now ≡ [] }
    ensures { OnOk result (texts found.new.items ≡ texts found.old.items ++ spec.in_parameter (parameter_tree parameter.now)) }
{
    add_attributes(found, scope, &parameter.attributes)?;
    add_type(found, scope, &parameter.ty)
}

fn add_block<'a>(
    found: &mut Vec<&'a str>,
    scope: &Scope<'a>,
    block: &'a CompoundStatement,
) -> Result<(), AllocError>
    ensures { OnOk result (texts found.new.items ≡ texts found.old.items ++ spec.in_block scope.now (block_tree block.now)) }
{
    add_attributes(found, scope, &block.attributes)?;
    for statement in block.statements.as_slice() {
        add_statement(found, scope, statement.node())?;
    }
    Ok(())
}

fn add_statement<'a>(
    found: &mut Vec<&'a str>,
    scope: &Scope<'a>,
    statement: &'a Statement,
) -> Result<(), AllocError>
    ensures { OnOk result (texts found.new.items ≡ texts found.old.items ++ spec.in_statement scope.now (statement_tree statement.now)) }
{
    match statement {
        Statement::Return(statement) => {
            add_attributes(found, scope, &statement.attributes)?;
            if let Some(expression) = &statement.expression {
                add_expression(found, scope, expression.node())?;
            }
            Ok(())
        }
    }
}

fn add_attributes<'a>(
    found: &mut Vec<&'a str>,
    scope: &Scope<'a>,
    attributes: &'a Attributes,
) -> Result<(), AllocError>
    ensures { OnOk result (texts found.new.items ≡ texts found.old.items ++ spec.in_attributes scope.now (attributes_tree attributes.now)) }
{
    for attribute in attributes.as_slice() {
        add_attribute(found, scope, attribute.node())?;
    }
    Ok(())
}

fn add_attribute<'a>(
    found: &mut Vec<&'a str>,
    scope: &Scope<'a>,
    attribute: &'a Attribute,
) -> Result<(), AllocError>
    ensures { OnOk result (texts found.new.items ≡ texts found.old.items ++ spec.in_attribute scope.now (attribute_tree attribute.now)) }
{
    match attribute {
        Attribute::Fragment => Ok(()),
        Attribute::Location(expression) => add_expression(found, scope, expression.node()),
    }
}

#[cycle(occurring)]
#[tactic(auto, using(crate::proofs::TreeLemmas::in_call, crate::proofs::TreeLemmas::in_named))]
fn add_expression<'a>(
    found: &mut Vec<&'a str>,
    scope: &Scope<'a>,
    expression: &'a Expression,
) -> Result<(), AllocError>
    ensures { OnOk result (texts found.new.items ≡ texts found.old.items ++ spec.in_expression scope.now (tree expression.now)) }
{
    match expression {
        Expression::Literal(_) => Ok(()),
        Expression::Parenthesized(x) => add_expression(found, scope, x.expression.node()),
        Expression::Unary(x) => add_expression(found, scope, x.operand.node()),
        Expression::Binary(x) => {
            add_expression(found, scope, x.left.node())?;
            add_expression(found, scope, x.right.node())
        }
        Expression::FunctionCall(x) => add_call(found, scope, x.get()),
        Expression::TypeOrIdentifier(ty) => add_type(found, scope, ty),
    }
}

#[cycle(occurring)]
fn add_call<'a>(
    found: &mut Vec<&'a str>,
    scope: &Scope<'a>,
    call: &'a FunctionCall,
) -> Result<(), AllocError>
    ensures { OnOk result (Adds found.old.items found.new.items (in_call scope.now call.now)) }
{
    add_type(found, scope, &call.ty)?;
    add_expressions(found, scope, call.arguments.as_slice())
}

#[cycle(occurring)]
fn add_expressions<'a>(
    found: &mut Vec<&'a str>,
    scope: &Scope<'a>,
    expressions: &'a [ExpressionNode],
) -> Result<(), AllocError>
    ensures { OnOk result (texts found.new.items ≡ texts found.old.items ++ spec.in_expressions scope.now (exps (map node_tree expressions.now))) }
{
    for expression in expressions {
        add_expression(found, scope, expression.node())?;
    }
    Ok(())
}

/// A name behind a path is no occurrence yet: no text has one.
#[cycle(occurring)]
fn add_type<'a>(
    found: &mut Vec<&'a str>,
    scope: &Scope<'a>,
    ty: &'a TypeExpression,
) -> Result<(), AllocError>
    ensures { OnOk result (texts found.new.items ≡ texts found.old.items ++ spec.in_type scope.now (type_tree ty.now)) }
{
    if ty.path.is_none() {
        add_name(found, scope, ty.ident.as_str())?;
    }
    match &ty.template_args {
        None => Ok(()),
        Some(arguments) => add_template(found, scope, arguments.get().as_slice()),
    }
}

#[cycle(occurring)]
fn add_template<'a>(
    found: &mut Vec<&'a str>,
    scope: &Scope<'a>,
    arguments: &'a [TemplateArg],
) -> Result<(), AllocError>
    ensures { OnOk result (texts found.new.items ≡ texts found.old.items ++ spec.in_expressions scope.now (exps (map (λ a. node_tree a.expression) arguments.now))) }
{
    for argument in arguments {
        add_expression(found, scope, argument.expression.node())?;
    }
    Ok(())
}

fn add_name<'a>(
    found: &mut Vec<&'a str>,
    scope: &Scope<'a>,
    name: &'a str,
) -> Result<(), AllocError>
    ensures { OnOk result (texts found.new.items ≡ texts found.old.items ++ spec.unless_local scope.now name.now) }
{
    if !scope.hides(name) {
        found.push(name)?;
    }
    Ok(())
}
