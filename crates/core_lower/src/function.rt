//! Lowered functions.

ghost use Rattle.std.specs.Prelude.{◌≡◌, map, Some, None, Ok, Err};
ghost use Rattle.std.specs.Option.{option_map};
ghost use Rattle.core_syntax.specs.Tree as T;
ghost use Rattle.core_syntax.specs.View.{tree, node_tree, type_tree, attribute_tree, attributes_tree, statement_tree, block_tree, parameter_tree, declaration_tree};
ghost use Rattle.core_syntax.specs.declared.declaration.GlobalDeclaration.TheVariants.{Function as TheFunction};
ghost use Rattle.core_meaning.specs.Values.{and_then};
ghost use Rattle.core_eval.specs.Ends.{Ends, Gives};
ghost use Rattle.core_eval.specs.Scopes.{scope_of};
ghost use Rattle.core_lower_expressions.specs.Runs.{has_stage};
ghost use Rattle.core_lower_expressions.specs.Cleared as clearing;
ghost use Rattle.core_lower_expressions.specs.Computed as spec;
ghost use Rattle.core_lower.specs.Nodes.{lowered_with};

use core_eval::{EvalError, Scope, eval_ty, ty_eval_ty};
use core_lower_expressions::lowered;
use core_syntax::{
    Attribute, AttributeNode, Attributes, CompoundStatement, Expression, ExpressionNode,
    FormalParameter, Function, FunctionCall, ReturnStatement, Spanned, Statement, StatementNode,
    TypeExpression,
};
use std::alloc::Global;
use wgsl_base::{Boxed, CloneIn, Items, Text};
use wgsl_scalar::{IntegerType, ScalarType};

fn constructor_call(
    alloc: Global,
    ty: &TypeExpression,
    node: &ExpressionNode,
) -> Result<ExpressionNode, EvalError>
    ensures { Gives node_tree (Ok (T.call (type_tree ty.now) (T.cons (node_tree node.now) T.nil))) result }
{
    let mut arguments = Items::new(alloc);
    arguments.push(node.clone_in(alloc)?)?;
    let call = FunctionCall {
        ty: ty.clone_in(alloc)?,
        arguments,
    };
    let tree = Expression::FunctionCall(Boxed::new(alloc, call)?);
    Ok(Spanned::new(alloc, tree, node.span())?)
}

// What a function of this type returns: an abstract number gets the constructor of the type.
fn converted(
    alloc: Global,
    scope: &Scope<'_>,
    ty: &Option<TypeExpression>,
    node: &ExpressionNode,
) -> Result<ExpressionNode, EvalError>
    ensures { Gives node_tree (spec.converted_exp (scope_of scope.now) (option_map type_tree ty.now) (node_tree node.now)) result }
{
    let Some(ty) = ty else {
        return Ok(node.clone_in(alloc)?);
    };
    match eval_ty(alloc, scope, node.node())? {
        ScalarType::Integer(IntegerType::AbstractInt) => constructor_call(alloc, ty, node),
        _ => Ok(node.clone_in(alloc)?),
    }
}

fn lowered_return(
    alloc: Global,
    scope: &Scope<'_>,
    ty: &Option<TypeExpression>,
    node: &ExpressionNode,
) -> Result<ExpressionNode, EvalError>
    ensures { Gives node_tree (spec.lowered_return (scope_of scope.now) (option_map type_tree ty.now) (node_tree node.now)) result }
{
    let converted = converted(alloc, scope, ty, node)?;
    lowered(alloc, scope, &converted)
}

fn lowered_attribute(
    alloc: Global,
    scope: &Scope<'_>,
    attribute: &Attribute,
) -> Result<Attribute, EvalError>
    ensures { Gives attribute_tree (spec.lowered_attribute (scope_of scope.now) (attribute_tree attribute.now)) result }
{
    match attribute {
        Attribute::Fragment => Ok(Attribute::Fragment),
        Attribute::Location(node) => Ok(Attribute::Location(lowered(alloc, scope, node)?)),
    }
}

fn lowered_attributes(
    alloc: Global,
    scope: &Scope<'_>,
    nodes: &[AttributeNode],
) -> Result<Attributes, EvalError>
    ensures { Gives attributes_tree (spec.lowered_attributes (scope_of scope.now) (attributes_tree nodes.now)) result }
{
    let mut done = Items::new(alloc);
    for node in nodes {
        let attribute = lowered_attribute(alloc, scope, node.node())?;
        done.push(Spanned::new(alloc, attribute, node.span())?)?;
    }
    Ok(done)
}

fn lowered_parameter(
    alloc: Global,
    scope: &Scope<'_>,
    parameter: &FormalParameter,
) -> Result<FormalParameter, EvalError>
    ensures { Gives parameter_tree (spec.lowered_parameter (scope_of scope.now) (parameter_tree parameter.now)) result }
{
    let attributes = lowered_attributes(alloc, scope, parameter.attributes.as_slice())?;
    let _ty = ty_eval_ty(alloc, scope, &parameter.ty)?;
    let ident = parameter.ident.clone_in(alloc)?;
    let ty = parameter.ty.clone_in(alloc)?;
    Ok(FormalParameter {
        attributes,
        ident,
        ty,
    })
}

fn lowered_parameters(
    alloc: Global,
    scope: &Scope<'_>,
    parameters: &[FormalParameter],
) -> Result<Items<FormalParameter>, EvalError>
    ensures { Gives (map parameter_tree) (spec.lowered_parameters (scope_of scope.now) (map parameter_tree parameters.now)) result }
{
    let mut done = Items::new(alloc);
    for parameter in parameters {
        done.push(lowered_parameter(alloc, scope, parameter)?)?;
    }
    Ok(done)
}

fn parameter_types(
    alloc: Global,
    scope: &Scope<'_>,
    parameters: &[FormalParameter],
) -> Result<Items<(Text, ScalarType)>, EvalError>
    ensures { Gives (λ types. types) (spec.parameter_types (scope_of scope.now) (map parameter_tree parameters.now)) result }
{
    let mut done = Items::new(alloc);
    for parameter in parameters {
        let ty = ty_eval_ty(alloc, scope, &parameter.ty)?;
        done.push((parameter.ident.name.clone_in(alloc)?, ty))?;
    }
    Ok(done)
}

fn checked_type(
    alloc: Global,
    scope: &Scope<'_>,
    ty: &Option<TypeExpression>,
) -> Result<(), EvalError>
    ensures { Gives (λ u. tt) (spec.checked_type (scope_of scope.now) (option_map type_tree ty.now)) result }
{
    if let Some(ty) = ty {
        let _ty = ty_eval_ty(alloc, scope, ty)?;
    }
    Ok(())
}

fn lowered_statement(
    alloc: Global,
    scope: &Scope<'_>,
    ty: &Option<TypeExpression>,
    statement: &Statement,
) -> Result<Statement, EvalError>
    ensures { Gives statement_tree (spec.lowered_statement (scope_of scope.now) (option_map type_tree ty.now) (statement_tree statement.now)) result }
{
    match statement {
        Statement::Return(x) => {
            let attributes = lowered_attributes(alloc, scope, x.attributes.as_slice())?;
            let expression = match &x.expression {
                None => None,
                Some(node) => Some(lowered_return(alloc, scope, ty, node)?),
            };
            Ok(Statement::Return(ReturnStatement {
                attributes,
                expression,
            }))
        }
    }
}

fn lowered_statements(
    alloc: Global,
    scope: &Scope<'_>,
    ty: &Option<TypeExpression>,
    nodes: &[StatementNode],
) -> Result<Items<StatementNode>, EvalError>
    ensures { Gives (map (λ n. statement_tree n.node)) (spec.lowered_statements (scope_of scope.now) (option_map type_tree ty.now) (map (λ n. statement_tree n.node) nodes.now)) result }
{
    let mut done = Items::new(alloc);
    for node in nodes {
        let statement = lowered_statement(alloc, scope, ty, node.node())?;
        done.push(Spanned::new(alloc, statement, node.span())?)?;
    }
    Ok(done)
}

fn lowered_body(
    alloc: Global,
    scope: &Scope<'_>,
    ty: &Option<TypeExpression>,
    body: &CompoundStatement,
) -> Result<CompoundStatement, EvalError>
    ensures { Gives block_tree (spec.lowered_body (scope_of scope.now) (option_map type_tree ty.now) (block_tree body.now)) result }
{
    let attributes = lowered_attributes(alloc, scope, body.attributes.as_slice())?;
    let statements = lowered_statements(alloc, scope, ty, body.statements.as_slice())?;
    Ok(CompoundStatement {
        attributes,
        statements,
    })
}

fn has_stage(nodes: &[AttributeNode]) -> bool
    ensures { result ≡ has_stage (attributes_tree nodes.now) }
{
    for node in nodes {
        match node.node() {
            Attribute::Fragment => return true,
            Attribute::Location(_) => {}
        }
    }
    false
}

fn any_stage(parameters: &[FormalParameter]) -> bool
    ensures { result ≡ clearing.any_stage (map parameter_tree parameters.now) }
{
    for parameter in parameters {
        if has_stage(parameter.attributes.as_slice()) {
            return true;
        }
    }
    false
}

// Whether a lowered function does nothing: it has no result and no stage, so it is const by the rule.
fn does_nothing(
    attributes: &[AttributeNode],
    parameters: &[FormalParameter],
    ty: &Option<TypeExpression>,
) -> bool
    ensures { result ≡ clearing.does_nothing (attributes_tree attributes.now) (map parameter_tree parameters.now) (option_map type_tree ty.now) }
{
    match ty {
        Some(_) => false,
        None => !has_stage(attributes) && !any_stage(parameters),
    }
}

// The body of a function, without its statements where it is cleared.
fn cleared(alloc: Global, is_cleared: bool, body: CompoundStatement) -> CompoundStatement
    ensures { block_tree result ≡ clearing.cleared is_cleared (block_tree body) }
{
    if is_cleared {
        CompoundStatement {
            attributes: body.attributes,
            statements: Items::new(alloc),
        }
    } else {
        body
    }
}

// The attributes and the type of the result, and the body, after attributes and parameters.
fn lowered_rest(
    alloc: Global,
    scope: &Scope<'_>,
    attributes: Attributes,
    parameters: Items<FormalParameter>,
    types: &[(Text, ScalarType)],
    function: &Function,
) -> Result<Function, EvalError>
    ensures { Gives (λ f. declaration_tree (TheFunction f)) (lowered_with (scope_of scope.now) attributes parameters types.now function.now) result }
{
    let return_attributes = lowered_attributes(
        alloc,
        scope,
        function.return_attributes.as_slice(),
    )?;
    checked_type(alloc, scope, &function.return_type)?;
    let inner = Scope {
        declarations: scope.declarations,
        consts: scope.consts,
        parameters: types,
    };
    let body = lowered_body(alloc, &inner, &function.return_type, &function.body)?;
    let is_cleared = does_nothing(
        attributes.as_slice(),
        parameters.as_slice(),
        &function.return_type,
    );
    let body = cleared(alloc, is_cleared, body);
    let ident = function.ident.clone_in(alloc)?;
    let return_type = function.return_type.clone_in(alloc)?;
    Ok(Function {
        attributes,
        ident,
        parameters,
        return_attributes,
        return_type,
        body,
    })
}

/// A function with its constant expressions written as their values; one that does nothing loses its statements. Nothing but the module is
/// in scope.
pub fn lowered_function(
    alloc: Global,
    scope: &Scope<'_>,
    function: &Function,
) -> Result<Function, EvalError>
    ensures { Gives (λ f. declaration_tree (TheFunction f)) (spec.lowered_declaration (scope_of scope.now) (declaration_tree (TheFunction function.now))) result }
{
    let attributes = lowered_attributes(alloc, scope, function.attributes.as_slice())?;
    let parameters = lowered_parameters(alloc, scope, function.parameters.as_slice())?;
    let types = parameter_types(alloc, scope, function.parameters.as_slice())?;
    lowered_rest(
        alloc,
        scope,
        attributes,
        parameters,
        types.as_slice(),
        function,
    )
}
