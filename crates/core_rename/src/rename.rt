//! Copies of trees with new names in the place of names.

ghost use Rattle.std.specs.Prelude.{◌≡◌, [], map, Some, None, IfOk};
ghost use Rattle.std.specs.Option.{option_map};
ghost use Rattle.core_syntax.specs.View.{tree, node_tree, type_tree, attribute_tree, attributes_tree, block_tree, statement_tree, parameter_tree, declaration_tree};
ghost use Rattle.core_syntax.specs.declared.declaration.GlobalDeclaration.TheVariants as global;
ghost use Rattle.core_syntax.specs.declared.expression.Expression.TheVariants as variants;
ghost use Rattle.core_link_spec.specs.Occurrences.{parameter_names};
ghost use Rattle.core_link_spec.specs.Linked as spec;
ghost use Rattle.core_rename.specs.Renaming.{renamed_at};

use crate::naming::{BodyNaming, Naming};
use crate::scope::Scope;
use core_syntax::{
    Attribute, AttributeNode, Attributes, BinaryExpression, CompoundStatement, Declaration,
    Expression, ExpressionNode, FormalParameter, Function, FunctionCall, GlobalDeclaration,
    ModulePath, ParenthesizedExpression, ReturnStatement, Statement, StatementNode, TemplateArg,
    TemplateArgs, TypeExpression, UnaryExpression,
};
use std::alloc::{AllocError, Global};
use wgsl_base::{Boxed, CloneIn, Items, Text, both, three};
use wgsl_path::{Ident, Spanned};

/// A declaration with new names: its own, and every name in it that no parameter hides.
pub fn renamed_declaration<N: Naming + Copy>(
    alloc: Global,
    naming: N,
    declaration: &GlobalDeclaration,
) -> Result<GlobalDeclaration, AllocError>
    ensures { IfOk result (λ renamed. declaration_tree renamed ≡ spec.renamed_declaration (N.gives naming) (declaration_tree declaration.now)) }
{
    match declaration {
        GlobalDeclaration::Declaration(declaration) => Ok(GlobalDeclaration::Declaration(
            renamed_value(alloc, &naming, declaration)?,
        )),
        GlobalDeclaration::Function(function) => {
            Ok(GlobalDeclaration::Function(renamed_function(alloc, naming, function)?))
        }
    }
}

fn renamed_ident<N: Naming>(alloc: Global, naming: &N, ident: &Ident) -> Result<Ident, AllocError>
    ensures { IfOk result (λ renamed. renamed.name ≡ N.gives naming.now ident.now.name) }
{
    Ok(Ident::new(naming.new_name(alloc, ident.as_str())?))
}

fn renamed_value<N: Naming>(
    alloc: Global,
    naming: &N,
    declaration: &Declaration,
) -> Result<Declaration, AllocError>
    ensures { IfOk result (λ renamed. declaration_tree (global.Declaration renamed) ≡ spec.renamed_declaration (N.gives naming.now) (declaration_tree (global.Declaration declaration.now))) }
{
    let attributes = renamed_attributes(alloc, naming, &declaration.attributes);
    let ident = renamed_ident(alloc, naming, &declaration.ident);
    let ty = renamed_maybe(alloc, naming, &declaration.ty);
    let initializer = renamed_maybe_node(alloc, naming, &declaration.initializer);
    let ((attributes, ident), (ty, initializer)) = both(
        both(attributes, ident),
        both(ty, initializer),
    )?;
    Ok(Declaration {
        attributes,
        kind: declaration.kind,
        ident,
        ty,
        initializer,
    })
}

fn renamed_maybe<N: Naming>(
    alloc: Global,
    naming: &N,
    ty: &Option<TypeExpression>,
) -> Result<Option<TypeExpression>, AllocError>
    ensures { IfOk result (λ renamed. option_map type_tree renamed ≡ option_map (spec.renamed_type (N.gives naming.now) []) (option_map type_tree ty.now)) }
{
    match ty {
        None => Ok(None),
        Some(ty) => Ok(Some(renamed_type(alloc, naming, ty)?)),
    }
}

fn renamed_function<N: Naming + Copy>(
    alloc: Global,
    naming: N,
    function: &Function,
) -> Result<Function, AllocError>
    ensures { IfOk result (λ renamed. declaration_tree (global.Function renamed) ≡ spec.renamed_declaration (N.gives naming) (declaration_tree (global.Function function.now))) }
{
    let attributes = renamed_attributes(alloc, &naming, &function.attributes);
    let ident = renamed_ident(alloc, &naming, &function.ident);
    let parameters = renamed_parameters(alloc, &naming, function.parameters.as_slice());
    let return_attributes = renamed_attributes(alloc, &naming, &function.return_attributes);
    let return_type = renamed_maybe(alloc, &naming, &function.return_type);
    let body = renamed_body(alloc, naming, function);
    let before = three(attributes, ident, parameters);
    let behind = three(return_attributes, return_type, body);
    let ((attributes, ident, parameters), (return_attributes, return_type, body)) = both(
        before, behind,
    )?;
    Ok(Function {
        attributes,
        ident,
        parameters,
        return_attributes,
        return_type,
        body,
    })
}

fn renamed_body<N: Naming + Copy>(
    alloc: Global,
    naming: N,
    function: &Function,
) -> Result<CompoundStatement, AllocError>
    ensures { IfOk result (λ body. block_tree body ≡ spec.renamed_block (N.gives naming) (parameter_names (map parameter_tree function.now.parameters)) (block_tree function.now.body)) }
{
    let scope = Scope::body(alloc, function.parameters.as_slice())?;
    let inside = BodyNaming {
        outer: naming,
        scope: &scope,
    };
    let body = renamed_block(alloc, &inside, &function.body)?;
    Ok(body)
}

fn renamed_parameters<N: Naming>(
    alloc: Global,
    naming: &N,
    parameters: &[FormalParameter],
) -> Result<Items<FormalParameter>, AllocError>
    ensures { IfOk result (λ renamed. map parameter_tree renamed ≡ map (λ p. spec.renamed_parameter (N.gives naming.now) (parameter_tree p)) parameters.now) }
{
    let mut renamed = Items::new(alloc);
    for parameter in parameters {
        renamed.push(renamed_parameter(alloc, naming, parameter)?)?;
    }
    Ok(renamed)
}

fn renamed_parameter<N: Naming>(
    alloc: Global,
    naming: &N,
    parameter: &FormalParameter,
) -> Result<FormalParameter, AllocError>
    ensures { IfOk result (λ renamed. parameter_tree renamed ≡ spec.renamed_parameter (N.gives naming.now) (parameter_tree parameter.now)) }
{
    let attributes = renamed_attributes(alloc, naming, &parameter.attributes);
    let ident = parameter.ident.clone_in(alloc);
    let ty = renamed_type(alloc, naming, &parameter.ty);
    let (attributes, ident, ty) = three(attributes, ident, ty)?;
    Ok(FormalParameter {
        attributes,
        ident,
        ty,
    })
}

fn renamed_maybe_node<N: Naming>(
    alloc: Global,
    naming: &N,
    node: &Option<ExpressionNode>,
) -> Result<Option<ExpressionNode>, AllocError>
    ensures { IfOk result (λ renamed. option_map node_tree renamed ≡ option_map (spec.renamed (N.gives naming.now) []) (option_map node_tree node.now)) }
{
    match node {
        None => Ok(None),
        Some(node) => Ok(Some(renamed_node(alloc, naming, node)?)),
    }
}

fn renamed_block<N: Naming>(
    alloc: Global,
    naming: &N,
    block: &CompoundStatement,
) -> Result<CompoundStatement, AllocError>
    ensures { IfOk result (λ renamed. block_tree renamed ≡ spec.renamed_block (N.gives naming.now) [] (block_tree block.now)) }
{
    let attributes = renamed_attributes(alloc, naming, &block.attributes)?;
    let statements = renamed_statements(alloc, naming, block.statements.as_slice())?;
    Ok(CompoundStatement {
        attributes,
        statements,
    })
}

/// A name behind a path stays.
fn renamed_name<N: Naming>(
    alloc: Global,
    naming: &N,
    path: &Option<Boxed<ModulePath>>,
    name: &str,
) -> Result<Text, AllocError>
    ensures { IfOk result (λ new. new ≡ renamed_at (N.gives naming.now) path.now name.now) }
{
    match path {
        None => naming.new_name(alloc, name),
        Some(_) => Text::from_str(alloc, name),
    }
}

fn renamed_statements<N: Naming>(
    alloc: Global,
    naming: &N,
    statements: &[StatementNode],
) -> Result<Items<StatementNode>, AllocError>
    ensures { IfOk result (λ renamed. map (λ n. statement_tree n.node) renamed ≡ map (λ n. spec.renamed_statement (N.gives naming.now) [] (statement_tree n.node)) statements.now) }
{
    let mut renamed = Items::new(alloc);
    for statement in statements {
        let new = renamed_statement(alloc, naming, statement.node())?;
        renamed.push(Spanned::new(alloc, new, statement.span)?)?;
    }
    Ok(renamed)
}

fn renamed_statement<N: Naming>(
    alloc: Global,
    naming: &N,
    statement: &Statement,
) -> Result<Statement, AllocError>
    ensures { IfOk result (λ renamed. statement_tree renamed ≡ spec.renamed_statement (N.gives naming.now) [] (statement_tree statement.now)) }
{
    match statement {
        Statement::Return(statement) => {
            Ok(Statement::Return(ReturnStatement {
                attributes: renamed_attributes(alloc, naming, &statement.attributes)?,
                expression: renamed_maybe_node(alloc, naming, &statement.expression)?,
            }))
        }
    }
}

fn renamed_attributes<N: Naming>(
    alloc: Global,
    naming: &N,
    attributes: &Attributes,
) -> Result<Attributes, AllocError>
    ensures { IfOk result (λ renamed. attributes_tree renamed ≡ spec.renamed_attributes (N.gives naming.now) [] (attributes_tree attributes.now)) }
{
    let renamed = renamed_each_attribute(alloc, naming, attributes.as_slice())?;
    Ok(renamed)
}

fn renamed_each_attribute<N: Naming>(
    alloc: Global,
    naming: &N,
    attributes: &[AttributeNode],
) -> Result<Attributes, AllocError>
    ensures { IfOk result (λ renamed. attributes_tree renamed ≡ map (λ n. spec.renamed_attribute (N.gives naming.now) [] (attribute_tree n.node)) attributes.now) }
{
    let mut renamed = Items::new(alloc);
    for attribute in attributes {
        let new = renamed_attribute(alloc, naming, attribute.node())?;
        renamed.push(Spanned::new(alloc, new, attribute.span)?)?;
    }
    Ok(renamed)
}

fn renamed_attribute<N: Naming>(
    alloc: Global,
    naming: &N,
    attribute: &Attribute,
) -> Result<Attribute, AllocError>
    ensures { IfOk result (λ renamed. attribute_tree renamed ≡ spec.renamed_attribute (N.gives naming.now) [] (attribute_tree attribute.now)) }
{
    match attribute {
        Attribute::Fragment => Ok(Attribute::Fragment),
        Attribute::Location(node) => Ok(Attribute::Location(renamed_node(alloc, naming, node)?)),
    }
}

#[cycle(renaming)]
#[tactic(auto, using(crate::proofs::Renames::renames_literal, crate::proofs::Renames::renames_parenthesized, crate::proofs::Renames::renames_unary, crate::proofs::Renames::renames_named))]
fn renamed_expression<N: Naming>(
    alloc: Global,
    naming: &N,
    expression: &Expression,
) -> Result<Expression, AllocError>
    ensures { IfOk result (λ renamed. tree renamed ≡ spec.renamed (N.gives naming.now) [] (tree expression.now)) }
{
    match expression {
        Expression::Literal(literal) => Ok(Expression::Literal(*literal)),
        Expression::Parenthesized(x) => Ok(Expression::Parenthesized(ParenthesizedExpression {
            expression: renamed_node(alloc, naming, &x.expression)?,
        })),
        Expression::Unary(x) => Ok(Expression::Unary(UnaryExpression {
            operator: x.operator,
            operand: renamed_node(alloc, naming, &x.operand)?,
        })),
        Expression::Binary(x) => Ok(Expression::Binary(renamed_binary(alloc, naming, x)?)),
        Expression::FunctionCall(x) => {
            let call = renamed_call(alloc, naming, x.get())?;
            Ok(Expression::FunctionCall(Boxed::new(alloc, call)?))
        }
        Expression::TypeOrIdentifier(x) => Ok(Expression::TypeOrIdentifier(renamed_type(
            alloc, naming, x,
        )?)),
    }
}

#[cycle(renaming)]
fn renamed_node<N: Naming>(
    alloc: Global,
    naming: &N,
    node: &ExpressionNode,
) -> Result<ExpressionNode, AllocError>
    ensures { IfOk result (λ renamed. node_tree renamed ≡ spec.renamed (N.gives naming.now) [] (node_tree node.now)) }
{
    Spanned::new(
        alloc,
        renamed_expression(alloc, naming, node.node())?,
        node.span,
    )
}

#[cycle(renaming)]
fn renamed_nodes<N: Naming>(
    alloc: Global,
    naming: &N,
    nodes: &[ExpressionNode],
) -> Result<Items<ExpressionNode>, AllocError>
    ensures { IfOk result (λ renamed. map node_tree renamed ≡ map (λ n. spec.renamed (N.gives naming.now) [] (node_tree n)) nodes.now) }
{
    let mut renamed = Items::new(alloc);
    for node in nodes {
        renamed.push(renamed_node(alloc, naming, node)?)?;
    }
    Ok(renamed)
}

#[cycle(renaming)]
#[tactic(auto, using(crate::proofs::Renames::renames_binary))]
fn renamed_binary<N: Naming>(
    alloc: Global,
    naming: &N,
    x: &BinaryExpression,
) -> Result<BinaryExpression, AllocError>
    ensures { IfOk result (λ renamed. tree (variants.Binary renamed) ≡ spec.renamed (N.gives naming.now) [] (tree (variants.Binary x.now))) }
{
    Ok(BinaryExpression {
        operator: x.operator,
        left: renamed_node(alloc, naming, &x.left)?,
        right: renamed_node(alloc, naming, &x.right)?,
    })
}

#[cycle(renaming)]
#[tactic(auto, using(crate::proofs::Renames::renames_call))]
fn renamed_call<N: Naming>(
    alloc: Global,
    naming: &N,
    x: &FunctionCall,
) -> Result<FunctionCall, AllocError>
    ensures { IfOk result (λ renamed. tree (variants.FunctionCall renamed) ≡ spec.renamed (N.gives naming.now) [] (tree (variants.FunctionCall x.now))) }
{
    Ok(FunctionCall {
        ty: renamed_type(alloc, naming, &x.ty)?,
        arguments: renamed_nodes(alloc, naming, x.arguments.as_slice())?,
    })
}

#[cycle(renaming)]
fn renamed_type<N: Naming>(
    alloc: Global,
    naming: &N,
    x: &TypeExpression,
) -> Result<TypeExpression, AllocError>
    ensures { IfOk result (λ renamed. type_tree renamed ≡ spec.renamed_type (N.gives naming.now) [] (type_tree x.now)) }
{
    let path = x.path.clone_in(alloc)?;
    let name = renamed_name(alloc, naming, &x.path, x.ident.as_str())?;
    let template_args = renamed_maybe_template(alloc, naming, &x.template_args)?;
    Ok(TypeExpression {
        path,
        ident: Ident::new(name),
        template_args,
    })
}

#[cycle(renaming)]
fn renamed_maybe_template<N: Naming>(
    alloc: Global,
    naming: &N,
    arguments: &TemplateArgs,
) -> Result<TemplateArgs, AllocError>
    ensures { IfOk result (λ renamed. option_map (map (λ a. node_tree a.expression)) renamed
        ≡ option_map (map (λ a. spec.renamed (N.gives naming.now) [] (node_tree a.expression))) arguments.now) }
{
    match arguments {
        None => Ok(None),
        Some(arguments) => {
            let renamed = renamed_template(alloc, naming, arguments.get().as_slice())?;
            Ok(Some(Boxed::new(alloc, renamed)?))
        }
    }
}

#[cycle(renaming)]
fn renamed_template<N: Naming>(
    alloc: Global,
    naming: &N,
    arguments: &[TemplateArg],
) -> Result<Items<TemplateArg>, AllocError>
    ensures { IfOk result (λ renamed. map (λ a. node_tree a.expression) renamed ≡ map (λ a. spec.renamed (N.gives naming.now) [] (node_tree a.expression)) arguments.now) }
{
    let mut renamed = Items::new(alloc);
    for argument in arguments {
        renamed.push(TemplateArg {
            expression: renamed_node(alloc, naming, &argument.expression)?,
        })?;
    }
    Ok(renamed)
}
