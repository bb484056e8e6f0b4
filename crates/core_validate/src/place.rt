//! Where names occur, and what they denote there (WGSL, "Declaration and Scope").

ghost use Rattle.std.specs.Prelude.{◌≡◌, [], ◌++◌, Some, None, Ok, OnOk, IfOk, map, length};
ghost use Rattle.std.specs.List.{flat_map};
ghost use Rattle.std.specs.Option.{option_map};
ghost use Rattle.core_syntax.specs.Tree.{exps};
ghost use Rattle.core_syntax.specs.View.{tree, node_tree, type_tree, attributes_tree, statement_tree, block_tree, parameter_tree, declaration_tree};
ghost use Rattle.core_validate.specs.Scopes.{is_in, denoted, name_places, exp_places, all_places, type_places, attributes_places, maybe_type_places, maybe_exp_places, statement_places, parameter_places, head_places, body_places, decl_places, arity, row_of};
ghost use Rattle.core_validate.specs.Lookups.{lookup, local_names, trees};

use core_syntax::{
    Attribute, Attributes, CompoundStatement, Declaration, Expression, ExpressionNode,
    FormalParameter, Function, FunctionCall, GlobalDeclaration, GlobalDeclarationNode, Ident,
    ModulePath, Statement, StatementNode, TemplateArg, TypeExpression,
};
use std::alloc::{AllocError, Global};
use std::collections::HashMap;
use wgsl_base::{Boxed, CloneIn, Items, Text};

/// Where a unit declares a name: the position of the first declaration of that name.
pub type Index<'a> = HashMap<&'a str, usize>;

/// What a name denotes where it occurs.
#[derive(Clone, Copy)]
pub enum Meaning {
    /// A parameter of the function whose body it stands in.
    Local,
    /// The declaration at this position of the unit.
    Global(usize),
    /// Nothing that the unit declares.
    Free,
}

/// An occurrence of a name.
#[derive(Drop)]
pub struct Place {
    pub name: Text,
    /// Of a callee, how many arguments it is called with.
    pub arguments: Option<usize>,
    pub meaning: Meaning,
}

/// A declaration: its name, a function's number of parameters, and what occurs in it.
#[derive(Drop)]
pub struct Row {
    pub name: Text,
    pub parameters: Option<usize>,
    pub places: Items<Place>,
}

pub fn is_local(name: &str, locals: &[FormalParameter]) -> bool
    ensures { result ≡ is_in name.now (local_names locals.now) }
{
    for local in locals {
        if name == local.ident.as_str() {
            return true;
        }
    }
    false
}

fn meaning_of(index: &Index<'_>, locals: &[FormalParameter], name: &str) -> Meaning
    ensures { result ≡ denoted (lookup index.now) (local_names locals.now) name.now }
{
    if is_local(name, locals) {
        return Meaning::Local;
    }
    match index.get(name) {
        Some(position) => Meaning::Global(*position),
        None => Meaning::Free,
    }
}

fn add_name(
    alloc: Global,
    index: &Index<'_>,
    locals: &[FormalParameter],
    path: &Option<Boxed<ModulePath>>,
    ident: &Ident,
    arguments: Option<usize>,
    places: &mut Items<Place>,
) -> Result<(), AllocError>
    ensures { OnOk result (places.new ≡ places.old ++ name_places (lookup index.now) (local_names locals.now) path.now ident.now.name arguments) }
{
    if path.is_some() {
        return Ok(());
    }
    places.push(Place {
        name: ident.name.clone_in(alloc)?,
        arguments,
        meaning: meaning_of(index, locals, ident.as_str()),
    })
}

#[cycle(collecting)]
#[tactic(auto, using(crate::proofs::TreeLemmas::places_of_named, crate::proofs::TreeLemmas::places_of_call))]
fn add_expression(
    alloc: Global,
    index: &Index<'_>,
    locals: &[FormalParameter],
    expression: &Expression,
    places: &mut Items<Place>,
) -> Result<(), AllocError>
    ensures { OnOk result (places.new ≡ places.old ++ exp_places (lookup index.now) (local_names locals.now) (tree expression.now)) }
{
    match expression {
        Expression::Literal(_) => Ok(()),
        Expression::Parenthesized(x) => add_expression(
            alloc,
            index,
            locals,
            x.expression.node(),
            places,
        ),
        Expression::Unary(x) => add_expression(alloc, index, locals, x.operand.node(), places),
        Expression::Binary(x) => {
            add_expression(alloc, index, locals, x.left.node(), places)?;
            add_expression(alloc, index, locals, x.right.node(), places)
        }
        Expression::FunctionCall(x) => add_call(alloc, index, locals, x.get(), places),
        Expression::TypeOrIdentifier(x) => add_type(alloc, index, locals, x, None, places),
    }
}

#[cycle(collecting)]
fn add_call(
    alloc: Global,
    index: &Index<'_>,
    locals: &[FormalParameter],
    call: &FunctionCall,
    places: &mut Items<Place>,
) -> Result<(), AllocError>
    ensures { OnOk result (places.new ≡ places.old ++ (type_places (lookup index.now) (local_names locals.now) (Some (length call.now.arguments)) (type_tree call.now.ty)
        ++ all_places (lookup index.now) (local_names locals.now) (exps (map node_tree call.now.arguments)))) }
{
    add_type(
        alloc,
        index,
        locals,
        &call.ty,
        Some(call.arguments.len()),
        places,
    )?;
    add_expressions(alloc, index, locals, call.arguments.as_slice(), places)
}

#[cycle(collecting)]
fn add_expressions(
    alloc: Global,
    index: &Index<'_>,
    locals: &[FormalParameter],
    expressions: &[ExpressionNode],
    places: &mut Items<Place>,
) -> Result<(), AllocError>
    ensures { OnOk result (places.new ≡ places.old ++ all_places (lookup index.now) (local_names locals.now) (exps (map node_tree expressions.now))) }
{
    for expression in expressions {
        add_expression(alloc, index, locals, expression.node(), places)?;
    }
    Ok(())
}

#[cycle(collecting)]
fn add_template_arguments(
    alloc: Global,
    index: &Index<'_>,
    locals: &[FormalParameter],
    arguments: &[TemplateArg],
    places: &mut Items<Place>,
) -> Result<(), AllocError>
    ensures { OnOk result (places.new ≡ places.old ++ all_places (lookup index.now) (local_names locals.now) (exps (map (λ a. tree a.expression.node) arguments.now))) }
{
    for argument in arguments {
        add_expression(alloc, index, locals, argument.expression.node(), places)?;
    }
    Ok(())
}

#[cycle(collecting)]
fn add_type(
    alloc: Global,
    index: &Index<'_>,
    locals: &[FormalParameter],
    ty: &TypeExpression,
    arguments: Option<usize>,
    places: &mut Items<Place>,
) -> Result<(), AllocError>
    ensures { OnOk result (places.new ≡ places.old ++ type_places (lookup index.now) (local_names locals.now) arguments (type_tree ty.now)) }
{
    add_name(alloc, index, locals, &ty.path, &ty.ident, arguments, places)?;
    match &ty.template_args {
        None => Ok(()),
        Some(template_arguments) => {
            add_template_arguments(
                alloc,
                index,
                locals,
                template_arguments.get().as_slice(),
                places,
            )
        }
    }
}

fn add_attributes(
    alloc: Global,
    index: &Index<'_>,
    locals: &[FormalParameter],
    attributes: &Attributes,
    places: &mut Items<Place>,
) -> Result<(), AllocError>
    ensures { OnOk result (places.new ≡ places.old ++ attributes_places (lookup index.now) (local_names locals.now) (attributes_tree attributes.now)) }
{
    for attribute in attributes.as_slice() {
        if let Attribute::Location(expression) = attribute.node() {
            add_expression(alloc, index, locals, expression.node(), places)?;
        }
    }
    Ok(())
}

fn add_statements(
    alloc: Global,
    index: &Index<'_>,
    locals: &[FormalParameter],
    statements: &[StatementNode],
    places: &mut Items<Place>,
) -> Result<(), AllocError>
    ensures { OnOk result (places.new ≡ places.old ++ flat_map (statement_places (lookup index.now) (local_names locals.now)) (map (λ n. statement_tree n.node) statements.now)) }
{
    for statement in statements {
        let Statement::Return(x) = statement.node();
        add_attributes(alloc, index, locals, &x.attributes, places)?;
        add_value(alloc, index, locals, &x.expression, places)?;
    }
    Ok(())
}

fn add_value(
    alloc: Global,
    index: &Index<'_>,
    locals: &[FormalParameter],
    value: &Option<ExpressionNode>,
    places: &mut Items<Place>,
) -> Result<(), AllocError>
    ensures { OnOk result (places.new ≡ places.old ++ maybe_exp_places (lookup index.now) (local_names locals.now) (option_map node_tree value.now)) }
{
    match value {
        None => Ok(()),
        Some(expression) => add_expression(alloc, index, locals, expression.node(), places),
    }
}

fn add_written_type(
    alloc: Global,
    index: &Index<'_>,
    ty: &Option<TypeExpression>,
    places: &mut Items<Place>,
) -> Result<(), AllocError>
    ensures { OnOk result (places.new ≡ places.old ++ maybe_type_places (lookup index.now) [] (option_map type_tree ty.now)) }
{
    match ty {
        None => Ok(()),
        Some(written) => add_type(alloc, index, &[], written, None, places),
    }
}

fn add_parameters(
    alloc: Global,
    index: &Index<'_>,
    parameters: &[FormalParameter],
    places: &mut Items<Place>,
) -> Result<(), AllocError>
    ensures { OnOk result (places.new ≡ places.old ++ flat_map (parameter_places (lookup index.now) []) (map parameter_tree parameters.now)) }
{
    for parameter in parameters {
        add_attributes(alloc, index, &[], &parameter.attributes, places)?;
        add_type(alloc, index, &[], &parameter.ty, None, places)?;
    }
    Ok(())
}

fn add_declaration(
    alloc: Global,
    index: &Index<'_>,
    declaration: &Declaration,
    places: &mut Items<Place>,
) -> Result<(), AllocError>
    ensures { OnOk result (places.new ≡ places.old ++ decl_places (lookup index.now) (declaration_tree (GlobalDeclaration.Declaration declaration.now))) }
{
    add_attributes(alloc, index, &[], &declaration.attributes, places)?;
    add_written_type(alloc, index, &declaration.ty, places)?;
    add_value(alloc, index, &[], &declaration.initializer, places)
}

fn add_head(
    alloc: Global,
    index: &Index<'_>,
    function: &Function,
    places: &mut Items<Place>,
) -> Result<(), AllocError>
    ensures { OnOk result (places.new ≡ places.old ++ head_places (lookup index.now) (attributes_tree function.now.attributes) (map parameter_tree function.now.parameters)
        (attributes_tree function.now.return_attributes) (option_map type_tree function.now.return_type)) }
{
    add_attributes(alloc, index, &[], &function.attributes, places)?;
    add_parameters(alloc, index, function.parameters.as_slice(), places)?;
    add_attributes(alloc, index, &[], &function.return_attributes, places)?;
    add_written_type(alloc, index, &function.return_type, places)
}

fn add_body(
    alloc: Global,
    index: &Index<'_>,
    locals: &[FormalParameter],
    body: &CompoundStatement,
    places: &mut Items<Place>,
) -> Result<(), AllocError>
    ensures { OnOk result (places.new ≡ places.old ++ body_places (lookup index.now) (local_names locals.now) (block_tree body.now)) }
{
    add_attributes(alloc, index, locals, &body.attributes, places)?;
    add_statements(alloc, index, locals, body.statements.as_slice(), places)
}

fn add_function(
    alloc: Global,
    index: &Index<'_>,
    function: &Function,
    places: &mut Items<Place>,
) -> Result<(), AllocError>
    ensures { OnOk result (places.new ≡ places.old ++ decl_places (lookup index.now) (declaration_tree (GlobalDeclaration.Function function.now))) }
{
    add_head(alloc, index, function, places)?;
    add_body(
        alloc,
        index,
        function.parameters.as_slice(),
        &function.body,
        places,
    )
}

/// The occurrences in a declaration, in text order.
fn places_in(
    alloc: Global,
    index: &Index<'_>,
    declaration: &GlobalDeclaration,
) -> Result<Items<Place>, AllocError>
    ensures { IfOk result (λ places. places ≡ decl_places (lookup index.now) (declaration_tree declaration.now)) }
{
    let mut places = Items::new(alloc);
    match declaration {
        GlobalDeclaration::Declaration(x) => add_declaration(alloc, index, x, &mut places)?,
        GlobalDeclaration::Function(x) => add_function(alloc, index, x, &mut places)?,
    }
    Ok(places)
}

fn arity(declaration: &GlobalDeclaration) -> Option<usize>
    ensures { result ≡ arity (declaration_tree declaration.now) }
{
    match declaration {
        GlobalDeclaration::Declaration(_) => None,
        GlobalDeclaration::Function(x) => Some(x.parameters.len()),
    }
}

fn made_row(
    alloc: Global,
    index: &Index<'_>,
    declaration: &GlobalDeclaration,
) -> Result<Row, AllocError>
    ensures { IfOk result (λ made. made ≡ row_of (lookup index.now) (declaration_tree declaration.now)) }
{
    Ok(Row {
        name: Text::from_str(alloc, declaration.declared_name())?,
        parameters: arity(declaration),
        places: places_in(alloc, index, declaration)?,
    })
}

/// What each declaration declares and what occurs in it.
pub fn rows(
    alloc: Global,
    index: &Index<'_>,
    declarations: &[GlobalDeclarationNode],
) -> Result<Items<Row>, AllocError>
    ensures { IfOk result (λ made. made ≡ map (row_of (lookup index.now)) (trees declarations.now)) }
{
    let mut made = Items::new(alloc);
    for declaration in declarations {
        made.push(made_row(alloc, index, declaration.node())?)?;
    }
    Ok(made)
}
