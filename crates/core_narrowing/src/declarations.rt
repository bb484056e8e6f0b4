//! Statements, declarations and imports of units, and units.

ghost use Rattle.std.specs.Prelude.{◌≡◌, map, flat_map, Some, IfOk};
ghost use Rattle.std.specs.Option.{option_map};
ghost use Rattle.wgsl_statements.specs.View as whole_statements;
ghost use Rattle.wgsl_declarations.specs.ImportsView as whole_imports;
ghost use Rattle.wgsl_declarations.specs.View as whole;
ghost use Rattle.wgsl_simple_statements.specs.View as whole_simple;
ghost use Rattle.wgsl_simple_statements.specs.Tree as simple;
ghost use Rattle.wgsl_statements.specs.Tree as stm;
ghost use Rattle.core_syntax.specs.View.{statement_tree, block_tree, parameter_tree, declaration_tree, import_tree, unit_tree};
ghost use Rattle.core_narrowing.specs.Places as part;
ghost use Rattle.core_narrowing.specs.ModulePlaces as places;
ghost use Rattle.core_narrowing.specs.Trees.{return_tree, statements_tree, parameters_tree, declarations_tree, imports_tree, variable_tree, function_tree, item_tree};
ghost use Rattle.core_narrowing.specs.Narrowing.{Answers, AnswersOptional, Narrows, each, narrow_stm, narrow_stms, narrow_block, narrow_param, narrow_kind, narrow_decl, narrow_content, narrow_imp, narrow_unit, without_directives};

use crate::error::NarrowError;
use crate::expressions::{
    narrow_attributes, narrow_node, narrow_optional, narrow_optional_type, narrow_type,
};
use core_syntax::{
    CompoundStatement, Declaration, DeclarationKind, FormalParameter, Function, GlobalDeclaration,
    GlobalDeclarationNode, ImportContent, ImportItem, ImportStatement, ReturnStatement, Statement,
    StatementNode, TranslationUnit,
};
use std::alloc::Global;
use wgsl_base::{CloneIn, Items};
use wgsl_declarations as whole;
use wgsl_declarations as whole_imports;
use wgsl_path::Spanned;
use wgsl_simple_statements as whole_simple;
use wgsl_statements as whole_statements;

fn narrow_return(
    alloc: Global,
    x: &whole_simple::ReturnStatement,
) -> Result<ReturnStatement, NarrowError>
    ensures tree { Answers return_tree (narrow_stm (stm.simple (whole_simple.return_tree x.now))) result }
    ensures places { IfOk result (λ y. part.in_return y ≡ places.in_return x.now) }
{
    let attributes = narrow_attributes(alloc, &x.attributes.as_slice())?;
    let expression = narrow_optional(alloc, &x.expression)?;
    Ok(ReturnStatement {
        attributes,
        expression,
    })
}

/// A `;` is left out.
#[tactic(auto, using(wgsl_statements::proofs::Trees::tree_of_void, wgsl_statements::proofs::Trees::tree_of_compound, wgsl_statements::proofs::Trees::tree_of_assignment, wgsl_statements::proofs::Trees::tree_of_increment, wgsl_statements::proofs::Trees::tree_of_decrement, wgsl_statements::proofs::Trees::tree_of_if, wgsl_statements::proofs::Trees::tree_of_switch, wgsl_statements::proofs::Trees::tree_of_loop, wgsl_statements::proofs::Trees::tree_of_for, wgsl_statements::proofs::Trees::tree_of_while, wgsl_statements::proofs::Trees::tree_of_break, wgsl_statements::proofs::Trees::tree_of_continue, wgsl_statements::proofs::Trees::tree_of_return, wgsl_statements::proofs::Trees::tree_of_discard, wgsl_statements::proofs::Trees::tree_of_call, wgsl_statements::proofs::Trees::tree_of_assertion, wgsl_statements::proofs::Trees::tree_of_value, crate::proofs::PlacedWhole::in_void, crate::proofs::PlacedWhole::in_returning))]
fn narrow_statement(
    alloc: Global,
    statement: &whole_statements::Statement,
) -> Result<Option<Statement>, NarrowError>
    ensures tree { AnswersOptional statement_tree narrow_stm (whole_statements.statement_tree statement.now) result }
    ensures places { IfOk result (λ x. option_map part.in_statement x ≡ places.in_statement statement.now) }
{
    match statement {
        whole_statements::Statement::Void => Ok(None),
        whole_statements::Statement::Return(x) => Ok(Some(Statement::Return(narrow_return(
            alloc, x,
        )?))),
        _ => Err(NarrowError::Unsupported),
    }
}

fn narrow_statements(
    alloc: Global,
    nodes: &[whole_statements::StatementNode],
) -> Result<Items<StatementNode>, NarrowError>
    ensures tree { Answers statements_tree (narrow_stms (whole_statements.statements_tree nodes.now)) result }
    ensures places { IfOk result (λ x. part.in_statements x ≡ places.in_statements nodes.now) }
{
    let mut narrowed = Items::new(alloc);
    for node in nodes {
        match narrow_statement(alloc, node.node())? {
            Some(statement) => narrowed.push(Spanned::new(alloc, statement, node.span)?)?,
            None => {}
        }
    }
    Ok(narrowed)
}

fn narrow_block(
    alloc: Global,
    block: &whole_statements::CompoundStatement,
) -> Result<CompoundStatement, NarrowError>
    ensures tree { Answers block_tree (narrow_block (whole_statements.block_tree block.now)) result }
    ensures places { IfOk result (λ x. part.in_block x ≡ places.in_block block.now) }
{
    let attributes = narrow_attributes(alloc, &block.attributes.as_slice())?;
    let statements = narrow_statements(alloc, &block.statements.as_slice())?;
    Ok(CompoundStatement {
        attributes,
        statements,
    })
}

fn narrow_parameter(
    alloc: Global,
    x: &whole::FormalParameter,
) -> Result<FormalParameter, NarrowError>
    ensures tree { Answers parameter_tree (narrow_param (whole.parameter_tree x.now)) result }
    ensures places { IfOk result (λ y. part.in_parameter y ≡ places.in_parameter x.now) }
{
    let attributes = narrow_attributes(alloc, &x.attributes.as_slice())?;
    let ty = narrow_type(alloc, &x.ty)?;
    let ident = x.ident.clone_in(alloc)?;
    Ok(FormalParameter {
        attributes,
        ident,
        ty,
    })
}

fn narrow_parameters(
    alloc: Global,
    parameters: &[whole::FormalParameter],
) -> Result<Items<FormalParameter>, NarrowError>
    ensures tree { Answers parameters_tree (each narrow_param (map whole.parameter_tree parameters.now)) result }
    ensures places { IfOk result (λ x. flat_map part.in_parameter x ≡ flat_map places.in_parameter parameters.now) }
{
    let mut narrowed = Items::new(alloc);
    for parameter in parameters {
        narrowed.push(narrow_parameter(alloc, parameter)?)?;
    }
    Ok(narrowed)
}

fn narrow_kind(kind: whole_simple::DeclarationKind) -> Result<DeclarationKind, NarrowError>
    ensures { Answers (λ x. x) (narrow_kind kind) result }
{
    match kind {
        whole_simple::DeclarationKind::Const => Ok(DeclarationKind::Const),
        _ => Err(NarrowError::Unsupported),
    }
}

fn narrow_variable(alloc: Global, x: &whole_simple::Declaration) -> Result<Declaration, NarrowError>
    ensures tree { Answers variable_tree (narrow_decl (whole.variable_tree x.now)) result }
    ensures places { IfOk result (λ y. part.in_variable y ≡ places.in_variable x.now) }
{
    let attributes = narrow_attributes(alloc, &x.attributes.as_slice())?;
    let kind = narrow_kind(x.kind)?;
    let ty = narrow_optional_type(alloc, &x.ty)?;
    let initializer = narrow_optional(alloc, &x.initializer)?;
    let ident = x.ident.clone_in(alloc)?;
    Ok(Declaration {
        attributes,
        kind,
        ident,
        ty,
        initializer,
    })
}

fn narrow_function(alloc: Global, x: &whole::Function) -> Result<Function, NarrowError>
    ensures tree { Answers function_tree (narrow_decl (whole.function_tree x.now)) result }
    ensures places { IfOk result (λ y. part.in_function y ≡ places.in_function x.now) }
{
    let attributes = narrow_attributes(alloc, &x.attributes.as_slice())?;
    let parameters = narrow_parameters(alloc, &x.parameters.as_slice())?;
    let return_attributes = narrow_attributes(alloc, &x.return_attributes.as_slice())?;
    let return_type = narrow_optional_type(alloc, &x.return_type)?;
    let body = narrow_block(alloc, &x.body)?;
    let ident = x.ident.clone_in(alloc)?;
    Ok(Function {
        attributes,
        ident,
        parameters,
        return_attributes,
        return_type,
        body,
    })
}

/// A `;` is left out.
fn narrow_declaration(
    alloc: Global,
    declaration: &whole::GlobalDeclaration,
) -> Result<Option<GlobalDeclaration>, NarrowError>
    ensures tree { AnswersOptional declaration_tree narrow_decl (whole.declaration_tree declaration.now) result }
    ensures places { IfOk result (λ x. option_map part.in_declaration x ≡ places.in_declaration declaration.now) }
{
    match declaration {
        whole::GlobalDeclaration::Void => Ok(None),
        whole::GlobalDeclaration::Declaration(x) => {
            Ok(Some(GlobalDeclaration::Declaration(narrow_variable(alloc, x)?)))
        }
        whole::GlobalDeclaration::Function(x) => {
            Ok(Some(GlobalDeclaration::Function(narrow_function(alloc, x)?)))
        }
        _ => Err(NarrowError::Unsupported),
    }
}

fn narrow_declarations(
    alloc: Global,
    nodes: &[whole::GlobalDeclarationNode],
) -> Result<Items<GlobalDeclarationNode>, NarrowError>
    ensures tree { Answers declarations_tree (each narrow_decl (whole.declarations_tree nodes.now)) result }
    ensures places { IfOk result (λ x. part.in_declarations x ≡ places.in_declarations nodes.now) }
{
    let mut narrowed = Items::new(alloc);
    for node in nodes {
        match narrow_declaration(alloc, node.node())? {
            Some(declaration) => narrowed.push(Spanned::new(alloc, declaration, node.span)?)?,
            None => {}
        }
    }
    Ok(narrowed)
}

fn narrow_item(alloc: Global, x: &whole_imports::ImportContent) -> Result<ImportItem, NarrowError>
    ensures { Answers item_tree (narrow_content (whole_imports.content_tree x.now)) result }
{
    match x {
        whole_imports::ImportContent::Item(x) => Ok(ImportItem {
            ident: x.ident.clone_in(alloc)?,
            rename: x.rename.clone_in(alloc)?,
        }),
        whole_imports::ImportContent::Collection(_) => Err(NarrowError::Unsupported),
    }
}

fn narrow_import(
    alloc: Global,
    x: &whole_imports::ImportStatement,
) -> Result<ImportStatement, NarrowError>
    ensures tree { Answers import_tree (narrow_imp (whole_imports.importing_tree x.now)) result }
    ensures places { IfOk result (λ y. part.in_import y ≡ places.in_import x.now) }
{
    let attributes = narrow_attributes(alloc, &x.attributes.as_slice())?;
    let item = narrow_item(alloc, &x.content)?;
    let path = x.path.clone_in(alloc)?;
    Ok(ImportStatement {
        attributes,
        path,
        content: ImportContent::Item(item),
    })
}

fn narrow_imports(
    alloc: Global,
    imports: &[whole_imports::ImportStatement],
) -> Result<Items<ImportStatement>, NarrowError>
    ensures tree { Answers imports_tree (each narrow_imp (map whole_imports.importing_tree imports.now)) result }
    ensures places { IfOk result (λ x. flat_map part.in_import x ≡ flat_map places.in_import imports.now) }
{
    let mut narrowed = Items::new(alloc);
    for import in imports {
        narrowed.push(narrow_import(alloc, import)?)?;
    }
    Ok(narrowed)
}

fn no_directives(directives: &[whole_imports::GlobalDirective]) -> Result<(), NarrowError>
    ensures { Answers (λ x. x) (without_directives (map whole_imports.directive_tree directives.now)) result }
{
    match directives {
        [] => Ok(()),
        [..] => Err(NarrowError::Unsupported),
    }
}

fn narrowed(alloc: Global, unit: &whole::TranslationUnit) -> Result<TranslationUnit, NarrowError>
    ensures tree { Answers unit_tree (narrow_unit (whole.unit_tree unit.now)) result }
    ensures places { IfOk result (λ x. part.places x ≡ places.places unit.now) }
{
    no_directives(unit.global_directives.as_slice())?;
    let imports = narrow_imports(alloc, unit.imports.as_slice())?;
    let global_declarations = narrow_declarations(alloc, unit.global_declarations.as_slice())?;
    Ok(TranslationUnit {
        imports,
        global_declarations,
    })
}

/// The unit that a module of the whole language is, places too; or an error, where no unit is it. It may hold more than the part of the language
/// that `link` and `compile` read.
#[tactic(auto, using(crate::proofs::Lying::narrows))]
pub fn narrow(alloc: Global, unit: &whole::TranslationUnit) -> Result<TranslationUnit, NarrowError>
    ensures unit { Narrows (whole.unit_tree unit.now) result }
    ensures places { IfOk result (λ x. part.places x ≡ places.places unit.now) }
{
    narrowed(alloc, unit)
}
