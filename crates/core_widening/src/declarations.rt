//! Statements, declarations and imports of units, and units, as those of the whole language.

ghost use Rattle.std.specs.Prelude.{◌≡◌, ◌∷◌, [], Some, map, IfOk};
ghost use Rattle.wgsl_statements.specs.View as whole_statements;
ghost use Rattle.wgsl_declarations.specs.ImportsView as whole_imports;
ghost use Rattle.wgsl_declarations.specs.View as whole;
ghost use Rattle.core_syntax.specs.View.{statement_tree, block_tree, parameter_tree, declaration_tree, import_tree, unit_tree};
ghost use Rattle.core_narrowing.specs.Trees.{statements_tree, parameters_tree, declarations_tree, imports_tree, item_tree, variable_tree, function_tree};
ghost use Rattle.wgsl_declarations.specs.ImportsTree.{item};
ghost use Rattle.core_widening.specs.Contents.{content_widened};
ghost use Rattle.core_narrowing.specs.Widening.{widen_stm, widen_stms, widen_block, widen_param, widen_decl, widen_imp, widen_unit};

use crate::expressions::{widen_attributes, widen_optional, widen_optional_type, widen_type};
use core_syntax::{
    CompoundStatement, Declaration, DeclarationKind, FormalParameter, Function, GlobalDeclaration,
    GlobalDeclarationNode, ImportContent, ImportItem, ImportStatement, ReturnStatement, Statement,
    StatementNode, TranslationUnit,
};
use std::alloc::{AllocError, Global};
use wgsl_base::{CloneIn, Items, both, three};
use wgsl_declarations as whole;
use wgsl_declarations as whole_imports;
use wgsl_path::Spanned;
use wgsl_simple_statements as whole_simple;
use wgsl_statements as whole_statements;

#[tactic(auto, using(wgsl_statements::proofs::Trees::tree_of_return))]
fn widen_return(
    alloc: Global,
    x: &ReturnStatement,
) -> Result<whole_statements::Statement, AllocError>
    ensures { IfOk result (λ w. whole_statements.statement_tree w ≡ Some (widen_stm (statement_tree (Statement.Return x.now)))) }
{
    let attributes = widen_attributes(alloc, x.attributes.as_slice());
    let (attributes, expression) = both(attributes, widen_optional(alloc, &x.expression))?;
    Ok(whole_statements::Statement::Return(whole_simple::ReturnStatement {
        attributes,
        expression,
    }))
}

fn widen_statement(
    alloc: Global,
    statement: &Statement,
) -> Result<whole_statements::Statement, AllocError>
    ensures { IfOk result (λ w. whole_statements.statement_tree w ≡ Some (widen_stm (statement_tree statement.now))) }
{
    match statement {
        Statement::Return(x) => widen_return(alloc, x),
    }
}

fn widen_statements(
    alloc: Global,
    nodes: &[StatementNode],
) -> Result<Items<whole_statements::StatementNode>, AllocError>
    ensures { IfOk result (λ w. whole_statements.statements_tree w ≡ widen_stms (statements_tree nodes.now)) }
{
    let mut widened = Items::new(alloc);
    for node in nodes {
        let statement = widen_statement(alloc, node.node())?;
        widened.push(Spanned::new(alloc, statement, node.span)?)?;
    }
    Ok(widened)
}

fn widen_block(
    alloc: Global,
    block: &CompoundStatement,
) -> Result<whole_statements::CompoundStatement, AllocError>
    ensures { IfOk result (λ w. whole_statements.block_tree w ≡ widen_block (block_tree block.now)) }
{
    let attributes = widen_attributes(alloc, block.attributes.as_slice());
    let statements = widen_statements(alloc, block.statements.as_slice());
    let (attributes, statements) = both(attributes, statements)?;
    Ok(whole_statements::CompoundStatement {
        attributes,
        statements,
    })
}

fn widen_parameter(alloc: Global, x: &FormalParameter) -> Result<whole::FormalParameter, AllocError>
    ensures { IfOk result (λ w. whole.parameter_tree w ≡ widen_param (parameter_tree x.now)) }
{
    let attributes = widen_attributes(alloc, x.attributes.as_slice());
    let ident = x.ident.clone_in(alloc);
    let (attributes, ident, ty) = three(attributes, ident, widen_type(alloc, &x.ty))?;
    Ok(whole::FormalParameter {
        attributes,
        ident,
        ty,
    })
}

fn widen_parameters(
    alloc: Global,
    parameters: &[FormalParameter],
) -> Result<Items<whole::FormalParameter>, AllocError>
    ensures { IfOk result (λ w. map whole.parameter_tree w ≡ map widen_param (parameters_tree parameters.now)) }
{
    let mut widened = Items::new(alloc);
    for parameter in parameters {
        widened.push(widen_parameter(alloc, parameter)?)?;
    }
    Ok(widened)
}

fn widen_variable(alloc: Global, x: &Declaration) -> Result<whole_simple::Declaration, AllocError>
    ensures { IfOk result (λ w. whole.variable_tree w ≡ widen_decl (variable_tree x.now)) }
{
    let attributes = widen_attributes(alloc, x.attributes.as_slice());
    let ident = x.ident.clone_in(alloc);
    let ty = widen_optional_type(alloc, &x.ty);
    let initializer = widen_optional(alloc, &x.initializer);
    let kind = match x.kind {
        DeclarationKind::Const => whole_simple::DeclarationKind::Const,
    };
    let before = both(attributes, ident);
    let ((attributes, ident), (ty, initializer)) = both(before, both(ty, initializer))?;
    Ok(whole_simple::Declaration {
        attributes,
        kind,
        ident,
        ty,
        initializer,
    })
}

fn widen_function(alloc: Global, x: &Function) -> Result<whole::Function, AllocError>
    ensures { IfOk result (λ w. whole.function_tree w ≡ widen_decl (function_tree x.now)) }
{
    let attributes = widen_attributes(alloc, x.attributes.as_slice());
    let ident = x.ident.clone_in(alloc);
    let parameters = widen_parameters(alloc, x.parameters.as_slice());
    let return_attributes = widen_attributes(alloc, x.return_attributes.as_slice());
    let return_type = widen_optional_type(alloc, &x.return_type);
    let body = widen_block(alloc, &x.body);
    let before = three(attributes, ident, parameters);
    let behind = three(return_attributes, return_type, body);
    let ((attributes, ident, parameters), (return_attributes, return_type, body)) = both(
        before, behind,
    )?;
    Ok(whole::Function {
        attributes,
        ident,
        parameters,
        return_attributes,
        return_type,
        body,
    })
}

fn widen_declaration(
    alloc: Global,
    declaration: &GlobalDeclaration,
) -> Result<whole::GlobalDeclaration, AllocError>
    ensures { IfOk result (λ w. whole.declaration_tree w ≡ Some (widen_decl (declaration_tree declaration.now))) }
{
    match declaration {
        GlobalDeclaration::Declaration(x) => Ok(whole::GlobalDeclaration::Declaration(
            widen_variable(alloc, x)?,
        )),
        GlobalDeclaration::Function(x) => {
            Ok(whole::GlobalDeclaration::Function(widen_function(alloc, x)?))
        }
    }
}

fn widen_declarations(
    alloc: Global,
    nodes: &[GlobalDeclarationNode],
) -> Result<Items<whole::GlobalDeclarationNode>, AllocError>
    ensures { IfOk result (λ w. whole.declarations_tree w ≡ map widen_decl (declarations_tree nodes.now)) }
{
    let mut widened = Items::new(alloc);
    for node in nodes {
        let declaration = widen_declaration(alloc, node.node())?;
        widened.push(Spanned::new(alloc, declaration, node.span)?)?;
    }
    Ok(widened)
}

fn widen_item(alloc: Global, x: &ImportItem) -> Result<whole_imports::ImportContent, AllocError>
    ensures { IfOk result (λ w. whole_imports.content_tree w ≡ item (item_tree x.now).0 (item_tree x.now).1) }
{
    let (ident, rename) = both(x.ident.clone_in(alloc), x.rename.clone_in(alloc))?;
    Ok(whole_imports::ImportContent::Item(whole_imports::ImportItem { ident, rename }))
}

fn widen_content(
    alloc: Global,
    content: &ImportContent,
) -> Result<whole_imports::ImportContent, AllocError>
    ensures { IfOk result (λ w. whole_imports.content_tree w ≡ content_widened content.now) }
{
    match content {
        ImportContent::Item(x) => widen_item(alloc, x),
    }
}

fn widen_import(
    alloc: Global,
    x: &ImportStatement,
) -> Result<whole_imports::ImportStatement, AllocError>
    ensures { IfOk result (λ w. whole_imports.importing_tree w ≡ widen_imp (import_tree x.now)) }
{
    let attributes = widen_attributes(alloc, x.attributes.as_slice());
    let path = x.path.clone_in(alloc);
    let content = widen_content(alloc, &x.content);
    let (attributes, path, content) = three(attributes, path, content)?;
    Ok(whole_imports::ImportStatement {
        attributes,
        path,
        content,
    })
}

fn widen_imports(
    alloc: Global,
    imports: &[ImportStatement],
) -> Result<Items<whole_imports::ImportStatement>, AllocError>
    ensures { IfOk result (λ w. map whole_imports.importing_tree w ≡ map widen_imp (imports_tree imports.now)) }
{
    let mut widened = Items::new(alloc);
    for import in imports {
        widened.push(widen_import(alloc, import)?)?;
    }
    Ok(widened)
}

/// The module of the whole language that a unit is, places too.
pub fn widen(alloc: Global, unit: &TranslationUnit) -> Result<whole::TranslationUnit, AllocError>
    ensures { IfOk result (λ w. whole.unit_tree w ≡ widen_unit (unit_tree unit.now)) }
{
    let imports = widen_imports(alloc, unit.imports.as_slice());
    let declarations = widen_declarations(alloc, unit.global_declarations.as_slice());
    let (imports, global_declarations) = both(imports, declarations)?;
    Ok(whole::TranslationUnit {
        imports,
        global_directives: Items::new(alloc),
        global_declarations,
    })
}
