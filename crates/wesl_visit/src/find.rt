//! Lists of the outermost statements inside a part of a module.

ghost use Rattle.std.specs.Prelude.{◌≡◌, [], ◌∷◌, ◌++◌, OnOk};
ghost use Rattle.std.specs.List.{flat_map};
ghost use Rattle.wesl_visit_children.specs.Turns.{pointed};
ghost use Rattle.wesl_visit.specs.Statements.{in_block, in_else_if, in_else, in_if, in_clause, in_switch, in_continuing, in_loop, in_part, in_for, in_declaration_node, statements_in, statements_in_declaration, statements_in_unit};

use std::alloc::AllocError;
use wgsl_declarations::{GlobalDeclaration, GlobalDeclarationNode, TranslationUnit};
use wgsl_statements::{
    CompoundStatement, ContinuingStatement, ElseClause, ElseIfClause, ForStatement, IfStatement,
    LoopStatement, Statement, StatementNode, SwitchClause, SwitchStatement,
};

/// Lists the outermost statements in a statement.
#[tactic(auto, using(crate::proofs::Cases::inner))]
pub fn find_statement<'a>(
    statement: &'a Statement,
    found: &mut Vec<&'a StatementNode>,
) -> Result<(), AllocError>
    ensures { OnOk result (pointed found.new.items ≡ pointed found.old.items ++ (statements_in statement.now)) }
{
    match statement {
        Statement::Compound(x) => find_block(x, found),
        Statement::If(x) => find_if(x.get(), found),
        Statement::Switch(x) => find_switch(x.get(), found),
        Statement::Loop(x) => find_loop(x.get(), found),
        Statement::For(x) => find_for(x.get(), found),
        Statement::While(x) => find_block(&x.get().body, found),
        Statement::Void => Ok(()),
        Statement::Assignment(_) => Ok(()),
        Statement::Increment(_) => Ok(()),
        Statement::Decrement(_) => Ok(()),
        Statement::Break(_) => Ok(()),
        Statement::Continue(_) => Ok(()),
        Statement::Return(_) => Ok(()),
        Statement::Discard(_) => Ok(()),
        Statement::FunctionCall(_) => Ok(()),
        Statement::ConstAssert(_) => Ok(()),
        Statement::Declaration(_) => Ok(()),
    }
}

/// Lists a statement.
fn find_node<'a>(
    node: &'a StatementNode,
    found: &mut Vec<&'a StatementNode>,
) -> Result<(), AllocError>
    ensures { OnOk result (pointed found.new.items ≡ pointed found.old.items ++ (node.now ∷ [])) }
{
    found.push(node)?;
    Ok(())
}

/// Lists the outermost statements of a block.
pub fn find_block<'a>(
    block: &'a CompoundStatement,
    found: &mut Vec<&'a StatementNode>,
) -> Result<(), AllocError>
    ensures { OnOk result (pointed found.new.items ≡ pointed found.old.items ++ (in_block block.now)) }
{
    find_nodes(&block.statements.as_slice(), found)
}

/// Lists statements, one by one.
fn find_nodes<'a>(
    nodes: &'a [StatementNode],
    found: &mut Vec<&'a StatementNode>,
) -> Result<(), AllocError>
    ensures { OnOk result (pointed found.new.items ≡ pointed found.old.items ++ nodes.now) }
{
    for node in nodes {
        find_node(node, found)?;
    }
    Ok(())
}

/// Lists the outermost statements of `if`.
fn find_if<'a>(x: &'a IfStatement, found: &mut Vec<&'a StatementNode>) -> Result<(), AllocError>
    ensures { OnOk result (pointed found.new.items ≡ pointed found.old.items ++ (in_if x.now)) }
{
    find_block(&x.if_clause.body, found)?;
    find_else_ifs(&x.else_if_clauses.as_slice(), found)?;
    find_else(&x.else_clause, found)
}

/// Lists the outermost statements of the clauses `else if`.
fn find_else_ifs<'a>(
    clauses: &'a [ElseIfClause],
    found: &mut Vec<&'a StatementNode>,
) -> Result<(), AllocError>
    ensures { OnOk result (pointed found.new.items ≡ pointed found.old.items ++ (flat_map in_else_if clauses.now)) }
{
    for clause in clauses {
        find_else_if(clause, found)?;
    }
    Ok(())
}

/// Lists the outermost statements of a clause `else if`.
fn find_else_if<'a>(
    clause: &'a ElseIfClause,
    found: &mut Vec<&'a StatementNode>,
) -> Result<(), AllocError>
    ensures { OnOk result (pointed found.new.items ≡ pointed found.old.items ++ (in_else_if clause.now)) }
{
    find_block(&clause.body, found)
}

/// Lists the outermost statements of `else`.
fn find_else<'a>(
    clause: &'a Option<ElseClause>,
    found: &mut Vec<&'a StatementNode>,
) -> Result<(), AllocError>
    ensures { OnOk result (pointed found.new.items ≡ pointed found.old.items ++ (in_else clause.now)) }
{
    match clause {
        None => Ok(()),
        Some(clause) => find_block(&clause.body, found),
    }
}

/// Lists the outermost statements of `switch`.
fn find_switch<'a>(
    x: &'a SwitchStatement,
    found: &mut Vec<&'a StatementNode>,
) -> Result<(), AllocError>
    ensures { OnOk result (pointed found.new.items ≡ pointed found.old.items ++ (in_switch x.now)) }
{
    find_clauses(&x.clauses.as_slice(), found)
}

/// Lists the outermost statements of the clauses of `switch`.
fn find_clauses<'a>(
    clauses: &'a [SwitchClause],
    found: &mut Vec<&'a StatementNode>,
) -> Result<(), AllocError>
    ensures { OnOk result (pointed found.new.items ≡ pointed found.old.items ++ (flat_map in_clause clauses.now)) }
{
    for clause in clauses {
        find_clause(clause, found)?;
    }
    Ok(())
}

/// Lists the outermost statements of a clause of `switch`.
fn find_clause<'a>(
    clause: &'a SwitchClause,
    found: &mut Vec<&'a StatementNode>,
) -> Result<(), AllocError>
    ensures { OnOk result (pointed found.new.items ≡ pointed found.old.items ++ (in_clause clause.now)) }
{
    find_block(&clause.body, found)
}

/// Lists the outermost statements of `loop`.
fn find_loop<'a>(x: &'a LoopStatement, found: &mut Vec<&'a StatementNode>) -> Result<(), AllocError>
    ensures { OnOk result (pointed found.new.items ≡ pointed found.old.items ++ (in_loop x.now)) }
{
    find_block(&x.body, found)?;
    find_continuing(&x.continuing, found)
}

/// Lists the outermost statements of `continuing`.
fn find_continuing<'a>(
    continuing: &'a Option<ContinuingStatement>,
    found: &mut Vec<&'a StatementNode>,
) -> Result<(), AllocError>
    ensures { OnOk result (pointed found.new.items ≡ pointed found.old.items ++ (in_continuing continuing.now)) }
{
    match continuing {
        None => Ok(()),
        Some(x) => find_block(&x.body, found),
    }
}

/// Lists the outermost statements of `for`.
fn find_for<'a>(x: &'a ForStatement, found: &mut Vec<&'a StatementNode>) -> Result<(), AllocError>
    ensures { OnOk result (pointed found.new.items ≡ pointed found.old.items ++ (in_for x.now)) }
{
    find_part(&x.initializer, found)?;
    find_part(&x.update, found)?;
    find_block(&x.body, found)
}

/// Lists a part of the header of `for`.
fn find_part<'a>(
    part: &'a Option<StatementNode>,
    found: &mut Vec<&'a StatementNode>,
) -> Result<(), AllocError>
    ensures { OnOk result (pointed found.new.items ≡ pointed found.old.items ++ (in_part part.now)) }
{
    match part {
        None => Ok(()),
        Some(node) => find_node(node, found),
    }
}

/// Lists the outermost statements in a declaration.
pub fn find_declaration<'a>(
    declaration: &'a GlobalDeclaration,
    found: &mut Vec<&'a StatementNode>,
) -> Result<(), AllocError>
    ensures { OnOk result (pointed found.new.items ≡ pointed found.old.items ++ (statements_in_declaration declaration.now)) }
{
    match declaration {
        GlobalDeclaration::Function(x) => find_block(&x.body, found),
        GlobalDeclaration::Void => Ok(()),
        GlobalDeclaration::Declaration(_) => Ok(()),
        GlobalDeclaration::TypeAlias(_) => Ok(()),
        GlobalDeclaration::Struct(_) => Ok(()),
        GlobalDeclaration::ConstAssert(_) => Ok(()),
    }
}

/// Lists the outermost statements in a declaration.
fn find_declaration_node<'a>(
    declaration: &'a GlobalDeclarationNode,
    found: &mut Vec<&'a StatementNode>,
) -> Result<(), AllocError>
    ensures { OnOk result (pointed found.new.items ≡ pointed found.old.items ++ (in_declaration_node declaration.now)) }
{
    find_declaration(declaration.node(), found)
}

/// Lists the outermost statements in declarations.
fn find_declarations<'a>(
    declarations: &'a [GlobalDeclarationNode],
    found: &mut Vec<&'a StatementNode>,
) -> Result<(), AllocError>
    ensures { OnOk result (pointed found.new.items ≡ pointed found.old.items ++ (flat_map in_declaration_node declarations.now)) }
{
    for declaration in declarations {
        find_declaration_node(declaration, found)?;
    }
    Ok(())
}

/// Lists the outermost statements in a module.
pub fn find_unit<'a>(
    unit: &'a TranslationUnit,
    found: &mut Vec<&'a StatementNode>,
) -> Result<(), AllocError>
    ensures { OnOk result (pointed found.new.items ≡ pointed found.old.items ++ (statements_in_unit unit.now)) }
{
    find_declarations(&unit.global_declarations.as_slice(), found)
}
