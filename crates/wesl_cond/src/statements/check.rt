//! The first error of the conditions of statements.

ghost use Rattle.std.specs.Prelude.{◌≡◌, map, Some};
ghost use Rattle.std.specs.Option.{option_or, option_map};
ghost use Rattle.wgsl_expressions.specs.AttributesView.{attributes_tree};
ghost use Rattle.wgsl_statements.specs.View.{statement_tree, block_tree, elses_layer, else_layer, clauses_layer, continuing_layer, part_layer};
ghost use Rattle.wesl_conditions.specs.Trees.{statement_attributes};
ghost use Rattle.wesl_conditions.specs.Faults.{block_fault, elses_fault, clauses_fault, continuing_fault, part_fault};
ghost use Rattle.wesl_conditions.specs.Told.{TellsFault};
ghost use Rattle.wesl_cond.specs.Passing.{Passes, see_statement, see_node, inside_statement, first_of};

use std::alloc::Global;
use wesl_cond_items::{Check, attributes_of};
use wesl_conditions::{CondCompError, Features};
use wgsl_base::Items;
use wgsl_expressions::Attributes;
use wgsl_statements::{
    CompoundStatement, ContinuingStatement, ElseClause, ElseIfClause, ForStatement, IfStatement,
    LoopStatement, Statement, StatementNode, SwitchClause,
};

/// The first error inside a statement.
#[cycle(check)]
#[tactic(auto, using(wgsl_statements::proofs::Trees::tree_of_void, wgsl_statements::proofs::Trees::tree_of_compound, wgsl_statements::proofs::Trees::tree_of_assignment, wgsl_statements::proofs::Trees::tree_of_increment, wgsl_statements::proofs::Trees::tree_of_decrement, wgsl_statements::proofs::Trees::tree_of_if, wgsl_statements::proofs::Trees::tree_of_switch, wgsl_statements::proofs::Trees::tree_of_loop, wgsl_statements::proofs::Trees::tree_of_for, wgsl_statements::proofs::Trees::tree_of_while, wgsl_statements::proofs::Trees::tree_of_break, wgsl_statements::proofs::Trees::tree_of_continue, wgsl_statements::proofs::Trees::tree_of_return, wgsl_statements::proofs::Trees::tree_of_discard, wgsl_statements::proofs::Trees::tree_of_call, wgsl_statements::proofs::Trees::tree_of_assertion, wgsl_statements::proofs::Trees::tree_of_value))]
pub fn check_statement(
    alloc: Global,
    statement: &Statement,
    features: &Features,
) -> Result<(), CondCompError>
    ensures { TellsFault (inside_statement features.now (statement_tree statement.now)) result }
{
    match statement {
        Statement::Compound(x) => check_block(alloc, x, features),
        Statement::If(x) => check_if(alloc, x.get(), features),
        Statement::Switch(x) => check_clauses(alloc, &x.get().clauses, features),
        Statement::Loop(x) => check_loop(alloc, x.get(), features),
        Statement::For(x) => check_for(alloc, x.get(), features),
        Statement::While(x) => check_block(alloc, &x.get().body, features),
        Statement::Void => Ok(()),
        Statement::Assignment(_) => Ok(()),
        Statement::Increment(_) => Ok(()),
        Statement::Decrement(_) => Ok(()),
        Statement::Break(_) => Ok(()),
        Statement::Continue(_) => Ok(()),
        Statement::Return(_) => Ok(()),
        Statement::Discard(_) => Ok(()),
        Statement::FunctionCall(_) => Ok(()),
        Statement::ConstAssert(_) => Ok(()),
        Statement::Declaration(_) => Ok(()),
    }
}

/// Passes one statement of a list.
#[cycle(check)]
#[tactic(auto, using(crate::proofs::Passing::nothing))]
fn check_node(
    alloc: Global,
    node: &StatementNode,
    check: &mut Check,
    features: &Features,
) -> Result<(), CondCompError>
    ensures { Passes features.now check.old (see_node features.now node.now) result check.new }
{
    match attributes_of(node.node()) {
        None => Ok(()),
        Some(attributes) => enter(alloc, attributes, node.node(), check, features),
    }
}

/// Passes one statement, which has these attributes.
#[cycle(check)]
#[tactic(auto, using(crate::proofs::Passing::passed, crate::proofs::Passing::refused_before, crate::proofs::Passing::entered, crate::proofs::Passing::memory))]
fn enter(
    alloc: Global,
    attributes: &Attributes,
    statement: &Statement,
    check: &mut Check,
    features: &Features,
) -> Result<(), CondCompError>
    requires { Some (attributes_tree attributes.now) ≡ option_map statement_attributes (statement_tree statement.now) }
    ensures { Passes features.now check.old (see_statement features.now (statement_tree statement.now)) result check.new }
{
    if !check.enter(alloc, attributes, features)? {
        return Ok(());
    }
    check.found(check_statement(alloc, statement, features))
}

/// The first error of a block.
#[cycle(check)]
#[tactic(auto, using(crate::proofs::Passing::begins))]
pub fn check_block(
    alloc: Global,
    block: &CompoundStatement,
    features: &Features,
) -> Result<(), CondCompError>
    ensures { TellsFault (block_fault features.now (block_tree block.now)) result }
{
    let mut check = Check::new();
    for node in block.statements.as_slice() {
        check_node(alloc, node, &mut check, features)?;
    }
    check.end()
}

#[cycle(check)]
#[tactic(auto, using(crate::proofs::Clauses::fault_of_elses))]
fn check_if(alloc: Global, x: &IfStatement, features: &Features) -> Result<(), CondCompError>
    ensures { TellsFault (option_or (block_fault features.now (block_tree x.now.if_clause.body)) (elses_fault features.now (elses_layer statement_tree x.now.else_if_clauses x.now.else_clause))) result }
{
    check_block(alloc, &x.if_clause.body, features)?;
    check_else_ifs(alloc, &x.else_if_clauses, features)?;
    check_else(alloc, &x.else_clause, features)
}

#[cycle(check)]
fn check_else_ifs(
    alloc: Global,
    clauses: &Items<ElseIfClause>,
    features: &Features,
) -> Result<(), CondCompError>
    ensures { TellsFault (first_of (map (λ c. block_fault features.now (block_tree c.body)) clauses.now)) result }
{
    for clause in clauses.as_slice() {
        check_block(alloc, &clause.body, features)?;
    }
    Ok(())
}

#[cycle(check)]
fn check_else(
    alloc: Global,
    clause: &Option<ElseClause>,
    features: &Features,
) -> Result<(), CondCompError>
    ensures { TellsFault (elses_fault features.now (else_layer statement_tree clause.now)) result }
{
    match clause {
        None => Ok(()),
        Some(clause) => check_block(alloc, &clause.body, features),
    }
}

#[cycle(check)]
fn check_clauses(
    alloc: Global,
    clauses: &Items<SwitchClause>,
    features: &Features,
) -> Result<(), CondCompError>
    ensures { TellsFault (clauses_fault features.now (clauses_layer statement_tree clauses.now)) result }
{
    for clause in clauses.as_slice() {
        check_block(alloc, &clause.body, features)?;
    }
    Ok(())
}

#[cycle(check)]
fn check_loop(alloc: Global, x: &LoopStatement, features: &Features) -> Result<(), CondCompError>
    ensures { TellsFault (option_or (block_fault features.now (block_tree x.now.body)) (continuing_fault features.now (continuing_layer statement_tree x.now.continuing))) result }
{
    check_block(alloc, &x.body, features)?;
    check_continuing(alloc, &x.continuing, features)
}

#[cycle(check)]
fn check_continuing(
    alloc: Global,
    continuing: &Option<ContinuingStatement>,
    features: &Features,
) -> Result<(), CondCompError>
    ensures { TellsFault (continuing_fault features.now (continuing_layer statement_tree continuing.now)) result }
{
    match continuing {
        None => Ok(()),
        Some(x) => check_block(alloc, &x.body, features),
    }
}

#[cycle(check)]
fn check_for(alloc: Global, x: &ForStatement, features: &Features) -> Result<(), CondCompError>
    ensures { TellsFault (option_or (part_fault features.now (part_layer statement_tree x.now.initializer)) (option_or (part_fault features.now (part_layer statement_tree x.now.update)) (block_fault features.now (block_tree x.now.body)))) result }
{
    check_part(alloc, &x.initializer, features)?;
    check_part(alloc, &x.update, features)?;
    check_block(alloc, &x.body, features)
}

/// The first error inside a part of the header of `for`.
#[cycle(check)]
#[tactic(auto, using(crate::proofs::Clauses::fault_of_part))]
fn check_part(
    alloc: Global,
    part: &Option<StatementNode>,
    features: &Features,
) -> Result<(), CondCompError>
    ensures { TellsFault (part_fault features.now (part_layer statement_tree part.now)) result }
{
    match part {
        None => Ok(()),
        Some(node) => check_statement(alloc, node.node(), features),
    }
}
