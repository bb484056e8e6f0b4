//! Lists of the parts of statements.

ghost use Rattle.std.specs.Prelude.{◌≡◌, ◌++◌, OnOk};
ghost use Rattle.std.specs.List.{flat_map};
ghost use Rattle.wesl_visit_children.specs.Parts.{in_assignment, in_block, in_break_if, in_call_statement, in_clause, in_const_assert, in_continuing, in_declared, in_else, in_else_if, in_for, in_if, in_loop, in_marked, in_node, in_optional_continuing, in_part, in_return, in_selector, in_switch, in_while, parts_in_statement};
ghost use Rattle.wesl_visit_children.specs.Listed.{parts};

use crate::find::{find_attributes, find_call, find_expression, find_option, find_optional_type};
use crate::part::PartRef;
use std::alloc::AllocError;
use wgsl_expressions::{AttributeNode, ExpressionNode};
use wgsl_simple_statements::{
    AssignmentStatement, BreakIfStatement, CaseSelector, ConstAssert, Declaration,
    FunctionCallStatement, ReturnStatement,
};
use wgsl_statements::{
    CompoundStatement, ContinuingStatement, ElseClause, ElseIfClause, ForStatement, IfStatement,
    LoopStatement, Statement, StatementNode, SwitchClause, SwitchStatement, WhileStatement,
};

/// Lists the parts of attributes, and the one behind them.
pub fn find_marked<'a>(
    attributes: &'a [AttributeNode],
    expression: &'a ExpressionNode,
    found: &mut Vec<PartRef<'a>>,
) -> Result<(), AllocError>
    ensures { OnOk result (parts found.new.items ≡ parts found.old.items ++ (in_marked attributes.now expression.now)) }
{
    find_attributes(attributes, found)?;
    find_expression(expression, found)
}

/// Lists the parts of an assignment.
fn find_assignment<'a>(
    x: &'a AssignmentStatement,
    found: &mut Vec<PartRef<'a>>,
) -> Result<(), AllocError>
    ensures { OnOk result (parts found.new.items ≡ parts found.old.items ++ (in_assignment x.now)) }
{
    find_attributes(&x.attributes.as_slice(), found)?;
    find_expression(&x.lhs, found)?;
    find_expression(&x.rhs, found)
}

/// Lists the parts of `return`.
fn find_return<'a>(x: &'a ReturnStatement, found: &mut Vec<PartRef<'a>>) -> Result<(), AllocError>
    ensures { OnOk result (parts found.new.items ≡ parts found.old.items ++ (in_return x.now)) }
{
    find_attributes(&x.attributes.as_slice(), found)?;
    find_option(&x.expression, found)
}

/// Lists the parts of a call as a statement.
fn find_call_statement<'a>(
    x: &'a FunctionCallStatement,
    found: &mut Vec<PartRef<'a>>,
) -> Result<(), AllocError>
    ensures { OnOk result (parts found.new.items ≡ parts found.old.items ++ (in_call_statement x.now)) }
{
    find_attributes(&x.attributes.as_slice(), found)?;
    find_call(&x.call, found)
}

/// Lists the parts of a constant assertion.
pub fn find_const_assert<'a>(
    x: &'a ConstAssert,
    found: &mut Vec<PartRef<'a>>,
) -> Result<(), AllocError>
    ensures { OnOk result (parts found.new.items ≡ parts found.old.items ++ (in_const_assert x.now)) }
{
    find_marked(&x.attributes.as_slice(), &x.expression, found)
}

/// Lists the parts of a declaration of a value.
pub fn find_declared<'a>(x: &'a Declaration, found: &mut Vec<PartRef<'a>>) -> Result<(), AllocError>
    ensures { OnOk result (parts found.new.items ≡ parts found.old.items ++ (in_declared x.now)) }
{
    find_attributes(&x.attributes.as_slice(), found)?;
    find_optional_type(&x.ty, found)?;
    find_option(&x.initializer, found)
}

/// Lists the parts of `break if`.
fn find_break_if<'a>(
    x: &'a Option<BreakIfStatement>,
    found: &mut Vec<PartRef<'a>>,
) -> Result<(), AllocError>
    ensures { OnOk result (parts found.new.items ≡ parts found.old.items ++ (in_break_if x.now)) }
{
    match x {
        None => Ok(()),
        Some(x) => find_marked(&x.attributes.as_slice(), &x.expression, found),
    }
}

/// Lists the part of a selector.
fn find_selector<'a>(
    selector: &'a CaseSelector,
    found: &mut Vec<PartRef<'a>>,
) -> Result<(), AllocError>
    ensures { OnOk result (parts found.new.items ≡ parts found.old.items ++ (in_selector selector.now)) }
{
    match selector {
        CaseSelector::Default => Ok(()),
        CaseSelector::Expression(x) => find_expression(x, found),
    }
}

/// Lists the parts of selectors, one by one.
fn find_selectors<'a>(
    selectors: &'a [CaseSelector],
    found: &mut Vec<PartRef<'a>>,
) -> Result<(), AllocError>
    ensures { OnOk result (parts found.new.items ≡ parts found.old.items ++ (flat_map in_selector selectors.now)) }
{
    for selector in selectors {
        find_selector(selector, found)?;
    }
    Ok(())
}

/// Lists the parts of a statement.
#[cycle(find)]
#[tactic(auto, using(crate::proofs::Cases::inner))]
pub fn find_statement<'a>(
    statement: &'a Statement,
    found: &mut Vec<PartRef<'a>>,
) -> Result<(), AllocError>
    ensures { OnOk result (parts found.new.items ≡ parts found.old.items ++ (parts_in_statement statement.now)) }
{
    match statement {
        Statement::Void => Ok(()),
        Statement::Compound(x) => find_block(x, found),
        Statement::Assignment(x) => find_assignment(x, found),
        Statement::Increment(x) => find_marked(&x.attributes.as_slice(), &x.expression, found),
        Statement::Decrement(x) => find_marked(&x.attributes.as_slice(), &x.expression, found),
        Statement::If(x) => find_if(x.get(), found),
        Statement::Switch(x) => find_switch(x.get(), found),
        Statement::Loop(x) => find_loop(x.get(), found),
        Statement::For(x) => find_for(x.get(), found),
        Statement::While(x) => find_while(x.get(), found),
        Statement::Break(x) => find_attributes(&x.attributes.as_slice(), found),
        Statement::Continue(x) => find_attributes(&x.attributes.as_slice(), found),
        Statement::Return(x) => find_return(x, found),
        Statement::Discard(x) => find_attributes(&x.attributes.as_slice(), found),
        Statement::FunctionCall(x) => find_call_statement(x.get(), found),
        Statement::ConstAssert(x) => find_const_assert(x, found),
        Statement::Declaration(x) => find_declared(x.get(), found),
    }
}

/// Lists the parts of statements, one by one.
#[cycle(find)]
fn find_statements<'a>(
    nodes: &'a [StatementNode],
    found: &mut Vec<PartRef<'a>>,
) -> Result<(), AllocError>
    ensures { OnOk result (parts found.new.items ≡ parts found.old.items ++ (flat_map (in_node parts_in_statement) nodes.now)) }
{
    for node in nodes {
        find_statement(node.node(), found)?;
    }
    Ok(())
}

/// Lists the parts of a block.
#[cycle(find)]
pub fn find_block<'a>(
    block: &'a CompoundStatement,
    found: &mut Vec<PartRef<'a>>,
) -> Result<(), AllocError>
    ensures { OnOk result (parts found.new.items ≡ parts found.old.items ++ (in_block parts_in_statement block.now)) }
{
    find_attributes(&block.attributes.as_slice(), found)?;
    find_statements(&block.statements.as_slice(), found)
}

/// Lists the parts of `if`.
#[cycle(find)]
fn find_if<'a>(x: &'a IfStatement, found: &mut Vec<PartRef<'a>>) -> Result<(), AllocError>
    ensures { OnOk result (parts found.new.items ≡ parts found.old.items ++ (in_if parts_in_statement x.now)) }
{
    find_marked(&x.attributes.as_slice(), &x.if_clause.expression, found)?;
    find_block(&x.if_clause.body, found)?;
    find_else_ifs(&x.else_if_clauses.as_slice(), found)?;
    find_else(&x.else_clause, found)
}

/// Lists the parts of the clauses `else if`.
#[cycle(find)]
fn find_else_ifs<'a>(
    clauses: &'a [ElseIfClause],
    found: &mut Vec<PartRef<'a>>,
) -> Result<(), AllocError>
    ensures { OnOk result (parts found.new.items ≡ parts found.old.items ++ (flat_map (in_else_if parts_in_statement) clauses.now)) }
{
    for clause in clauses {
        find_else_if(clause, found)?;
    }
    Ok(())
}

/// Lists the parts of a clause `else if`.
#[cycle(find)]
fn find_else_if<'a>(
    clause: &'a ElseIfClause,
    found: &mut Vec<PartRef<'a>>,
) -> Result<(), AllocError>
    ensures { OnOk result (parts found.new.items ≡ parts found.old.items ++ (in_else_if parts_in_statement clause.now)) }
{
    find_expression(&clause.expression, found)?;
    find_block(&clause.body, found)
}

/// Lists the parts of `else`.
#[cycle(find)]
fn find_else<'a>(
    clause: &'a Option<ElseClause>,
    found: &mut Vec<PartRef<'a>>,
) -> Result<(), AllocError>
    ensures { OnOk result (parts found.new.items ≡ parts found.old.items ++ (in_else parts_in_statement clause.now)) }
{
    match clause {
        None => Ok(()),
        Some(clause) => find_block(&clause.body, found),
    }
}

/// Lists the parts of `switch`.
#[cycle(find)]
fn find_switch<'a>(x: &'a SwitchStatement, found: &mut Vec<PartRef<'a>>) -> Result<(), AllocError>
    ensures { OnOk result (parts found.new.items ≡ parts found.old.items ++ (in_switch parts_in_statement x.now)) }
{
    find_marked(&x.attributes.as_slice(), &x.expression, found)?;
    find_attributes(&x.body_attributes.as_slice(), found)?;
    find_clauses(&x.clauses.as_slice(), found)
}

/// Lists the parts of the clauses of `switch`.
#[cycle(find)]
fn find_clauses<'a>(
    clauses: &'a [SwitchClause],
    found: &mut Vec<PartRef<'a>>,
) -> Result<(), AllocError>
    ensures { OnOk result (parts found.new.items ≡ parts found.old.items ++ (flat_map (in_clause parts_in_statement) clauses.now)) }
{
    for clause in clauses {
        find_clause(clause, found)?;
    }
    Ok(())
}

/// Lists the parts of a clause of `switch`.
#[cycle(find)]
fn find_clause<'a>(clause: &'a SwitchClause, found: &mut Vec<PartRef<'a>>) -> Result<(), AllocError>
    ensures { OnOk result (parts found.new.items ≡ parts found.old.items ++ (in_clause parts_in_statement clause.now)) }
{
    find_selectors(&clause.case_selectors.as_slice(), found)?;
    find_block(&clause.body, found)
}

/// Lists the parts of `loop`.
#[cycle(find)]
fn find_loop<'a>(x: &'a LoopStatement, found: &mut Vec<PartRef<'a>>) -> Result<(), AllocError>
    ensures { OnOk result (parts found.new.items ≡ parts found.old.items ++ (in_loop parts_in_statement x.now)) }
{
    find_attributes(&x.attributes.as_slice(), found)?;
    find_block(&x.body, found)?;
    find_optional_continuing(&x.continuing, found)
}

/// Lists the parts of `continuing`, where it is there.
#[cycle(find)]
fn find_optional_continuing<'a>(
    continuing: &'a Option<ContinuingStatement>,
    found: &mut Vec<PartRef<'a>>,
) -> Result<(), AllocError>
    ensures { OnOk result (parts found.new.items ≡ parts found.old.items ++ (in_optional_continuing parts_in_statement continuing.now)) }
{
    match continuing {
        None => Ok(()),
        Some(x) => find_continuing(x, found),
    }
}

/// Lists the parts of `continuing`.
#[cycle(find)]
fn find_continuing<'a>(
    x: &'a ContinuingStatement,
    found: &mut Vec<PartRef<'a>>,
) -> Result<(), AllocError>
    ensures { OnOk result (parts found.new.items ≡ parts found.old.items ++ (in_continuing parts_in_statement x.now)) }
{
    find_attributes(&x.attributes.as_slice(), found)?;
    find_block(&x.body, found)?;
    find_break_if(&x.break_if, found)
}

/// Lists the parts of `for`.
#[cycle(find)]
fn find_for<'a>(x: &'a ForStatement, found: &mut Vec<PartRef<'a>>) -> Result<(), AllocError>
    ensures { OnOk result (parts found.new.items ≡ parts found.old.items ++ (in_for parts_in_statement x.now)) }
{
    find_attributes(&x.attributes.as_slice(), found)?;
    find_part(&x.initializer, found)?;
    find_option(&x.condition, found)?;
    find_part(&x.update, found)?;
    find_block(&x.body, found)
}

/// Lists the parts of a part of the header of `for`.
#[cycle(find)]
fn find_part<'a>(
    part: &'a Option<StatementNode>,
    found: &mut Vec<PartRef<'a>>,
) -> Result<(), AllocError>
    ensures { OnOk result (parts found.new.items ≡ parts found.old.items ++ (in_part parts_in_statement part.now)) }
{
    match part {
        None => Ok(()),
        Some(node) => find_statement(node.node(), found),
    }
}

/// Lists the parts of `while`.
#[cycle(find)]
fn find_while<'a>(x: &'a WhileStatement, found: &mut Vec<PartRef<'a>>) -> Result<(), AllocError>
    ensures { OnOk result (parts found.new.items ≡ parts found.old.items ++ (in_while parts_in_statement x.now)) }
{
    find_marked(&x.attributes.as_slice(), &x.condition, found)?;
    find_block(&x.body, found)
}
