//! The marks of statements.

ghost use Rattle.std.specs.Prelude.{◌≡◌, ◌++◌, map, OnOk};
ghost use Rattle.std.specs.List.{flat_map};
ghost use Rattle.std.specs.Option.{option_map};
ghost use Rattle.wgsl_expressions.specs.View.{node_tree};
ghost use Rattle.wgsl_expressions.specs.AttributesView.{attributes_tree};
ghost use Rattle.wgsl_simple_statements.specs.View.{assignment_tree, return_tree, call_tree, assertion_tree, value_tree, break_if_tree, selector_tree};
ghost use Rattle.wgsl_statements.specs.View.{block_tree, continuing_layer, for_layer, if_layer, loop_layer, part_layer, statement_tree, statements_tree, switch_layer, while_layer};
ghost use Rattle.wesl_mark.specs.Lists.{flats, OnlyGrows};
ghost use Rattle.wesl_marks.specs.Laid.{if_exp, in_attrs, in_block, in_break_if, in_continuing, in_exp, in_header, in_option, in_optional_stm, in_part, in_selector, in_simple, in_stm, in_stms};

use crate::expressions::{
    mark_attributes, mark_call, mark_expression, mark_optional, mark_optional_type,
};
use std::alloc::AllocError;
use wesl_mark::MarkList;
use wgsl_declarations::{
    CompoundStatement, ContinuingStatement, ForStatement, IfStatement, LoopStatement, Statement,
    StatementNode, SwitchStatement, WhileStatement,
};
use wgsl_expressions::{AttributeNode, ExpressionNode};
use wgsl_simple_statements::{
    AssignmentStatement, BreakIfStatement, CaseSelector, ConstAssert, Declaration,
    FunctionCallStatement, ReturnStatement,
};

/// Marks attributes, and the expression behind them.
pub(crate) fn mark_marked(
    attributes: &[AttributeNode],
    expression: &ExpressionNode,
    list: &mut MarkList,
) -> Result<(), AllocError>
    ensures flats { OnOk result (flats list.new ≡ flats list.old ++ (in_attrs (attributes_tree attributes.now) ++ in_exp (node_tree expression.now))) }
    ensures grows { OnOk result (OnlyGrows list.old list.new) }
{
    mark_attributes(attributes, list)?;
    mark_expression(expression, false, list)
}

/// Marks an assignment.
fn mark_assignment(x: &AssignmentStatement, list: &mut MarkList) -> Result<(), AllocError>
    ensures flats { OnOk result (flats list.new ≡ flats list.old ++ in_simple (assignment_tree x.now)) }
    ensures grows { OnOk result (OnlyGrows list.old list.new) }
{
    mark_attributes(x.attributes.as_slice(), list)?;
    mark_expression(&x.lhs, false, list)?;
    mark_expression(&x.rhs, false, list)
}

/// Marks `return`.
fn mark_return(x: &ReturnStatement, list: &mut MarkList) -> Result<(), AllocError>
    ensures flats { OnOk result (flats list.new ≡ flats list.old ++ in_simple (return_tree x.now)) }
    ensures grows { OnOk result (OnlyGrows list.old list.new) }
{
    mark_attributes(x.attributes.as_slice(), list)?;
    mark_optional(&x.expression, list)
}

/// Marks a call as a statement.

fn mark_call_statement(x: &FunctionCallStatement, list: &mut MarkList) -> Result<(), AllocError>
    ensures flats { OnOk result (flats list.new ≡ flats list.old ++ in_simple (call_tree x.now)) }
    ensures grows { OnOk result (OnlyGrows list.old list.new) }
{
    mark_attributes(x.attributes.as_slice(), list)?;
    mark_call(&x.call, false, list)
}

/// Marks a constant assertion.
pub(crate) fn mark_assertion(x: &ConstAssert, list: &mut MarkList) -> Result<(), AllocError>
    ensures flats { OnOk result (flats list.new ≡ flats list.old ++ in_simple (assertion_tree x.now)) }
    ensures grows { OnOk result (OnlyGrows list.old list.new) }
{
    mark_marked(x.attributes.as_slice(), &x.expression, list)
}

/// Marks a declaration of a local.
fn mark_value(x: &Declaration, list: &mut MarkList) -> Result<(), AllocError>
    ensures flats { OnOk result (flats list.new ≡ flats list.old ++ in_simple (value_tree x.now)) }
    ensures grows { OnOk result (OnlyGrows list.old list.new) }
{
    mark_attributes(x.attributes.as_slice(), list)?;
    mark_optional_type(&x.ty, list)?;
    mark_optional(&x.initializer, list)?;
    list.local(&x.ident)
}

/// Marks `break if`, where it is there.
fn mark_break_if(x: &Option<BreakIfStatement>, list: &mut MarkList) -> Result<(), AllocError>
    ensures flats { OnOk result (flats list.new ≡ flats list.old ++ in_option in_break_if (option_map break_if_tree x.now)) }
    ensures grows { OnOk result (OnlyGrows list.old list.new) }
{
    match x {
        None => Ok(()),
        Some(x) => mark_marked(x.attributes.as_slice(), &x.expression, list),
    }
}

/// Marks a selector.
fn mark_selector(selector: &CaseSelector, list: &mut MarkList) -> Result<(), AllocError>
    ensures flats { OnOk result (flats list.new ≡ flats list.old ++ in_selector (selector_tree selector.now)) }
    ensures grows { OnOk result (OnlyGrows list.old list.new) }
{
    match selector {
        CaseSelector::Default => Ok(()),
        CaseSelector::Expression(x) => mark_expression(x, false, list),
    }
}

/// Marks selectors, one by one.
fn mark_selectors(selectors: &[CaseSelector], list: &mut MarkList) -> Result<(), AllocError>
    ensures flats { OnOk result (flats list.new ≡ flats list.old ++ flat_map in_selector (map selector_tree selectors.now)) }
    ensures grows { OnOk result (OnlyGrows list.old list.new) }
{
    for selector in selectors {
        mark_selector(selector, list)?;
    }
    Ok(())
}

/// Marks a statement.
#[cycle(statements)]
#[tactic(auto, using(crate::proofs::Steps::of_void, crate::proofs::Steps::of_assignment, crate::proofs::Steps::of_increment, crate::proofs::Steps::of_decrement, crate::proofs::Steps::of_break, crate::proofs::Steps::of_continue, crate::proofs::Steps::of_return, crate::proofs::Steps::of_discard, crate::proofs::Steps::of_call_statement, crate::proofs::Steps::of_assertion, crate::proofs::Steps::of_value))]
fn mark_statement(statement: &Statement, list: &mut MarkList) -> Result<(), AllocError>
    ensures flats { OnOk result (flats list.new ≡ flats list.old ++ in_optional_stm (statement_tree statement.now)) }
    ensures grows { OnOk result (OnlyGrows list.old list.new) }
{
    match statement {
        Statement::Void => Ok(()),
        Statement::Compound(x) => mark_block(x, list),
        Statement::Assignment(x) => mark_assignment(x, list),
        Statement::Increment(x) => mark_marked(x.attributes.as_slice(), &x.expression, list),
        Statement::Decrement(x) => mark_marked(x.attributes.as_slice(), &x.expression, list),
        Statement::If(x) => mark_if(x.get(), list),
        Statement::Switch(x) => mark_switch(x.get(), list),
        Statement::Loop(x) => mark_loop(x.get(), list),
        Statement::For(x) => mark_for(x.get(), list),
        Statement::While(x) => mark_while(x.get(), list),
        Statement::Break(x) => mark_attributes(x.attributes.as_slice(), list),
        Statement::Continue(x) => mark_attributes(x.attributes.as_slice(), list),
        Statement::Return(x) => mark_return(x, list),
        Statement::Discard(x) => mark_attributes(x.attributes.as_slice(), list),
        Statement::FunctionCall(x) => mark_call_statement(x.get(), list),
        Statement::ConstAssert(x) => mark_assertion(x, list),
        Statement::Declaration(x) => mark_value(x.get(), list),
    }
}

/// Marks statements, one by one.
#[cycle(statements)]
#[tactic(auto, using(crate::proofs::Steps::in_first))]
pub(crate) fn mark_statements(
    statements: &[StatementNode],
    list: &mut MarkList,
) -> Result<(), AllocError>
    ensures flats { OnOk result (flats list.new ≡ flats list.old ++ in_stms (statements_tree statements.now)) }
    ensures grows { OnOk result (OnlyGrows list.old list.new) }
{
    for statement in statements {
        mark_statement(statement.node(), list)?;
    }
    Ok(())
}

/// Marks a block.
#[cycle(statements)]
fn mark_block(x: &CompoundStatement, list: &mut MarkList) -> Result<(), AllocError>
    ensures flats { OnOk result (flats list.new ≡ flats list.old ++ in_block (block_tree x.now)) }
    ensures grows { OnOk result (OnlyGrows list.old list.new) }
{
    mark_attributes(x.attributes.as_slice(), list)?;
    list.enter()?;
    mark_statements(x.statements.as_slice(), list)?;
    list.leave()
}

/// Marks `if`.
#[cycle(statements)]
fn mark_if(x: &IfStatement, list: &mut MarkList) -> Result<(), AllocError>
    ensures flats { OnOk result (flats list.new ≡ flats list.old ++ in_stm (if_layer statement_tree x.now)) }
    ensures grows { OnOk result (OnlyGrows list.old list.new) }
{
    mark_marked(x.attributes.as_slice(), &x.if_clause.expression, list)?;
    mark_block(&x.if_clause.body, list)?;
    for clause in x.else_if_clauses.as_slice() {
        mark_expression(&clause.expression, false, list)?;
        mark_block(&clause.body, list)?;
    }
    match &x.else_clause {
        None => Ok(()),
        Some(clause) => mark_block(&clause.body, list),
    }
}

/// Marks `switch`.
#[cycle(statements)]
fn mark_switch(x: &SwitchStatement, list: &mut MarkList) -> Result<(), AllocError>
    ensures flats { OnOk result (flats list.new ≡ flats list.old ++ in_stm (switch_layer statement_tree x.now)) }
    ensures grows { OnOk result (OnlyGrows list.old list.new) }
{
    mark_marked(x.attributes.as_slice(), &x.expression, list)?;
    mark_attributes(x.body_attributes.as_slice(), list)?;
    for clause in x.clauses.as_slice() {
        mark_selectors(clause.case_selectors.as_slice(), list)?;
        mark_block(&clause.body, list)?;
    }
    Ok(())
}

/// Marks `loop`. What `continuing` declares stands inside of the body.
#[cycle(statements)]
fn mark_loop(x: &LoopStatement, list: &mut MarkList) -> Result<(), AllocError>
    ensures flats { OnOk result (flats list.new ≡ flats list.old ++ in_stm (loop_layer statement_tree x.now)) }
    ensures grows { OnOk result (OnlyGrows list.old list.new) }
{
    mark_attributes(x.attributes.as_slice(), list)?;
    mark_attributes(x.body.attributes.as_slice(), list)?;
    list.enter()?;
    mark_statements(x.body.statements.as_slice(), list)?;
    mark_continuing(&x.continuing, list)?;
    list.leave()
}

/// Marks `continuing`, where it is there.
#[cycle(statements)]
fn mark_continuing(x: &Option<ContinuingStatement>, list: &mut MarkList) -> Result<(), AllocError>
    ensures flats { OnOk result (flats list.new ≡ flats list.old ++ in_continuing (continuing_layer statement_tree x.now)) }
    ensures grows { OnOk result (OnlyGrows list.old list.new) }
{
    match x {
        None => Ok(()),
        Some(x) => {
            mark_attributes(x.attributes.as_slice(), list)?;
            mark_attributes(x.body.attributes.as_slice(), list)?;
            list.enter()?;
            mark_statements(x.body.statements.as_slice(), list)?;
            mark_break_if(&x.break_if, list)?;
            list.leave()
        }
    }
}

/// Marks `for`, whose header and body share a scope.
#[cycle(statements)]
fn mark_for(x: &ForStatement, list: &mut MarkList) -> Result<(), AllocError>
    ensures flats { OnOk result (flats list.new ≡ flats list.old ++ in_stm (for_layer statement_tree x.now)) }
    ensures grows { OnOk result (OnlyGrows list.old list.new) }
{
    mark_attributes(x.attributes.as_slice(), list)?;
    list.enter()?;
    mark_header(x, list)?;
    mark_attributes(x.body.attributes.as_slice(), list)?;
    mark_statements(x.body.statements.as_slice(), list)?;
    list.leave()
}

/// Marks the header of `for`.
#[cycle(statements)]
#[tactic(auto, unfolding(crate::specs::Laid::in_header))]
fn mark_header(x: &ForStatement, list: &mut MarkList) -> Result<(), AllocError>
    ensures flats { OnOk result (flats list.new ≡ flats list.old ++ in_header (in_part (part_layer statement_tree x.now.initializer)) (if_exp (option_map node_tree x.now.condition)) (in_part (part_layer statement_tree x.now.update))) }
    ensures grows { OnOk result (OnlyGrows list.old list.new) }
{
    mark_part(&x.initializer, list)?;
    mark_optional(&x.condition, list)?;
    mark_part(&x.update, list)
}

/// Marks a part of the header of `for`, where it is there.
#[cycle(statements)]
#[tactic(auto, using(crate::proofs::Steps::in_present))]
fn mark_part(part: &Option<StatementNode>, list: &mut MarkList) -> Result<(), AllocError>
    ensures flats { OnOk result (flats list.new ≡ flats list.old ++ in_part (part_layer statement_tree part.now)) }
    ensures grows { OnOk result (OnlyGrows list.old list.new) }
{
    match part {
        None => Ok(()),
        Some(node) => mark_statement(node.node(), list),
    }
}

/// Marks `while`.
#[cycle(statements)]
fn mark_while(x: &WhileStatement, list: &mut MarkList) -> Result<(), AllocError>
    ensures flats { OnOk result (flats list.new ≡ flats list.old ++ in_stm (while_layer statement_tree x.now)) }
    ensures grows { OnOk result (OnlyGrows list.old list.new) }
{
    mark_marked(x.attributes.as_slice(), &x.condition, list)?;
    mark_block(&x.body, list)
}
