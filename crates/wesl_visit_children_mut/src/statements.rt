//! What is done at the parts of statements, which it may change.

ghost use Rattle.std.specs.Prelude.{◌≡◌, map};
ghost use Rattle.std.specs.List.{flat_map};
ghost use Rattle.std.specs.Option.{option_map};
ghost use Rattle.wesl_visit_children.specs.Turns.{ChangedInTurn};
ghost use Rattle.wesl_visit_children.specs.Parts.{in_assignment, in_block, in_break, in_break_if, in_call_statement, in_clause, in_const_assert, in_continue, in_continuing, in_declared, in_decrement, in_discard, in_else, in_else_if, in_for, in_if, in_increment, in_loop, in_marked, in_node, in_optional_continuing, in_part, in_return, in_selector, in_switch, in_while, parts_in_statement};
ghost use Rattle.wesl_visit_children.specs.Rest.{around_assignment, around_attributes, around_block, around_break, around_break_if, around_call_statement, around_clause, around_const_assert, around_continue, around_continuing, around_declared, around_decrement, around_discard, around_else, around_else_if, around_for, around_if, around_increment, around_loop, around_parts_in_statement, around_return, around_selector, around_statement_node, around_switch, around_while};

use crate::parts::{
    change_attributes, change_call, change_expression, change_option, change_optional_type,
};
use crate::write_parts::WriteParts;
use wgsl_base::Items;
use wgsl_expressions::{AttributeNode, ExpressionNode};
use wgsl_simple_statements::{
    AssignmentStatement, BreakIfStatement, BreakStatement, CaseSelector, ConstAssert,
    ContinueStatement, Declaration, DecrementStatement, DiscardStatement, FunctionCallStatement,
    IncrementStatement, ReturnStatement,
};
use wgsl_statements::{
    CompoundStatement, ContinuingStatement, ElseClause, ElseIfClause, ForStatement, IfStatement,
    LoopStatement, Statement, StatementNode, SwitchClause, SwitchStatement, WhileStatement,
};

/// Meets the parts of attributes, and the one behind them.
pub fn change_marked<W: WriteParts>(
    attributes: &mut Items<AttributeNode>,
    expression: &mut ExpressionNode,
    w: &mut W,
) -> Result<(), W::Refusal>
    requires { W.ready w.old }
    ensures changed { ChangedInTurn W.at w.old (in_marked attributes.old expression.old) result w.new (in_marked attributes.new expression.new) }
    ensures rest { around_attributes W.rest attributes.new ≡ around_attributes W.rest attributes.old }
    ensures rest_expression { W.rest.expression expression.new ≡ W.rest.expression expression.old }
    ensures ready { W.ready w.new }
{
    change_attributes(attributes, w)?;
    change_expression(expression, w)
}

/// Meets the parts of an assignment.
fn change_assignment<W: WriteParts>(
    x: &mut AssignmentStatement,
    w: &mut W,
) -> Result<(), W::Refusal>
    requires { W.ready w.old }
    ensures changed { ChangedInTurn W.at w.old (in_assignment x.old) result w.new (in_assignment x.new) }
    ensures rest { around_assignment W.rest x.new ≡ around_assignment W.rest x.old }
    ensures ready { W.ready w.new }
{
    change_attributes(&mut x.attributes, w)?;
    change_expression(&mut x.lhs, w)?;
    change_expression(&mut x.rhs, w)
}

/// Meets the parts of `++`.
fn change_increment<W: WriteParts>(x: &mut IncrementStatement, w: &mut W) -> Result<(), W::Refusal>
    requires { W.ready w.old }
    ensures changed { ChangedInTurn W.at w.old (in_increment x.old) result w.new (in_increment x.new) }
    ensures rest { around_increment W.rest x.new ≡ around_increment W.rest x.old }
    ensures ready { W.ready w.new }
{
    change_marked(&mut x.attributes, &mut x.expression, w)
}

/// Meets the parts of `--`.
fn change_decrement<W: WriteParts>(x: &mut DecrementStatement, w: &mut W) -> Result<(), W::Refusal>
    requires { W.ready w.old }
    ensures changed { ChangedInTurn W.at w.old (in_decrement x.old) result w.new (in_decrement x.new) }
    ensures rest { around_decrement W.rest x.new ≡ around_decrement W.rest x.old }
    ensures ready { W.ready w.new }
{
    change_marked(&mut x.attributes, &mut x.expression, w)
}

/// Meets the parts of `break`.
fn change_break<W: WriteParts>(x: &mut BreakStatement, w: &mut W) -> Result<(), W::Refusal>
    requires { W.ready w.old }
    ensures changed { ChangedInTurn W.at w.old (in_break x.old) result w.new (in_break x.new) }
    ensures rest { around_break W.rest x.new ≡ around_break W.rest x.old }
    ensures ready { W.ready w.new }
{
    change_attributes(&mut x.attributes, w)
}

/// Meets the parts of `continue`.
fn change_continue<W: WriteParts>(x: &mut ContinueStatement, w: &mut W) -> Result<(), W::Refusal>
    requires { W.ready w.old }
    ensures changed { ChangedInTurn W.at w.old (in_continue x.old) result w.new (in_continue x.new) }
    ensures rest { around_continue W.rest x.new ≡ around_continue W.rest x.old }
    ensures ready { W.ready w.new }
{
    change_attributes(&mut x.attributes, w)
}

/// Meets the parts of `return`.
fn change_return<W: WriteParts>(x: &mut ReturnStatement, w: &mut W) -> Result<(), W::Refusal>
    requires { W.ready w.old }
    ensures changed { ChangedInTurn W.at w.old (in_return x.old) result w.new (in_return x.new) }
    ensures rest { around_return W.rest x.new ≡ around_return W.rest x.old }
    ensures ready { W.ready w.new }
{
    change_attributes(&mut x.attributes, w)?;
    change_option(&mut x.expression, w)
}

/// Meets the parts of `discard`.
fn change_discard<W: WriteParts>(x: &mut DiscardStatement, w: &mut W) -> Result<(), W::Refusal>
    requires { W.ready w.old }
    ensures changed { ChangedInTurn W.at w.old (in_discard x.old) result w.new (in_discard x.new) }
    ensures rest { around_discard W.rest x.new ≡ around_discard W.rest x.old }
    ensures ready { W.ready w.new }
{
    change_attributes(&mut x.attributes, w)
}

/// Meets the parts of a call as a statement.
fn change_call_statement<W: WriteParts>(
    x: &mut FunctionCallStatement,
    w: &mut W,
) -> Result<(), W::Refusal>
    requires { W.ready w.old }
    ensures changed { ChangedInTurn W.at w.old (in_call_statement x.old) result w.new (in_call_statement x.new) }
    ensures rest { around_call_statement W.rest x.new ≡ around_call_statement W.rest x.old }
    ensures ready { W.ready w.new }
{
    change_attributes(&mut x.attributes, w)?;
    change_call(&mut x.call, w)
}

/// Meets the parts of a constant assertion.
pub fn change_const_assert<W: WriteParts>(x: &mut ConstAssert, w: &mut W) -> Result<(), W::Refusal>
    requires { W.ready w.old }
    ensures changed { ChangedInTurn W.at w.old (in_const_assert x.old) result w.new (in_const_assert x.new) }
    ensures rest { around_const_assert W.rest x.new ≡ around_const_assert W.rest x.old }
    ensures ready { W.ready w.new }
{
    change_marked(&mut x.attributes, &mut x.expression, w)
}

/// Meets the parts of a declaration of a value.
pub fn change_declared<W: WriteParts>(x: &mut Declaration, w: &mut W) -> Result<(), W::Refusal>
    requires { W.ready w.old }
    ensures changed { ChangedInTurn W.at w.old (in_declared x.old) result w.new (in_declared x.new) }
    ensures rest { around_declared W.rest x.new ≡ around_declared W.rest x.old }
    ensures ready { W.ready w.new }
{
    change_attributes(&mut x.attributes, w)?;
    change_optional_type(&mut x.ty, w)?;
    change_option(&mut x.initializer, w)
}

/// Meets the parts of `break if`.
fn change_break_if<W: WriteParts>(
    x: &mut Option<BreakIfStatement>,
    w: &mut W,
) -> Result<(), W::Refusal>
    requires { W.ready w.old }
    ensures changed { ChangedInTurn W.at w.old (in_break_if x.old) result w.new (in_break_if x.new) }
    ensures rest { option_map (around_break_if W.rest) x.new ≡ option_map (around_break_if W.rest) x.old }
    ensures ready { W.ready w.new }
{
    match x {
        None => Ok(()),
        Some(x) => change_marked(&mut x.attributes, &mut x.expression, w),
    }
}

/// Meets the part of a selector.
fn change_selector<W: WriteParts>(selector: &mut CaseSelector, w: &mut W) -> Result<(), W::Refusal>
    requires { W.ready w.old }
    ensures changed { ChangedInTurn W.at w.old (in_selector selector.old) result w.new (in_selector selector.new) }
    ensures rest { around_selector W.rest selector.new ≡ around_selector W.rest selector.old }
    ensures ready { W.ready w.new }
{
    match selector {
        CaseSelector::Default => Ok(()),
        CaseSelector::Expression(x) => change_expression(x, w),
    }
}

/// Meets the parts of selectors, one by one.
fn change_selectors<W: WriteParts>(
    selectors: &mut Items<CaseSelector>,
    w: &mut W,
) -> Result<(), W::Refusal>
    requires { W.ready w.old }
    ensures changed { ChangedInTurn W.at w.old (flat_map in_selector selectors.old) result w.new (flat_map in_selector selectors.new) }
    ensures rest { map (around_selector W.rest) selectors.new ≡ map (around_selector W.rest) selectors.old }
    ensures ready { W.ready w.new }
{
    for i in 0..selectors.len() {
        change_selector(selectors.get_mut(i), w)?;
    }
    Ok(())
}

/// Meets the parts of a statement.
#[cycle(change)]
#[tactic(auto, using(wesl_visit_children::proofs::Cases::inner, wesl_visit_children::proofs::Cases::outer))]
pub fn change_statement<W: WriteParts>(
    statement: &mut Statement,
    w: &mut W,
) -> Result<(), W::Refusal>
    requires { W.ready w.old }
    ensures changed { ChangedInTurn W.at w.old (parts_in_statement statement.old) result w.new (parts_in_statement statement.new) }
    ensures rest { around_parts_in_statement W.rest statement.new ≡ around_parts_in_statement W.rest statement.old }
    ensures ready { W.ready w.new }
{
    match statement {
        Statement::Void => Ok(()),
        Statement::Compound(x) => change_block(x, w),
        Statement::Assignment(x) => change_assignment(x, w),
        Statement::Increment(x) => change_increment(x, w),
        Statement::Decrement(x) => change_decrement(x, w),
        Statement::If(x) => change_if(x.get_mut(), w),
        Statement::Switch(x) => change_switch(x.get_mut(), w),
        Statement::Loop(x) => change_loop(x.get_mut(), w),
        Statement::For(x) => change_for(x.get_mut(), w),
        Statement::While(x) => change_while(x.get_mut(), w),
        Statement::Break(x) => change_break(x, w),
        Statement::Continue(x) => change_continue(x, w),
        Statement::Return(x) => change_return(x, w),
        Statement::Discard(x) => change_discard(x, w),
        Statement::FunctionCall(x) => change_call_statement(x.get_mut(), w),
        Statement::ConstAssert(x) => change_const_assert(x, w),
        Statement::Declaration(x) => change_declared(x.get_mut(), w),
    }
}

/// Meets the parts of statements, one by one.
#[cycle(change)]
fn change_statements<W: WriteParts>(
    nodes: &mut Items<StatementNode>,
    w: &mut W,
) -> Result<(), W::Refusal>
    requires { W.ready w.old }
    ensures changed { ChangedInTurn W.at w.old (flat_map (in_node parts_in_statement) nodes.old) result w.new (flat_map (in_node parts_in_statement) nodes.new) }
    ensures rest { map (around_statement_node W.rest (around_parts_in_statement W.rest)) nodes.new ≡ map (around_statement_node W.rest (around_parts_in_statement W.rest)) nodes.old }
    ensures ready { W.ready w.new }
{
    for i in 0..nodes.len() {
        change_statement(nodes.get_mut(i).node_mut(), w)?;
    }
    Ok(())
}

/// Meets the parts of a block.
#[cycle(change)]
pub fn change_block<W: WriteParts>(
    block: &mut CompoundStatement,
    w: &mut W,
) -> Result<(), W::Refusal>
    requires { W.ready w.old }
    ensures changed { ChangedInTurn W.at w.old (in_block parts_in_statement block.old) result w.new (in_block parts_in_statement block.new) }
    ensures rest { around_block W.rest (around_parts_in_statement W.rest) block.new ≡ around_block W.rest (around_parts_in_statement W.rest) block.old }
    ensures ready { W.ready w.new }
{
    change_attributes(&mut block.attributes, w)?;
    change_statements(&mut block.statements, w)
}

/// Meets the parts of `if`.
#[cycle(change)]
fn change_if<W: WriteParts>(x: &mut IfStatement, w: &mut W) -> Result<(), W::Refusal>
    requires { W.ready w.old }
    ensures changed { ChangedInTurn W.at w.old (in_if parts_in_statement x.old) result w.new (in_if parts_in_statement x.new) }
    ensures rest { around_if W.rest (around_parts_in_statement W.rest) x.new ≡ around_if W.rest (around_parts_in_statement W.rest) x.old }
    ensures ready { W.ready w.new }
{
    change_marked(&mut x.attributes, &mut x.if_clause.expression, w)?;
    change_block(&mut x.if_clause.body, w)?;
    change_else_ifs(&mut x.else_if_clauses, w)?;
    change_else(&mut x.else_clause, w)
}

/// Meets the parts of the clauses `else if`.
#[cycle(change)]
fn change_else_ifs<W: WriteParts>(
    clauses: &mut Items<ElseIfClause>,
    w: &mut W,
) -> Result<(), W::Refusal>
    requires { W.ready w.old }
    ensures changed { ChangedInTurn W.at w.old (flat_map (in_else_if parts_in_statement) clauses.old) result w.new (flat_map (in_else_if parts_in_statement) clauses.new) }
    ensures rest { map (around_else_if W.rest (around_parts_in_statement W.rest)) clauses.new ≡ map (around_else_if W.rest (around_parts_in_statement W.rest)) clauses.old }
    ensures ready { W.ready w.new }
{
    for i in 0..clauses.len() {
        change_else_if(clauses.get_mut(i), w)?;
    }
    Ok(())
}

/// Meets the parts of a clause `else if`.
#[cycle(change)]
fn change_else_if<W: WriteParts>(clause: &mut ElseIfClause, w: &mut W) -> Result<(), W::Refusal>
    requires { W.ready w.old }
    ensures changed { ChangedInTurn W.at w.old (in_else_if parts_in_statement clause.old) result w.new (in_else_if parts_in_statement clause.new) }
    ensures rest { around_else_if W.rest (around_parts_in_statement W.rest) clause.new ≡ around_else_if W.rest (around_parts_in_statement W.rest) clause.old }
    ensures ready { W.ready w.new }
{
    change_expression(&mut clause.expression, w)?;
    change_block(&mut clause.body, w)
}

/// Meets the parts of `else`.
#[cycle(change)]
fn change_else<W: WriteParts>(clause: &mut Option<ElseClause>, w: &mut W) -> Result<(), W::Refusal>
    requires { W.ready w.old }
    ensures changed { ChangedInTurn W.at w.old (in_else parts_in_statement clause.old) result w.new (in_else parts_in_statement clause.new) }
    ensures rest { option_map (around_else W.rest (around_parts_in_statement W.rest)) clause.new ≡ option_map (around_else W.rest (around_parts_in_statement W.rest)) clause.old }
    ensures ready { W.ready w.new }
{
    match clause {
        None => Ok(()),
        Some(clause) => change_block(&mut clause.body, w),
    }
}

/// Meets the parts of `switch`.
#[cycle(change)]
fn change_switch<W: WriteParts>(x: &mut SwitchStatement, w: &mut W) -> Result<(), W::Refusal>
    requires { W.ready w.old }
    ensures changed { ChangedInTurn W.at w.old (in_switch parts_in_statement x.old) result w.new (in_switch parts_in_statement x.new) }
    ensures rest { around_switch W.rest (around_parts_in_statement W.rest) x.new ≡ around_switch W.rest (around_parts_in_statement W.rest) x.old }
    ensures ready { W.ready w.new }
{
    change_marked(&mut x.attributes, &mut x.expression, w)?;
    change_attributes(&mut x.body_attributes, w)?;
    change_clauses(&mut x.clauses, w)
}

/// Meets the parts of the clauses of `switch`.
#[cycle(change)]
fn change_clauses<W: WriteParts>(
    clauses: &mut Items<SwitchClause>,
    w: &mut W,
) -> Result<(), W::Refusal>
    requires { W.ready w.old }
    ensures changed { ChangedInTurn W.at w.old (flat_map (in_clause parts_in_statement) clauses.old) result w.new (flat_map (in_clause parts_in_statement) clauses.new) }
    ensures rest { map (around_clause W.rest (around_parts_in_statement W.rest)) clauses.new ≡ map (around_clause W.rest (around_parts_in_statement W.rest)) clauses.old }
    ensures ready { W.ready w.new }
{
    for i in 0..clauses.len() {
        change_clause(clauses.get_mut(i), w)?;
    }
    Ok(())
}

/// Meets the parts of a clause of `switch`.
#[cycle(change)]
fn change_clause<W: WriteParts>(clause: &mut SwitchClause, w: &mut W) -> Result<(), W::Refusal>
    requires { W.ready w.old }
    ensures changed { ChangedInTurn W.at w.old (in_clause parts_in_statement clause.old) result w.new (in_clause parts_in_statement clause.new) }
    ensures rest { around_clause W.rest (around_parts_in_statement W.rest) clause.new ≡ around_clause W.rest (around_parts_in_statement W.rest) clause.old }
    ensures ready { W.ready w.new }
{
    change_selectors(&mut clause.case_selectors, w)?;
    change_block(&mut clause.body, w)
}

/// Meets the parts of `loop`.
#[cycle(change)]
fn change_loop<W: WriteParts>(x: &mut LoopStatement, w: &mut W) -> Result<(), W::Refusal>
    requires { W.ready w.old }
    ensures changed { ChangedInTurn W.at w.old (in_loop parts_in_statement x.old) result w.new (in_loop parts_in_statement x.new) }
    ensures rest { around_loop W.rest (around_parts_in_statement W.rest) x.new ≡ around_loop W.rest (around_parts_in_statement W.rest) x.old }
    ensures ready { W.ready w.new }
{
    change_attributes(&mut x.attributes, w)?;
    change_block(&mut x.body, w)?;
    change_optional_continuing(&mut x.continuing, w)
}

/// Meets the parts of `continuing`, where it is there.
#[cycle(change)]
fn change_optional_continuing<W: WriteParts>(
    continuing: &mut Option<ContinuingStatement>,
    w: &mut W,
) -> Result<(), W::Refusal>
    requires { W.ready w.old }
    ensures changed { ChangedInTurn W.at w.old (in_optional_continuing parts_in_statement continuing.old) result w.new (in_optional_continuing parts_in_statement continuing.new) }
    ensures rest { option_map (around_continuing W.rest (around_parts_in_statement W.rest)) continuing.new ≡ option_map (around_continuing W.rest (around_parts_in_statement W.rest)) continuing.old }
    ensures ready { W.ready w.new }
{
    match continuing {
        None => Ok(()),
        Some(x) => change_continuing(x, w),
    }
}

/// Meets the parts of `continuing`.
#[cycle(change)]
fn change_continuing<W: WriteParts>(
    x: &mut ContinuingStatement,
    w: &mut W,
) -> Result<(), W::Refusal>
    requires { W.ready w.old }
    ensures changed { ChangedInTurn W.at w.old (in_continuing parts_in_statement x.old) result w.new (in_continuing parts_in_statement x.new) }
    ensures rest { around_continuing W.rest (around_parts_in_statement W.rest) x.new ≡ around_continuing W.rest (around_parts_in_statement W.rest) x.old }
    ensures ready { W.ready w.new }
{
    change_attributes(&mut x.attributes, w)?;
    change_block(&mut x.body, w)?;
    change_break_if(&mut x.break_if, w)
}

/// Meets the parts of `for`.
#[cycle(change)]
fn change_for<W: WriteParts>(x: &mut ForStatement, w: &mut W) -> Result<(), W::Refusal>
    requires { W.ready w.old }
    ensures changed { ChangedInTurn W.at w.old (in_for parts_in_statement x.old) result w.new (in_for parts_in_statement x.new) }
    ensures rest { around_for W.rest (around_parts_in_statement W.rest) x.new ≡ around_for W.rest (around_parts_in_statement W.rest) x.old }
    ensures ready { W.ready w.new }
{
    change_attributes(&mut x.attributes, w)?;
    change_part(&mut x.initializer, w)?;
    change_option(&mut x.condition, w)?;
    change_part(&mut x.update, w)?;
    change_block(&mut x.body, w)
}

/// Meets the parts of a part of the header of `for`.
#[cycle(change)]
fn change_part<W: WriteParts>(part: &mut Option<StatementNode>, w: &mut W) -> Result<(), W::Refusal>
    requires { W.ready w.old }
    ensures changed { ChangedInTurn W.at w.old (in_part parts_in_statement part.old) result w.new (in_part parts_in_statement part.new) }
    ensures rest { option_map (around_statement_node W.rest (around_parts_in_statement W.rest)) part.new ≡ option_map (around_statement_node W.rest (around_parts_in_statement W.rest)) part.old }
    ensures ready { W.ready w.new }
{
    match part {
        None => Ok(()),
        Some(node) => change_statement(node.node_mut(), w),
    }
}

/// Meets the parts of `while`.
#[cycle(change)]
fn change_while<W: WriteParts>(x: &mut WhileStatement, w: &mut W) -> Result<(), W::Refusal>
    requires { W.ready w.old }
    ensures changed { ChangedInTurn W.at w.old (in_while parts_in_statement x.old) result w.new (in_while parts_in_statement x.new) }
    ensures rest { around_while W.rest (around_parts_in_statement W.rest) x.new ≡ around_while W.rest (around_parts_in_statement W.rest) x.old }
    ensures ready { W.ready w.new }
{
    change_marked(&mut x.attributes, &mut x.condition, w)?;
    change_block(&mut x.body, w)
}
