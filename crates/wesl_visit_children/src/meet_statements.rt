//! What is done at the parts of statements.

ghost use Rattle.std.specs.List.{flat_map};
ghost use Rattle.wesl_visit_children.specs.Turns.{CalledInTurn};
ghost use Rattle.wesl_visit_children.specs.Parts.{in_assignment, in_block, in_break_if, in_call_statement, in_clause, in_const_assert, in_continuing, in_declared, in_else, in_else_if, in_for, in_if, in_loop, in_marked, in_node, in_optional_continuing, in_part, in_return, in_selector, in_switch, in_while, parts_in_statement};

use crate::meet::{meet_attributes, meet_call, meet_expression, meet_option, meet_optional_type};
use crate::read_parts::ReadParts;
use wgsl_expressions::{AttributeNode, ExpressionNode};
use wgsl_simple_statements::{
    AssignmentStatement, BreakIfStatement, CaseSelector, ConstAssert, Declaration,
    FunctionCallStatement, ReturnStatement,
};
use wgsl_statements::{
    CompoundStatement, ContinuingStatement, ElseClause, ElseIfClause, ForStatement, IfStatement,
    LoopStatement, Statement, StatementNode, SwitchClause, SwitchStatement, WhileStatement,
};

/// Meets the parts of attributes, and the one behind them.
pub fn meet_marked<W: ReadParts>(
    attributes: &[AttributeNode],
    expression: &ExpressionNode,
    w: &mut W,
) -> Result<(), W::Refusal>
    requires { W.ready w.old }
    ensures met { CalledInTurn W.at w.old (in_marked attributes.now expression.now) result w.new }
    ensures ready { W.ready w.new }
{
    meet_attributes(attributes, w)?;
    meet_expression(expression, w)
}

/// Meets the parts of an assignment.
fn meet_assignment<W: ReadParts>(x: &AssignmentStatement, w: &mut W) -> Result<(), W::Refusal>
    requires { W.ready w.old }
    ensures met { CalledInTurn W.at w.old (in_assignment x.now) result w.new }
    ensures ready { W.ready w.new }
{
    meet_attributes(&x.attributes.as_slice(), w)?;
    meet_expression(&x.lhs, w)?;
    meet_expression(&x.rhs, w)
}

/// Meets the parts of `return`.
fn meet_return<W: ReadParts>(x: &ReturnStatement, w: &mut W) -> Result<(), W::Refusal>
    requires { W.ready w.old }
    ensures met { CalledInTurn W.at w.old (in_return x.now) result w.new }
    ensures ready { W.ready w.new }
{
    meet_attributes(&x.attributes.as_slice(), w)?;
    meet_option(&x.expression, w)
}

/// Meets the parts of a call as a statement.
fn meet_call_statement<W: ReadParts>(x: &FunctionCallStatement, w: &mut W) -> Result<(), W::Refusal>
    requires { W.ready w.old }
    ensures met { CalledInTurn W.at w.old (in_call_statement x.now) result w.new }
    ensures ready { W.ready w.new }
{
    meet_attributes(&x.attributes.as_slice(), w)?;
    meet_call(&x.call, w)
}

/// Meets the parts of a constant assertion.
pub fn meet_const_assert<W: ReadParts>(x: &ConstAssert, w: &mut W) -> Result<(), W::Refusal>
    requires { W.ready w.old }
    ensures met { CalledInTurn W.at w.old (in_const_assert x.now) result w.new }
    ensures ready { W.ready w.new }
{
    meet_marked(&x.attributes.as_slice(), &x.expression, w)
}

/// Meets the parts of a declaration of a value.
pub fn meet_declared<W: ReadParts>(x: &Declaration, w: &mut W) -> Result<(), W::Refusal>
    requires { W.ready w.old }
    ensures met { CalledInTurn W.at w.old (in_declared x.now) result w.new }
    ensures ready { W.ready w.new }
{
    meet_attributes(&x.attributes.as_slice(), w)?;
    meet_optional_type(&x.ty, w)?;
    meet_option(&x.initializer, w)
}

/// Meets the parts of `break if`.
fn meet_break_if<W: ReadParts>(x: &Option<BreakIfStatement>, w: &mut W) -> Result<(), W::Refusal>
    requires { W.ready w.old }
    ensures met { CalledInTurn W.at w.old (in_break_if x.now) result w.new }
    ensures ready { W.ready w.new }
{
    match x {
        None => Ok(()),
        Some(x) => meet_marked(&x.attributes.as_slice(), &x.expression, w),
    }
}

/// Meets the part of a selector.
fn meet_selector<W: ReadParts>(selector: &CaseSelector, w: &mut W) -> Result<(), W::Refusal>
    requires { W.ready w.old }
    ensures met { CalledInTurn W.at w.old (in_selector selector.now) result w.new }
    ensures ready { W.ready w.new }
{
    match selector {
        CaseSelector::Default => Ok(()),
        CaseSelector::Expression(x) => meet_expression(x, w),
    }
}

/// Meets the parts of selectors, one by one.
fn meet_selectors<W: ReadParts>(selectors: &[CaseSelector], w: &mut W) -> Result<(), W::Refusal>
    requires { W.ready w.old }
    ensures met { CalledInTurn W.at w.old (flat_map in_selector selectors.now) result w.new }
    ensures ready { W.ready w.new }
{
    for selector in selectors {
        meet_selector(selector, w)?;
    }
    Ok(())
}

/// Meets the parts of a statement.
#[cycle(meet)]
#[tactic(auto, using(crate::proofs::Cases::inner))]
pub fn meet_statement<W: ReadParts>(statement: &Statement, w: &mut W) -> Result<(), W::Refusal>
    requires { W.ready w.old }
    ensures met { CalledInTurn W.at w.old (parts_in_statement statement.now) result w.new }
    ensures ready { W.ready w.new }
{
    match statement {
        Statement::Void => Ok(()),
        Statement::Compound(x) => meet_block(x, w),
        Statement::Assignment(x) => meet_assignment(x, w),
        Statement::Increment(x) => meet_marked(&x.attributes.as_slice(), &x.expression, w),
        Statement::Decrement(x) => meet_marked(&x.attributes.as_slice(), &x.expression, w),
        Statement::If(x) => meet_if(x.get(), w),
        Statement::Switch(x) => meet_switch(x.get(), w),
        Statement::Loop(x) => meet_loop(x.get(), w),
        Statement::For(x) => meet_for(x.get(), w),
        Statement::While(x) => meet_while(x.get(), w),
        Statement::Break(x) => meet_attributes(&x.attributes.as_slice(), w),
        Statement::Continue(x) => meet_attributes(&x.attributes.as_slice(), w),
        Statement::Return(x) => meet_return(x, w),
        Statement::Discard(x) => meet_attributes(&x.attributes.as_slice(), w),
        Statement::FunctionCall(x) => meet_call_statement(x.get(), w),
        Statement::ConstAssert(x) => meet_const_assert(x, w),
        Statement::Declaration(x) => meet_declared(x.get(), w),
    }
}

/// Meets the parts of statements, one by one.
#[cycle(meet)]
fn meet_statements<W: ReadParts>(nodes: &[StatementNode], w: &mut W) -> Result<(), W::Refusal>
    requires { W.ready w.old }
    ensures met { CalledInTurn W.at w.old (flat_map (in_node parts_in_statement) nodes.now) result w.new }
    ensures ready { W.ready w.new }
{
    for node in nodes {
        meet_statement(node.node(), w)?;
    }
    Ok(())
}

/// Meets the parts of a block.
#[cycle(meet)]
pub fn meet_block<W: ReadParts>(block: &CompoundStatement, w: &mut W) -> Result<(), W::Refusal>
    requires { W.ready w.old }
    ensures met { CalledInTurn W.at w.old (in_block parts_in_statement block.now) result w.new }
    ensures ready { W.ready w.new }
{
    meet_attributes(&block.attributes.as_slice(), w)?;
    meet_statements(&block.statements.as_slice(), w)
}

/// Meets the parts of `if`.
#[cycle(meet)]
fn meet_if<W: ReadParts>(x: &IfStatement, w: &mut W) -> Result<(), W::Refusal>
    requires { W.ready w.old }
    ensures met { CalledInTurn W.at w.old (in_if parts_in_statement x.now) result w.new }
    ensures ready { W.ready w.new }
{
    meet_marked(&x.attributes.as_slice(), &x.if_clause.expression, w)?;
    meet_block(&x.if_clause.body, w)?;
    meet_else_ifs(&x.else_if_clauses.as_slice(), w)?;
    meet_else(&x.else_clause, w)
}

/// Meets the parts of the clauses `else if`.
#[cycle(meet)]
fn meet_else_ifs<W: ReadParts>(clauses: &[ElseIfClause], w: &mut W) -> Result<(), W::Refusal>
    requires { W.ready w.old }
    ensures met { CalledInTurn W.at w.old (flat_map (in_else_if parts_in_statement) clauses.now) result w.new }
    ensures ready { W.ready w.new }
{
    for clause in clauses {
        meet_else_if(clause, w)?;
    }
    Ok(())
}

/// Meets the parts of a clause `else if`.
#[cycle(meet)]
fn meet_else_if<W: ReadParts>(clause: &ElseIfClause, w: &mut W) -> Result<(), W::Refusal>
    requires { W.ready w.old }
    ensures met { CalledInTurn W.at w.old (in_else_if parts_in_statement clause.now) result w.new }
    ensures ready { W.ready w.new }
{
    meet_expression(&clause.expression, w)?;
    meet_block(&clause.body, w)
}

/// Meets the parts of `else`.
#[cycle(meet)]
fn meet_else<W: ReadParts>(clause: &Option<ElseClause>, w: &mut W) -> Result<(), W::Refusal>
    requires { W.ready w.old }
    ensures met { CalledInTurn W.at w.old (in_else parts_in_statement clause.now) result w.new }
    ensures ready { W.ready w.new }
{
    match clause {
        None => Ok(()),
        Some(clause) => meet_block(&clause.body, w),
    }
}

/// Meets the parts of `switch`.
#[cycle(meet)]
fn meet_switch<W: ReadParts>(x: &SwitchStatement, w: &mut W) -> Result<(), W::Refusal>
    requires { W.ready w.old }
    ensures met { CalledInTurn W.at w.old (in_switch parts_in_statement x.now) result w.new }
    ensures ready { W.ready w.new }
{
    meet_marked(&x.attributes.as_slice(), &x.expression, w)?;
    meet_attributes(&x.body_attributes.as_slice(), w)?;
    meet_clauses(&x.clauses.as_slice(), w)
}

/// Meets the parts of the clauses of `switch`.
#[cycle(meet)]
fn meet_clauses<W: ReadParts>(clauses: &[SwitchClause], w: &mut W) -> Result<(), W::Refusal>
    requires { W.ready w.old }
    ensures met { CalledInTurn W.at w.old (flat_map (in_clause parts_in_statement) clauses.now) result w.new }
    ensures ready { W.ready w.new }
{
    for clause in clauses {
        meet_clause(clause, w)?;
    }
    Ok(())
}

/// Meets the parts of a clause of `switch`.
#[cycle(meet)]
fn meet_clause<W: ReadParts>(clause: &SwitchClause, w: &mut W) -> Result<(), W::Refusal>
    requires { W.ready w.old }
    ensures met { CalledInTurn W.at w.old (in_clause parts_in_statement clause.now) result w.new }
    ensures ready { W.ready w.new }
{
    meet_selectors(&clause.case_selectors.as_slice(), w)?;
    meet_block(&clause.body, w)
}

/// Meets the parts of `loop`.
#[cycle(meet)]
fn meet_loop<W: ReadParts>(x: &LoopStatement, w: &mut W) -> Result<(), W::Refusal>
    requires { W.ready w.old }
    ensures met { CalledInTurn W.at w.old (in_loop parts_in_statement x.now) result w.new }
    ensures ready { W.ready w.new }
{
    meet_attributes(&x.attributes.as_slice(), w)?;
    meet_block(&x.body, w)?;
    meet_optional_continuing(&x.continuing, w)
}

/// Meets the parts of `continuing`, where it is there.
#[cycle(meet)]
fn meet_optional_continuing<W: ReadParts>(
    continuing: &Option<ContinuingStatement>,
    w: &mut W,
) -> Result<(), W::Refusal>
    requires { W.ready w.old }
    ensures met { CalledInTurn W.at w.old (in_optional_continuing parts_in_statement continuing.now) result w.new }
    ensures ready { W.ready w.new }
{
    match continuing {
        None => Ok(()),
        Some(x) => meet_continuing(x, w),
    }
}

/// Meets the parts of `continuing`.
#[cycle(meet)]
fn meet_continuing<W: ReadParts>(x: &ContinuingStatement, w: &mut W) -> Result<(), W::Refusal>
    requires { W.ready w.old }
    ensures met { CalledInTurn W.at w.old (in_continuing parts_in_statement x.now) result w.new }
    ensures ready { W.ready w.new }
{
    meet_attributes(&x.attributes.as_slice(), w)?;
    meet_block(&x.body, w)?;
    meet_break_if(&x.break_if, w)
}

/// Meets the parts of `for`.
#[cycle(meet)]
fn meet_for<W: ReadParts>(x: &ForStatement, w: &mut W) -> Result<(), W::Refusal>
    requires { W.ready w.old }
    ensures met { CalledInTurn W.at w.old (in_for parts_in_statement x.now) result w.new }
    ensures ready { W.ready w.new }
{
    meet_attributes(&x.attributes.as_slice(), w)?;
    meet_part(&x.initializer, w)?;
    meet_option(&x.condition, w)?;
    meet_part(&x.update, w)?;
    meet_block(&x.body, w)
}

/// Meets the parts of a part of the header of `for`.
#[cycle(meet)]
fn meet_part<W: ReadParts>(part: &Option<StatementNode>, w: &mut W) -> Result<(), W::Refusal>
    requires { W.ready w.old }
    ensures met { CalledInTurn W.at w.old (in_part parts_in_statement part.now) result w.new }
    ensures ready { W.ready w.new }
{
    match part {
        None => Ok(()),
        Some(node) => meet_statement(node.node(), w),
    }
}

/// Meets the parts of `while`.
#[cycle(meet)]
fn meet_while<W: ReadParts>(x: &WhileStatement, w: &mut W) -> Result<(), W::Refusal>
    requires { W.ready w.old }
    ensures met { CalledInTurn W.at w.old (in_while parts_in_statement x.now) result w.new }
    ensures ready { W.ready w.new }
{
    meet_marked(&x.attributes.as_slice(), &x.condition, w)?;
    meet_block(&x.body, w)
}
