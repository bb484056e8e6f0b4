//! The nodes in statements.

ghost use Rattle.std.specs.Prelude.{◌≡◌, ◌++◌, map, OnOk};
ghost use Rattle.std.specs.List.{flat_map};
ghost use Rattle.std.specs.Option.{is_some, option_map};
ghost use Rattle.wgsl_words.specs.declared.enumerations.words.AssignmentOperator.TheVariants.{Equal};
ghost use Rattle.wgsl_expressions.specs.View.{tree, node_tree};
ghost use Rattle.wgsl_expressions.specs.AttributesView.{attributes_tree};
ghost use Rattle.wgsl_simple_statements.specs.View.{assignment_tree, return_tree, call_tree, assertion_tree, value_tree, break_if_tree, selector_tree};
ghost use Rattle.wgsl_statements.specs.View.{block_tree, clauses_layer, continuing_layer, elses_layer, else_layer, for_layer, if_layer, loop_layer, part_layer, statement_tree, statements_tree, switch_layer, while_layer};
ghost use Rattle.wgsl_nodes_in_order.specs.Nodes.{in_attrs, in_block, in_break_if, in_clause, in_clauses, in_continued, in_continuing, in_elses, in_exp, in_option, in_optional_stm, in_part, in_place, in_selector, in_stms, inside_optional, inside_simple, inside_stm, is_phony};
ghost use Rattle.wgsl_nodes_in_order.specs.Found.{nodes};

use crate::find::{find_attributes, find_call, find_expression, find_optional, find_optional_type};
use crate::node::NodeRef;
use std::alloc::AllocError;
use wgsl_expressions::{AttributeNode, Expression, ExpressionNode};
use wgsl_simple_statements::{
    AssignmentStatement, BreakIfStatement, CaseSelector, ConstAssert, Declaration,
    FunctionCallStatement, ReturnStatement,
};
use wgsl_statements::{
    CompoundStatement, ContinuingStatement, ElseClause, ElseIfClause, ForStatement, IfStatement,
    LoopStatement, Statement, StatementNode, SwitchClause, SwitchStatement, WhileStatement,
};
use wgsl_words::AssignmentOperator;

/// Lists the nodes of attributes, and of the expression behind them.
pub(crate) fn find_marked<'a>(
    attributes: &'a [AttributeNode],
    expression: &'a ExpressionNode,
    found: &mut Vec<NodeRef<'a>>,
) -> Result<(), AllocError>
    ensures { OnOk result (nodes found.new.items ≡ nodes found.old.items ++ (in_attrs (attributes_tree attributes.now) ++ in_exp (node_tree expression.now))) }
{
    find_attributes(attributes, found)?;
    find_expression(expression, found)
}

/// Is an expression the name `_`?
#[tactic(auto)]
fn is_underscore(place: &Expression) -> bool
    ensures { result ≡ is_phony Equal (tree place.now) }
{
    match place {
        Expression::TypeOrIdentifier(x) => match (&x.path, &x.template_args) {
            (None, None) => x.ident.as_str() == "_",
            _ => false,
        },
        _ => false,
    }
}

/// Lists the nodes of the place of an assignment, which is no expression where it is `_`.
fn find_place<'a>(
    operator: AssignmentOperator,
    place: &'a ExpressionNode,
    found: &mut Vec<NodeRef<'a>>,
) -> Result<(), AllocError>
    ensures { OnOk result (nodes found.new.items ≡ nodes found.old.items ++ in_place operator (node_tree place.now)) }
{
    if operator == AssignmentOperator::Equal && is_underscore(place.node()) {
        return Ok(());
    }
    find_expression(place, found)
}

/// Lists the nodes inside an assignment.
fn find_assignment<'a>(
    x: &'a AssignmentStatement,
    found: &mut Vec<NodeRef<'a>>,
) -> Result<(), AllocError>
    ensures { OnOk result (nodes found.new.items ≡ nodes found.old.items ++ inside_simple (assignment_tree x.now)) }
{
    find_attributes(&x.attributes.as_slice(), found)?;
    find_place(x.operator, &x.lhs, found)?;
    find_expression(&x.rhs, found)
}

/// Lists the nodes inside `return`.
fn find_return<'a>(x: &'a ReturnStatement, found: &mut Vec<NodeRef<'a>>) -> Result<(), AllocError>
    ensures { OnOk result (nodes found.new.items ≡ nodes found.old.items ++ inside_simple (return_tree x.now)) }
{
    find_attributes(&x.attributes.as_slice(), found)?;
    find_optional(&x.expression, found)
}

/// Lists the nodes inside a call as a statement.
fn find_call_statement<'a>(
    x: &'a FunctionCallStatement,
    found: &mut Vec<NodeRef<'a>>,
) -> Result<(), AllocError>
    ensures { OnOk result (nodes found.new.items ≡ nodes found.old.items ++ inside_simple (call_tree x.now)) }
{
    find_attributes(&x.attributes.as_slice(), found)?;
    find_call(&x.call, found)
}

/// Lists the nodes inside a constant assertion.
pub(crate) fn find_assertion<'a>(
    x: &'a ConstAssert,
    found: &mut Vec<NodeRef<'a>>,
) -> Result<(), AllocError>
    ensures { OnOk result (nodes found.new.items ≡ nodes found.old.items ++ inside_simple (assertion_tree x.now)) }
{
    find_marked(&x.attributes.as_slice(), &x.expression, found)
}

/// Lists the nodes inside a declaration of a value.
pub(crate) fn find_value<'a>(
    x: &'a Declaration,
    found: &mut Vec<NodeRef<'a>>,
) -> Result<(), AllocError>
    ensures { OnOk result (nodes found.new.items ≡ nodes found.old.items ++ inside_simple (value_tree x.now)) }
{
    find_attributes(&x.attributes.as_slice(), found)?;
    find_optional_type(&x.ty, found)?;
    find_optional(&x.initializer, found)
}

/// Lists the nodes of `break if`, where it is there.
fn find_break_if<'a>(
    x: &'a Option<BreakIfStatement>,
    found: &mut Vec<NodeRef<'a>>,
) -> Result<(), AllocError>
    ensures { OnOk result (nodes found.new.items ≡ nodes found.old.items ++ in_option in_break_if (option_map break_if_tree x.now)) }
{
    match x {
        None => Ok(()),
        Some(x) => find_marked(&x.attributes.as_slice(), &x.expression, found),
    }
}

/// Lists the nodes of a selector.
fn find_selector<'a>(
    selector: &'a CaseSelector,
    found: &mut Vec<NodeRef<'a>>,
) -> Result<(), AllocError>
    ensures { OnOk result (nodes found.new.items ≡ nodes found.old.items ++ in_selector (selector_tree selector.now)) }
{
    match selector {
        CaseSelector::Default => Ok(()),
        CaseSelector::Expression(x) => find_expression(x, found),
    }
}

/// Lists the nodes of selectors, one by one.
fn find_selectors<'a>(
    selectors: &'a [CaseSelector],
    found: &mut Vec<NodeRef<'a>>,
) -> Result<(), AllocError>
    ensures { OnOk result (nodes found.new.items ≡ nodes found.old.items ++ flat_map in_selector (map selector_tree selectors.now)) }
{
    for selector in selectors {
        find_selector(selector, found)?;
    }
    Ok(())
}

/// Is it more than a `;`?
#[tactic(auto, using(wgsl_statements::proofs::Trees::tree_of_void, wgsl_statements::proofs::Trees::tree_of_compound, wgsl_statements::proofs::Trees::tree_of_assignment, wgsl_statements::proofs::Trees::tree_of_increment, wgsl_statements::proofs::Trees::tree_of_decrement, wgsl_statements::proofs::Trees::tree_of_if, wgsl_statements::proofs::Trees::tree_of_switch, wgsl_statements::proofs::Trees::tree_of_loop, wgsl_statements::proofs::Trees::tree_of_for, wgsl_statements::proofs::Trees::tree_of_while, wgsl_statements::proofs::Trees::tree_of_break, wgsl_statements::proofs::Trees::tree_of_continue, wgsl_statements::proofs::Trees::tree_of_return, wgsl_statements::proofs::Trees::tree_of_discard, wgsl_statements::proofs::Trees::tree_of_call, wgsl_statements::proofs::Trees::tree_of_assertion, wgsl_statements::proofs::Trees::tree_of_value))]
fn is_statement(statement: &Statement) -> bool
    ensures { result ≡ is_some (statement_tree statement.now) }
{
    match statement {
        Statement::Void => false,
        _ => true,
    }
}

/// Lists the nodes inside a statement.
#[cycle(statements)]
#[tactic(auto, using(crate::proofs::Steps::of_void, crate::proofs::Steps::of_compound, crate::proofs::Steps::of_assignment, crate::proofs::Steps::of_increment, crate::proofs::Steps::of_decrement, crate::proofs::Steps::of_if, crate::proofs::Steps::of_switch, crate::proofs::Steps::of_loop, crate::proofs::Steps::of_for, crate::proofs::Steps::of_while, crate::proofs::Steps::of_break, crate::proofs::Steps::of_continue, crate::proofs::Steps::of_return, crate::proofs::Steps::of_discard, crate::proofs::Steps::of_call_statement, crate::proofs::Steps::of_assertion, crate::proofs::Steps::of_value))]
fn find_inside_statement<'a>(
    statement: &'a Statement,
    found: &mut Vec<NodeRef<'a>>,
) -> Result<(), AllocError>
    ensures { OnOk result (nodes found.new.items ≡ nodes found.old.items ++ inside_optional (statement_tree statement.now)) }
{
    match statement {
        Statement::Void => Ok(()),
        Statement::Compound(x) => find_block(x, found),
        Statement::Assignment(x) => find_assignment(x, found),
        Statement::Increment(x) => find_marked(&x.attributes.as_slice(), &x.expression, found),
        Statement::Decrement(x) => find_marked(&x.attributes.as_slice(), &x.expression, found),
        Statement::If(x) => find_if(x.get(), found),
        Statement::Switch(x) => find_switch(x.get(), found),
        Statement::Loop(x) => find_loop(x.get(), found),
        Statement::For(x) => find_for(x.get(), found),
        Statement::While(x) => find_while(x.get(), found),
        Statement::Break(x) => find_attributes(&x.attributes.as_slice(), found),
        Statement::Continue(x) => find_attributes(&x.attributes.as_slice(), found),
        Statement::Return(x) => find_return(x, found),
        Statement::Discard(x) => find_attributes(&x.attributes.as_slice(), found),
        Statement::FunctionCall(x) => find_call_statement(x.get(), found),
        Statement::ConstAssert(x) => find_assertion(x, found),
        Statement::Declaration(x) => find_value(x.get(), found),
    }
}

/// Lists the nodes of a statement. A `;` is none.
#[cycle(statements)]
#[tactic(auto, using(crate::proofs::Steps::void_none, crate::proofs::Steps::with_itself))]
fn find_statement<'a>(
    statement: &'a Statement,
    found: &mut Vec<NodeRef<'a>>,
) -> Result<(), AllocError>
    ensures { OnOk result (nodes found.new.items ≡ nodes found.old.items ++ in_optional_stm (statement_tree statement.now)) }
{
    if !is_statement(statement) {
        return Ok(());
    }
    find_inside_statement(statement, found)?;
    found.push(NodeRef::Statement(statement))?;
    Ok(())
}

/// Lists the nodes of statements, one by one.
#[cycle(statements)]
#[tactic(auto, using(crate::proofs::Steps::in_first))]
fn find_statements<'a>(
    statements: &'a [StatementNode],
    found: &mut Vec<NodeRef<'a>>,
) -> Result<(), AllocError>
    ensures { OnOk result (nodes found.new.items ≡ nodes found.old.items ++ in_stms (statements_tree statements.now)) }
{
    for statement in statements {
        find_statement(statement.node(), found)?;
    }
    Ok(())
}

/// Lists the nodes of a block.
#[cycle(statements)]
pub(crate) fn find_block<'a>(
    x: &'a CompoundStatement,
    found: &mut Vec<NodeRef<'a>>,
) -> Result<(), AllocError>
    ensures { OnOk result (nodes found.new.items ≡ nodes found.old.items ++ in_block (block_tree x.now)) }
{
    find_attributes(&x.attributes.as_slice(), found)?;
    find_statements(&x.statements.as_slice(), found)
}

/// Lists the nodes inside `if`.
#[cycle(statements)]
fn find_if<'a>(x: &'a IfStatement, found: &mut Vec<NodeRef<'a>>) -> Result<(), AllocError>
    ensures { OnOk result (nodes found.new.items ≡ nodes found.old.items ++ inside_stm (if_layer statement_tree x.now)) }
{
    find_marked(&x.attributes.as_slice(), &x.if_clause.expression, found)?;
    find_block(&x.if_clause.body, found)?;
    find_elses(x, found)
}

/// Lists the nodes of the clauses behind the first one of `if`.
#[cycle(statements)]
fn find_elses<'a>(x: &'a IfStatement, found: &mut Vec<NodeRef<'a>>) -> Result<(), AllocError>
    ensures { OnOk result (nodes found.new.items ≡ nodes found.old.items ++ in_elses (elses_layer statement_tree x.now.else_if_clauses x.now.else_clause)) }
{
    for clause in x.else_if_clauses.as_slice() {
        find_else_if(clause, found)?;
    }
    find_else(&x.else_clause, found)
}

/// Lists the nodes of a clause `else if`.
#[cycle(statements)]
fn find_else_if<'a>(
    clause: &'a ElseIfClause,
    found: &mut Vec<NodeRef<'a>>,
) -> Result<(), AllocError>
    ensures { OnOk result (nodes found.new.items ≡ nodes found.old.items ++ (in_exp (node_tree clause.now.expression) ++ in_block (block_tree clause.now.body))) }
{
    find_expression(&clause.expression, found)?;
    find_block(&clause.body, found)
}

/// Lists the nodes of `else`, where it is there.
#[cycle(statements)]
fn find_else<'a>(
    clause: &'a Option<ElseClause>,
    found: &mut Vec<NodeRef<'a>>,
) -> Result<(), AllocError>
    ensures { OnOk result (nodes found.new.items ≡ nodes found.old.items ++ in_elses (else_layer statement_tree clause.now)) }
{
    match clause {
        None => Ok(()),
        Some(clause) => find_block(&clause.body, found),
    }
}

/// Lists the nodes inside `switch`.
#[cycle(statements)]
fn find_switch<'a>(x: &'a SwitchStatement, found: &mut Vec<NodeRef<'a>>) -> Result<(), AllocError>
    ensures { OnOk result (nodes found.new.items ≡ nodes found.old.items ++ inside_stm (switch_layer statement_tree x.now)) }
{
    find_marked(&x.attributes.as_slice(), &x.expression, found)?;
    find_attributes(&x.body_attributes.as_slice(), found)?;
    find_clauses(&x.clauses.as_slice(), found)
}

/// Lists the nodes of the clauses of `switch`, one by one.
#[cycle(statements)]
fn find_clauses<'a>(
    clauses: &'a [SwitchClause],
    found: &mut Vec<NodeRef<'a>>,
) -> Result<(), AllocError>
    ensures { OnOk result (nodes found.new.items ≡ nodes found.old.items ++ in_clauses (clauses_layer statement_tree clauses.now)) }
{
    for clause in clauses {
        find_clause(clause, found)?;
    }
    Ok(())
}

/// Lists the nodes of a clause of `switch`.
#[cycle(statements)]
fn find_clause<'a>(clause: &'a SwitchClause, found: &mut Vec<NodeRef<'a>>) -> Result<(), AllocError>
    ensures { OnOk result (nodes found.new.items ≡ nodes found.old.items ++ in_clause (map selector_tree clause.now.case_selectors) (block_tree clause.now.body)) }
{
    find_selectors(&clause.case_selectors.as_slice(), found)?;
    find_block(&clause.body, found)
}

/// Lists the nodes inside `loop`.
#[cycle(statements)]
fn find_loop<'a>(x: &'a LoopStatement, found: &mut Vec<NodeRef<'a>>) -> Result<(), AllocError>
    ensures { OnOk result (nodes found.new.items ≡ nodes found.old.items ++ inside_stm (loop_layer statement_tree x.now)) }
{
    find_attributes(&x.attributes.as_slice(), found)?;
    find_block(&x.body, found)?;
    find_optional_continuing(&x.continuing, found)
}

/// Lists the nodes of `continuing`, where it is there.
#[cycle(statements)]
fn find_optional_continuing<'a>(
    x: &'a Option<ContinuingStatement>,
    found: &mut Vec<NodeRef<'a>>,
) -> Result<(), AllocError>
    ensures { OnOk result (nodes found.new.items ≡ nodes found.old.items ++ in_continuing (continuing_layer statement_tree x.now)) }
{
    match x {
        None => Ok(()),
        Some(x) => find_continuing(x, found),
    }
}

/// Lists the nodes of `continuing`.
#[cycle(statements)]
fn find_continuing<'a>(
    x: &'a ContinuingStatement,
    found: &mut Vec<NodeRef<'a>>,
) -> Result<(), AllocError>
    ensures { OnOk result (nodes found.new.items ≡ nodes found.old.items ++ in_continued (attributes_tree x.now.attributes) (block_tree x.now.body) (option_map break_if_tree x.now.break_if)) }
{
    find_attributes(&x.attributes.as_slice(), found)?;
    find_block(&x.body, found)?;
    find_break_if(&x.break_if, found)
}

/// Lists the nodes inside `for`.
#[cycle(statements)]
fn find_for<'a>(x: &'a ForStatement, found: &mut Vec<NodeRef<'a>>) -> Result<(), AllocError>
    ensures { OnOk result (nodes found.new.items ≡ nodes found.old.items ++ inside_stm (for_layer statement_tree x.now)) }
{
    find_attributes(&x.attributes.as_slice(), found)?;
    find_part(&x.initializer, found)?;
    find_optional(&x.condition, found)?;
    find_part(&x.update, found)?;
    find_block(&x.body, found)
}

/// Lists the nodes of a part of the header of `for`, where it is there.
#[cycle(statements)]
#[tactic(auto, using(crate::proofs::Steps::in_present))]
fn find_part<'a>(
    part: &'a Option<StatementNode>,
    found: &mut Vec<NodeRef<'a>>,
) -> Result<(), AllocError>
    ensures { OnOk result (nodes found.new.items ≡ nodes found.old.items ++ in_part (part_layer statement_tree part.now)) }
{
    match part {
        None => Ok(()),
        Some(node) => find_statement(node.node(), found),
    }
}

/// Lists the nodes inside `while`.
#[cycle(statements)]
fn find_while<'a>(x: &'a WhileStatement, found: &mut Vec<NodeRef<'a>>) -> Result<(), AllocError>
    ensures { OnOk result (nodes found.new.items ≡ nodes found.old.items ++ inside_stm (while_layer statement_tree x.now)) }
{
    find_marked(&x.attributes.as_slice(), &x.condition, found)?;
    find_block(&x.body, found)
}
