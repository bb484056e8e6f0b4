//! What is put into statements.

ghost use Rattle.std.specs.Prelude.{◌≡◌, map};
ghost use Rattle.wgsl_expressions.specs.View.{node_tree};
ghost use Rattle.wgsl_simple_statements.specs.View.{selector_tree};
ghost use Rattle.wgsl_statements.specs.View.{else_layer, if_layer, clauses_layer, switch_layer, continuing_layer, loop_layer, part_layer, for_layer, while_layer, statement_tree, statements_tree, block_tree};
ghost use Rattle.wesl_marks_mut.specs.Walks.{each, if_there};
ghost use Rattle.wesl_marks_mut.specs.Written.{written};
ghost use Rattle.wesl_marks_mut.specs.WrittenStatements.{else_if_tree, else_if_written, statement_written, statements_written, block_written, elses_written, clauses_written, continuing_written, part_written, selector_written};

use crate::attributes::write_attributes;
use crate::expressions::{write_expression, write_optional};
use crate::script::Script;
use crate::simple_statements::{
    write_assertion, write_assignment, write_break, write_break_if, write_call_statement,
    write_continue, write_decrement, write_discard, write_increment, write_marked, write_return,
    write_selectors, write_value,
};
use wgsl_base::Items;
use wgsl_statements::{
    CompoundStatement, ContinuingStatement, ElseClause, ElseIfClause, ForStatement, IfStatement,
    LoopStatement, Statement, StatementNode, SwitchClause, SwitchStatement, WhileStatement,
};

/// Writes a statement.
#[cycle(statements)]
#[tactic(auto, using(wgsl_statements::proofs::Trees::tree_of_void, wgsl_statements::proofs::Trees::tree_of_compound, wgsl_statements::proofs::Trees::tree_of_assignment, wgsl_statements::proofs::Trees::tree_of_increment, wgsl_statements::proofs::Trees::tree_of_decrement, wgsl_statements::proofs::Trees::tree_of_if, wgsl_statements::proofs::Trees::tree_of_switch, wgsl_statements::proofs::Trees::tree_of_loop, wgsl_statements::proofs::Trees::tree_of_for, wgsl_statements::proofs::Trees::tree_of_while, wgsl_statements::proofs::Trees::tree_of_break, wgsl_statements::proofs::Trees::tree_of_continue, wgsl_statements::proofs::Trees::tree_of_return, wgsl_statements::proofs::Trees::tree_of_discard, wgsl_statements::proofs::Trees::tree_of_call, wgsl_statements::proofs::Trees::tree_of_assertion, wgsl_statements::proofs::Trees::tree_of_value))]
fn write_statement(statement: &mut Statement, script: &mut Script)
    ensures tree { statement_tree statement.new ≡ (if_there statement_written (statement_tree statement.old) script.old.rest.items).0 }
    ensures rest { script.new.rest.items ≡ (if_there statement_written (statement_tree statement.old) script.old.rest.items).1 }
{
    match statement {
        Statement::Void => {}
        Statement::Compound(x) => write_block(x, script),
        Statement::Assignment(x) => write_assignment(x, script),
        Statement::Increment(x) => write_increment(x, script),
        Statement::Decrement(x) => write_decrement(x, script),
        Statement::If(x) => write_if(x.get_mut(), script),
        Statement::Switch(x) => write_switch(x.get_mut(), script),
        Statement::Loop(x) => write_loop(x.get_mut(), script),
        Statement::For(x) => write_for(x.get_mut(), script),
        Statement::While(x) => write_while(x.get_mut(), script),
        Statement::Break(x) => write_break(x, script),
        Statement::Continue(x) => write_continue(x, script),
        Statement::Return(x) => write_return(x, script),
        Statement::Discard(x) => write_discard(x, script),
        Statement::FunctionCall(x) => write_call_statement(x.get_mut(), script),
        Statement::ConstAssert(x) => write_assertion(x, script),
        Statement::Declaration(x) => write_value(x.get_mut(), script),
    }
}

/// Writes statements, one by one.
#[cycle(statements)]
pub(crate) fn write_statements(nodes: &mut Items<StatementNode>, script: &mut Script)
    ensures tree { statements_tree nodes.new ≡ (statements_written (statements_tree nodes.old) script.old.rest.items).0 }
    ensures rest { script.new.rest.items ≡ (statements_written (statements_tree nodes.old) script.old.rest.items).1 }
{
    for i in 0..nodes.len() {
        write_statement(nodes.get_mut(i).node_mut(), script);
    }
}

/// Writes a block.
#[cycle(statements)]
fn write_block(x: &mut CompoundStatement, script: &mut Script)
    ensures tree { block_tree x.new ≡ (block_written (block_tree x.old) script.old.rest.items).0 }
    ensures rest { script.new.rest.items ≡ (block_written (block_tree x.old) script.old.rest.items).1 }
{
    write_attributes(&mut x.attributes, script);
    write_statements(&mut x.statements, script);
}

/// Writes `if`.
#[cycle(statements)]
fn write_if(x: &mut IfStatement, script: &mut Script)
    ensures tree { if_layer statement_tree x.new ≡ (statement_written (if_layer statement_tree x.old) script.old.rest.items).0 }
    ensures rest { script.new.rest.items ≡ (statement_written (if_layer statement_tree x.old) script.old.rest.items).1 }
{
    write_marked(&mut x.attributes, &mut x.if_clause.expression, script);
    write_block(&mut x.if_clause.body, script);
    write_else_ifs(&mut x.else_if_clauses, script);
    write_else(&mut x.else_clause, script);
}

/// Writes the clauses `else if`, one by one.
#[cycle(statements)]
fn write_else_ifs(clauses: &mut Items<ElseIfClause>, script: &mut Script)
    ensures tree { map else_if_tree clauses.new ≡ (each else_if_written (map else_if_tree clauses.old) script.old.rest.items).0 }
    ensures rest { script.new.rest.items ≡ (each else_if_written (map else_if_tree clauses.old) script.old.rest.items).1 }
{
    for i in 0..clauses.len() {
        write_else_if(clauses.get_mut(i), script);
    }
}

/// Writes `else if`.
#[cycle(statements)]
fn write_else_if(clause: &mut ElseIfClause, script: &mut Script)
    ensures expression { node_tree clause.new.expression ≡ (written (node_tree clause.old.expression) script.old.rest.items).0 }
    ensures body { block_tree clause.new.body ≡ (block_written (block_tree clause.old.body) (written (node_tree clause.old.expression) script.old.rest.items).1).0 }
    ensures rest { script.new.rest.items ≡ (block_written (block_tree clause.old.body) (written (node_tree clause.old.expression) script.old.rest.items).1).1 }
{
    write_expression(clause.expression.node_mut(), script);
    write_block(&mut clause.body, script);
}

/// Writes `else`, where it is there.
#[cycle(statements)]
fn write_else(last: &mut Option<ElseClause>, script: &mut Script)
    ensures tree { else_layer statement_tree last.new ≡ (elses_written (else_layer statement_tree last.old) script.old.rest.items).0 }
    ensures rest { script.new.rest.items ≡ (elses_written (else_layer statement_tree last.old) script.old.rest.items).1 }
{
    if let Some(clause) = last {
        write_block(&mut clause.body, script);
    }
}

/// Writes `switch`.
#[cycle(statements)]
fn write_switch(x: &mut SwitchStatement, script: &mut Script)
    ensures tree { switch_layer statement_tree x.new ≡ (statement_written (switch_layer statement_tree x.old) script.old.rest.items).0 }
    ensures rest { script.new.rest.items ≡ (statement_written (switch_layer statement_tree x.old) script.old.rest.items).1 }
{
    write_marked(&mut x.attributes, &mut x.expression, script);
    write_attributes(&mut x.body_attributes, script);
    write_clauses(&mut x.clauses, script);
}

/// Writes the clauses of `switch`, one by one.
#[cycle(statements)]
fn write_clauses(clauses: &mut Items<SwitchClause>, script: &mut Script)
    ensures tree { clauses_layer statement_tree clauses.new ≡ (clauses_written (clauses_layer statement_tree clauses.old) script.old.rest.items).0 }
    ensures rest { script.new.rest.items ≡ (clauses_written (clauses_layer statement_tree clauses.old) script.old.rest.items).1 }
{
    for i in 0..clauses.len() {
        write_clause(clauses.get_mut(i), script);
    }
}

/// Writes a clause of `switch`.
#[cycle(statements)]
fn write_clause(clause: &mut SwitchClause, script: &mut Script)
    ensures selectors { map selector_tree clause.new.case_selectors ≡ (each selector_written (map selector_tree clause.old.case_selectors) script.old.rest.items).0 }
    ensures body { block_tree clause.new.body ≡ (block_written (block_tree clause.old.body) (each selector_written (map selector_tree clause.old.case_selectors) script.old.rest.items).1).0 }
    ensures rest { script.new.rest.items ≡ (block_written (block_tree clause.old.body) (each selector_written (map selector_tree clause.old.case_selectors) script.old.rest.items).1).1 }
{
    write_selectors(&mut clause.case_selectors, script);
    write_block(&mut clause.body, script);
}

/// Writes `loop`.
#[cycle(statements)]
fn write_loop(x: &mut LoopStatement, script: &mut Script)
    ensures tree { loop_layer statement_tree x.new ≡ (statement_written (loop_layer statement_tree x.old) script.old.rest.items).0 }
    ensures rest { script.new.rest.items ≡ (statement_written (loop_layer statement_tree x.old) script.old.rest.items).1 }
{
    write_attributes(&mut x.attributes, script);
    write_block(&mut x.body, script);
    write_continuing(&mut x.continuing, script);
}

/// Writes `continuing`, where it is there.
#[cycle(statements)]
fn write_continuing(x: &mut Option<ContinuingStatement>, script: &mut Script)
    ensures tree { continuing_layer statement_tree x.new ≡ (continuing_written (continuing_layer statement_tree x.old) script.old.rest.items).0 }
    ensures rest { script.new.rest.items ≡ (continuing_written (continuing_layer statement_tree x.old) script.old.rest.items).1 }
{
    if let Some(x) = x {
        write_attributes(&mut x.attributes, script);
        write_block(&mut x.body, script);
        write_break_if(&mut x.break_if, script);
    }
}

/// Writes `for`.
#[cycle(statements)]
fn write_for(x: &mut ForStatement, script: &mut Script)
    ensures tree { for_layer statement_tree x.new ≡ (statement_written (for_layer statement_tree x.old) script.old.rest.items).0 }
    ensures rest { script.new.rest.items ≡ (statement_written (for_layer statement_tree x.old) script.old.rest.items).1 }
{
    write_attributes(&mut x.attributes, script);
    write_part(&mut x.initializer, script);
    write_optional(&mut x.condition, script);
    write_part(&mut x.update, script);
    write_block(&mut x.body, script);
}

/// Writes a part of the header of `for`, where it is there.
#[cycle(statements)]
fn write_part(part: &mut Option<StatementNode>, script: &mut Script)
    ensures tree { part_layer statement_tree part.new ≡ (part_written (part_layer statement_tree part.old) script.old.rest.items).0 }
    ensures rest { script.new.rest.items ≡ (part_written (part_layer statement_tree part.old) script.old.rest.items).1 }
{
    if let Some(node) = part {
        write_statement(node.node_mut(), script);
    }
}

/// Writes `while`.
#[cycle(statements)]
fn write_while(x: &mut WhileStatement, script: &mut Script)
    ensures tree { while_layer statement_tree x.new ≡ (statement_written (while_layer statement_tree x.old) script.old.rest.items).0 }
    ensures rest { script.new.rest.items ≡ (statement_written (while_layer statement_tree x.old) script.old.rest.items).1 }
{
    write_marked(&mut x.attributes, &mut x.condition, script);
    write_block(&mut x.body, script);
}
