//! What features leave inside statements, in place. It needs no memory.

ghost use Rattle.std.specs.Prelude.{◌≡◌, map};
ghost use Rattle.std.specs.Option.{option_map};
ghost use Rattle.wgsl_expressions.specs.View.{node_tree};
ghost use Rattle.wgsl_statements.specs.View.{statement_tree, block_tree, else_layer, if_layer, switch_layer, clauses_layer, continuing_layer, loop_layer, part_layer, for_layer, while_layer};
ghost use Rattle.wesl_cond.specs.Leaving.{statement_left, block_left, elses_left, clauses_left, continuing_left, part_left, else_if_pair, else_block, switch_pair, pair_left};

use wesl_cond_items::settle_list;
use wesl_conditions::Features;
use wgsl_base::Items;
use wgsl_statements::{
    CompoundStatement, ContinuingStatement, ElseClause, ElseIfClause, ForStatement, IfStatement,
    LoopStatement, Statement, StatementNode, SwitchClause, SwitchStatement, WhileStatement,
};

/// What features leave inside a statement. Its own attributes stay.
#[cycle(settle)]
#[tactic(auto, using(wgsl_statements::proofs::Trees::tree_of_void, wgsl_statements::proofs::Trees::tree_of_compound, wgsl_statements::proofs::Trees::tree_of_assignment, wgsl_statements::proofs::Trees::tree_of_increment, wgsl_statements::proofs::Trees::tree_of_decrement, wgsl_statements::proofs::Trees::tree_of_if, wgsl_statements::proofs::Trees::tree_of_switch, wgsl_statements::proofs::Trees::tree_of_loop, wgsl_statements::proofs::Trees::tree_of_for, wgsl_statements::proofs::Trees::tree_of_while, wgsl_statements::proofs::Trees::tree_of_break, wgsl_statements::proofs::Trees::tree_of_continue, wgsl_statements::proofs::Trees::tree_of_return, wgsl_statements::proofs::Trees::tree_of_discard, wgsl_statements::proofs::Trees::tree_of_call, wgsl_statements::proofs::Trees::tree_of_assertion, wgsl_statements::proofs::Trees::tree_of_value))]
pub fn settle_statement(statement: &mut Statement, features: &Features)
    ensures { statement_tree statement.new ≡ option_map (statement_left features.now) (statement_tree statement.old) }
{
    match statement {
        Statement::Compound(x) => settle_block(x, features),
        Statement::If(x) => settle_if(x.get_mut(), features),
        Statement::Switch(x) => settle_switch(x.get_mut(), features),
        Statement::Loop(x) => settle_loop(x.get_mut(), features),
        Statement::For(x) => settle_for(x.get_mut(), features),
        Statement::While(x) => settle_while(x.get_mut(), features),
        Statement::Void => {}
        Statement::Assignment(_) => {}
        Statement::Increment(_) => {}
        Statement::Decrement(_) => {}
        Statement::Break(_) => {}
        Statement::Continue(_) => {}
        Statement::Return(_) => {}
        Statement::Discard(_) => {}
        Statement::FunctionCall(_) => {}
        Statement::ConstAssert(_) => {}
        Statement::Declaration(_) => {}
    }
}

#[cycle(settle)]
fn settle_node(node: &mut StatementNode, features: &Features)
    ensures { statement_tree node.new.node ≡ option_map (statement_left features.now) (statement_tree node.old.node) }
{
    settle_statement(node.node_mut(), features);
}

/// What features leave of a block: inside its statements first, and then of the list.
#[cycle(settle)]
#[tactic(auto, using(crate::proofs::Lists::block_of_list))]
pub fn settle_block(block: &mut CompoundStatement, features: &Features)
    ensures { block_tree block.new ≡ block_left features.now (block_tree block.old) }
{
    settle_each(&mut block.statements, features);
    settle_list(&mut block.statements, features);
}

#[cycle(settle)]
fn settle_each(nodes: &mut Items<StatementNode>, features: &Features)
    ensures { map (λ n. statement_tree n.node) nodes.new ≡ map (option_map (statement_left features.now)) (map (λ n. statement_tree n.node) nodes.old) }
{
    for i in 0..nodes.len() {
        settle_node(nodes.get_mut(i), features);
    }
}

#[cycle(settle)]
fn settle_if(x: &mut IfStatement, features: &Features)
    ensures { if_layer statement_tree x.new ≡ statement_left features.now (if_layer statement_tree x.old) }
{
    settle_block(&mut x.if_clause.body, features);
    settle_else_ifs(&mut x.else_if_clauses, features);
    settle_else(&mut x.else_clause, features);
}

#[cycle(settle)]
fn settle_else_ifs(clauses: &mut Items<ElseIfClause>, features: &Features)
    ensures { map else_if_pair clauses.new ≡ map (pair_left features.now) (map else_if_pair clauses.old) }
{
    for i in 0..clauses.len() {
        settle_else_if(clauses.get_mut(i), features);
    }
}

#[cycle(settle)]
fn settle_else_if(clause: &mut ElseIfClause, features: &Features)
    ensures { else_if_pair clause.new ≡ pair_left features.now (else_if_pair clause.old) }
{
    settle_block(&mut clause.body, features);
}

#[cycle(settle)]
fn settle_else(clause: &mut Option<ElseClause>, features: &Features)
    ensures { else_layer statement_tree clause.new ≡ elses_left features.now (else_layer statement_tree clause.old) }
{
    match clause {
        None => {}
        Some(clause) => settle_block(&mut clause.body, features),
    }
}

#[cycle(settle)]
#[tactic(auto, using(crate::proofs::Clauses::clauses_are_left))]
fn settle_switch(x: &mut SwitchStatement, features: &Features)
    ensures { switch_layer statement_tree x.new ≡ statement_left features.now (switch_layer statement_tree x.old) }
{
    settle_clauses(&mut x.clauses, features);
}

#[cycle(settle)]
fn settle_clauses(clauses: &mut Items<SwitchClause>, features: &Features)
    ensures { map switch_pair clauses.new ≡ map (pair_left features.now) (map switch_pair clauses.old) }
{
    for i in 0..clauses.len() {
        settle_clause(clauses.get_mut(i), features);
    }
}

#[cycle(settle)]
fn settle_clause(clause: &mut SwitchClause, features: &Features)
    ensures { switch_pair clause.new ≡ pair_left features.now (switch_pair clause.old) }
{
    settle_block(&mut clause.body, features);
}

#[cycle(settle)]
fn settle_loop(x: &mut LoopStatement, features: &Features)
    ensures { loop_layer statement_tree x.new ≡ statement_left features.now (loop_layer statement_tree x.old) }
{
    settle_block(&mut x.body, features);
    settle_continuing(&mut x.continuing, features);
}

#[cycle(settle)]
fn settle_continuing(continuing: &mut Option<ContinuingStatement>, features: &Features)
    ensures { continuing_layer statement_tree continuing.new ≡ continuing_left features.now (continuing_layer statement_tree continuing.old) }
{
    match continuing {
        None => {}
        Some(x) => settle_block(&mut x.body, features),
    }
}

#[cycle(settle)]
fn settle_for(x: &mut ForStatement, features: &Features)
    ensures { for_layer statement_tree x.new ≡ statement_left features.now (for_layer statement_tree x.old) }
{
    settle_part(&mut x.initializer, features);
    settle_part(&mut x.update, features);
    settle_block(&mut x.body, features);
}

/// What features leave inside a part of the header of `for`.
#[cycle(settle)]
#[tactic(auto, using(crate::proofs::Clauses::part_is_left))]
fn settle_part(part: &mut Option<StatementNode>, features: &Features)
    ensures { part_layer statement_tree part.new ≡ part_left features.now (part_layer statement_tree part.old) }
{
    match part {
        None => {}
        Some(node) => settle_node(node, features),
    }
}

#[cycle(settle)]
fn settle_while(x: &mut WhileStatement, features: &Features)
    ensures { while_layer statement_tree x.new ≡ statement_left features.now (while_layer statement_tree x.old) }
{
    settle_block(&mut x.body, features);
}
