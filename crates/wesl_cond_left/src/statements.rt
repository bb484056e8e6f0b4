//! Conditions in statements, at every depth.

ghost use Rattle.std.specs.Prelude.{◌≡◌, map};
ghost use Rattle.wgsl_statements.specs.View.{statement_tree, statements_tree, block_tree, elses_layer, else_layer, clauses_layer, continuing_layer, part_layer, if_layer, switch_layer, loop_layer, for_layer};
ghost use Rattle.wesl_cond_left.specs.Open.{maybe_open, statement_open, statements_open, block_open, elses_open, clauses_open, continuing_open, part_open, one_of};

use crate::attributes::is_conditional;
use wgsl_base::Items;
use wgsl_statements::{
    CompoundStatement, ContinuingStatement, ElseClause, ElseIfClause, ForStatement, IfStatement,
    LoopStatement, Statement, StatementNode, SwitchClause, SwitchStatement,
};

#[cycle(walk)]
#[tactic(auto, using(wgsl_statements::proofs::Trees::tree_of_void, wgsl_statements::proofs::Trees::tree_of_compound, wgsl_statements::proofs::Trees::tree_of_assignment, wgsl_statements::proofs::Trees::tree_of_increment, wgsl_statements::proofs::Trees::tree_of_decrement, wgsl_statements::proofs::Trees::tree_of_if, wgsl_statements::proofs::Trees::tree_of_switch, wgsl_statements::proofs::Trees::tree_of_loop, wgsl_statements::proofs::Trees::tree_of_for, wgsl_statements::proofs::Trees::tree_of_while, wgsl_statements::proofs::Trees::tree_of_break, wgsl_statements::proofs::Trees::tree_of_continue, wgsl_statements::proofs::Trees::tree_of_return, wgsl_statements::proofs::Trees::tree_of_discard, wgsl_statements::proofs::Trees::tree_of_call, wgsl_statements::proofs::Trees::tree_of_assertion, wgsl_statements::proofs::Trees::tree_of_value))]
fn in_statement(statement: &Statement) -> bool
    ensures { result ≡ maybe_open (statement_tree statement.now) }
{
    match statement {
        Statement::Void => false,
        Statement::Compound(x) => in_block(x),
        Statement::Assignment(x) => is_conditional(&x.attributes),
        Statement::Increment(x) => is_conditional(&x.attributes),
        Statement::Decrement(x) => is_conditional(&x.attributes),
        Statement::If(x) => in_if(x.get()),
        Statement::Switch(x) => in_switch(x.get()),
        Statement::Loop(x) => in_loop(x.get()),
        Statement::For(x) => in_for(x.get()),
        Statement::While(x) => is_conditional(&x.get().attributes) || in_block(&x.get().body),
        Statement::Break(x) => is_conditional(&x.attributes),
        Statement::Continue(x) => is_conditional(&x.attributes),
        Statement::Return(x) => is_conditional(&x.attributes),
        Statement::Discard(x) => is_conditional(&x.attributes),
        Statement::FunctionCall(x) => is_conditional(&x.get().attributes),
        Statement::ConstAssert(x) => is_conditional(&x.attributes),
        Statement::Declaration(x) => is_conditional(&x.get().attributes),
    }
}

#[cycle(walk)]
#[tactic(auto, using(crate::proofs::Layers::first_of_more))]
fn in_statements(nodes: &Items<StatementNode>) -> bool
    ensures { result ≡ statements_open (statements_tree nodes.now) }
{
    for node in nodes.as_slice() {
        if in_statement(node.node()) {
            return true;
        }
    }
    false
}

/// Whether a block has a condition, before its first brace or inside.
#[cycle(walk)]
pub(crate) fn in_block(block: &CompoundStatement) -> bool
    ensures { result ≡ block_open (block_tree block.now) }
{
    is_conditional(&block.attributes) || in_statements(&block.statements)
}

#[cycle(walk)]
fn in_if(x: &IfStatement) -> bool
    ensures { result ≡ statement_open (if_layer statement_tree x.now) }
{
    is_conditional(&x.attributes) || in_block(&x.if_clause.body) || in_elses(x)
}

/// What stands behind the first clause of `if`.
#[cycle(walk)]
#[tactic(auto, using(crate::proofs::Layers::open_elses))]
fn in_elses(x: &IfStatement) -> bool
    ensures { result ≡ elses_open (elses_layer statement_tree x.now.else_if_clauses x.now.else_clause) }
{
    in_else_ifs(&x.else_if_clauses) || in_else(&x.else_clause)
}

#[cycle(walk)]
fn in_else_ifs(clauses: &Items<ElseIfClause>) -> bool
    ensures { result ≡ one_of (map (λ c. block_open (block_tree c.body)) clauses.now) }
{
    for clause in clauses.as_slice() {
        if in_block(&clause.body) {
            return true;
        }
    }
    false
}

#[cycle(walk)]
fn in_else(last: &Option<ElseClause>) -> bool
    ensures { result ≡ elses_open (else_layer statement_tree last.now) }
{
    match last {
        None => false,
        Some(clause) => in_block(&clause.body),
    }
}

#[cycle(walk)]
fn in_switch(x: &SwitchStatement) -> bool
    ensures { result ≡ statement_open (switch_layer statement_tree x.now) }
{
    is_conditional(&x.attributes) || is_conditional(&x.body_attributes) || in_clauses(&x.clauses)
}

#[cycle(walk)]
fn in_clauses(clauses: &Items<SwitchClause>) -> bool
    ensures { result ≡ clauses_open (clauses_layer statement_tree clauses.now) }
{
    for clause in clauses.as_slice() {
        if in_block(&clause.body) {
            return true;
        }
    }
    false
}

#[cycle(walk)]
fn in_loop(x: &LoopStatement) -> bool
    ensures { result ≡ statement_open (loop_layer statement_tree x.now) }
{
    is_conditional(&x.attributes) || in_block(&x.body) || in_continuing(&x.continuing)
}

#[cycle(walk)]
fn in_continuing(continuing: &Option<ContinuingStatement>) -> bool
    ensures { result ≡ continuing_open (continuing_layer statement_tree continuing.now) }
{
    match continuing {
        None => false,
        Some(x) => match &x.break_if {
            None => is_conditional(&x.attributes) || in_block(&x.body),
            Some(last) => {
                is_conditional(&x.attributes)
                    || in_block(&x.body)
                    || is_conditional(&last.attributes)
            }
        },
    }
}

#[cycle(walk)]
fn in_for(x: &ForStatement) -> bool
    ensures { result ≡ statement_open (for_layer statement_tree x.now) }
{
    is_conditional(&x.attributes)
        || in_part(&x.initializer)
        || in_part(&x.update)
        || in_block(&x.body)
}

#[cycle(walk)]
#[tactic(auto, using(crate::proofs::Layers::open_part))]
fn in_part(part: &Option<StatementNode>) -> bool
    ensures { result ≡ part_open (part_layer statement_tree part.now) }
{
    match part {
        None => false,
        Some(node) => in_statement(node.node()),
    }
}
