//! The attributes of statements.

ghost use Rattle.std.specs.Prelude.{◌≡◌};
ghost use Rattle.std.specs.Option.{option_map, option_copied};
ghost use Rattle.wgsl_expressions.specs.AttributesView.{attributes_tree};
ghost use Rattle.wgsl_statements.specs.View.{statement_tree};
ghost use Rattle.wesl_conditions.specs.Walks.{Settles};
ghost use Rattle.wesl_conditions.specs.Trees.{of_statements, statement_attributes};

use crate::item::Item;
use crate::own_statement as own;
use wesl_conditions::{Chain, Features};
use wgsl_expressions::Attributes;
use wgsl_statements::{Statement, StatementNode};

/// The attributes of a statement. A `;` alone has none.
#[tactic(auto, using(wgsl_statements::proofs::Trees::tree_of_void, wgsl_statements::proofs::Trees::tree_of_compound, wgsl_statements::proofs::Trees::tree_of_assignment, wgsl_statements::proofs::Trees::tree_of_increment, wgsl_statements::proofs::Trees::tree_of_decrement, wgsl_statements::proofs::Trees::tree_of_if, wgsl_statements::proofs::Trees::tree_of_switch, wgsl_statements::proofs::Trees::tree_of_loop, wgsl_statements::proofs::Trees::tree_of_for, wgsl_statements::proofs::Trees::tree_of_while, wgsl_statements::proofs::Trees::tree_of_break, wgsl_statements::proofs::Trees::tree_of_continue, wgsl_statements::proofs::Trees::tree_of_return, wgsl_statements::proofs::Trees::tree_of_discard, wgsl_statements::proofs::Trees::tree_of_call, wgsl_statements::proofs::Trees::tree_of_assertion, wgsl_statements::proofs::Trees::tree_of_value))]
pub fn attributes_of(statement: &Statement) -> Option<&Attributes>
    ensures { option_map attributes_tree (option_copied result) ≡ option_map statement_attributes (statement_tree statement.now) }
{
    match statement {
        Statement::Void => None,
        Statement::Compound(x) => Some(&x.attributes),
        Statement::Assignment(x) => Some(&x.attributes),
        Statement::Increment(x) => Some(&x.attributes),
        Statement::Decrement(x) => Some(&x.attributes),
        Statement::If(x) => Some(&x.get().attributes),
        Statement::Switch(x) => Some(&x.get().attributes),
        Statement::Loop(x) => Some(&x.get().attributes),
        Statement::For(x) => Some(&x.get().attributes),
        Statement::While(x) => Some(&x.get().attributes),
        Statement::Break(x) => Some(&x.attributes),
        Statement::Continue(x) => Some(&x.attributes),
        Statement::Return(x) => Some(&x.attributes),
        Statement::Discard(x) => Some(&x.attributes),
        Statement::FunctionCall(x) => Some(&x.get().attributes),
        Statement::ConstAssert(x) => Some(&x.attributes),
        Statement::Declaration(x) => Some(&x.get().attributes),
    }
}

/// What features leave of a statement's attributes; and whether it stays. A `;` alone does.
#[tactic(auto, using(wgsl_statements::proofs::Trees::tree_of_void, wgsl_statements::proofs::Trees::tree_of_compound, wgsl_statements::proofs::Trees::tree_of_assignment, wgsl_statements::proofs::Trees::tree_of_increment, wgsl_statements::proofs::Trees::tree_of_decrement, wgsl_statements::proofs::Trees::tree_of_if, wgsl_statements::proofs::Trees::tree_of_switch, wgsl_statements::proofs::Trees::tree_of_loop, wgsl_statements::proofs::Trees::tree_of_for, wgsl_statements::proofs::Trees::tree_of_while, wgsl_statements::proofs::Trees::tree_of_break, wgsl_statements::proofs::Trees::tree_of_continue, wgsl_statements::proofs::Trees::tree_of_return, wgsl_statements::proofs::Trees::tree_of_discard, wgsl_statements::proofs::Trees::tree_of_call, wgsl_statements::proofs::Trees::tree_of_assertion, wgsl_statements::proofs::Trees::tree_of_value))]
fn settle_own(statement: &mut Statement, chain: &mut Chain, features: &Features) -> bool
    ensures { Settles features.now of_statements chain.old (statement_tree statement.old) result chain.new (statement_tree statement.new) }
{
    match statement {
        Statement::Void => true,
        Statement::Compound(x) => own::own_compound(x, chain, features),
        Statement::If(x) => own::own_if(x.get_mut(), chain, features),
        Statement::Switch(x) => own::own_switch(x.get_mut(), chain, features),
        Statement::Loop(x) => own::own_loop(x.get_mut(), chain, features),
        Statement::For(x) => own::own_for(x.get_mut(), chain, features),
        Statement::While(x) => own::own_while(x.get_mut(), chain, features),
        Statement::Assignment(x) => own::own_assignment(x, chain, features),
        Statement::Increment(x) => own::own_increment(x, chain, features),
        Statement::Decrement(x) => own::own_decrement(x, chain, features),
        Statement::Break(x) => own::own_break(x, chain, features),
        Statement::Continue(x) => own::own_continue(x, chain, features),
        Statement::Return(x) => own::own_return(x, chain, features),
        Statement::Discard(x) => own::own_discard(x, chain, features),
        Statement::FunctionCall(x) => own::own_function_call(x.get_mut(), chain, features),
        Statement::ConstAssert(x) => own::own_const_assert(x, chain, features),
        Statement::Declaration(x) => own::own_declaration(x.get_mut(), chain, features),
    }
}

impl Item for StatementNode {
    ghost use Rattle.wgsl_statements.specs.Tree.{Stm};
    ghost use Rattle.wgsl_statements.specs.View.{statement_tree};
    ghost use Rattle.wesl_conditions.specs.Trees.{of_statements};
    ghost use Rattle.wesl_conditions.specs.Faults.{statement_fault};

    ghost Tree = { Stm };

    ghost has = { of_statements };

    ghost tree = { λ n. statement_tree n.node };

    ghost inside = { statement_fault };

    fn attributes(&self) -> Option<&Attributes> {
        attributes_of(self.node())
    }

    fn settle(&mut self, chain: &mut Chain, features: &Features) -> bool {
        settle_own(self.node_mut(), chain, features)
    }
}
