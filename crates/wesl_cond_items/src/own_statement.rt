//! What features leave of the attributes of each kind of statement.

ghost use Rattle.std.specs.Prelude.{Some};
ghost use Rattle.wgsl_simple_statements.specs.View.{assignment_tree, increment_tree, decrement_tree, break_tree, continue_tree, return_tree, discard_tree, call_tree, assertion_tree, value_tree};
ghost use Rattle.wgsl_statements.specs.Tree.{simple, compound_statement};
ghost use Rattle.wgsl_statements.specs.View.{statement_tree, block_tree, if_layer, switch_layer, loop_layer, for_layer, while_layer};
ghost use Rattle.wesl_conditions.specs.Walks.{Settles};
ghost use Rattle.wesl_conditions.specs.Trees.{of_statements};

use wesl_cond_attributes::settle_attributes;
use wesl_conditions::{Chain, Features};
use wgsl_simple_statements::{
    AssignmentStatement, BreakStatement, ConstAssert, ContinueStatement, Declaration,
    DecrementStatement, DiscardStatement, FunctionCallStatement, IncrementStatement,
    ReturnStatement,
};
use wgsl_statements::{
    CompoundStatement, ForStatement, IfStatement, LoopStatement, SwitchStatement, WhileStatement,
};

pub(crate) fn own_compound(
    x: &mut CompoundStatement,
    chain: &mut Chain,
    features: &Features,
) -> bool
    ensures { Settles features.now of_statements chain.old (Some (compound_statement (block_tree x.old))) result chain.new (Some (compound_statement (block_tree x.new))) }
{
    settle_attributes(&mut x.attributes, chain, features)
}

pub(crate) fn own_if(x: &mut IfStatement, chain: &mut Chain, features: &Features) -> bool
    ensures { Settles features.now of_statements chain.old (Some (if_layer statement_tree x.old)) result chain.new (Some (if_layer statement_tree x.new)) }
{
    settle_attributes(&mut x.attributes, chain, features)
}

pub(crate) fn own_switch(x: &mut SwitchStatement, chain: &mut Chain, features: &Features) -> bool
    ensures { Settles features.now of_statements chain.old (Some (switch_layer statement_tree x.old)) result chain.new (Some (switch_layer statement_tree x.new)) }
{
    settle_attributes(&mut x.attributes, chain, features)
}

pub(crate) fn own_loop(x: &mut LoopStatement, chain: &mut Chain, features: &Features) -> bool
    ensures { Settles features.now of_statements chain.old (Some (loop_layer statement_tree x.old)) result chain.new (Some (loop_layer statement_tree x.new)) }
{
    settle_attributes(&mut x.attributes, chain, features)
}

pub(crate) fn own_for(x: &mut ForStatement, chain: &mut Chain, features: &Features) -> bool
    ensures { Settles features.now of_statements chain.old (Some (for_layer statement_tree x.old)) result chain.new (Some (for_layer statement_tree x.new)) }
{
    settle_attributes(&mut x.attributes, chain, features)
}

pub(crate) fn own_while(x: &mut WhileStatement, chain: &mut Chain, features: &Features) -> bool
    ensures { Settles features.now of_statements chain.old (Some (while_layer statement_tree x.old)) result chain.new (Some (while_layer statement_tree x.new)) }
{
    settle_attributes(&mut x.attributes, chain, features)
}

pub(crate) fn own_assignment(
    x: &mut AssignmentStatement,
    chain: &mut Chain,
    features: &Features,
) -> bool
    ensures { Settles features.now of_statements chain.old (Some (simple (assignment_tree x.old))) result chain.new (Some (simple (assignment_tree x.new))) }
{
    settle_attributes(&mut x.attributes, chain, features)
}

pub(crate) fn own_increment(
    x: &mut IncrementStatement,
    chain: &mut Chain,
    features: &Features,
) -> bool
    ensures { Settles features.now of_statements chain.old (Some (simple (increment_tree x.old))) result chain.new (Some (simple (increment_tree x.new))) }
{
    settle_attributes(&mut x.attributes, chain, features)
}

pub(crate) fn own_decrement(
    x: &mut DecrementStatement,
    chain: &mut Chain,
    features: &Features,
) -> bool
    ensures { Settles features.now of_statements chain.old (Some (simple (decrement_tree x.old))) result chain.new (Some (simple (decrement_tree x.new))) }
{
    settle_attributes(&mut x.attributes, chain, features)
}

pub(crate) fn own_break(x: &mut BreakStatement, chain: &mut Chain, features: &Features) -> bool
    ensures { Settles features.now of_statements chain.old (Some (simple (break_tree x.old))) result chain.new (Some (simple (break_tree x.new))) }
{
    settle_attributes(&mut x.attributes, chain, features)
}

pub(crate) fn own_continue(
    x: &mut ContinueStatement,
    chain: &mut Chain,
    features: &Features,
) -> bool
    ensures { Settles features.now of_statements chain.old (Some (simple (continue_tree x.old))) result chain.new (Some (simple (continue_tree x.new))) }
{
    settle_attributes(&mut x.attributes, chain, features)
}

pub(crate) fn own_return(x: &mut ReturnStatement, chain: &mut Chain, features: &Features) -> bool
    ensures { Settles features.now of_statements chain.old (Some (simple (return_tree x.old))) result chain.new (Some (simple (return_tree x.new))) }
{
    settle_attributes(&mut x.attributes, chain, features)
}

pub(crate) fn own_discard(x: &mut DiscardStatement, chain: &mut Chain, features: &Features) -> bool
    ensures { Settles features.now of_statements chain.old (Some (simple (discard_tree x.old))) result chain.new (Some (simple (discard_tree x.new))) }
{
    settle_attributes(&mut x.attributes, chain, features)
}

pub(crate) fn own_function_call(
    x: &mut FunctionCallStatement,
    chain: &mut Chain,
    features: &Features,
) -> bool
    ensures { Settles features.now of_statements chain.old (Some (simple (call_tree x.old))) result chain.new (Some (simple (call_tree x.new))) }
{
    settle_attributes(&mut x.attributes, chain, features)
}

pub(crate) fn own_const_assert(x: &mut ConstAssert, chain: &mut Chain, features: &Features) -> bool
    ensures { Settles features.now of_statements chain.old (Some (simple (assertion_tree x.old))) result chain.new (Some (simple (assertion_tree x.new))) }
{
    settle_attributes(&mut x.attributes, chain, features)
}

pub(crate) fn own_declaration(x: &mut Declaration, chain: &mut Chain, features: &Features) -> bool
    ensures { Settles features.now of_statements chain.old (Some (simple (value_tree x.old))) result chain.new (Some (simple (value_tree x.new))) }
{
    settle_attributes(&mut x.attributes, chain, features)
}
