//! Laws of the equality of statements. Each function states some, and does nothing.

ghost use Rattle.wgsl_simple_statements.specs.View.{assignment_tree, increment_tree, decrement_tree, break_tree, continue_tree, return_tree, discard_tree, call_tree, assertion_tree, value_tree, break_if_tree, selector_tree};
ghost use Rattle.wgsl_statements.specs.View.{statement_tree, block_tree};
ghost use Rattle.wgsl_empty_items.specs.Counts.{in_block, voids};
ghost use Rattle.wgsl_empty_items.specs.EqualityLaws.{TellsTrees, OneTreeWhereTrue, TellsTreesOfThoseWithout};

use wgsl_statements::{
    AssignmentStatement, BreakIfStatement, BreakStatement, CaseSelector, CompoundStatement,
    ConstAssert, ContinueStatement, Declaration, DecrementStatement, DiscardStatement,
    FunctionCallStatement, IncrementStatement, ReturnStatement, Statement,
};

/// `==` of statements that hold no other statement tells whether they stand for the same tree.
pub fn simple_statements_are_equal_where_their_trees_are()
    ensures assignment { TellsTrees ⟦<AssignmentStatement as PartialEq>⟧.eq assignment_tree }
    ensures increment { TellsTrees ⟦<IncrementStatement as PartialEq>⟧.eq increment_tree }
    ensures decrement { TellsTrees ⟦<DecrementStatement as PartialEq>⟧.eq decrement_tree }
    ensures breaks { TellsTrees ⟦<BreakStatement as PartialEq>⟧.eq break_tree }
    ensures continues { TellsTrees ⟦<ContinueStatement as PartialEq>⟧.eq continue_tree }
    ensures returned { TellsTrees ⟦<ReturnStatement as PartialEq>⟧.eq return_tree }
    ensures discard { TellsTrees ⟦<DiscardStatement as PartialEq>⟧.eq discard_tree }
    ensures call { TellsTrees ⟦<FunctionCallStatement as PartialEq>⟧.eq call_tree }
    ensures assertion { TellsTrees ⟦<ConstAssert as PartialEq>⟧.eq assertion_tree }
    ensures value { TellsTrees ⟦<Declaration as PartialEq>⟧.eq value_tree }
    ensures break_if { TellsTrees ⟦<BreakIfStatement as PartialEq>⟧.eq break_if_tree }
    ensures selector { TellsTrees ⟦<CaseSelector as PartialEq>⟧.eq selector_tree }
{}

/// Statements, and blocks, that are equal stand for the same tree.
pub fn equal_statements_have_one_tree()
    ensures statement { OneTreeWhereTrue ⟦<Statement as PartialEq>⟧.eq statement_tree }
    ensures block { OneTreeWhereTrue ⟦<CompoundStatement as PartialEq>⟧.eq block_tree }
{}

/// An empty item, a `;` alone, stands for nothing, and `==` sees it. Of statements without any, it tells whether they stand for the same
/// tree.
pub fn statements_without_empty_items_are_equal_where_their_trees_are()
    ensures statement { TellsTreesOfThoseWithout voids ⟦<Statement as PartialEq>⟧.eq statement_tree }
    ensures block { TellsTreesOfThoseWithout (in_block voids) ⟦<CompoundStatement as PartialEq>⟧.eq block_tree }
{}
