//! What is put into statements that hold no other statement.

ghost use Rattle.std.specs.Prelude.{◌≡◌, map};
ghost use Rattle.std.specs.Option.{option_map};
ghost use Rattle.wgsl_expressions.specs.View.{node_tree};
ghost use Rattle.wgsl_expressions.specs.AttributesView.{attributes_tree};
ghost use Rattle.wgsl_simple_statements.specs.View.{assignment_tree, increment_tree, decrement_tree, break_tree, continue_tree, return_tree, discard_tree, call_tree, assertion_tree, value_tree, break_if_tree, selector_tree};
ghost use Rattle.wesl_marks_mut.specs.Walks.{each, if_there};
ghost use Rattle.wesl_marks_mut.specs.Written.{written};
ghost use Rattle.wesl_marks_mut.specs.WrittenAttributes.{attributes_written};
ghost use Rattle.wesl_marks_mut.specs.WrittenStatements.{simple_written, break_if_written, selector_written};

use crate::attributes::write_attributes;
use crate::expressions::{
    write_expression, write_expressions, write_optional, write_optional_type, write_type,
};
use crate::script::Script;
use wgsl_base::Items;
use wgsl_expressions::{AttributeNode, ExpressionNode};
use wgsl_simple_statements::{
    AssignmentStatement, BreakIfStatement, BreakStatement, CaseSelector, ConstAssert,
    ContinueStatement, Declaration, DecrementStatement, DiscardStatement, FunctionCallStatement,
    IncrementStatement, ReturnStatement,
};

/// Writes attributes, and the expression behind them.
pub(crate) fn write_marked(
    attributes: &mut Items<AttributeNode>,
    expression: &mut ExpressionNode,
    script: &mut Script,
)
    ensures attributes { attributes_tree attributes.new ≡ (attributes_written (attributes_tree attributes.old) script.old.rest.items).0 }
    ensures tree { node_tree expression.new ≡ (written (node_tree expression.old) (attributes_written (attributes_tree attributes.old) script.old.rest.items).1).0 }
    ensures rest { script.new.rest.items ≡ (written (node_tree expression.old) (attributes_written (attributes_tree attributes.old) script.old.rest.items).1).1 }
{
    write_attributes(attributes, script);
    write_expression(expression.node_mut(), script);
}

/// Writes an assignment.
pub(crate) fn write_assignment(x: &mut AssignmentStatement, script: &mut Script)
    ensures tree { assignment_tree x.new ≡ (simple_written (assignment_tree x.old) script.old.rest.items).0 }
    ensures rest { script.new.rest.items ≡ (simple_written (assignment_tree x.old) script.old.rest.items).1 }
{
    write_attributes(&mut x.attributes, script);
    write_expression(x.lhs.node_mut(), script);
    write_expression(x.rhs.node_mut(), script);
}

/// Writes `++`.
pub(crate) fn write_increment(x: &mut IncrementStatement, script: &mut Script)
    ensures tree { increment_tree x.new ≡ (simple_written (increment_tree x.old) script.old.rest.items).0 }
    ensures rest { script.new.rest.items ≡ (simple_written (increment_tree x.old) script.old.rest.items).1 }
{
    write_marked(&mut x.attributes, &mut x.expression, script);
}

/// Writes `--`.
pub(crate) fn write_decrement(x: &mut DecrementStatement, script: &mut Script)
    ensures tree { decrement_tree x.new ≡ (simple_written (decrement_tree x.old) script.old.rest.items).0 }
    ensures rest { script.new.rest.items ≡ (simple_written (decrement_tree x.old) script.old.rest.items).1 }
{
    write_marked(&mut x.attributes, &mut x.expression, script);
}

/// Writes the attributes of `break`.
pub(crate) fn write_break(x: &mut BreakStatement, script: &mut Script)
    ensures tree { break_tree x.new ≡ (simple_written (break_tree x.old) script.old.rest.items).0 }
    ensures rest { script.new.rest.items ≡ (simple_written (break_tree x.old) script.old.rest.items).1 }
{
    write_attributes(&mut x.attributes, script);
}

/// Writes the attributes of `continue`.
pub(crate) fn write_continue(x: &mut ContinueStatement, script: &mut Script)
    ensures tree { continue_tree x.new ≡ (simple_written (continue_tree x.old) script.old.rest.items).0 }
    ensures rest { script.new.rest.items ≡ (simple_written (continue_tree x.old) script.old.rest.items).1 }
{
    write_attributes(&mut x.attributes, script);
}

/// Writes `return`.
pub(crate) fn write_return(x: &mut ReturnStatement, script: &mut Script)
    ensures tree { return_tree x.new ≡ (simple_written (return_tree x.old) script.old.rest.items).0 }
    ensures rest { script.new.rest.items ≡ (simple_written (return_tree x.old) script.old.rest.items).1 }
{
    write_attributes(&mut x.attributes, script);
    write_optional(&mut x.expression, script);
}

/// Writes the attributes of `discard`.
pub(crate) fn write_discard(x: &mut DiscardStatement, script: &mut Script)
    ensures tree { discard_tree x.new ≡ (simple_written (discard_tree x.old) script.old.rest.items).0 }
    ensures rest { script.new.rest.items ≡ (simple_written (discard_tree x.old) script.old.rest.items).1 }
{
    write_attributes(&mut x.attributes, script);
}

/// Writes a call that is a statement.
pub(crate) fn write_call_statement(x: &mut FunctionCallStatement, script: &mut Script)
    ensures tree { call_tree x.new ≡ (simple_written (call_tree x.old) script.old.rest.items).0 }
    ensures rest { script.new.rest.items ≡ (simple_written (call_tree x.old) script.old.rest.items).1 }
{
    write_attributes(&mut x.attributes, script);
    write_type(&mut x.call.ty, script);
    write_expressions(&mut x.call.arguments, script);
}

/// Writes what has to be true.
pub(crate) fn write_assertion(x: &mut ConstAssert, script: &mut Script)
    ensures tree { assertion_tree x.new ≡ (simple_written (assertion_tree x.old) script.old.rest.items).0 }
    ensures rest { script.new.rest.items ≡ (simple_written (assertion_tree x.old) script.old.rest.items).1 }
{
    write_marked(&mut x.attributes, &mut x.expression, script);
}

/// Writes a declaration of a local. Its name comes last.
pub(crate) fn write_value(x: &mut Declaration, script: &mut Script)
    ensures tree { value_tree x.new ≡ (simple_written (value_tree x.old) script.old.rest.items).0 }
    ensures rest { script.new.rest.items ≡ (simple_written (value_tree x.old) script.old.rest.items).1 }
{
    write_attributes(&mut x.attributes, script);
    write_optional_type(&mut x.ty, script);
    write_optional(&mut x.initializer, script);
    script.write(&mut x.ident);
}

/// Writes `break if`, where it is there.
pub(crate) fn write_break_if(x: &mut Option<BreakIfStatement>, script: &mut Script)
    ensures tree { option_map break_if_tree x.new ≡ (if_there break_if_written (option_map break_if_tree x.old) script.old.rest.items).0 }
    ensures rest { script.new.rest.items ≡ (if_there break_if_written (option_map break_if_tree x.old) script.old.rest.items).1 }
{
    if let Some(x) = x {
        write_marked(&mut x.attributes, &mut x.expression, script);
    }
}

/// Writes a selector.
fn write_selector(selector: &mut CaseSelector, script: &mut Script)
    ensures tree { selector_tree selector.new ≡ (selector_written (selector_tree selector.old) script.old.rest.items).0 }
    ensures rest { script.new.rest.items ≡ (selector_written (selector_tree selector.old) script.old.rest.items).1 }
{
    if let CaseSelector::Expression(x) = selector {
        write_expression(x.node_mut(), script);
    }
}

/// Writes selectors, one by one.
pub(crate) fn write_selectors(selectors: &mut Items<CaseSelector>, script: &mut Script)
    ensures tree { map selector_tree selectors.new ≡ (each selector_written (map selector_tree selectors.old) script.old.rest.items).0 }
    ensures rest { script.new.rest.items ≡ (each selector_written (map selector_tree selectors.old) script.old.rest.items).1 }
{
    for i in 0..selectors.len() {
        write_selector(selectors.get_mut(i), script);
    }
}
