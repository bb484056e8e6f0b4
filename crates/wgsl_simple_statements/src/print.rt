//! Statements that hold no other statement as text.

ghost use Rattle.std.specs.Prelude.{◌≡◌, ◌++◌, Some, map, codes};
ghost use Rattle.std.specs.Option.{option_map};
ghost use Rattle.std.specs.Fmt.{WritesOnOk};
ghost use Rattle.wgsl_expressions.specs.View.{node_tree, type_tree};
ghost use Rattle.wgsl_simple_statements.specs.View.{assignment_tree, increment_tree, decrement_tree, break_tree, continue_tree, return_tree, discard_tree, call_tree, break_if_tree, selector_tree};
ghost use Rattle.wgsl_simple_statements.specs.Print.{value_text, simple_text, simple_line, break_if_text, selector_text, case_head};
ghost use Rattle.wgsl_expressions.specs.Print.{commas};

use crate::statement::{
    AssignmentStatement, BreakIfStatement, BreakStatement, CaseSelector, ContinueStatement,
    DecrementStatement, DiscardStatement, FunctionCallStatement, IncrementStatement,
    ReturnStatement,
};
use std::fmt;
use std::fmt::Display;
use wgsl_expressions::{ExpressionNode, write_attributes};

fn write_value<W: fmt::Write>(
    value: &Option<ExpressionNode>,
    f: &mut fmt::Formatter<W>,
) -> fmt::Result
    ensures { WritesOnOk W.write_str_gives f.old result (value_text (option_map node_tree value.now)) f.new }
{
    match value {
        None => Ok(()),
        Some(value) => {
            f.write_str(" ")?;
            value.node().fmt(f)
        }
    }
}

impl AssignmentStatement {
    /// Writes it up to its `;`.
    pub fn write_bare<W: fmt::Write>(&self, f: &mut fmt::Formatter<W>) -> fmt::Result
        ensures { WritesOnOk W.write_str_gives f.old result (simple_text (assignment_tree self.now)) f.new }
    {
        write_attributes(self.attributes.as_slice(), f)?;
        self.lhs.node().fmt(f)?;
        f.write_str(" ")?;
        self.operator.fmt(f)?;
        f.write_str(" ")?;
        self.rhs.node().fmt(f)
    }
}

impl fmt::Display for AssignmentStatement {
    ghost output = { λ x. Some (simple_line (assignment_tree x)) };

    fn fmt<W: fmt::Write>(&self, f: &mut fmt::Formatter<W>) -> fmt::Result {
        self.write_bare(f)?;
        f.write_str(";\n")
    }
}

impl IncrementStatement {
    /// Writes it up to its `;`.
    pub fn write_bare<W: fmt::Write>(&self, f: &mut fmt::Formatter<W>) -> fmt::Result
        ensures { WritesOnOk W.write_str_gives f.old result (simple_text (increment_tree self.now)) f.new }
    {
        write_attributes(self.attributes.as_slice(), f)?;
        self.expression.node().fmt(f)?;
        f.write_str("++")
    }
}

impl fmt::Display for IncrementStatement {
    ghost output = { λ x. Some (simple_line (increment_tree x)) };

    fn fmt<W: fmt::Write>(&self, f: &mut fmt::Formatter<W>) -> fmt::Result {
        self.write_bare(f)?;
        f.write_str(";\n")
    }
}

impl DecrementStatement {
    /// Writes it up to its `;`.
    pub fn write_bare<W: fmt::Write>(&self, f: &mut fmt::Formatter<W>) -> fmt::Result
        ensures { WritesOnOk W.write_str_gives f.old result (simple_text (decrement_tree self.now)) f.new }
    {
        write_attributes(self.attributes.as_slice(), f)?;
        self.expression.node().fmt(f)?;
        f.write_str("--")
    }
}

impl fmt::Display for DecrementStatement {
    ghost output = { λ x. Some (simple_line (decrement_tree x)) };

    fn fmt<W: fmt::Write>(&self, f: &mut fmt::Formatter<W>) -> fmt::Result {
        self.write_bare(f)?;
        f.write_str(";\n")
    }
}

impl BreakStatement {
    /// Writes it up to its `;`.
    pub fn write_bare<W: fmt::Write>(&self, f: &mut fmt::Formatter<W>) -> fmt::Result
        ensures { WritesOnOk W.write_str_gives f.old result (simple_text (break_tree self.now)) f.new }
    {
        write_attributes(self.attributes.as_slice(), f)?;
        f.write_str("break")
    }
}

impl fmt::Display for BreakStatement {
    ghost output = { λ x. Some (simple_line (break_tree x)) };

    fn fmt<W: fmt::Write>(&self, f: &mut fmt::Formatter<W>) -> fmt::Result {
        self.write_bare(f)?;
        f.write_str(";\n")
    }
}

impl ContinueStatement {
    /// Writes it up to its `;`.
    pub fn write_bare<W: fmt::Write>(&self, f: &mut fmt::Formatter<W>) -> fmt::Result
        ensures { WritesOnOk W.write_str_gives f.old result (simple_text (continue_tree self.now)) f.new }
    {
        write_attributes(self.attributes.as_slice(), f)?;
        f.write_str("continue")
    }
}

impl fmt::Display for ContinueStatement {
    ghost output = { λ x. Some (simple_line (continue_tree x)) };

    fn fmt<W: fmt::Write>(&self, f: &mut fmt::Formatter<W>) -> fmt::Result {
        self.write_bare(f)?;
        f.write_str(";\n")
    }
}

impl ReturnStatement {
    /// Writes it up to its `;`.
    pub fn write_bare<W: fmt::Write>(&self, f: &mut fmt::Formatter<W>) -> fmt::Result
        ensures { WritesOnOk W.write_str_gives f.old result (simple_text (return_tree self.now)) f.new }
    {
        write_attributes(self.attributes.as_slice(), f)?;
        f.write_str("return")?;
        write_value(&self.expression, f)
    }
}

impl fmt::Display for ReturnStatement {
    ghost output = { λ x. Some (simple_line (return_tree x)) };

    fn fmt<W: fmt::Write>(&self, f: &mut fmt::Formatter<W>) -> fmt::Result {
        self.write_bare(f)?;
        f.write_str(";\n")
    }
}

impl DiscardStatement {
    /// Writes it up to its `;`.
    pub fn write_bare<W: fmt::Write>(&self, f: &mut fmt::Formatter<W>) -> fmt::Result
        ensures { WritesOnOk W.write_str_gives f.old result (simple_text (discard_tree self.now)) f.new }
    {
        write_attributes(self.attributes.as_slice(), f)?;
        f.write_str("discard")
    }
}

impl fmt::Display for DiscardStatement {
    ghost output = { λ x. Some (simple_line (discard_tree x)) };

    fn fmt<W: fmt::Write>(&self, f: &mut fmt::Formatter<W>) -> fmt::Result {
        self.write_bare(f)?;
        f.write_str(";\n")
    }
}

impl FunctionCallStatement {
    /// Writes it up to its `;`.
    pub fn write_bare<W: fmt::Write>(&self, f: &mut fmt::Formatter<W>) -> fmt::Result
        ensures { WritesOnOk W.write_str_gives f.old result (simple_text (call_tree self.now)) f.new }
    {
        write_attributes(self.attributes.as_slice(), f)?;
        self.call.fmt(f)
    }
}

impl fmt::Display for FunctionCallStatement {
    ghost output = { λ x. Some (simple_line (call_tree x)) };

    fn fmt<W: fmt::Write>(&self, f: &mut fmt::Formatter<W>) -> fmt::Result {
        self.write_bare(f)?;
        f.write_str(";\n")
    }
}

impl BreakIfStatement {
    /// Writes it up to its `;`.
    pub fn write_bare<W: fmt::Write>(&self, f: &mut fmt::Formatter<W>) -> fmt::Result
        ensures { WritesOnOk W.write_str_gives f.old result (break_if_text (break_if_tree self.now)) f.new }
    {
        write_attributes(self.attributes.as_slice(), f)?;
        f.write_str("break if ")?;
        self.expression.node().fmt(f)
    }
}

impl fmt::Display for BreakIfStatement {
    ghost output = { λ x. Some (break_if_text (break_if_tree x) ++ codes ";\n") };

    fn fmt<W: fmt::Write>(&self, f: &mut fmt::Formatter<W>) -> fmt::Result {
        self.write_bare(f)?;
        f.write_str(";\n")
    }
}

impl fmt::Display for CaseSelector {
    ghost output = { λ x. Some (selector_text (selector_tree x)) };

    fn fmt<W: fmt::Write>(&self, f: &mut fmt::Formatter<W>) -> fmt::Result {
        match self {
            CaseSelector::Default => f.write_str("default"),
            CaseSelector::Expression(x) => x.node().fmt(f),
        }
    }
}

/// Writes what a clause begins with: `default` alone, or `case` and its selectors.
#[tactic(auto, using(crate::proofs::Heads::several_cases))]
pub fn write_case_head<W: fmt::Write>(
    selectors: &[CaseSelector],
    f: &mut fmt::Formatter<W>,
) -> fmt::Result
    ensures { WritesOnOk W.write_str_gives f.old result (case_head (map selector_tree selectors.now)) f.new }
{
    match selectors {
        [CaseSelector::Default] => f.write_str("default"),
        several => write_cases(several, f),
    }
}

fn write_cases<W: fmt::Write>(selectors: &[CaseSelector], f: &mut fmt::Formatter<W>) -> fmt::Result
    ensures { WritesOnOk W.write_str_gives f.old result (codes "case " ++ commas selector_text (map selector_tree selectors.now)) f.new }
{
    f.write_str("case ")?;
    write_selectors(selectors, f)
}

fn write_selectors<W: fmt::Write>(
    selectors: &[CaseSelector],
    f: &mut fmt::Formatter<W>,
) -> fmt::Result
    ensures { WritesOnOk W.write_str_gives f.old result (commas selector_text (map selector_tree selectors.now)) f.new }
{
    write_each_selector(selectors, f)
}

fn write_each_selector<W: fmt::Write>(
    selectors: &[CaseSelector],
    f: &mut fmt::Formatter<W>,
) -> fmt::Result
    ensures { WritesOnOk W.write_str_gives f.old result (commas (λ s. selector_text (selector_tree s)) selectors.now) f.new }
{
    if let [first, rest @ ..] = selectors {
        first.fmt(f)?;
        for selector in rest {
            f.write_str(", ")?;
            selector.fmt(f)?;
        }
    }
    Ok(())
}
