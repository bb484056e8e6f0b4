//! What is left to do of statements.

use wgsl_base::Stack;
use wgsl_expressions::{BinaryOperator, ExpressionNode};
use wgsl_simple_statements::Declaration;
use wgsl_statements::{
    CompoundStatement, ForStatement, IfStatement, LoopStatement, StatementNode, SwitchStatement,
    WhileStatement,
};

/// A list of what is left to do of statements, the next uppermost.
pub type Works<'s> = Stack<StatementFrame<'s>>;

/// One thing that is left to do of statements. Where another flow than `Next` comes, what is left of a list is passed over.
#[derive(Clone, Copy, Drop)]
pub enum StatementFrame<'s> {
    /// The statements of a list from this one on.
    Statements(&'s CompoundStatement, usize),
    /// A statement that stands by itself, as in the head of a `for`.
    Statement(&'s StatementNode),
    /// The value of an expression comes next.
    Value(&'s ExpressionNode),
    /// The last level of names ends.
    Leave,
    Simple(SimpleFrame<'s>),
    Branch(BranchFrame<'s>),
    Loop(LoopFrame<'s>),
    /// The body of a function is done.
    End,
}

/// Of statements without others in them.
#[derive(Clone, Copy, Drop)]
pub enum SimpleFrame<'s> {
    /// The uppermost operand is let go.
    Discard,
    /// The uppermost operand has to be a place.
    Place,
    /// What the uppermost operand, a place, holds is an operand above it.
    Held,
    /// The uppermost operand is written at the place below it.
    Assign,
    /// What an operator makes of the two uppermost operands is written at the place below them.
    Compound(BinaryOperator),
    Increment,
    Decrement,
    /// The uppermost operand is returned.
    Return,
    /// The uppermost operand has to be true.
    Assert,
    /// The uppermost type is a local declaration's.
    Typed(&'s Declaration),
    /// The uppermost operand is a local declaration's value.
    Declared(&'s Declaration),
}

/// Of `if` and `switch`.
#[derive(Clone, Copy, Drop)]
pub enum BranchFrame<'s> {
    /// The uppermost operand is the condition of this number, counted from the first `if`.
    Condition(&'s IfStatement, usize),
    /// A selector of a clause comes next. The uppermost operand is the value.
    Selector(&'s SwitchStatement, usize, usize),
    /// The uppermost operand is a selector of a clause. Below it stands the value.
    Selected(&'s SwitchStatement, usize, usize),
    /// A clause of a `switch` is done.
    EndSwitch,
}

/// Of loops.
#[derive(Clone, Copy, Drop)]
pub enum LoopFrame<'s> {
    Loop(&'s LoopStatement),
    /// The body is done, but not its level.
    EndBody(&'s LoopStatement),
    /// The statements of `continuing` are done, but not their level.
    EndContinuing(&'s LoopStatement),
    /// The uppermost operand is the condition of `break if`.
    BreakIf(&'s LoopStatement),
    For(&'s ForStatement),
    ForCondition(&'s ForStatement),
    EndFor(&'s ForStatement),
    While(&'s WhileStatement),
    WhileCondition(&'s WhileStatement),
    EndWhile(&'s WhileStatement),
}
