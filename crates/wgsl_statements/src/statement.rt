//! Statements (WGSL, "Statements"). A struct that holds statements is generic in the enum `Statement`, so that the cycle of
//! types has one member; the plain names are aliases.

use wgsl_simple_statements::{
    AssignmentStatement, Attributes, Boxed, BreakIfStatement, BreakStatement, CaseSelector,
    ConstAssert, ContinueStatement, Declaration, DecrementStatement, DiscardStatement,
    ExpressionNode, FunctionCallStatement, IncrementStatement, Items, ReturnStatement, Spanned,
};

/// A statement and its place.
pub type StatementNode = Spanned<Statement>;

pub type CompoundStatement = CompoundStatementOf<Statement>;

pub type IfStatement = IfStatementOf<Statement>;

pub type IfClause = IfClauseOf<Statement>;

pub type ElseIfClause = ElseIfClauseOf<Statement>;

pub type ElseClause = ElseClauseOf<Statement>;

pub type SwitchStatement = SwitchStatementOf<Statement>;

pub type SwitchClause = SwitchClauseOf<Statement>;

pub type LoopStatement = LoopStatementOf<Statement>;

pub type ContinuingStatement = ContinuingStatementOf<Statement>;

pub type ForStatement = ForStatementOf<Statement>;

pub type WhileStatement = WhileStatementOf<Statement>;

pub type ConstAssertStatement = ConstAssert;

pub type DeclarationStatement = Declaration;

/// A statement. `Void` is a `;` alone.
#[derive(Debug, Drop, PartialEq)]
pub enum Statement {
    Void,
    Compound(CompoundStatementOf<Statement>),
    Assignment(AssignmentStatement),
    Increment(IncrementStatement),
    Decrement(DecrementStatement),
    If(Boxed<IfStatementOf<Statement>>),
    Switch(Boxed<SwitchStatementOf<Statement>>),
    Loop(Boxed<LoopStatementOf<Statement>>),
    For(Boxed<ForStatementOf<Statement>>),
    While(Boxed<WhileStatementOf<Statement>>),
    Break(BreakStatement),
    Continue(ContinueStatement),
    Return(ReturnStatement),
    Discard(DiscardStatement),
    FunctionCall(Boxed<FunctionCallStatement>),
    ConstAssert(ConstAssert),
    Declaration(Boxed<Declaration>),
}

/// Statements in braces. The attributes stand before the first brace.
#[derive(Debug, Drop, PartialEq)]
pub struct CompoundStatementOf<S> {
    pub attributes: Attributes,
    pub statements: Items<Spanned<S>>,
}

/// `if`, with what stands behind it.
#[derive(Debug, Drop, PartialEq)]
pub struct IfStatementOf<S> {
    pub attributes: Attributes,
    pub if_clause: IfClauseOf<S>,
    pub else_if_clauses: Items<ElseIfClauseOf<S>>,
    pub else_clause: Option<ElseClauseOf<S>>,
}

/// `if`, a condition and what is done where it is true.
#[derive(Debug, Drop, PartialEq)]
pub struct IfClauseOf<S> {
    pub expression: ExpressionNode,
    pub body: CompoundStatementOf<S>,
}

/// `else if`, a condition and what is done where it is the first that is true.
#[derive(Debug, Drop, PartialEq)]
pub struct ElseIfClauseOf<S> {
    pub expression: ExpressionNode,
    pub body: CompoundStatementOf<S>,
}

/// `else` and what is done where no condition is true.
#[derive(Debug, Drop, PartialEq)]
pub struct ElseClauseOf<S> {
    pub body: CompoundStatementOf<S>,
}

/// `switch`. The second attributes stand before the first brace.
#[derive(Debug, Drop, PartialEq)]
pub struct SwitchStatementOf<S> {
    pub attributes: Attributes,
    pub expression: ExpressionNode,
    pub body_attributes: Attributes,
    pub clauses: Items<SwitchClauseOf<S>>,
}

/// A clause of `switch`: selectors, and what is done where one of them is the value. `default` is such a selector.
#[derive(Debug, Drop, PartialEq)]
pub struct SwitchClauseOf<S> {
    pub case_selectors: Items<CaseSelector>,
    pub body: CompoundStatementOf<S>,
}

/// `loop`. What is done behind each round stands at the end of the body.
#[derive(Debug, Drop, PartialEq)]
pub struct LoopStatementOf<S> {
    pub attributes: Attributes,
    pub body: CompoundStatementOf<S>,
    pub continuing: Option<ContinuingStatementOf<S>>,
}

/// `continuing`. A condition under which the loop ends stands at the end of the body.
#[derive(Debug, Drop, PartialEq)]
pub struct ContinuingStatementOf<S> {
    pub attributes: Attributes,
    pub body: CompoundStatementOf<S>,
    pub break_if: Option<BreakIfStatement>,
}

/// `for`. Each part of its header may be absent.
#[derive(Debug, Drop, PartialEq)]
pub struct ForStatementOf<S> {
    pub attributes: Attributes,
    pub initializer: Option<Spanned<S>>,
    pub condition: Option<ExpressionNode>,
    pub update: Option<Spanned<S>>,
    pub body: CompoundStatementOf<S>,
}

/// `while`.
#[derive(Debug, Drop, PartialEq)]
pub struct WhileStatementOf<S> {
    pub attributes: Attributes,
    pub condition: ExpressionNode,
    pub body: CompoundStatementOf<S>,
}
