//! The syntax trees of all statements of WGSL, their copies and their text.
#![tactic(auto)]

mod copy;
mod display;
mod list;
mod making;
mod print;
mod statement;

pub use list::{clear_statement, retain_statements};
pub use print::{write_block, write_statement};
pub use statement::{
    CompoundStatement, CompoundStatementOf, ConstAssertStatement, ContinuingStatement,
    ContinuingStatementOf, DeclarationStatement, ElseClause, ElseClauseOf, ElseIfClause,
    ElseIfClauseOf, ForStatement, ForStatementOf, IfClause, IfClauseOf, IfStatement, IfStatementOf,
    LoopStatement, LoopStatementOf, Statement, StatementNode, SwitchClause, SwitchClauseOf,
    SwitchStatement, SwitchStatementOf, WhileStatement, WhileStatementOf,
};
pub use wgsl_simple_statements::{
    AssignmentStatement, BreakIfStatement, BreakStatement, CaseSelector, ConstAssert,
    ContinueStatement, Declaration, DeclarationKind, DecrementStatement, DiscardStatement,
    FunctionCallStatement, IncrementStatement, ReturnStatement,
};
