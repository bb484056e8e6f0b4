//! Syntax trees without their empty items: a `;` alone, among declarations or in a list of statements.
#![tactic(auto)]

pub mod equality;
pub mod meaning;
mod statements;
mod unit;

pub use meaning::{
    CompoundStatement, ContinuingStatement, ElseClause, ElseIfClause, ForStatement, IfClause,
    IfStatement, LoopStatement, Statement, StatementNode, SwitchClause, SwitchStatement,
    WhileStatement, clear_statement, retain_statements,
};
pub use statements::{remove_voids_in_block, remove_voids_in_statement};
pub use unit::{remove_voids, remove_voids_in_declaration};
