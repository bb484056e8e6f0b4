//! What syntax trees are without their empty items: a `;` alone, among declarations or in a list of statements. It stands in
//! `specs/`; beside laws this crate has no code.

pub mod laws;

pub use wgsl_declarations::{
    GlobalDeclaration, GlobalDeclarationNode, TranslationUnit, retain_declarations,
};
pub use wgsl_statements::{
    CompoundStatement, ContinuingStatement, ElseClause, ElseIfClause, ForStatement, IfClause,
    IfStatement, LoopStatement, Statement, StatementNode, SwitchClause, SwitchStatement,
    WhileStatement, clear_statement, retain_statements,
};
