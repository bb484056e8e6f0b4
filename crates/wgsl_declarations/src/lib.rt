//! The syntax trees of the declarations of WGSL and of whole modules, their copies and their text.
#![tactic(auto)]

mod copy;
mod declaration;
mod imports;
mod list;
mod making;
mod print;
mod print_unit;
mod unit;

pub use crate::imports::{
    AttributeNode, Attributes, GlobalDirective, Import, ImportContent, ImportStatement,
};
pub use declaration::{
    FormalParameter, Function, GlobalDeclaration, GlobalDeclarationNode, Struct, StructMember,
    StructMemberNode, TypeAlias,
};
pub use imports::{DiagnosticDirective, EnableDirective, ImportItem, ImportOf, RequiresDirective};
pub use list::{let_go, retain_declarations};
pub use unit::TranslationUnit;
pub use wgsl_statements::{
    AssignmentStatement, BreakIfStatement, BreakStatement, CaseSelector, CompoundStatement,
    ConstAssert, ContinueStatement, ContinuingStatement, Declaration, DeclarationKind,
    DecrementStatement, DiscardStatement, ElseIfClause, ForStatement, FunctionCallStatement,
    IfStatement, IncrementStatement, LoopStatement, ReturnStatement, Statement, StatementNode,
    SwitchClause, SwitchStatement, WhileStatement,
};
