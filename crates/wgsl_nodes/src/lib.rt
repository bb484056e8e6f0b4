//! What the nodes of the syntax trees of WGSL have in common: places, names and attributes.
#![tactic(auto)]

mod clause;
mod declaration;
mod directive;
mod expression;
mod import;
mod node;
mod simple_statement;
mod spanned;
mod statement;
mod value;

pub use node::{Header, SyntaxNode};
pub use wgsl_declarations::{
    FormalParameter, Function, GlobalDeclaration, GlobalDeclarationNode, Struct, StructMember,
    StructMemberNode, TranslationUnit, TypeAlias,
};
