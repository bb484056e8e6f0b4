//! The nodes of a declaration, and of the attributes of directives, in the order in which they end in its text.
#![tactic(auto)]

mod find;
mod find_declarations;
mod find_directives;
mod find_statements;
mod node;
mod single;

pub use find_declarations::find_nodes;
pub use find_directives::find_directive_nodes;
pub use node::NodeRef;
pub use single::{with_declaration, with_node};
pub use wgsl_declarations::{
    FormalParameter, Function, GlobalDeclaration, Struct, StructMember, TranslationUnit, TypeAlias,
};
pub use wgsl_statements::Statement;
