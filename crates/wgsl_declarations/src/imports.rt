//! The imports of WESL and the directives of WGSL, their copies and their text.

mod copy;
mod directive;
mod import;
mod making;
mod print;
mod print_directives;

pub use directive::{DiagnosticDirective, EnableDirective, GlobalDirective, RequiresDirective};
pub use import::{Import, ImportContent, ImportItem, ImportOf, ImportStatement};
pub use wgsl_expressions::{
    AttributeNode, Attributes, CloneIn, Ident, Items, Spanned, TypeExpression, write_attributes,
    write_indent,
};
