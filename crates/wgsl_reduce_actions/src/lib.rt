//! What a parser makes of the parts of a phrase as it reduces: what `wgsl_semantic_values` makes of those of expressions, and here what the productions
//! of attributes, statements, imports, directives, declarations and modules make.
#![tactic(auto)]

mod attribute;
mod attributed;
mod clause;
mod declaration;
mod directive;
mod import;
mod production;
mod statement;
mod take;

pub use production::make;
pub use wgsl_attribute_words::{AttributeWord, is_setting, severity_in, word_named};
pub use wgsl_statements::StatementNode;
