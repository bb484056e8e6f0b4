//! What the symbols of a grammar stand for, as a parser that reduces holds it, and the labels of the productions. What the productions of
//! names, types, calls, expressions, values and plain statements make of their parts; parts that are passed on, and lists of parts.
#![tactic(auto)]

mod expression;
mod held;
mod label;
mod list;
mod more;
mod name;
mod part;
mod path;
mod plain;
pub mod take;
mod value;

pub use expression::make_expression;
pub use held::{Held, next, one_expression, placed};
pub use label::{
    AttributeLabel, ClauseLabel, DeclarationLabel, DirectiveLabel, ExpressionLabel, ImportLabel,
    Label, NameLabel, PlainLabel, StatementLabel, ValueLabel,
};
pub use list::{make_first, make_more, one, pass};
pub use name::make_name;
pub use part::{FunctionResult, Part, QualifiedName, TypedName};
pub use plain::make_plain;
pub use value::make_value;
pub use wgsl_base::Stack;
pub use wgsl_declarations::{GlobalDeclarationNode, TranslationUnit, let_go};
