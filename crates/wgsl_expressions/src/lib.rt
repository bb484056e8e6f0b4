//! The syntax trees of all expressions of WGSL with the paths of WESL, their copies and their text.
#![tactic(auto)]

mod attributes;
mod copy;
mod expression;
mod layout;
mod making;
mod print;

pub use attributes::{
    AccessMode, AddressSpace, AssignmentOperator, Attribute, AttributeNode, Attributes,
    CustomAttribute, DiagnosticAttribute, DiagnosticSeverity, InterpolateAttribute,
    WorkgroupSizeAttribute, write_attributes,
};
pub use expression::{
    BinaryExpression, BinaryExpressionOf, Expression, ExpressionNode, FunctionCall, FunctionCallOf,
    IndexingExpression, IndexingExpressionOf, LiteralExpression, NamedComponentExpression,
    NamedComponentExpressionOf, ParenthesizedExpression, ParenthesizedExpressionOf, TemplateArg,
    TemplateArgOf, TemplateArgs, TypeExpression, TypeExpressionOf, UnaryExpression,
    UnaryExpressionOf,
};
pub use layout::{write_indent, write_list};
pub use print::write_qualifier;
pub use wgsl_path::{
    Boxed, CloneIn, FromIn, Ident, Items, ModulePath, PathOrigin, Span, Spanned, Text, both, three,
};
pub use wgsl_words::{BinaryOperator, UnaryOperator};
