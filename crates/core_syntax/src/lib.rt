//! The syntax trees of WGSL modules with imports.
#![tactic(auto)]

mod copy;
mod declaration;
mod expression;
mod import;
mod print;
mod print_declarations;
mod statement;
mod unit;

pub use declaration::{
    Attribute, AttributeNode, Attributes, Declaration, DeclarationKind, FormalParameter, Function,
    GlobalDeclaration, GlobalDeclarationNode,
};
pub use expression::{
    BinaryExpression, BinaryExpressionOf, Expression, ExpressionNode, FunctionCall, FunctionCallOf,
    LiteralExpression, ParenthesizedExpression, ParenthesizedExpressionOf, TemplateArg,
    TemplateArgOf, TemplateArgs, TypeExpression, TypeExpressionOf, UnaryExpression,
    UnaryExpressionOf,
};
pub use import::{ImportContent, ImportItem, ImportStatement};
pub use statement::{
    CompoundStatement, CompoundStatementOf, ReturnStatement, Statement, StatementNode,
};
pub use unit::TranslationUnit;
pub use wgsl_path::{Ident, ModulePath, PathOrigin, Span, Spanned};
pub use wgsl_words::{BinaryOperator, UnaryOperator};
