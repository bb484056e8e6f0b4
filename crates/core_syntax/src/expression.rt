//! Expressions (WGSL, "Expressions"). A struct that a variant of `Expression` holds is generic in it, so that the cycle of
//! types has one member; the plain names are aliases.

use wgsl_path::{Boxed, Ident, Items, ModulePath, Spanned};
use wgsl_words::{BinaryOperator, UnaryOperator};

/// A literal (WGSL, "Literals"). It holds the number without its suffix.
#[derive(Clone, Copy, Debug, PartialEq)]
pub enum LiteralExpression {
    AbstractInt(i64),
    I32(i32),
    U32(u32),
}

/// An expression and its place.
pub type ExpressionNode = Spanned<Expression>;

pub type ParenthesizedExpression = ParenthesizedExpressionOf<Expression>;

pub type UnaryExpression = UnaryExpressionOf<Expression>;

pub type BinaryExpression = BinaryExpressionOf<Expression>;

pub type FunctionCall = FunctionCallOf<Expression>;

pub type TypeExpression = TypeExpressionOf<Expression>;

pub type TemplateArg = TemplateArgOf<Expression>;

pub type TemplateArgs = Option<Boxed<Items<TemplateArg>>>;

/// An expression.
#[derive(Debug, Drop, PartialEq)]
pub enum Expression {
    Literal(LiteralExpression),
    Parenthesized(ParenthesizedExpressionOf<Expression>),
    Unary(UnaryExpressionOf<Expression>),
    Binary(BinaryExpressionOf<Expression>),
    FunctionCall(Boxed<FunctionCallOf<Expression>>),
    TypeOrIdentifier(TypeExpressionOf<Expression>),
}

/// An expression in parentheses.
#[derive(Debug, Drop, PartialEq)]
pub struct ParenthesizedExpressionOf<E> {
    pub expression: Spanned<E>,
}

/// An operator and its operand.
#[derive(Debug, Drop, PartialEq)]
pub struct UnaryExpressionOf<E> {
    pub operator: UnaryOperator,
    pub operand: Spanned<E>,
}

/// An operator between its operands.
#[derive(Debug, Drop, PartialEq)]
pub struct BinaryExpressionOf<E> {
    pub operator: BinaryOperator,
    pub left: Spanned<E>,
    pub right: Spanned<E>,
}

/// A call of a function or of a type's constructor.
#[derive(Debug, Drop, PartialEq)]
pub struct FunctionCallOf<E> {
    pub ty: TypeExpressionOf<E>,
    pub arguments: Items<Spanned<E>>,
}

/// A name, maybe behind the path of a module and with template arguments: a type, a callee or an identifier.
#[derive(Debug, Drop, PartialEq)]
pub struct TypeExpressionOf<E> {
    pub path: Option<Boxed<ModulePath>>,
    pub ident: Ident,
    pub template_args: Option<Boxed<Items<TemplateArgOf<E>>>>,
}

/// A template argument.
#[derive(Debug, Drop, PartialEq)]
pub struct TemplateArgOf<E> {
    pub expression: Spanned<E>,
}
