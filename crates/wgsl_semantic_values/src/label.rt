//! The labels of the productions: what a parser does as it reduces.

use wgsl_token::Fixed;
use wgsl_words::{AssignmentOperator, BinaryOperator, UnaryOperator};

/// The label of a production.
#[derive(Clone, Copy)]
pub enum Label {
    /// The one part itself.
    Pass,
    /// A list of the one part.
    First,
    /// A list, and one more.
    More,
    Name(NameLabel),
    Expression(ExpressionLabel),
    Attribute(AttributeLabel),
    Value(ValueLabel),
    Plain(PlainLabel),
    Statement(StatementLabel),
    Clause(ClauseLabel),
    Import(ImportLabel),
    Directive(DirectiveLabel),
    Declaration(DeclarationLabel),
}

/// Names, types and calls.
#[derive(Clone, Copy)]
pub enum NameLabel {
    NameAlone,
    NameAbove,
    NameInPackage,
    NameWithin,
    OneUp,
    FurtherUp,
    Simple,
    Templated,
    Call,
}

/// Expressions, and places that are assigned.
#[derive(Clone, Copy)]
pub enum ExpressionLabel {
    ALiteral,
    Named,
    Called,
    Parenthesized,
    Component,
    Indexed,
    Unary(UnaryOperator),
    Binary(BinaryOperator),
    PlaceName,
    Underscore,
}

/// Attributes, and what `var` says of a variable.
#[derive(Clone, Copy)]
pub enum AttributeLabel {
    Word,
    ReservedWord,
    Keyword(Fixed),
    Arguments,
    Attribute,
    VarKind,
    VarIn,
}

/// Declarations of values, and assertions.
#[derive(Clone, Copy)]
pub enum ValueLabel {
    Typed,
    TypedAs,
    Var,
    VarSet,
    Const,
    Let,
    Override,
    OverrideSet,
    Assertion,
}

/// Statements that hold no other statement, without their `;`.
#[derive(Clone, Copy)]
pub enum PlainLabel {
    CalledStatement,
    Assignment(AssignmentOperator),
    Increment,
    Decrement,
    Break,
    Continue,
    Return,
    Discard,
    Local,
    Asserted,
}

/// Statements.
#[derive(Clone, Copy)]
pub enum StatementLabel {
    Header,
    VoidStatement,
    PlainStatement,
    Compound,
    If,
    Switch,
    Loop,
    For,
    While,
}

/// What statements consist of.
#[derive(Clone, Copy)]
pub enum ClauseLabel {
    Block,
    ElseIf,
    DefaultSelector,
    Selector,
    Case,
    Default,
    Continuing,
    BreakIf,
}

/// Imports.
#[derive(Clone, Copy)]
pub enum ImportLabel {
    FromPackage,
    FromOwn,
    FromAbove,
    FromWithin,
    FirstStep,
    NextStep,
    Item,
    Renamed,
    Collection,
    Tree,
    Import,
}

/// Directives.
#[derive(Clone, Copy)]
pub enum DirectiveLabel {
    Rule,
    RuleOf,
    Diagnostic,
    Control,
    Extension,
    Enable,
    Requires,
}

/// Declarations of a module, and modules.
#[derive(Clone, Copy)]
pub enum DeclarationLabel {
    VoidDeclaration,
    Global,
    Alias,
    GlobalAssertion,
    Struct,
    Member,
    Function,
    Parameter,
    Result,
    Module,
}
