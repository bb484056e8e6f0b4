//! What a symbol of the grammar stands for.

use wgsl_base::{Boxed, Items, Text};
use wgsl_declarations::{
    AttributeNode, Attributes, BreakIfStatement, CaseSelector, CompoundStatement, ConstAssert,
    ContinuingStatement, Declaration, DeclarationKind, ElseIfClause, FormalParameter,
    GlobalDeclarationNode, GlobalDirective, Import, ImportContent, ImportStatement, Statement,
    StatementNode, StructMemberNode, SwitchClause, TranslationUnit,
};
use wgsl_expressions::{ExpressionNode, FunctionCall, LiteralExpression, TypeExpression};
use wgsl_path::{Ident, ModulePath};

/// A name, maybe behind the path of a module.
#[derive(Drop)]
pub struct QualifiedName {
    pub path: Option<Boxed<ModulePath>>,
    pub ident: Ident,
}

/// A declared name, maybe with its type.
#[derive(Drop)]
pub struct TypedName {
    pub ident: Ident,
    pub ty: Option<TypeExpression>,
}

/// The result of a function: its attributes and its type.
#[derive(Drop)]
pub struct FunctionResult {
    pub attributes: Attributes,
    pub ty: TypeExpression,
}

/// What a symbol of the grammar stands for. What is larger than a type is boxed, since a parser moves parts about.
#[derive(Drop)]
pub enum Part {
    /// What may be left out, and is.
    Absent,
    /// A token that says nothing but that it is there.
    Mark,
    Ident(Ident),
    Reserved(Text),
    Literal(LiteralExpression),
    /// So many `super`.
    Ups(usize),
    Path(QualifiedName),
    Type(TypeExpression),
    Call(Boxed<FunctionCall>),
    Expression(ExpressionNode),
    Expressions(Items<ExpressionNode>),
    /// The name of an attribute.
    Word(Text),
    /// The arguments of an attribute, which has parentheses.
    Arguments(Items<ExpressionNode>),
    Attribute(AttributeNode),
    Attributes(Attributes),
    Kind(DeclarationKind),
    Typed(Boxed<TypedName>),
    Declaration(Boxed<Declaration>),
    Assertion(ConstAssert),
    /// A statement before its place is known.
    Plain(Boxed<Statement>),
    Statement(StatementNode),
    Statements(Items<StatementNode>),
    Block(CompoundStatement),
    ElseIf(ElseIfClause),
    ElseIfs(Items<ElseIfClause>),
    Clause(Boxed<SwitchClause>),
    Clauses(Items<SwitchClause>),
    Selector(CaseSelector),
    Selectors(Items<CaseSelector>),
    Continuing(Boxed<ContinuingStatement>),
    BreakIf(BreakIfStatement),
    ModulePath(ModulePath),
    Text(Text),
    Texts(Items<Text>),
    Content(Boxed<ImportContent>),
    Tree(Boxed<Import>),
    Trees(Items<Import>),
    Import(Boxed<ImportStatement>),
    Imports(Items<ImportStatement>),
    Directive(Boxed<GlobalDirective>),
    Directives(Items<GlobalDirective>),
    Global(GlobalDeclarationNode),
    Globals(Items<GlobalDeclarationNode>),
    Member(StructMemberNode),
    Members(Items<StructMemberNode>),
    Parameter(Boxed<FormalParameter>),
    Parameters(Items<FormalParameter>),
    Result(Boxed<FunctionResult>),
    Module(Boxed<TranslationUnit>),
}
