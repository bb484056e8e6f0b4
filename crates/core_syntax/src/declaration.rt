//! Declarations of a module (WGSL, "Declaration and Scope", "Functions"), and attributes.

use crate::expression::{ExpressionNode, TypeExpression};
use crate::statement::CompoundStatement;
use wgsl_path::{Ident, Items, Spanned};

/// An attribute and its place.
pub type AttributeNode = Spanned<Attribute>;

pub type Attributes = Items<AttributeNode>;

/// An attribute (WGSL, "Attributes").
#[derive(Debug, Drop, PartialEq)]
pub enum Attribute {
    Fragment,
    Location(ExpressionNode),
}

/// A declaration of a module and its place.
pub type GlobalDeclarationNode = Spanned<GlobalDeclaration>;

/// A declaration of a module.
#[derive(Debug, Drop, PartialEq)]
pub enum GlobalDeclaration {
    Declaration(Declaration),
    Function(Function),
}

impl GlobalDeclaration {
    ghost use Rattle.std.specs.Prelude.{◌≡◌};
    ghost use Rattle.core_syntax.specs.View.{declaration_tree};
    ghost use Rattle.core_syntax.specs.Names.{declared_name};

    /// The name that it declares.
    pub fn declared_name(&self) -> &str
        ensures { result.now ≡ declared_name (declaration_tree self.now) }
    {
        match self {
            GlobalDeclaration::Declaration(declaration) => declaration.ident.as_str(),
            GlobalDeclaration::Function(function) => function.ident.as_str(),
        }
    }
}

/// What a value declaration declares.
#[derive(Clone, Copy, Debug, PartialEq, Eq)]
pub enum DeclarationKind {
    Const,
}

/// A declaration of a value.
#[derive(Debug, Drop, PartialEq)]
pub struct Declaration {
    pub attributes: Attributes,
    pub kind: DeclarationKind,
    pub ident: Ident,
    pub ty: Option<TypeExpression>,
    pub initializer: Option<ExpressionNode>,
}

/// A function.
#[derive(Debug, Drop, PartialEq)]
pub struct Function {
    pub attributes: Attributes,
    pub ident: Ident,
    pub parameters: Items<FormalParameter>,
    pub return_attributes: Attributes,
    pub return_type: Option<TypeExpression>,
    pub body: CompoundStatement,
}

/// A parameter of a function.
#[derive(Debug, Drop, PartialEq)]
pub struct FormalParameter {
    pub attributes: Attributes,
    pub ident: Ident,
    pub ty: TypeExpression,
}
