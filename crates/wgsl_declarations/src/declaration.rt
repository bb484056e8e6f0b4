//! Declarations of a module (WGSL, "Declaration and Scope", "Type Aliases", "Structure Types", "Functions").

use crate::imports::{Attributes, Ident, Items, Spanned, TypeExpression};
use wgsl_statements::{CompoundStatement, ConstAssert, Declaration};

/// A declaration of a module and its place.
pub type GlobalDeclarationNode = Spanned<GlobalDeclaration>;

/// A member of a structure and its place.
pub type StructMemberNode = Spanned<StructMember>;

/// A declaration of a module. `Void` is a `;` alone.
#[derive(Debug, Drop, PartialEq)]
pub enum GlobalDeclaration {
    Void,
    Declaration(Declaration),
    TypeAlias(TypeAlias),
    Struct(Struct),
    Function(Function),
    ConstAssert(ConstAssert),
}

/// `alias`: another name for a type.
#[derive(Debug, Drop, PartialEq)]
pub struct TypeAlias {
    pub attributes: Attributes,
    pub ident: Ident,
    pub ty: TypeExpression,
}

/// A structure.
#[derive(Debug, Drop, PartialEq)]
pub struct Struct {
    pub attributes: Attributes,
    pub ident: Ident,
    pub members: Items<StructMemberNode>,
}

/// A member of a structure.
#[derive(Debug, Drop, PartialEq)]
pub struct StructMember {
    pub attributes: Attributes,
    pub ident: Ident,
    pub ty: TypeExpression,
}

/// A function. The second attributes stand before the type of its result.
#[derive(Debug, Drop, PartialEq)]
pub struct Function {
    pub attributes: Attributes,
    pub ident: Ident,
    pub parameters: Items<FormalParameter>,
    pub return_attributes: Attributes,
    pub return_type: Option<TypeExpression>,
    pub body: CompoundStatement,
}

/// A parameter of a function.
#[derive(Debug, Drop, PartialEq)]
pub struct FormalParameter {
    pub attributes: Attributes,
    pub ident: Ident,
    pub ty: TypeExpression,
}
