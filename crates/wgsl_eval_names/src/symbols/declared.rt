//! What a declaration is.

use wgsl_declarations::{
    AttributeNode, ConstAssert, Declaration, FormalParameter, GlobalDeclaration, Struct, TypeAlias,
};
use wgsl_expressions::TypeExpression;

/// A function without its body.
#[derive(Clone, Copy, Drop)]
pub struct Header<'s> {
    pub name: &'s str,
    pub attributes: &'s [AttributeNode],
    pub parameters: &'s [FormalParameter],
    pub return_type: Option<&'s TypeExpression>,
}

/// A declaration of a module.
#[derive(Clone, Copy, Drop)]
pub enum Declared<'s> {
    /// A `;` alone.
    Void,
    /// A const, an override or a variable.
    Value(&'s Declaration),
    Alias(&'s TypeAlias),
    Struct(&'s Struct),
    Function(Header<'s>),
    Assertion(&'s ConstAssert),
}

impl<'s> Declared<'s> {
    /// The name that it declares.
    pub fn name(&self) -> Option<&'s str> {
        match self {
            Declared::Void | Declared::Assertion(_) => None,
            Declared::Value(x) => Some(x.ident.name()),
            Declared::Alias(x) => Some(x.ident.name()),
            Declared::Struct(x) => Some(x.ident.name()),
            Declared::Function(x) => Some(x.name),
        }
    }
}

/// A declaration without the statements in it.
pub(crate) fn declared_of<'s>(declaration: &'s GlobalDeclaration) -> Declared<'s> {
    match declaration {
        GlobalDeclaration::Void => Declared::Void,
        GlobalDeclaration::Declaration(x) => Declared::Value(x),
        GlobalDeclaration::TypeAlias(x) => Declared::Alias(x),
        GlobalDeclaration::Struct(x) => Declared::Struct(x),
        GlobalDeclaration::Function(x) => Declared::Function(Header {
            name: x.ident.name(),
            attributes: x.attributes.as_slice(),
            parameters: x.parameters.as_slice(),
            return_type: x.return_type.as_ref(),
        }),
        GlobalDeclaration::ConstAssert(x) => Declared::Assertion(x),
    }
}
