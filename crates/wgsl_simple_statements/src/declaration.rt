//! Declarations of values and constant assertions: of modules and of functions (WGSL, "Variable and Value Declarations",
//! "Const Assertion Statement").

use wgsl_expressions::{
    AccessMode, AddressSpace, Attributes, ExpressionNode, Ident, TypeExpression,
};

/// What a value declaration declares. A variable may name its address space, and behind that its access mode.
#[derive(Clone, Copy, Debug, PartialEq)]
pub enum DeclarationKind {
    Const,
    Override,
    Let,
    Var(Option<(AddressSpace, Option<AccessMode>)>),
}

/// A declaration of a value.
#[derive(Debug, Drop, PartialEq)]
pub struct Declaration {
    pub attributes: Attributes,
    pub kind: DeclarationKind,
    pub ident: Ident,
    pub ty: Option<TypeExpression>,
    pub initializer: Option<ExpressionNode>,
}

/// `const_assert` and what has to be true.
#[derive(Debug, Drop, PartialEq)]
pub struct ConstAssert {
    pub attributes: Attributes,
    pub expression: ExpressionNode,
}
