//! The const that stands for an expression that is evaluated: the last declaration of the root, under a name that no text has.

use std::alloc::{AllocError, Global};
use wgsl_declarations::{GlobalDeclaration, GlobalDeclarationNode, TranslationUnit};
use wgsl_expressions::{ExpressionNode, FromIn, Ident, Items, Spanned, Text};
use wgsl_simple_statements::{Declaration, DeclarationKind};

/// The name of the const. It has a blank, as no identifier has.
pub const OWN_NAME: &str = "own expression";

/// Whether a declaration is the const that stands for the expression.
pub fn is_own(declaration: &GlobalDeclaration) -> bool {
    match declaration {
        GlobalDeclaration::Declaration(declaration) => declaration.ident.as_str() == OWN_NAME,
        _ => false,
    }
}

fn own_const(
    alloc: Global,
    expression: ExpressionNode,
) -> Result<GlobalDeclarationNode, AllocError> {
    let ident = Ident::new(Text::from_str(alloc, OWN_NAME)?);
    let declaration = Declaration {
        attributes: Items::new(alloc),
        kind: DeclarationKind::Const,
        ident,
        ty: None,
        initializer: Some(expression),
    };
    Spanned::from_in(alloc, GlobalDeclaration::Declaration(declaration))
}

/// Makes a const with this expression the last declaration of a unit. Where memory is refused the unit is unchanged.
pub(crate) fn append_const(
    alloc: Global,
    unit: &mut TranslationUnit,
    expression: ExpressionNode,
) -> Result<(), AllocError> {
    let declaration = own_const(alloc, expression)?;
    unit.global_declarations.push(declaration)
}
