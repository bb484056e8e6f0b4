//! What evaluation reads of a module that is lowered in place meanwhile.

use std::alloc::{AllocError, Global};
use wgsl_declarations::{
    CompoundStatement, Function, GlobalDeclaration, GlobalDeclarationNode, TranslationUnit,
};
use wgsl_eval::UnitUses;
use wgsl_expressions::{Attribute, AttributeNode, CloneIn, Items, Spanned};

fn is_marked(attributes: &[AttributeNode]) -> bool {
    for attribute in attributes {
        if let Attribute::Const = attribute.node() {
            return true;
        }
    }
    false
}

/// A copy of a function without what is in its body.
fn without_body(alloc: Global, x: &Function) -> Result<Function, AllocError> {
    Ok(Function {
        attributes: x.attributes.clone_in(alloc)?,
        ident: x.ident.clone_in(alloc)?,
        parameters: x.parameters.clone_in(alloc)?,
        return_attributes: x.return_attributes.clone_in(alloc)?,
        return_type: x.return_type.clone_in(alloc)?,
        body: CompoundStatement {
            attributes: Items::new(alloc),
            statements: Items::new(alloc),
        },
    })
}

/// A copy of a declaration, of a function that no evaluation enters without what is in its body.
fn copied(
    alloc: Global,
    node: &GlobalDeclarationNode,
    is_const: bool,
) -> Result<GlobalDeclarationNode, AllocError> {
    if let GlobalDeclaration::Function(x) = node.node()
        && !is_const
        && !is_marked(x.attributes.as_slice())
    {
        let header = GlobalDeclaration::Function(without_body(alloc, x)?);
        return Spanned::new(alloc, header, node.span());
    }
    node.clone_in(alloc)
}

/// A copy of a module's declarations under the same numbers. At the const stage no function is entered but those that are const, by the rule or
/// by their attribute: the others have an empty body.
pub(crate) fn evaluated_part(
    alloc: Global,
    unit: &TranslationUnit,
    uses: &UnitUses,
) -> Result<TranslationUnit, AllocError> {
    let mut declarations = Items::new(alloc);
    for (number, node) in unit.global_declarations.as_slice().iter().enumerate() {
        declarations.push(copied(alloc, node, uses.is_const_function(number))?)?;
    }
    Ok(TranslationUnit {
        imports: Items::new(alloc),
        global_directives: Items::new(alloc),
        global_declarations: declarations,
    })
}
