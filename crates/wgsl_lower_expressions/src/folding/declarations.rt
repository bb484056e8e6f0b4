//! Declarations of values.

use crate::folding::attributes::fold_attributes;
use crate::folding::expressions::fold_maybe;
use crate::folding::types::write_type;
use wgsl_base::Boxed;
use wgsl_eval::{Evaluator, Stop};
use wgsl_shader_type::Type;
use wgsl_simple_statements::{Declaration, DeclarationKind};
use wgsl_words::{AccessMode, AddressSpace};

/// Whether a written type is read back as it was, the access modes of its pointers included.
fn comes_back(ty: &Type) -> bool {
    match ty {
        Type::Ptr(space, stored, access) => {
            (*space == AddressSpace::Storage || space.default_access_mode() == *access)
                && comes_back(stored.get())
        }
        Type::Array(element, _) => comes_back(element.get()),
        _ => true,
    }
}

/// A declaration that stays: its attributes, its type, which is written, and its initializer. Its type is the answer.
pub fn fold_declaration(evaluator: &mut Evaluator<'_>, x: &mut Declaration) -> Result<Type, Stop> {
    fold_attributes(evaluator, &mut x.attributes)?;
    let ty = evaluator.declared_type(x)?;
    if x.ty.is_some() || comes_back(&ty) {
        write_type(evaluator, &mut x.ty, &ty)?;
    }
    fold_maybe(evaluator, &mut x.initializer)?;
    Ok(ty)
}

fn place_of(kind: DeclarationKind) -> Option<(AddressSpace, AccessMode)> {
    match kind {
        DeclarationKind::Var(None) => Some((AddressSpace::Function, AccessMode::ReadWrite)),
        DeclarationKind::Var(Some((space, access))) => Some((
            space,
            access.unwrap_or(space.default_access_mode()),
        )),
        _ => None,
    }
}

/// The name of a declaration of a function stands for a value of a type from now on, or for a reference to one.
pub fn declare(evaluator: &mut Evaluator<'_>, x: &Declaration, ty: Type) -> Result<(), Stop> {
    match place_of(x.kind) {
        None => evaluator.defer(x.ident.name(), ty),
        Some((space, access)) => {
            let stored = Boxed::new(evaluator.alloc(), ty)?;
            evaluator.defer(x.ident.name(), Type::Ref(space, stored, access))
        }
    }
}
