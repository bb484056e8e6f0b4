//! Declarations of values, and assertions.

ghost use Rattle.std.specs.Prelude.{◌≡◌, IfOk};
ghost use Rattle.wgsl_semantic_values.specs.Values as making;

use crate::held::Held;
use crate::label::ValueLabel;
use crate::part::{Part, TypedName};
use crate::take::{both, ended, expression, ident, kind, three, ty, typed_name};
use std::alloc::{AllocError, Global};
use wgsl_base::{Boxed, Items, Stack};
use wgsl_declarations::{ConstAssert, Declaration, DeclarationKind};
use wgsl_expressions::ExpressionNode;
use wgsl_token::fault::Refusal;

fn declared(
    alloc: Global,
    kind: DeclarationKind,
    name: TypedName,
    initializer: Option<ExpressionNode>,
) -> Result<Boxed<Declaration>, AllocError>
    ensures { IfOk result (λ x. Part.Declaration x ≡ making.declared kind name initializer) }
{
    let TypedName { ident, ty } = name;
    let declaration = Declaration {
        attributes: Items::new(alloc),
        kind,
        ident,
        ty,
        initializer,
    };
    Boxed::new(alloc, declaration)
}

/// Declarations. The other labels are answered as a misfit.
fn make_declaration(
    alloc: Global,
    label: ValueLabel,
    parts: &mut Stack<Held>,
) -> Result<Part, Refusal>
    ensures { IfOk result (λ part. part ≡ making.make_value label parts.old) }
{
    let (kind, name, initializer) = match label {
        ValueLabel::Var => {
            let kind = kind(parts);
            let name = typed_name(parts);
            let (kind, name) = ended(both(kind, name), parts)?;
            (kind, name, None)
        }
        ValueLabel::VarSet => {
            let kind = kind(parts);
            let name = typed_name(parts);
            let value = expression(parts);
            let (kind, name, value) = ended(three(kind, name, value), parts)?;
            (kind, name, Some(value))
        }
        ValueLabel::Override => {
            let name = ended(typed_name(parts), parts)?;
            (DeclarationKind::Override, name, None)
        }
        rest => {
            let kind = match rest {
                ValueLabel::Const => DeclarationKind::Const,
                ValueLabel::Let => DeclarationKind::Let,
                ValueLabel::OverrideSet => DeclarationKind::Override,
                _ => return Err(Refusal::Misfit),
            };
            let name = typed_name(parts);
            let value = expression(parts);
            let (name, value) = ended(both(name, value), parts)?;
            (kind, name, Some(value))
        }
    };
    Ok(Part::Declaration(declared(alloc, kind, name, initializer)?))
}

/// What the production of this label makes of its parts. Parts that do not fit are answered as a misfit.
pub fn make_value(
    alloc: Global,
    label: ValueLabel,
    parts: &mut Stack<Held>,
) -> Result<Part, Refusal>
    ensures { IfOk result (λ part. part ≡ making.make_value label parts.old) }
{
    match label {
        ValueLabel::Typed => {
            let ident = ended(ident(parts), parts)?;
            Ok(Part::Typed(Boxed::new(alloc, TypedName { ident, ty: None })?))
        }
        ValueLabel::TypedAs => {
            let ident = ident(parts);
            let ty = ty(parts);
            let (ident, ty) = ended(both(ident, ty), parts)?;
            let ty = Some(ty);
            Ok(Part::Typed(Boxed::new(alloc, TypedName { ident, ty })?))
        }
        ValueLabel::Assertion => {
            let expression = ended(expression(parts), parts)?;
            Ok(Part::Assertion(ConstAssert {
                attributes: Items::new(alloc),
                expression,
            }))
        }
        rest => make_declaration(alloc, rest, parts),
    }
}
