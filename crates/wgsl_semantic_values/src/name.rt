//! Names, types and calls.

ghost use Rattle.std.specs.Prelude.{◌≡◌, IfOk};
ghost use Rattle.wgsl_semantic_values.specs.Making as making;

use crate::held::Held;
use crate::label::NameLabel;
use crate::part::{Part, QualifiedName};
use crate::path::{template, within};
use crate::take::{both, end, ended, expressions, ident, list, path, ty, ups};
use std::alloc::Global;
use wgsl_base::{Boxed, Items, Stack};
use wgsl_expressions::{FunctionCall, TypeExpression};
use wgsl_path::{Ident, ModulePath, PathOrigin};
use wgsl_token::fault::Refusal;

/// A name behind a path.
fn behind(alloc: Global, path: ModulePath, ident: Ident) -> Result<QualifiedName, Refusal>
    ensures { IfOk result (λ name. Part.Path name ≡ making.behind path ident) }
{
    let path = Some(Boxed::new(alloc, path)?);
    Ok(QualifiedName { path, ident })
}

/// Names behind paths, and levels above. The other labels are answered as a misfit.
fn make_path(alloc: Global, label: NameLabel, parts: &mut Stack<Held>) -> Result<Part, Refusal>
    ensures { IfOk result (λ part. part ≡ making.make_name label parts.old) }
{
    match label {
        NameLabel::NameAbove => {
            let levels = ups(parts);
            let ident = ident(parts);
            let (levels, ident) = ended(both(levels, ident), parts)?;
            let path = ModulePath {
                origin: PathOrigin::Relative(levels),
                components: Items::new(alloc),
            };
            Ok(Part::Path(behind(alloc, path, ident)?))
        }
        NameLabel::NameInPackage => {
            let ident = ended(ident(parts), parts)?;
            let path = ModulePath::new_root(alloc);
            Ok(Part::Path(behind(alloc, path, ident)?))
        }
        NameLabel::NameWithin => {
            let outer = path(parts);
            let ident = ident(parts);
            let (outer, ident) = ended(both(outer, ident), parts)?;
            let path = within(alloc, outer)?;
            Ok(Part::Path(behind(alloc, path, ident)?))
        }
        NameLabel::OneUp => {
            end(parts)?;
            Ok(Part::Ups(1))
        }
        NameLabel::FurtherUp => {
            let levels = ended(ups(parts), parts)?;
            let levels = levels.checked_add(1).ok_or(Refusal::Misfit)?;
            Ok(Part::Ups(levels))
        }
        _ => Err(Refusal::Misfit),
    }
}

/// What the production of this label makes of its parts. Parts that do not fit, and more levels than a `usize` counts, are answered as a
/// misfit.
pub fn make_name(alloc: Global, label: NameLabel, parts: &mut Stack<Held>) -> Result<Part, Refusal>
    ensures { IfOk result (λ part. part ≡ making.make_name label parts.old) }
{
    match label {
        NameLabel::NameAlone => {
            let ident = ended(ident(parts), parts)?;
            Ok(Part::Path(QualifiedName { path: None, ident }))
        }
        NameLabel::Simple => {
            let QualifiedName { path, ident } = ended(path(parts), parts)?;
            Ok(Part::Type(TypeExpression {
                path,
                ident,
                template_args: None,
            }))
        }
        NameLabel::Templated => {
            let name = path(parts);
            let arguments = list(parts);
            let (name, arguments) = ended(both(name, arguments), parts)?;
            let QualifiedName { path, ident } = name;
            let template_args = Some(Boxed::new(alloc, template(alloc, arguments)?)?);
            Ok(Part::Type(TypeExpression {
                path,
                ident,
                template_args,
            }))
        }
        NameLabel::Call => {
            let ty = ty(parts);
            let arguments = expressions(alloc, parts);
            let (ty, arguments) = ended(both(ty, arguments), parts)?;
            Ok(Part::Call(Boxed::new(alloc, FunctionCall { ty, arguments })?))
        }
        rest => make_path(alloc, rest, parts),
    }
}
