//! Imports.

ghost use Rattle.std.specs.Prelude.{◌≡◌, IfOk};
ghost use Rattle.wgsl_reduce_actions.specs.Imports as making;

use crate::take::{content, names, path, source, texts, trees};
use std::alloc::Global;
use wgsl_base::{Boxed, Items};
use wgsl_declarations::{Import, ImportContent, ImportItem, ImportStatement};
use wgsl_path::{ModulePath, PathOrigin};
use wgsl_semantic_values::take::{attributes, both, end, ended, ident, three, ups};
use wgsl_semantic_values::{Held, ImportLabel, Part, Stack};
use wgsl_token::fault::Refusal;

/// What the productions of what is imported, and of imports, make of their parts.
fn make_content(alloc: Global, label: ImportLabel, parts: &mut Stack<Held>) -> Result<Part, Refusal>
    ensures { IfOk result (λ part. part ≡ making.make_import label parts.old) }
{
    match label {
        ImportLabel::Item => {
            let ident = ended(ident(parts), parts)?;
            let rename = None;
            let content = ImportContent::Item(ImportItem { ident, rename });
            Ok(Part::Content(Boxed::new(alloc, content)?))
        }
        ImportLabel::Renamed => {
            let name = ident(parts);
            let rename = ident(parts);
            let (ident, rename) = ended(both(name, rename), parts)?;
            let rename = Some(rename);
            let content = ImportContent::Item(ImportItem { ident, rename });
            Ok(Part::Content(Boxed::new(alloc, content)?))
        }
        ImportLabel::Collection => {
            let trees = ended(trees(parts), parts)?;
            let content = ImportContent::Collection(trees);
            Ok(Part::Content(Boxed::new(alloc, content)?))
        }
        ImportLabel::Tree => {
            let path = names(alloc, parts);
            let content = content(parts);
            let (path, content) = ended(both(path, content), parts)?;
            let tree = Import { path, content };
            Ok(Part::Tree(Boxed::new(alloc, tree)?))
        }
        ImportLabel::Import => {
            let attributes = attributes(alloc, parts);
            let path = path(alloc, parts);
            let content = content(parts);
            let (attributes, path, content) = ended(three(attributes, path, content), parts)?;
            let import = ImportStatement {
                attributes,
                path,
                content,
            };
            Ok(Part::Import(Boxed::new(alloc, import)?))
        }
        _ => Err(Refusal::Misfit),
    }
}

/// What the production of this label makes of its parts. Parts that do not fit are answered as a misfit.
pub fn make_import(
    alloc: Global,
    label: ImportLabel,
    parts: &mut Stack<Held>,
) -> Result<Part, Refusal>
    ensures { IfOk result (λ part. part ≡ making.make_import label parts.old) }
{
    match label {
        ImportLabel::FromPackage => {
            let name = ended(ident(parts), parts)?;
            Ok(Part::ModulePath(ModulePath {
                origin: PathOrigin::Package(name.into_name()),
                components: Items::new(alloc),
            }))
        }
        ImportLabel::FromOwn => {
            end(parts)?;
            Ok(Part::ModulePath(ModulePath::new_root(alloc)))
        }
        ImportLabel::FromAbove => {
            let levels = ended(ups(parts), parts)?;
            Ok(Part::ModulePath(ModulePath {
                origin: PathOrigin::Relative(levels),
                components: Items::new(alloc),
            }))
        }
        ImportLabel::FromWithin => {
            let outer = source(parts);
            let name = ident(parts);
            let (outer, name) = ended(both(outer, name), parts)?;
            Ok(Part::ModulePath(outer.with_name(name.into_name())?))
        }
        ImportLabel::FirstStep => {
            let name = ended(ident(parts), parts)?;
            let mut steps = Items::new(alloc);
            steps.push(name.into_name())?;
            Ok(Part::Texts(steps))
        }
        ImportLabel::NextStep => {
            let steps = texts(parts);
            let name = ident(parts);
            let (mut steps, name) = ended(both(steps, name), parts)?;
            steps.push(name.into_name())?;
            Ok(Part::Texts(steps))
        }
        other => make_content(alloc, other, parts),
    }
}
