//! Parts that are passed on, and lists.

ghost use Rattle.std.specs.Prelude.{◌≡◌, ◌∷◌, [], IfOk};
ghost use Rattle.wgsl_semantic_values.specs.Lists as making;

use crate::held::Held;
use crate::more::joined;
use crate::part::Part;
use crate::take::{end, first, misfit};
use std::alloc::{AllocError, Global};
use wgsl_base::{Items, Stack};
use wgsl_token::fault::Refusal;

/// The one part.
pub fn pass(parts: &mut Stack<Held>) -> Result<Part, Refusal>
    ensures { IfOk result (λ part. part ≡ making.pass parts.old) }
{
    let part = first(parts)?;
    match end(parts) {
        Ok(()) => Ok(part),
        Err(_) => misfit(part),
    }
}

/// A list of one element.
pub fn one<T: Drop>(alloc: Global, item: T) -> Result<Items<T>, AllocError>
    ensures { IfOk result (λ items. items ≡ item ∷ []) }
{
    let mut items = Items::new(alloc);
    items.push(item)?;
    Ok(items)
}

/// A list of the one part.
pub fn make_first(alloc: Global, parts: &mut Stack<Held>) -> Result<Part, Refusal>
    ensures { IfOk result (λ part. part ≡ making.make_first parts.old) }
{
    match pass(parts)? {
        Part::Expression(x) => Ok(Part::Expressions(one(alloc, x)?)),
        Part::Attribute(x) => Ok(Part::Attributes(one(alloc, x)?)),
        Part::Statement(x) => Ok(Part::Statements(one(alloc, x)?)),
        Part::ElseIf(x) => Ok(Part::ElseIfs(one(alloc, x)?)),
        Part::Clause(x) => Ok(Part::Clauses(one(alloc, x.into_inner())?)),
        Part::Selector(x) => Ok(Part::Selectors(one(alloc, x)?)),
        Part::Tree(x) => Ok(Part::Trees(one(alloc, x.into_inner())?)),
        Part::Text(x) => Ok(Part::Texts(one(alloc, x)?)),
        Part::Import(x) => Ok(Part::Imports(one(alloc, x.into_inner())?)),
        Part::Directive(x) => Ok(Part::Directives(one(alloc, x.into_inner())?)),
        Part::Global(x) => Ok(Part::Globals(one(alloc, x)?)),
        Part::Member(x) => Ok(Part::Members(one(alloc, x)?)),
        Part::Parameter(x) => Ok(Part::Parameters(one(alloc, x.into_inner())?)),
        other => misfit(other),
    }
}

/// A list, and one more.
pub fn make_more(parts: &mut Stack<Held>) -> Result<Part, Refusal>
    ensures { IfOk result (λ part. part ≡ making.make_more parts.old) }
{
    let list = first(parts)?;
    match pass(parts) {
        Ok(part) => joined(list, part),
        Err(_) => misfit(list),
    }
}
