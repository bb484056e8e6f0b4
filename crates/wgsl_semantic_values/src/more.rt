//! Lists with one more item.

ghost use Rattle.std.specs.Prelude.{◌≡◌, ◌∷◌, ◌++◌, [], IfOk};
ghost use Rattle.wgsl_semantic_values.specs.Lists as making;

use crate::part::Part;
use crate::take::misfit;
use std::alloc::AllocError;
use wgsl_base::Items;
use wgsl_token::fault::Refusal;

fn pushed<T: Drop>(items: Items<T>, item: T) -> Result<Items<T>, AllocError>
    ensures { IfOk result (λ pushed. pushed ≡ items ++ item ∷ []) }
{
    let mut pushed = items;
    pushed.push(item)?;
    Ok(pushed)
}

/// Two parts that do not fit.
fn misfits(list: Part, part: Part) -> Result<Part, Refusal>
    ensures { IfOk result (λ _. ⊥) }
{
    match misfit(list) {
        Ok(()) => misfit(part),
        Err(_) => misfit(part),
    }
}

/// A list, and one more.
pub(crate) fn joined(list: Part, part: Part) -> Result<Part, Refusal>
    ensures { IfOk result (λ made. made ≡ making.joined list part) }
{
    match (list, part) {
        (Part::Expressions(xs), Part::Expression(x)) => Ok(Part::Expressions(pushed(xs, x)?)),
        (Part::Attributes(xs), Part::Attribute(x)) => Ok(Part::Attributes(pushed(xs, x)?)),
        (Part::Statements(xs), Part::Statement(x)) => Ok(Part::Statements(pushed(xs, x)?)),
        (Part::ElseIfs(xs), Part::ElseIf(x)) => Ok(Part::ElseIfs(pushed(xs, x)?)),
        (Part::Clauses(xs), Part::Clause(x)) => Ok(Part::Clauses(pushed(xs, x.into_inner())?)),
        (Part::Selectors(xs), Part::Selector(x)) => Ok(Part::Selectors(pushed(xs, x)?)),
        (Part::Trees(xs), Part::Tree(x)) => Ok(Part::Trees(pushed(xs, x.into_inner())?)),
        (Part::Texts(xs), Part::Text(x)) => Ok(Part::Texts(pushed(xs, x)?)),
        (Part::Imports(xs), Part::Import(x)) => Ok(Part::Imports(pushed(xs, x.into_inner())?)),
        (Part::Directives(xs), Part::Directive(x)) => {
            Ok(Part::Directives(pushed(xs, x.into_inner())?))
        }
        (Part::Globals(xs), Part::Global(x)) => Ok(Part::Globals(pushed(xs, x)?)),
        (Part::Members(xs), Part::Member(x)) => Ok(Part::Members(pushed(xs, x)?)),
        (Part::Parameters(xs), Part::Parameter(x)) => {
            Ok(Part::Parameters(pushed(xs, x.into_inner())?))
        }
        (list, part) => misfits(list, part),
    }
}
