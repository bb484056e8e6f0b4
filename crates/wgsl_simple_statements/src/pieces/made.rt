//! Values that are made of one that was made or refused, so that a caller has no early return for it.

ghost use Rattle.std.specs.Prelude.{◌≡◌, ◌++◌, [], ◌∷◌, IfOk, IsOkAnd, Some};

use std::alloc::{AllocError, Global};
use wgsl_expressions::{FromIn, Items, Span, Spanned};

/// What is made of the value.
pub fn converted<T: Drop, S: From<T>>(made: Result<T, AllocError>) -> Result<S, AllocError>
    ensures { IfOk result (λ s. IsOkAnd made (λ x. S.From.from_gives x s)) }
{
    Ok(S::from(made?))
}

/// What is made of the value in fresh memory.
pub fn converted_in<T: Drop, S: FromIn<T>>(
    made: Result<T, AllocError>,
    alloc: Global,
) -> Result<S, AllocError>
    ensures { IfOk result (λ s. IsOkAnd made (λ x. S.FromIn.from_in_gives x s)) }
{
    S::from_in(alloc, made?)
}

/// The value with its place.
pub fn spanned<T: Drop>(
    made: Result<T, AllocError>,
    span: Span,
    alloc: Global,
) -> Result<Spanned<T>, AllocError>
    ensures { IfOk result (λ s. IsOkAnd made (λ x. s ≡ record { node = x; span = span })) }
{
    Spanned::new(alloc, made?, span)
}

/// The value, where one may be absent.
pub fn present<T: Drop>(made: Result<T, AllocError>) -> Result<Option<T>, AllocError>
    ensures { IfOk result (λ o. IsOkAnd made (λ x. o ≡ Some x)) }
{
    Ok(Some(made?))
}

/// Adds the value at the end.
pub fn push_made<T: Drop>(
    items: &mut Items<T>,
    made: Result<T, AllocError>,
) -> Result<(), AllocError>
    ensures { IfOk result (λ _. IsOkAnd made (λ x. items.new ≡ items.old ++ x ∷ [])) }
{
    items.push(made?)
}
