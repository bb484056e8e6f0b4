//! Values that are each made or refused on their own, taken together. What was made is held as a `Result` until all parts are, so that a
//! caller has one early return, with nothing of its own to drop.

ghost use Rattle.std.specs.Prelude.{◌≡◌, IfOk, Ok};

use std::alloc::AllocError;

/// Both of what was made.
pub fn both<A: Drop, B: Drop>(
    a: Result<A, AllocError>,
    b: Result<B, AllocError>,
) -> Result<(A, B), AllocError>
    ensures { IfOk result (λ pair. (a ≡ Ok pair.0) × (b ≡ Ok pair.1)) }
{
    let a = a?;
    let b = b?;
    Ok((a, b))
}

/// All three.
pub fn three<A: Drop, B: Drop, C: Drop>(
    a: Result<A, AllocError>,
    b: Result<B, AllocError>,
    c: Result<C, AllocError>,
) -> Result<(A, B, C), AllocError>
    ensures { IfOk result (λ made. (a ≡ Ok made.0) × (b ≡ Ok made.1) × (c ≡ Ok made.2)) }
{
    let (a, (b, c)) = both(a, both(b, c))?;
    Ok((a, b, c))
}
