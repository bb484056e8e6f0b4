//! Laws of lowering. Each function states its law and does nothing.

ghost use Rattle.core_lower.specs.Located.{RefusalsAreInDeclarations};
ghost use Rattle.core_lower.specs.Once.{LoweredOnce};

/// The declaration that lowering is refused for is one that the unit declares.
pub fn refusals_are_in_declarations()
    ensures { RefusalsAreInDeclarations }
{}

/// A unit is lowered to one unit, or has one refusal.
pub fn lowered_once()
    ensures { LoweredOnce }
{}
