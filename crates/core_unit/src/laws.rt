//! Laws of compiled units. Each function states its law and does nothing.

ghost use Rattle.core_unit.specs.Located.{RefusalsAreInDeclarations};
ghost use Rattle.core_unit.specs.Once.{CompiledOnce, RefusedOnce, CompiledOrRefused};

/// A unit has one compiled text.
pub fn compiled_once()
    ensures { CompiledOnce }
{}

/// A unit is refused in one way, memory aside.
pub fn refused_once()
    ensures { RefusedOnce }
{}

/// The declaration that a refusal of a unit names is one that the unit declares.
pub fn refusals_are_in_declarations()
    ensures { RefusalsAreInDeclarations }
{}

/// A unit that is compiled is refused for memory alone.
pub fn compiled_or_refused()
    ensures { CompiledOrRefused }
{}
