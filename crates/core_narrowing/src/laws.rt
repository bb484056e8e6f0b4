//! Laws of units as modules of the whole language. Each function states one, and does nothing.

ghost use Rattle.core_narrowing.specs.Laws.{ModulesAreOneUnit, UnitsPrintAlike};

/// A unit is printed as the module of the whole language that it is.
pub fn units_print_alike()
    ensures { UnitsPrintAlike }
{}

/// A module of the whole language is one unit at most.
pub fn modules_are_one_unit()
    ensures { ModulesAreOneUnit }
{}
