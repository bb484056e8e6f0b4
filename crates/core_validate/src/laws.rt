//! Laws of faults. Each function states its law and does nothing.

ghost use Rattle.core_validate.specs.Located.{FaultsAreInDeclarations};

/// The declaration that a unit's fault names is one that the unit declares.
pub fn faults_are_in_declarations()
    ensures { FaultsAreInDeclarations }
{}
