//! A module's tree that is held.

ghost use Rattle.std.specs.Prelude.{◌≡◌};

use std::marker::Model;
use wgsl_declarations::{TranslationUnit, let_go};

/// A module's tree, which contracts see as itself. Whoever drops one need not prove the drop of all trees again.
pub struct HeldUnit {
    unit: TranslationUnit,
}

impl Model for HeldUnit {
    ghost use Rattle.wgsl_declarations.specs.declared.unit.TranslationUnit.{TranslationUnit};
    ghost use Rattle.wgsl_declarations.specs.contracts.unit.TranslationUnit.{the_row};

    ghost Value = { TranslationUnit };

    ghost coded = { the_row.coded };

    ghost view = { λ h. h.unit };
}

impl HeldUnit {
    pub fn new(unit: TranslationUnit) -> HeldUnit
        ensures { result ≡ unit }
    {
        HeldUnit { unit }
    }

    pub fn into_inner(self) -> TranslationUnit
        ensures { result ≡ self }
    {
        let HeldUnit { unit } = self;
        unit
    }

    pub fn get(&self) -> &TranslationUnit
        ensures { result.now ≡ self.now }
    {
        &self.unit
    }

    pub fn get_mut(&mut self) -> &mut TranslationUnit {
        &mut self.unit
    }
}

impl Drop for HeldUnit {
    fn drop(self) {
        let HeldUnit { unit } = self;
        let_go(unit);
    }
}
