//! Laws of texts of the part. Each function states one, and does nothing.

ghost use Rattle.core_texts.specs.Laws.{TextsHaveOneUnit, TextsAreOneThing, UnitsAreReadBack, UnitsAreToldOnce, SameTokensAreTheSameUnit, ImportsOfTextsAreApart};

/// A text is read as one unit at most.
pub fn texts_have_one_unit()
    ensures { TextsHaveOneUnit }
{}

/// A text is a unit of the part, or beyond it, or at fault: no two of these.
pub fn texts_are_one_thing()
    ensures { TextsAreOneThing }
{}

/// Where some text is read as a unit, its printed text is.
pub fn units_are_read_back()
    ensures { UnitsAreReadBack }
{}

/// A unit is told by one name where no text is read as it.
pub fn units_are_told_once()
    ensures { UnitsAreToldOnce }
{}

/// Texts with the same tokens, wherever those stand, are read as the same units.
pub fn same_tokens_are_the_same_unit()
    ensures { SameTokensAreTheSameUnit }
{}

/// Imports of texts that print the paths of their modules alike name one module.
pub fn imports_of_texts_are_apart()
    ensures { ImportsOfTextsAreApart }
{}
