//! Laws of linked modules. Each function states its law and does nothing.

ghost use Rattle.core_modules_meaning.specs.Agreement.{ClashesAreOne, HoldsOfAlikeModules, ListedModulesAreAlike, OnlyAskedUnitsCount};
ghost use Rattle.core_modules_meaning.specs.Asked.{OnlyWhatIsAskedCounts};
ghost use Rattle.core_modules_meaning.specs.Declared.{LinkedUnitsDeclareWhatIsHeld};
ghost use Rattle.core_modules_meaning.specs.Determined.{LoadingComesToOne};
ghost use Rattle.core_modules_meaning.specs.Example.{PremisesAreMet};
ghost use Rattle.core_modules_meaning.specs.Executions.{LinkedModulesHaveOne, LinkedUnitsEndLikewise};
ghost use Rattle.core_modules_meaning.specs.Runs.{WhatIsLoaded};
ghost use Rattle.core_modules_meaning.specs.Same.{OrderOfModulesDoesNotCount};
ghost use Rattle.core_modules_meaning.specs.Unique.{LinkedUnitsAreOne};

use wesl_resolve::Resolver;

/// A run of a kept name ends well in the linked unit, within so many steps, exactly where it does in the modules, with the same answer.
pub fn linked_units_end_likewise()
    ensures { LinkedUnitsEndLikewise }
{}

/// Modules that are linked have a program.
pub fn linked_modules_have_one()
    ensures { LinkedModulesHaveOne }
{}

/// Modules that loading comes to are what is found at their paths; they are apart, have each name once, and all that occurs in what
/// is reached is there.
pub fn what_is_loaded<R: Resolver>()
    ensures { (resolver : R) → WhatIsLoaded (R.answers resolver) }
{}

/// The linked unit declares what is held, each once under its printed name, and scope alone gives each occurrence what it denoted.
pub fn linked_units_declare_what_is_held()
    ensures { LinkedUnitsDeclareWhatIsHeld }
{}

/// Loaded modules are linked into one unit alone.
pub fn linked_units_are_one()
    ensures { LinkedUnitsAreOne }
{}

/// Loading comes to one refusal, or to the same units at the same printed paths.
pub fn loading_comes_to_one<R: Resolver>()
    ensures { (resolver : R) → LoadingComesToOne (R.answers resolver) }
{}

/// Sources that agree on the paths that are asked of one of them come to the same refusal, or to the same units.
pub fn only_what_is_asked_counts<R: Resolver, S: Resolver>()
    ensures { (one : R) (other : S) → OnlyWhatIsAskedCounts (R.answers one) (S.answers other) }
{}

/// Sources of which the other finds each unit that is asked of the one, load the same units at the same printed paths.
pub fn only_asked_units_count<R: Resolver, S: Resolver>()
    ensures { (one : R) (other : S) → OnlyAskedUnitsCount (R.answers one) (S.answers other) }
{}

/// Modules that are listed alike differ at most in the root's path, where imports name them by paths that are told apart.
pub fn listed_modules_are_alike<R: Resolver>()
    ensures { (resolver : R) → ListedModulesAreAlike (R.answers resolver) }
{}

/// Modules that differ at most in the root's path are linked alike, clash alike, and hold the same.
pub fn holds_of_alike_modules()
    ensures { HoldsOfAlikeModules }
{}

/// Loaded modules have one first clash, or none.
pub fn clashes_are_one()
    ensures { ClashesAreOne }
{}

/// What holds of modules, and what they are refused for, doesn't depend on the order of their list.
pub fn order_of_modules_does_not_count()
    ensures { OrderOfModulesDoesNotCount }
{}

/// There are modules that meet the premises of these laws, with a run that ends well.
pub fn premises_are_met()
    ensures { PremisesAreMet }
{}
