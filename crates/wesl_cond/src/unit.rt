//! Feature flags fixed ahead in a module.

ghost use Rattle.std.specs.Prelude.{◌≡◌, None, OnOk, OnErr};
ghost use Rattle.wgsl_declarations.specs.View.{unit_tree};
ghost use Rattle.wesl_conditions.specs.Trees.{unit_left};
ghost use Rattle.wesl_conditions.specs.Faults.{unit_fault};
ghost use Rattle.wesl_conditions.specs.Told.{TellsFault};
ghost use Rattle.wesl_cond.specs.Laws.{MeanTheSame};

use crate::check::check_unit;
use crate::settle::settle_unit;
use std::alloc::Global;
use wesl_conditions::{CondCompError, Features};
use wgsl_declarations::TranslationUnit;

/// Fixes feature flags ahead (WESL, "Conditional Translation"): in each list of items the false ones go, a true one loses its condition and ends
/// its chain, and what features leave of the other conditions stays. What is left means the same under each choice that the features admit,
/// has no error, and is left unchanged by the same features.
///
/// An error is the first of the module's conditions, or that memory was refused. Then the module is unchanged.
pub fn run(
    alloc: Global,
    unit: &mut TranslationUnit,
    features: &Features,
) -> Result<(), CondCompError>
    ensures fault { TellsFault (unit_fault features.now (unit_tree unit.old)) result }
    ensures left { OnOk result (unit_tree unit.new ≡ unit_left features.now (unit_tree unit.old)) }
    ensures meaning { OnOk result (MeanTheSame features.now (unit_tree unit.new) (unit_tree unit.old)) }
    ensures faultless { OnOk result (unit_fault features.now (unit_tree unit.new) ≡ None) }
    ensures settled { OnOk result (unit_left features.now (unit_tree unit.new) ≡ unit_tree unit.new) }
    ensures unchanged { OnErr result (unit.new ≡ unit.old) }
{
    check_unit(alloc, unit, features)?;
    settle_unit(unit, features);
    Ok(())
}
