//! The first fault of a linked unit.

ghost use Rattle.std.specs.Prelude.{OnOk, IfErr};
ghost use Rattle.wgsl_base.specs.Memory.{UnlessOutOfMemory};
ghost use Rattle.core_syntax.specs.View.{unit_tree};
ghost use Rattle.core_validate.specs.Lookups.{texts};
ghost use Rattle.core_validate.specs.Faults.{FindsRing, IsFaultless, IsFirstFault};

use crate::check::{check_calls, check_names};
use crate::error::{ValidateError, ValidateFault, refused};
use crate::index::{check_duplicates, first_positions};
use crate::place::{Row, rows};
use crate::ring::first_on_ring;
use core_syntax::TranslationUnit;
use std::alloc::Global;
use wgsl_base::OrOutOfMemory;

fn check_rings(alloc: Global, rows: &[Row]) -> Result<(), OrOutOfMemory<ValidateFault>>
    ensures { FindsRing rows.now result }
{
    let Some(position) = first_on_ring(alloc, rows)? else {
        return Ok(());
    };
    let name = rows[position].name.as_str();
    Err(refused(alloc, ValidateError::Cycle, name, name))
}

/// Whether a linked unit, one module without imports, is faultless; else its first fault. The cases in their order:
/// parameters of one name, free names that the table doesn't have, wrong calls, rings of declarations; each in text order.
/// Where two declarations have one name, it denotes the first: that they share it is left to `unclear_name`.
pub fn validate_wesl(
    alloc: Global,
    unit: &TranslationUnit,
    names: &[&str],
) -> Result<(), OrOutOfMemory<ValidateFault>>
    ensures ok { OnOk result (IsFaultless (unit_tree unit.now) (texts names.now)) }
    ensures fault { IfErr result (UnlessOutOfMemory (IsFirstFault (unit_tree unit.now) (texts names.now))) }
{
    let declarations = unit.global_declarations.as_slice();
    check_duplicates(alloc, declarations)?;
    let index = first_positions(alloc, declarations)?;
    let rows = rows(alloc, &index, declarations)?;
    let rows = rows.as_slice();
    check_names(alloc, rows, names)?;
    check_calls(alloc, rows)?;
    check_rings(alloc, rows)
}
