//! Names that nothing declares, and calls.

ghost use Rattle.std.specs.Prelude.{◌≡◌};
ghost use Rattle.std.specs.List.{flat_map};
ghost use Rattle.core_validate.specs.Lookups.{texts};
ghost use Rattle.core_validate.specs.Faults.{undefined_at, miscall_at, call_fault, called_fault, faults_at, Finds};

use crate::error::{ValidateError, ValidateFault, refused};
use crate::place::{Meaning, Place, Row};
use std::alloc::Global;
use wgsl_base::OrOutOfMemory;
use wgsl_words::is_known;

fn check_name(
    alloc: Global,
    holder: &str,
    place: &Place,
    table: &[&str],
) -> Result<(), OrOutOfMemory<ValidateFault>>
    ensures { Finds (undefined_at (texts table.now) holder.now place.now) result }
{
    match place.meaning {
        Meaning::Free if !is_known(place.name.as_str(), table) => {
            Err(refused(
                alloc,
                ValidateError::UndefinedSymbol,
                holder,
                place.name.as_str(),
            ))
        }
        _ => Ok(()),
    }
}

fn check_names_in(
    alloc: Global,
    row: &Row,
    table: &[&str],
) -> Result<(), OrOutOfMemory<ValidateFault>>
    ensures { Finds (flat_map (undefined_at (texts table.now) row.now.name) row.now.places) result }
{
    for place in row.places.as_slice() {
        check_name(alloc, row.name.as_str(), place, table)?;
    }
    Ok(())
}

/// Refuses the first name that is free and not in the table.
pub fn check_names(
    alloc: Global,
    rows: &[Row],
    table: &[&str],
) -> Result<(), OrOutOfMemory<ValidateFault>>
    ensures { Finds (faults_at (undefined_at (texts table.now)) rows.now) result }
{
    for row in rows {
        check_names_in(alloc, row, table)?;
    }
    Ok(())
}

fn called_fault(rows: &[Row], arguments: usize, meaning: Meaning) -> Option<ValidateError>
    ensures { result ≡ called_fault rows.now arguments meaning }
{
    match meaning {
        Meaning::Local => Some(ValidateError::NotCallable),
        Meaning::Global(position) => match rows.get(position)?.parameters {
            None => Some(ValidateError::NotCallable),
            Some(parameters) if arguments == parameters => None,
            Some(_) => Some(ValidateError::ParamCount),
        },
        Meaning::Free => None,
    }
}

fn check_call(
    alloc: Global,
    rows: &[Row],
    holder: &str,
    place: &Place,
) -> Result<(), OrOutOfMemory<ValidateFault>>
    ensures { Finds (miscall_at rows.now holder.now place.now) result }
{
    let Some(arguments) = place.arguments else {
        return Ok(());
    };
    match called_fault(rows, arguments, place.meaning) {
        None => Ok(()),
        Some(kind) => Err(refused(alloc, kind, holder, place.name.as_str())),
    }
}

fn check_calls_in(
    alloc: Global,
    rows: &[Row],
    row: &Row,
) -> Result<(), OrOutOfMemory<ValidateFault>>
    ensures { Finds (flat_map (miscall_at rows.now row.now.name) row.now.places) result }
{
    for place in row.places.as_slice() {
        check_call(alloc, rows, row.name.as_str(), place)?;
    }
    Ok(())
}

/// Refuses the first call of what is no function, or with another number of arguments than the function has parameters.
pub fn check_calls(alloc: Global, rows: &[Row]) -> Result<(), OrOutOfMemory<ValidateFault>>
    ensures { Finds (faults_at (miscall_at rows.now) rows.now) result }
{
    for row in rows {
        check_calls_in(alloc, rows, row)?;
    }
    Ok(())
}
