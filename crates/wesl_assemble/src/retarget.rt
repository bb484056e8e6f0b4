//! Symbol numbers by the scopes of one unit.

use crate::numbering::counted;
use crate::scripts::{Meanings, Meant, script_of};
use std::alloc::{AllocError, Global};
use wesl_load::mark_unit;
use wesl_mark::{Mark, MarkList};
use wesl_marks_mut::write_unit;
use wgsl_declarations::TranslationUnit;

/// Gives each identifier of a unit the number of the symbol that it stands for, by the scopes of the unit: the declarations of the module
/// are numbered in order, local declarations and parameters behind them. A name that nothing declares, or that stands behind a path, has
/// none. Numbers that were there are replaced, so a second call changes nothing. Where memory is refused the unit is unchanged.
pub fn retarget_idents(alloc: Global, unit: &mut TranslationUnit) -> Result<(), AllocError> {
    let mut list = MarkList::new(alloc);
    let _places = mark_unit(alloc, &mut list, unit)?;
    let mut script = {
        let globals = number_declarations(alloc, &list)?;
        let meanings = meanings_in(alloc, &list, globals.as_slice())?;
        script_of(alloc, meanings.meant.as_slice(), &[])?
    };
    write_unit(unit, &mut script);
    Ok(())
}

/// For each name the number of its first declaration of the module.
fn number_declarations(alloc: Global, list: &MarkList) -> Result<Vec<Option<u32>>, AllocError> {
    let mut numbers = Vec::new(alloc);
    for _name in 0..list.name_count() {
        numbers.push(None)?;
    }
    let mut count: usize = 0;
    for mark in list.marks() {
        if let Mark::Declared { name, symbol: _ } = mark {
            let at = *name as usize;
            if at < numbers.len() && numbers[at].is_none() {
                numbers[at] = Some(counted(count)?);
                count = count.saturating_add(1);
            }
        }
    }
    Ok(numbers)
}

fn meanings_in(
    alloc: Global,
    list: &MarkList,
    globals: &[Option<u32>],
) -> Result<Meanings, AllocError> {
    let mut meanings = Meanings::new(alloc, globals.len())?;
    for mark in list.marks() {
        let meant = match mark {
            Mark::Declared { name, symbol: _ } => global(globals, *name),
            Mark::Occurs { reference, .. } => occurring(&meanings, list, globals, *reference),
            _ => {
                meanings.take_in(*mark)?;
                continue;
            }
        };
        meanings.meant.push(meant)?;
    }
    Ok(meanings)
}

fn occurring(
    meanings: &Meanings,
    list: &MarkList,
    globals: &[Option<u32>],
    reference: u32,
) -> Meant {
    match meanings.local(list, reference) {
        Some(symbol) => Meant::Local(symbol),
        None => match list.reference(reference) {
            None => Meant::Free,
            Some(reference) => match &reference.path {
                Some(_) => Meant::Free,
                None => global(globals, reference.name),
            },
        },
    }
}

fn global(globals: &[Option<u32>], name: u32) -> Meant {
    match globals.get(name as usize) {
        Some(Some(symbol)) => Meant::Symbol(*symbol),
        Some(None) | None => Meant::Free,
    }
}
