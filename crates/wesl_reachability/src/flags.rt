//! Flags of modules and of their places.

ghost use Rattle.std.specs.Prelude.{◌≡◌, false, replicate, IfOk};
ghost use Rattle.wesl_reachability.specs.Cells.{SetsOne, Sets};

use std::alloc::{AllocError, Global};

/// As many flags, none of them set.
pub(crate) fn flags(alloc: Global, count: usize) -> Result<Vec<bool>, AllocError>
    ensures { IfOk result (λ flags. flags.items ≡ replicate count false) }
{
    let mut flags = Vec::new(alloc);
    for _flag in 0..count {
        flags.push(false)?;
    }
    Ok(flags)
}

/// Sets a flag where there is one. Whether it was not set before.
pub(crate) fn set_one(flags: &mut Vec<bool>, at: usize) -> bool
    ensures { SetsOne flags.old.items at flags.new.items result }
{
    if let Some(is_set) = flags.get_mut(at)
        && !*is_set
    {
        *is_set = true;
        return true;
    }
    false
}

/// Sets a flag of a row where there is one. Whether it was not set before.
pub(crate) fn set(rows: &mut Vec<Vec<bool>>, row: usize, at: usize) -> bool
    ensures { Sets rows.old.items row at rows.new.items result }
{
    match rows.get_mut(row) {
        None => false,
        Some(flags) => set_one(flags, at),
    }
}
