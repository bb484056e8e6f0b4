//! What a declaration leads to.

ghost use Rattle.std.specs.Prelude.{◌≡◌, ℕ, ◌<◌, length, IfOk, OnOk, IsTrue, ◌↔◌};
ghost use Rattle.std.specs.List.{slice_index_or};
ghost use Rattle.core_order.specs.Searches.{IsOn, IsMarked, Targets, Adds, IsMet, PassesBy, Visits, VisitsRow, Reaches};

use core_validate::{Meaning, Place, Row};
use std::alloc::{AllocError, Global};

/// Whether a position is marked.
pub fn is_on(marks: &[bool], position: usize) -> bool
    ensures { IsTrue result ↔ IsOn marks.now position }
{
    position < marks.len() && marks[position]
}

/// Whether every declaration that some places denote is settled.
pub fn denote_settled(places: &[Place], settled: &[bool]) -> bool
    ensures { IsTrue result → (j : ℕ) → Targets places.now j → IsOn settled.now j }
{
    for place in places {
        if let Meaning::Global(position) = place.meaning {
            if !is_on(settled, position) {
                return false;
            }
        }
    }
    true
}

/// Marks a declaration as reached, where it is not settled.
fn reach(
    position: usize,
    settled: &[bool],
    seen: &mut [bool],
    reached: &mut Vec<usize>,
) -> Result<(), AllocError>
    requires { IsMarked seen.old reached.old.items }
    ensures marked { OnOk result (IsMarked seen.new reached.new.items) }
    ensures adds { OnOk result (Adds position reached.old.items reached.new.items) }
    ensures there { OnOk result (position < length seen.old → IsMet settled.now reached.new.items position) }
{
    if position < seen.len() && !seen[position] && !is_on(settled, position) {
        reached.push(position)?;
        seen[position] = true;
    }
    Ok(())
}

/// Reaches what a place denotes.
fn pass(
    place: &Place,
    settled: &[bool],
    seen: &mut [bool],
    reached: &mut Vec<usize>,
) -> Result<(), AllocError>
    requires { IsMarked seen.old reached.old.items }
    ensures marked { OnOk result (IsMarked seen.new reached.new.items) }
    ensures passes { OnOk result (PassesBy place.now.meaning settled.now (length seen.old) reached.old.items reached.new.items) }
{
    match place.meaning {
        Meaning::Global(position) => reach(position, settled, seen, reached),
        Meaning::Local | Meaning::Free => Ok(()),
    }
}

/// Reaches what some places denote.
fn visit(
    places: &[Place],
    settled: &[bool],
    seen: &mut [bool],
    reached: &mut Vec<usize>,
) -> Result<(), AllocError>
    requires { IsMarked seen.old reached.old.items }
    ensures marked { OnOk result (IsMarked seen.new reached.new.items) }
    ensures visits { OnOk result (Visits places.now settled.now (length seen.old) reached.old.items reached.new.items) }
{
    for place in places {
        pass(place, settled, seen, reached)?;
    }
    Ok(())
}

/// Reaches what a declaration leads to by one occurrence.
fn visit_row(
    rows: &[Row],
    position: usize,
    settled: &[bool],
    seen: &mut [bool],
    reached: &mut Vec<usize>,
) -> Result<(), AllocError>
    requires sized { length seen.old ≡ length rows.now }
    requires marked { IsMarked seen.old reached.old.items }
    ensures marked { OnOk result (IsMarked seen.new reached.new.items) }
    ensures visits { OnOk result (VisitsRow rows.now position settled.now reached.old.items reached.new.items) }
{
    match rows.get(position) {
        None => Ok(()),
        Some(row) => visit(row.places.as_slice(), settled, seen, reached),
    }
}

/// Marks what a declaration leads to, but for what is settled and what only settled ones lead to.
fn search(
    alloc: Global,
    rows: &[Row],
    start: usize,
    settled: &[bool],
    seen: &mut [bool],
) -> Result<(), AllocError>
    requires sized { length seen.old ≡ length rows.now }
    requires unmarked { (j : ℕ) → ¬ IsOn seen.old j }
    ensures { OnOk result (Reaches rows.now start settled.now seen.new) }
{
    let mut reached = Vec::new(alloc);
    visit_row(rows, start, settled, seen, &mut reached)?;
    for at in 0..usize::MAX {
        if at == reached.len() {
            return Ok(());
        }
        let position = reached[at];
        visit_row(rows, position, settled, seen, &mut reached)?;
    }
    // Memory has no room for so many.
    let _all = reached.as_slice();
    unreachable!()
}

/// Marks of what a declaration leads to, but for what is settled and what only settled ones lead to.
pub fn reached_from(
    alloc: Global,
    rows: &[Row],
    start: usize,
    settled: &[bool],
) -> Result<Vec<bool>, AllocError>
    ensures { IfOk result (λ marks. Reaches rows.now start settled.now marks.items) }
{
    let mut marks = vec![in alloc; false; rows.len()]?;
    search(alloc, rows, start, settled, marks.as_mut_slice())?;
    Ok(marks)
}
