//! The first declaration on a ring.

ghost use Rattle.std.specs.Prelude.{◌≡◌, ℕ, ◌<◌, ◌≤◌, true, false, length, IfOk, OnOk, IsTrue, ◌↔◌, IfNone, IfSome, slice_index};
ghost use Rattle.std.specs.List.{Contains};
ghost use Rattle.wesl_cycles.specs.Rings.{Leads, IsOnRing, IsFirstOnRing};
ghost use Rattle.wesl_cycles.specs.Searches.{IsMarked, Adds, PassesBy, Visits, VisitsRow, AreRanks};

use crate::ranks::ranked;
use std::alloc::{AllocError, Global};
use wgsl_base::Items;

/// Marks a declaration as reached.
fn reach(position: usize, seen: &mut [bool], reached: &mut Vec<usize>) -> Result<(), AllocError>
    requires { IsMarked seen.old reached.old.items }
    ensures marked { OnOk result (IsMarked seen.new reached.new.items) }
    ensures adds { OnOk result (Adds position reached.old.items reached.new.items) }
    ensures there { OnOk result (position < length seen.old → Contains reached.new.items position) }
{
    if position < seen.len() && !seen[position] {
        reached.push(position)?;
        seen[position] = true;
    }
    Ok(())
}

/// Reaches a declaration; whether that is the start.
fn pass(
    position: usize,
    start: usize,
    seen: &mut [bool],
    reached: &mut Vec<usize>,
) -> Result<bool, AllocError>
    requires { IsMarked seen.old reached.old.items }
    ensures marked { IfOk result (λ back. back ≡ false → IsMarked seen.new reached.new.items) }
    ensures passes { IfOk result (λ back. back ≡ false → PassesBy position start (length seen.old) reached.old.items reached.new.items) }
    ensures back { IfOk result (λ back. back ≡ true → position ≡ start) }
{
    if position == start {
        return Ok(true);
    }
    reach(position, seen, reached)?;
    Ok(false)
}

/// Reaches the declarations in a row, until one of them is the start.
fn visit(
    row: &[usize],
    start: usize,
    seen: &mut [bool],
    reached: &mut Vec<usize>,
) -> Result<bool, AllocError>
    requires { IsMarked seen.old reached.old.items }
    ensures marked { IfOk result (λ back. back ≡ false → IsMarked seen.new reached.new.items) }
    ensures visits { IfOk result (λ back. back ≡ false → Visits row.now start (length seen.old) reached.old.items reached.new.items) }
    ensures back { IfOk result (λ back. back ≡ true → Contains row.now start) }
{
    for position in row {
        if pass(*position, start, seen, reached)? {
            return Ok(true);
        }
    }
    Ok(false)
}

/// Reaches what a declaration leads to, until that is the start.
fn visit_row(
    rows: &[Items<usize>],
    position: usize,
    start: usize,
    seen: &mut [bool],
    reached: &mut Vec<usize>,
) -> Result<bool, AllocError>
    requires sized { length seen.old ≡ length rows.now }
    requires marked { IsMarked seen.old reached.old.items }
    ensures marked { IfOk result (λ back. back ≡ false → IsMarked seen.new reached.new.items) }
    ensures visits { IfOk result (λ back. back ≡ false → VisitsRow rows.now position start reached.old.items reached.new.items) }
    ensures back { IfOk result (λ back. back ≡ true → Leads rows.now position start) }
{
    match rows.get(position) {
        None => Ok(false),
        Some(row) => visit(row.as_slice(), start, seen, reached),
    }
}

/// Whether a chain of mentions leads a declaration back to itself.
fn leads_back(alloc: Global, rows: &[Items<usize>], start: usize) -> Result<bool, AllocError>
    ensures { IfOk result (λ back. IsTrue back ↔ IsOnRing rows.now start) }
{
    let mut marks = vec![in alloc; false; rows.len()]?;
    let seen = marks.as_mut_slice();
    let mut reached = Vec::new(alloc);
    reached.push(start)?;
    for at in 0..usize::MAX {
        if at == reached.len() {
            return Ok(false);
        }
        let position = reached[at];
        if visit_row(rows, position, start, seen, &mut reached)? {
            return Ok(true);
        }
    }
    // Memory has no room for so many.
    let _all = reached.as_slice();
    unreachable!()
}

fn rank_of(ranks: &[usize], position: usize) -> usize
    ensures { result ≡ slice_index ranks.now position }
{
    if position < ranks.len() {
        ranks[position]
    } else {
        0
    }
}

/// Whether no declaration in a row has a rank past this one.
fn is_row_under(ranks: &[usize], rank: usize, row: &[usize]) -> bool
    ensures { IsTrue result → (j : ℕ) → Contains row.now j → slice_index ranks.now j ≤ rank }
{
    for position in row {
        if rank_of(ranks, *position) > rank {
            return false;
        }
    }
    true
}

/// Whether each declaration in a row has a rank before this one.
fn is_row_below(ranks: &[usize], rank: usize, row: &[usize]) -> bool
    ensures { IsTrue result → (j : ℕ) → Contains row.now j → slice_index ranks.now j < rank }
{
    for position in row {
        if rank_of(ranks, *position) >= rank {
            return false;
        }
    }
    true
}

/// Whether no declaration leads to one of a higher rank.
fn are_ranks(ranks: &[usize], rows: &[Items<usize>]) -> bool
    ensures { IsTrue result → AreRanks ranks.now rows.now }
{
    for (at, row) in rows.iter().enumerate() {
        if !is_row_under(ranks, rank_of(ranks, at), row.as_slice()) {
            return false;
        }
    }
    true
}

/// Whether a declaration is on a ring. A search is needed only where it leads to one of its own rank.
fn is_on_ring(
    alloc: Global,
    rows: &[Items<usize>],
    ranks: &[usize],
    trusted: bool,
    position: usize,
) -> Result<bool, AllocError>
    requires within { position < length rows.now }
    requires trusted { IsTrue trusted → AreRanks ranks.now rows.now }
    ensures { IfOk result (λ back. IsTrue back ↔ IsOnRing rows.now position) }
{
    let row = rows[position].as_slice();
    if trusted && is_row_below(ranks, rank_of(ranks, position), row) {
        return Ok(false);
    }
    leads_back(alloc, rows, position)
}

/// The number of the first declaration that a chain of mentions leads back to itself.
pub fn first_on_ring(alloc: Global, rows: &[Items<usize>]) -> Result<Option<usize>, AllocError>
    ensures none { IfOk result (λ found. IfNone found ((i : ℕ) → IsOnRing rows.now i → ⊥)) }
    ensures first { IfOk result (λ found. IfSome found (IsFirstOnRing rows.now)) }
    ensures within { IfOk result (λ found. IfSome found (λ i. i < length rows.now)) }
{
    let ranks = ranked(alloc, rows)?;
    let ranks = ranks.as_slice();
    let trusted = are_ranks(ranks, rows);
    for position in 0..rows.len() {
        if is_on_ring(alloc, rows, ranks, trusted, position)? {
            return Ok(Some(position));
        }
    }
    Ok(None)
}
