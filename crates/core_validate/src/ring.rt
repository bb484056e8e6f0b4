//! Rings of declarations.

ghost use Rattle.std.specs.Prelude.{◌≡◌, ℕ, ◌<◌, true, false, length, IfOk, OnOk, IsTrue, ◌↔◌, IfNone, IfSome, slice_index};
ghost use Rattle.std.specs.List.{Contains};
ghost use Rattle.core_validate.specs.Rings.{Leads, IsOnRing, IsFirstOnRing};
ghost use Rattle.core_validate.specs.Searches.{Targets, IsMarked, Adds, PassesBy, Visits, VisitsRow, IsBelow, AreRanks};

use crate::place::{Meaning, Place, Row};
use std::alloc::{AllocError, Global};

/// Marks a declaration as reached.
fn reach(position: usize, seen: &mut [bool], reached: &mut Vec<usize>) -> Result<(), AllocError>
    requires { IsMarked seen.old reached.old.items }
    ensures marked { OnOk result (IsMarked seen.new reached.new.items) }
    ensures adds { OnOk result (Adds position reached.old.items reached.new.items) }
    ensures there { OnOk result (position < length seen.old → Contains reached.new.items position) }
{
    if position < seen.len() && !seen[position] {
        reached.push(position)?;
        seen[position] = true;
    }
    Ok(())
}

/// Reaches what a place denotes; whether that is the start.
fn pass(
    place: &Place,
    start: usize,
    seen: &mut [bool],
    reached: &mut Vec<usize>,
) -> Result<bool, AllocError>
    requires { IsMarked seen.old reached.old.items }
    ensures marked { IfOk result (λ back. back ≡ false → IsMarked seen.new reached.new.items) }
    ensures passes { IfOk result (λ back. back ≡ false → PassesBy place.now.meaning start (length seen.old) reached.old.items reached.new.items) }
    ensures back { IfOk result (λ back. back ≡ true → place.now.meaning ≡ Meaning.Global start) }
{
    match place.meaning {
        Meaning::Global(position) if position == start => Ok(true),
        Meaning::Global(position) => {
            reach(position, seen, reached)?;
            Ok(false)
        }
        Meaning::Local | Meaning::Free => Ok(false),
    }
}

/// Reaches what some places denote, until one of them denotes the start.
fn visit(
    places: &[Place],
    start: usize,
    seen: &mut [bool],
    reached: &mut Vec<usize>,
) -> Result<bool, AllocError>
    requires { IsMarked seen.old reached.old.items }
    ensures marked { IfOk result (λ back. back ≡ false → IsMarked seen.new reached.new.items) }
    ensures visits { IfOk result (λ back. back ≡ false → Visits places.now start (length seen.old) reached.old.items reached.new.items) }
    ensures back { IfOk result (λ back. back ≡ true → Targets places.now start) }
{
    for place in places {
        if pass(place, start, seen, reached)? {
            return Ok(true);
        }
    }
    Ok(false)
}

/// Reaches what a declaration leads to, until that is the start.
fn visit_row(
    rows: &[Row],
    position: usize,
    start: usize,
    seen: &mut [bool],
    reached: &mut Vec<usize>,
) -> Result<bool, AllocError>
    requires sized { length seen.old ≡ length rows.now }
    requires marked { IsMarked seen.old reached.old.items }
    ensures marked { IfOk result (λ back. back ≡ false → IsMarked seen.new reached.new.items) }
    ensures visits { IfOk result (λ back. back ≡ false → VisitsRow rows.now position start reached.old.items reached.new.items) }
    ensures back { IfOk result (λ back. back ≡ true → Leads rows.now position start) }
{
    match rows.get(position) {
        None => Ok(false),
        Some(row) => visit(row.places.as_slice(), start, seen, reached),
    }
}

/// Whether a chain of occurrences leads a declaration back to itself.
fn leads_back(alloc: Global, rows: &[Row], start: usize) -> Result<bool, AllocError>
    ensures { IfOk result (λ back. IsTrue back ↔ IsOnRing rows.now start) }
{
    let mut marks = vec![in alloc; false; rows.len()]?;
    let seen = marks.as_mut_slice();
    let mut reached = Vec::new(alloc);
    reached.push(start)?;
    for at in 0..usize::MAX {
        if at == reached.len() {
            return Ok(false);
        }
        let position = reached[at];
        if visit_row(rows, position, start, seen, &mut reached)? {
            return Ok(true);
        }
    }
    // Memory has no room for so many.
    let _all = reached.as_slice();
    unreachable!()
}

/// For each declaration the declarations that lead to it, once for each occurrence.
fn users(alloc: Global, rows: &[Row]) -> Result<Vec<Vec<usize>>, AllocError> {
    let mut users = Vec::new(alloc);
    for _row in rows {
        users.push(Vec::new(alloc))?;
    }
    for (at, row) in rows.iter().enumerate() {
        for place in row.places.as_slice() {
            add_user(at, place, &mut users)?;
        }
    }
    Ok(users)
}

fn add_user(at: usize, place: &Place, users: &mut [Vec<usize>]) -> Result<(), AllocError> {
    if let Meaning::Global(position) = place.meaning {
        if position < users.len() {
            users[position].push(at)?;
        }
    }
    Ok(())
}

/// How many occurrences of declarations each declaration has.
fn uses(alloc: Global, rows: &[Row]) -> Result<Vec<usize>, AllocError> {
    let mut counts = Vec::new(alloc);
    for row in rows {
        let places = row.places.as_slice();
        counts.push(
            places
                .iter()
                .filter(|place| matches!(place.meaning, Meaning::Global(_)))
                .count(),
        )?;
    }
    Ok(counts)
}

/// Takes an occurrence off each of these declarations, and lists those that have none left.
fn settle(
    users: &[usize],
    waiting: &mut [usize],
    order: &mut Vec<usize>,
) -> Result<(), AllocError> {
    for user in users {
        let user = *user;
        if user < waiting.len() {
            waiting[user] = waiting[user].saturating_sub(1);
            if waiting[user] == 0 {
                order.push(user)?;
            }
        }
    }
    Ok(())
}

/// Ranks from 1 on, such that each ranked declaration leads only to ones of a lower rank; 0 for those that lead to a ring.
/// No contract says so: `are_ranks` tests it.
fn ranked(alloc: Global, rows: &[Row]) -> Result<Vec<usize>, AllocError> {
    let users = users(alloc, rows)?;
    let mut waiting = uses(alloc, rows)?;
    let mut order = Vec::new(alloc);
    for (at, count) in waiting.iter().enumerate() {
        if *count == 0 {
            order.push(at)?;
        }
    }
    let mut ranks = vec![in alloc; 0; rows.len()]?;
    for rank in 0..rows.len() {
        let Some(position) = order.get(rank).copied() else {
            break;
        };
        if position < ranks.len() && position < users.len() {
            ranks[position] = rank + 1;
            settle(users[position].as_slice(), &mut waiting, &mut order)?;
        }
    }
    Ok(ranks)
}

fn rank_of(ranks: &[usize], position: usize) -> usize
    ensures { result ≡ slice_index ranks.now position }
{
    if position < ranks.len() {
        ranks[position]
    } else {
        0
    }
}

fn is_place_below(ranks: &[usize], rank: usize, place: &Place) -> bool
    ensures { IsTrue result → (j : ℕ) → place.now.meaning ≡ Meaning.Global j → IsBelow ranks.now rank j }
{
    match place.meaning {
        Meaning::Global(position) => {
            let lower = rank_of(ranks, position);
            0 < lower && lower < rank
        }
        Meaning::Local | Meaning::Free => true,
    }
}

fn is_row_below(ranks: &[usize], rank: usize, places: &[Place]) -> bool
    ensures { IsTrue result → (j : ℕ) → Targets places.now j → IsBelow ranks.now rank j }
{
    for place in places {
        if !is_place_below(ranks, rank, place) {
            return false;
        }
    }
    true
}

fn is_row_ranked(ranks: &[usize], position: usize, row: &Row) -> bool
    ensures { IsTrue result → (j : ℕ) → Targets row.now.places j → 0 < slice_index ranks.now position → IsBelow ranks.now (slice_index ranks.now position) j }
{
    let rank = rank_of(ranks, position);
    rank == 0 || is_row_below(ranks, rank, row.places.as_slice())
}

/// Whether each ranked declaration leads only to ones of a lower rank.
fn are_ranks(ranks: &[usize], rows: &[Row]) -> bool
    ensures { IsTrue result → AreRanks ranks.now rows.now }
{
    for (at, row) in rows.iter().enumerate() {
        if !is_row_ranked(ranks, at, row) {
            return false;
        }
    }
    true
}

/// Whether a declaration is on a ring. A search is needed only where it has no rank.
fn is_on_ring(
    alloc: Global,
    rows: &[Row],
    ranks: &[usize],
    trusted: bool,
    position: usize,
) -> Result<bool, AllocError>
    requires { IsTrue trusted → AreRanks ranks.now rows.now }
    ensures { IfOk result (λ back. IsTrue back ↔ IsOnRing rows.now position) }
{
    if trusted && 0 < rank_of(ranks, position) {
        return Ok(false);
    }
    leads_back(alloc, rows, position)
}

/// The position of the first declaration that a chain of occurrences leads back to itself.
pub fn first_on_ring(alloc: Global, rows: &[Row]) -> Result<Option<usize>, AllocError>
    ensures none { IfOk result (λ found. IfNone found ((i : ℕ) → IsOnRing rows.now i → ⊥)) }
    ensures first { IfOk result (λ found. IfSome found (IsFirstOnRing rows.now)) }
    ensures within { IfOk result (λ found. IfSome found (λ i. i < length rows.now)) }
{
    let ranks = ranked(alloc, rows)?;
    let ranks = ranks.as_slice();
    let trusted = are_ranks(ranks, rows);
    for position in 0..rows.len() {
        if is_on_ring(alloc, rows, ranks, trusted, position)? {
            return Ok(Some(position));
        }
    }
    Ok(None)
}
