//! Whether a list of values is the order in which they are started.

ghost use Rattle.std.specs.Prelude.{◌≡◌, ℕ, ◌+◌, ◌<◌, ◌≤◌, false, length, IfOk, OnOk, IsTrue, IfSome, Some, None, is_some, slice_index};
ghost use Rattle.std.specs.List.{Contains, slice_index_or};
ghost use Rattle.core_order.specs.Units.{IsStartOf};
ghost use Rattle.core_order.specs.Searches.{Targets};
ghost use Rattle.core_order.specs.Checks.{IsValue, AreListed, IsWhole, AreBehind, IsChecked, Uses, Marks, AreUsers, IsUsedBy, Closes, AreUsedInTime};

use crate::proposal::{Proposal, last_first, propose};
use core_validate::{Meaning, Place, Row};
use std::alloc::{AllocError, Global};

fn rank_of(ranks: &[usize], position: usize) -> usize
    ensures { result ≡ slice_index ranks.now position }
{
    if position < ranks.len() {
        ranks[position]
    } else {
        0
    }
}

/// Where the list has a declaration, by its rank.
fn place_of(order: &[usize], ranks: &[usize], position: usize) -> Option<usize>
    ensures { IfSome result (λ place. (place < length order.now) × (slice_index order.now place ≡ position)) }
{
    let rank = rank_of(ranks, position);
    if 0 < rank && rank <= order.len() && order[rank - 1] == position {
        Some(rank - 1)
    } else {
        None
    }
}

// ---- values and ranks

fn is_value(rows: &[Row], position: usize) -> bool
    ensures { IsTrue result → IsValue rows.now position }
{
    position < rows.len() && rows[position].parameters.is_none()
}

/// Whether the list has values only, the first of rank 1, the next of rank 2 and so on.
fn are_listed(rows: &[Row], order: &[usize], ranks: &[usize]) -> bool
    ensures { IsTrue result → AreListed rows.now order.now ranks.now }
{
    for (place, position) in order.iter().enumerate() {
        if !is_value(rows, *position) || rank_of(ranks, *position) != place + 1 {
            return false;
        }
    }
    true
}

/// Whether the list has the declaration, if that is a value.
fn has(order: &[usize], ranks: &[usize], position: usize, row: &Row) -> bool
    ensures { IsTrue result → is_some row.now.parameters ≡ false → Contains order.now position }
{
    row.parameters.is_some() || place_of(order, ranks, position).is_some()
}

/// Whether the list has each value.
fn is_whole(rows: &[Row], order: &[usize], ranks: &[usize]) -> bool
    ensures { IsTrue result → IsWhole rows.now order.now }
{
    for (position, row) in rows.iter().enumerate() {
        if !has(order, ranks, position, row) {
            return false;
        }
    }
    true
}

/// Whether all that is mentioned at these places has a rank below this one.
fn are_below(ranks: &[usize], rank: usize, places: &[Place]) -> bool
    ensures { IsTrue result → (j : ℕ) → Targets places.now j → slice_index ranks.now j < rank }
{
    for place in places {
        if let Meaning::Global(position) = place.meaning {
            if rank_of(ranks, position) >= rank {
                return false;
            }
        }
    }
    true
}

/// Whether what a declaration mentions has no greater rank, and a smaller one where the declaration is a value.
fn is_behind(ranks: &[usize], position: usize, row: &Row) -> bool
    ensures any { IsTrue result → (j : ℕ) → Targets row.now.places j → slice_index ranks.now j ≤ slice_index ranks.now position }
    ensures value { IsTrue result → is_some row.now.parameters ≡ false → (j : ℕ) → Targets row.now.places j → slice_index ranks.now j < slice_index ranks.now position }
{
    let rank = rank_of(ranks, position);
    let above = if row.parameters.is_some() {
        rank.saturating_add(1)
    } else {
        rank
    };
    are_below(ranks, above, row.places.as_slice())
}

/// Whether this is so of each declaration.
fn are_behind(rows: &[Row], ranks: &[usize]) -> bool
    ensures { IsTrue result → AreBehind rows.now ranks.now }
{
    for (position, row) in rows.iter().enumerate() {
        if !is_behind(ranks, position, row) {
            return false;
        }
    }
    true
}

// ---- users

fn user_of(users: &[Option<usize>], position: usize) -> Option<usize>
    ensures { result ≡ slice_index_or users.now position None }
{
    if position < users.len() {
        users[position]
    } else {
        None
    }
}

/// The place of the value, or of a value that uses the function.
fn user_at(
    proposal: &Proposal,
    users: &[Option<usize>],
    row: &Row,
    position: usize,
) -> Option<usize>
    ensures { IfSome result (Uses proposal.now.order.items users.now position) }
{
    if row.parameters.is_some() {
        return user_of(users, position);
    }
    place_of(
        proposal.order.as_slice(),
        proposal.ranks.as_slice(),
        position,
    )
}

/// Notes the user of what is mentioned at these places.
fn mark(places: &[Place], user: Option<usize>, users: &mut [Option<usize>])
    ensures { Marks places.now user users.old users.new }
{
    for place in places {
        let Meaning::Global(position) = place.meaning else {
            continue;
        };
        if position >= users.len() {
            continue;
        }
        users[position] = user;
    }
}

/// Notes the users of what the declarations of a list mention, one after another.
fn mark_all(rows: &[Row], last_first: &[usize], proposal: &Proposal, users: &mut [Option<usize>])
    requires { AreUsers rows.now proposal.now.order.items users.old }
    ensures { AreUsers rows.now proposal.now.order.items users.new }
{
    for position in last_first {
        let Some(row) = rows.get(*position) else {
            continue;
        };
        let user = user_at(proposal, users, row, *position);
        mark(row.places.as_slice(), user, users);
    }
}

/// For each declaration the place of a value that leads to it: of the first one, where the declarations stand last first.
fn users_of(
    alloc: Global,
    rows: &[Row],
    last_first: &[usize],
    proposal: &Proposal,
) -> Result<Vec<Option<usize>>, AllocError>
    ensures { IfOk result (λ users. AreUsers rows.now proposal.now.order.items users.items) }
{
    let mut users = vec![in alloc; None; rows.len()]?;
    mark_all(rows, last_first, proposal, users.as_mut_slice());
    Ok(users)
}

/// Whether a value that leads to the declaration stands there or before.
fn is_used_by(users: &[Option<usize>], position: usize, last: usize) -> bool
    ensures { IsTrue result → IsUsedBy users.now last position }
{
    match user_of(users, position) {
        Some(user) => user <= last,
        None => false,
    }
}

/// Takes off the end what is used by then.
fn close(users: &[Option<usize>], last: usize, unused: &mut Vec<usize>)
    ensures { Closes users.now last unused.old.items unused.new.items }
{
    while let Some(position) = unused.last().copied() {
        if !is_used_by(users, position, last) {
            return;
        }
        unused.pop();
    }
}

/// Whether the last of these, if any, is no greater.
fn ends_below(unused: &[usize], position: usize) -> bool
    ensures { IsTrue result → (b : ℕ) → b + 1 ≡ length unused.now → slice_index unused.now b ≤ position }
{
    unused.is_empty() || unused[unused.len() - 1] <= position
}

/// Whether each value that stands before one which stands before it in the text is used by then.
fn are_used_in_time(
    alloc: Global,
    order: &[usize],
    users: &[Option<usize>],
) -> Result<bool, AllocError>
    ensures { IfOk result (λ answer. IsTrue answer → AreUsedInTime order.now users.now) }
{
    // Those that aren't used yet, each after one that stands before it in the text.
    let mut unused = Vec::new(alloc);
    for (place, position) in order.iter().enumerate() {
        close(users, place, &mut unused);
        if !ends_below(unused.as_slice(), *position) {
            return Ok(false);
        }
        unused.push(*position)?;
    }
    Ok(true)
}

// ---- all of it

fn is_checked(
    alloc: Global,
    rows: &[Row],
    last_first: &[usize],
    proposal: &Proposal,
) -> Result<bool, AllocError>
    ensures { IfOk result (λ answer. IsTrue answer → IsChecked rows.now proposal.now.order.items proposal.now.ranks.items) }
{
    let order = proposal.order.as_slice();
    let ranks = proposal.ranks.as_slice();
    if !are_listed(rows, order, ranks)
        || !is_whole(rows, order, ranks)
        || !are_behind(rows, ranks)
    {
        return Ok(false);
    }
    let users = users_of(alloc, rows, last_first, proposal)?;
    are_used_in_time(alloc, order, users.as_slice())
}

/// The order in which the values are started, found without a search. None comes only where a declaration is on a ring.
pub fn checked_order(alloc: Global, rows: &[Row]) -> Result<Option<Vec<usize>>, AllocError>
    ensures { IfOk result (λ found. IfSome found (λ order. IsStartOf rows.now order.items)) }
{
    let last_first = last_first(alloc, rows)?;
    let proposal = propose(alloc, rows, last_first.as_slice())?;
    if !is_checked(alloc, rows, last_first.as_slice(), &proposal)? {
        return Ok(None);
    }
    let Proposal { order, ranks: _ } = proposal;
    Ok(Some(order))
}
