//! Ranks of declarations such that none mentions one of a higher rank.

use std::alloc::{AllocError, Global};
use wgsl_base::Items;

/// For each declaration those that mention it, once for each time.
fn users(alloc: Global, rows: &[Items<usize>]) -> Result<Vec<Items<usize>>, AllocError> {
    let mut users = Vec::new(alloc);
    for _row in rows {
        users.push(Items::new(alloc))?;
    }
    for (at, row) in rows.iter().enumerate() {
        for mentioned in row.as_slice() {
            let mentioned = *mentioned;
            if mentioned < users.len() {
                users[mentioned].push(at)?;
            }
        }
    }
    Ok(users)
}

/// How many entries each row has.
fn counts(alloc: Global, rows: &[Items<usize>]) -> Result<Vec<usize>, AllocError> {
    let mut counts = Vec::new(alloc);
    for row in rows {
        counts.push(row.len())?;
    }
    Ok(counts)
}

/// Takes an entry off each of these declarations, and lists those that have none left.
fn settle(
    users: &[usize],
    waiting: &mut [usize],
    order: &mut Vec<usize>,
) -> Result<(), AllocError> {
    for user in users {
        let user = *user;
        if user < waiting.len() {
            waiting[user] = waiting[user].saturating_sub(1);
            if waiting[user] == 0 {
                order.push(user)?;
            }
        }
    }
    Ok(())
}

/// The declarations whose rows lead to no ring, each behind those in its row. `users` are the rows turned round.
fn ringless(
    alloc: Global,
    rows: &[Items<usize>],
    users: &[Items<usize>],
) -> Result<Vec<usize>, AllocError> {
    let mut waiting = counts(alloc, rows)?;
    let mut order = Vec::new(alloc);
    for (at, count) in waiting.iter().enumerate() {
        if *count == 0 {
            order.push(at)?;
        }
    }
    for at in 0..rows.len() {
        let Some(position) = order.get(at).copied() else {
            break;
        };
        if position < users.len() {
            settle(users[position].as_slice(), &mut waiting, &mut order)?;
        }
    }
    Ok(order)
}

fn set(ranks: &mut [usize], position: usize, rank: usize) {
    if position < ranks.len() {
        ranks[position] = rank;
    }
}

/// Ranks such that no declaration mentions one of a higher rank. Only one that both leads to a ring and is led to by one mentions one of
/// its own rank. No contract says so: `first_on_ring` tests it.
pub(crate) fn ranked(alloc: Global, rows: &[Items<usize>]) -> Result<Vec<usize>, AllocError> {
    let users = users(alloc, rows)?;
    let users = users.as_slice();
    let count = rows.len();
    let mut ranks = vec![in alloc; count; count]?;
    for (rank, position) in ringless(alloc, users, rows)?.iter().enumerate() {
        set(
            ranks.as_mut_slice(),
            *position,
            count.saturating_mul(3).saturating_sub(rank),
        );
    }
    for (rank, position) in ringless(alloc, rows, users)?.iter().enumerate() {
        set(ranks.as_mut_slice(), *position, rank);
    }
    Ok(ranks)
}
