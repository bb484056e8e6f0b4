//! A list that is the order of the start wherever no declaration is on a ring. Nothing is claimed of it here; it is checked.

use core_validate::{Meaning, Place, Row};
use std::alloc::{AllocError, Global};
use std::collections::BinaryHeap;

/// Values, and for each declaration the greatest place in them, from 1 on, of a value that it is or leads to; 0 where there is none.
#[derive(Drop)]
pub struct Proposal {
    pub order: Vec<usize>,
    pub ranks: Vec<usize>,
}

/// The declarations that no other mentions any more: whether it is a function, and its position. The greatest is taken first.
type Unmentioned = BinaryHeap<(bool, usize)>;

fn count_places(places: &[Place], counts: &mut [usize]) {
    for place in places {
        if let Meaning::Global(position) = place.meaning {
            if position < counts.len() {
                counts[position] = counts[position].saturating_add(1);
            }
        }
    }
}

/// How often each declaration is mentioned.
fn mentions(alloc: Global, rows: &[Row]) -> Result<Vec<usize>, AllocError> {
    let mut counts = vec![in alloc; 0; rows.len()]?;
    for row in rows {
        count_places(row.places.as_slice(), counts.as_mut_slice());
    }
    Ok(counts)
}

/// Adds a declaration to those that no other mentions.
fn add(rows: &[Row], position: usize, unmentioned: &mut Unmentioned) -> Result<(), AllocError> {
    if let Some(row) = rows.get(position) {
        unmentioned.push((row.parameters.is_some(), position))?;
    }
    Ok(())
}

/// Takes off the mentions in a declaration.
fn take_off(
    rows: &[Row],
    places: &[Place],
    counts: &mut [usize],
    unmentioned: &mut Unmentioned,
) -> Result<(), AllocError> {
    for place in places {
        if let Meaning::Global(position) = place.meaning {
            if position < counts.len() {
                counts[position] = counts[position].saturating_sub(1);
                if counts[position] == 0 {
                    add(rows, position, unmentioned)?;
                }
            }
        }
    }
    Ok(())
}

fn unmentioned_at_first(
    alloc: Global,
    rows: &[Row],
    counts: &[usize],
) -> Result<Unmentioned, AllocError> {
    let mut unmentioned = BinaryHeap::new(alloc);
    for (position, count) in counts.iter().enumerate() {
        if *count == 0 {
            add(rows, position, &mut unmentioned)?;
        }
    }
    Ok(unmentioned)
}

/// The declarations of a unit without rings, each before those that it mentions: what is to come last in the order of the start
/// comes first, since of the values that none still mentions the last of the text is taken. Functions are taken at once.
pub fn last_first(alloc: Global, rows: &[Row]) -> Result<Vec<usize>, AllocError> {
    let mut counts = mentions(alloc, rows)?;
    let mut unmentioned = unmentioned_at_first(alloc, rows, counts.as_slice())?;
    let mut taken = Vec::new(alloc);
    for _row in rows {
        let Some((_, position)) = unmentioned.pop() else {
            break;
        };
        taken.push(position)?;
        if let Some(row) = rows.get(position) {
            let places = row.places.as_slice();
            take_off(rows, places, counts.as_mut_slice(), &mut unmentioned)?;
        }
    }
    Ok(taken)
}

/// The greatest rank among what is mentioned at these places.
fn greatest_rank(places: &[Place], ranks: &[usize]) -> usize {
    let mut greatest = 0;
    for place in places {
        if let Meaning::Global(position) = place.meaning {
            if position < ranks.len() && greatest < ranks[position] {
                greatest = ranks[position];
            }
        }
    }
    greatest
}

/// The order in which the values are started, where no declaration is on a ring.
pub fn propose(alloc: Global, rows: &[Row], last_first: &[usize]) -> Result<Proposal, AllocError> {
    let mut order = Vec::new(alloc);
    let mut ranks = vec![in alloc; 0; rows.len()]?;
    for position in last_first.iter().rev() {
        let Some(row) = rows.get(*position) else {
            continue;
        };
        let rank = if row.parameters.is_some() {
            greatest_rank(row.places.as_slice(), ranks.as_slice())
        } else {
            order.push(*position)?;
            order.len()
        };
        if *position < ranks.len() {
            ranks[*position] = rank;
        }
    }
    Ok(Proposal { order, ranks })
}
