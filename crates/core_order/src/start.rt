//! The order in which values are started.

ghost use Rattle.std.specs.Prelude.{◌≡◌, ◌<◌, length, IfOk, OnOk};
ghost use Rattle.core_validate.specs.Lookups.{trees};
ghost use Rattle.core_order.specs.Units.{IsStartOf, IsStartOrderOf};
ghost use Rattle.core_order.specs.Progressing.{view, none_begun, Begins, Settles, SettlesFunction, Ends, Keeps, StartsOne};

use crate::check::checked_order;
use crate::index::unit_rows;
use crate::search::{denote_settled, reached_from};
use core_syntax::GlobalDeclarationNode;
use core_validate::Row;
use std::alloc::{AllocError, Global};

/// The values that have begun, in order and as marks, and those that are started, in order. A declaration is settled where all
/// values that it leads to have begun, and it itself, so that no search has to go there.
#[derive(Drop)]
pub struct State {
    marks: Vec<bool>,
    settled: Vec<bool>,
    begun: Vec<usize>,
    started: Vec<usize>,
}

fn begin(position: usize, state: &mut State) -> Result<(), AllocError>
    requires { position < length state.old.marks.items }
    ensures { OnOk result (Begins position state.old state.new) }
{
    state.begun.push(position)?;
    state.marks[position] = true;
    Ok(())
}

fn settle(marks: &[bool], settled: &mut [bool])
    ensures { Settles marks.now settled.old settled.new }
{
    for (position, mark) in marks.iter().enumerate() {
        if *mark && position < settled.len() {
            settled[position] = true;
        }
    }
}

/// Adds a value to those that are started, and settles it and the marked declarations.
fn end(position: usize, marks: &[bool], state: &mut State) -> Result<(), AllocError>
    requires { position < length state.old.settled.items }
    ensures { OnOk result (Ends position marks.now state.old state.new) }
{
    settle(marks, state.settled.as_mut_slice());
    state.settled[position] = true;
    state.started.push(position)?;
    Ok(())
}

/// Starts a value, after the values that it reaches, unless it has begun.
fn start(alloc: Global, rows: &[Row], position: usize, state: &mut State) -> Result<(), AllocError>
    requires within { position < length rows.now }
    requires kept { Keeps rows.now state.old }
    ensures kept { OnOk result (Keeps rows.now state.new) }
    ensures starts { OnOk result (StartsOne rows.now position state.old state.new) }
{
    if state.marks[position] {
        return Ok(());
    }
    begin(position, state)?;
    if denote_settled(rows[position].places.as_slice(), state.settled.as_slice()) {
        return end(position, &[], state);
    }
    let marks = reached_from(alloc, rows, position, state.settled.as_slice())?;
    for (other, row) in rows.iter().enumerate() {
        if !marks[other] {
            continue;
        }
        if row.parameters.is_some() {
            continue;
        }
        start(alloc, rows, other, state)?;
    }
    end(position, marks.as_slice(), state)
}

/// Settles a function, where all that it mentions is settled.
fn settle_function(row: &Row, position: usize, state: &mut State)
    requires { position < length state.old.settled.items }
    ensures { SettlesFunction row.now position state.old state.new }
{
    if !denote_settled(row.places.as_slice(), state.settled.as_slice()) {
        return;
    }
    state.settled[position] = true;
}

fn start_all(alloc: Global, rows: &[Row], state: &mut State) -> Result<(), AllocError>
    requires kept { Keeps rows.now state.old }
    requires first { view state.old ≡ none_begun }
    ensures { OnOk result (IsStartOf rows.now state.new.started.items) }
{
    for (position, row) in rows.iter().enumerate() {
        if row.parameters.is_some() {
            settle_function(row, position, state);
            continue;
        }
        start(alloc, rows, position, state)?;
    }
    Ok(())
}

fn searched_order(alloc: Global, rows: &[Row]) -> Result<Vec<usize>, AllocError>
    ensures { IfOk result (λ order. IsStartOf rows.now order.items) }
{
    let mut state = State {
        marks: vec![in alloc; false; rows.len()]?,
        settled: vec![in alloc; false; rows.len()]?,
        begun: Vec::new(alloc),
        started: Vec::new(alloc),
    };
    start_all(alloc, rows, &mut state)?;
    let State {
        marks: _,
        settled: _,
        begun: _,
        started,
    } = state;
    Ok(started)
}

fn row_order(alloc: Global, rows: &[Row]) -> Result<Vec<usize>, AllocError>
    ensures { IfOk result (λ order. IsStartOf rows.now order.items) }
{
    match checked_order(alloc, rows)? {
        Some(order) => Ok(order),
        None => searched_order(alloc, rows),
    }
}

/// The order in which the values of these declarations are started, by their positions, which count from 0 and count functions
/// too: text order, but each after the values that a chain of mentions leads it to, those in the same way. `AllocError` comes
/// where memory is refused, and for nothing else.
pub fn start_order(
    alloc: Global,
    declarations: &[GlobalDeclarationNode],
) -> Result<Vec<usize>, AllocError>
    ensures { IfOk result (λ order. IsStartOrderOf (trees declarations.now) order.items) }
{
    let rows = unit_rows(alloc, declarations)?;
    row_order(alloc, rows.as_slice())
}
