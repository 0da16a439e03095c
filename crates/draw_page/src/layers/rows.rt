ghost use Rattle.std.specs.Prelude.{◌≡◌, ◌<◌, ◌^◌, length, take, drop};

use crate::known::Known;
use draw_items::{Journey, Tries, item_of, named_by, near_of, taken_by};
use draw_shapes::{Row, width_of};
use draw_told::Told;
use history_model::Event;
use pci_command::NoMemory;
use std::alloc::Global;

/// The events from number `first` to number `last`: those that are known, and what is behind them.
pub(crate) fn rows_of(
    alloc: Global,
    known: &Known,
    events: &[Event],
    first: u32,
    last: u32,
) -> Result<Vec<Row>, NoMemory>
    requires few { length events.now < 2 ^ 31 }
{
    let before = first.saturating_sub(1);
    let shown = drawn(events, before, last);
    let near = near_of(alloc, known.journeys, before, last)?;
    let near = near.as_slice();
    let mut rows = Vec::new(alloc);
    for (row, event) in shown.iter().enumerate() {
        let n = before + row as u32 + 1;
        rows.push(row_at(alloc, known, near, n, event)?)?;
    }
    Ok(rows)
}

/// The events behind so many, up to this number.
fn drawn(events: &[Event], before: u32, last: u32) -> &[Event]
    ensures { result.now ≡ drop before (take last events.now) }
{
    let (shown, _) = events.split_at(events.len().min(last as usize));
    let (_, shown) = shown.split_at(shown.len().min(before as usize));
    shown
}

/// Event number n, by the journeys that it has to do with.
fn row_at(
    alloc: Global,
    known: &Known,
    near: &[Journey],
    n: u32,
    event: &Event,
) -> Result<Row, NoMemory> {
    if known.events.len() < n as usize {
        refused_row(alloc, known, n, event)
    } else {
        row_of(alloc, known, near, n, event)
    }
}

/// An event that is not allowed.
fn refused_row(alloc: Global, known: &Known, n: u32, event: &Event) -> Result<Row, NoMemory> {
    let item = named_by(known.journeys, event);
    Ok(Row {
        n,
        event: *event,
        item,
        taken: None,
        key: false,
        loud: false,
        pale: is_pale(known.tries, item, event),
        refused: true,
        width: width_of(alloc, known.board, item, event)?,
    })
}

fn row_of(
    alloc: Global,
    known: &Known,
    near: &[Journey],
    n: u32,
    event: &Event,
) -> Result<Row, NoMemory> {
    let item = item_of(near, n, event);
    let taken = taken_by(near, n, event);
    Ok(Row {
        n,
        event: *event,
        item,
        taken,
        key: known.told.is_key(n),
        loud: is_loud(known.told, event),
        pale: is_pale(known.tries, item, event),
        refused: false,
        width: width_of(alloc, known.board, item, event)?,
    })
}

fn is_loud(told: &Told, event: &Event) -> bool {
    match *event {
        Event::Act { op, .. } => told.is_loud(op),
        Event::Arrive { .. } => false,
    }
}

fn is_pale(tries: &Tries, item: Option<Journey>, event: &Event) -> bool {
    match *event {
        Event::Act { op, .. } => tries.is_pale(op),
        Event::Arrive { .. } => is_item_pale(tries, item),
    }
}

fn is_item_pale(tries: &Tries, item: Option<Journey>) -> bool {
    match item {
        Some(item) => tries.is_pale(item.op),
        None => false,
    }
}
