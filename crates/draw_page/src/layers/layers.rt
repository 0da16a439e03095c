ghost use Rattle.std.specs.Prelude.{◌≡◌, ◌++◌, ◌<◌, ◌^◌, length, IfOk, OnOk};
ghost use Rattle.std.specs.List.{flat_map};
ghost use Rattle.draw_shapes.specs.Shapes.{captions_in, item_captions};

use crate::known::Known;
use draw_items::{Journey, Tries, Wait, waits_of};
use draw_shapes::{
    Canvas, Element, Frame, Row, add_act, add_act_rim, add_ahead_rim, add_bracket, add_item,
    add_item_rim, add_key, add_row, add_wait,
};
use draw_told::{Brackets, Span, Told};
use pci_command::NoMemory;
use std::alloc::Global;

/// All that is drawn in these rows of what is known of a run, layer by layer: its items, the
/// waiting of its masters, and what the lines of its audit tell; and the rim of what an event that
/// is not allowed stands behind.
#[tactic(auto, using(crate::proofs::layers::LayerLemmas::no_captions))]
pub(crate) fn layers_of(
    alloc: Global,
    known: &Known,
    canvas: &Canvas,
    rows: &[Row],
    ahead: Option<Journey>,
    brackets: &Brackets,
) -> Result<Vec<Element>, NoMemory>
    requires few { length known.now.events.now < 2 ^ 31 }
    ensures { IfOk result (λ elements. captions_in elements.items ≡
        flat_map (item_captions canvas.now.board.now canvas.now.frame.now.end
        canvas.now.frame.now.first canvas.now.frame.now.last) known.now.journeys.now) }
{
    let mut elements = Vec::new(alloc);
    add_behind(alloc, &mut elements, known, canvas, rows, ahead)?;
    add_in_front(alloc, &mut elements, known, canvas, rows, brackets.tracks())?;
    Ok(elements)
}

/// Layers 1 to 3: marks of keys, rims, and masters that wait.
fn add_behind(
    alloc: Global,
    elements: &mut Vec<Element>,
    known: &Known,
    canvas: &Canvas,
    rows: &[Row],
    ahead: Option<Journey>,
) -> Result<(), NoMemory>
    requires few { length known.now.events.now < 2 ^ 31 }
    ensures { OnOk result (captions_in elements.new.items ≡ captions_in elements.old.items) }
{
    add_keys(alloc, elements, canvas, rows)?;
    add_item_rims(alloc, elements, canvas, known.told, known.journeys)?;
    add_act_rims(alloc, elements, canvas, rows)?;
    add_ahead_rim(alloc, elements, canvas, ahead)?;
    add_waiting(alloc, elements, known, canvas)
}

/// Layers 4 to 7: items, acts, brackets, and the list.
fn add_in_front(
    alloc: Global,
    elements: &mut Vec<Element>,
    known: &Known,
    canvas: &Canvas,
    rows: &[Row],
    tracks: &[Option<usize>],
) -> Result<(), NoMemory>
    ensures { OnOk result (captions_in elements.new.items ≡ captions_in elements.old.items ++
        flat_map (item_captions canvas.now.board.now canvas.now.frame.now.end
        canvas.now.frame.now.first canvas.now.frame.now.last) known.now.journeys.now) }
{
    add_items(alloc, elements, canvas, known.tries, known.journeys)?;
    add_acts(alloc, elements, canvas, rows)?;
    add_brackets(alloc, elements, canvas.frame, known.told.spans(), tracks)?;
    add_rows(alloc, elements, canvas, rows)
}

fn add_keys(
    alloc: Global,
    elements: &mut Vec<Element>,
    canvas: &Canvas,
    rows: &[Row],
) -> Result<(), NoMemory>
    ensures { OnOk result (captions_in elements.new.items ≡ captions_in elements.old.items) }
{
    for row in rows {
        add_key(alloc, elements, canvas, row)?;
    }
    Ok(())
}

fn add_item_rims(
    alloc: Global,
    elements: &mut Vec<Element>,
    canvas: &Canvas,
    told: &Told,
    items: &[Journey],
) -> Result<(), NoMemory>
    ensures { OnOk result (captions_in elements.new.items ≡ captions_in elements.old.items) }
{
    for item in items {
        let loud = told.is_loud(item.op);
        add_item_rim(alloc, elements, canvas, loud, item)?;
    }
    Ok(())
}

fn add_act_rims(
    alloc: Global,
    elements: &mut Vec<Element>,
    canvas: &Canvas,
    rows: &[Row],
) -> Result<(), NoMemory>
    ensures { OnOk result (captions_in elements.new.items ≡ captions_in elements.old.items) }
{
    for row in rows {
        add_act_rim(alloc, elements, canvas, row)?;
    }
    Ok(())
}

fn add_waiting(
    alloc: Global,
    elements: &mut Vec<Element>,
    known: &Known,
    canvas: &Canvas,
) -> Result<(), NoMemory>
    requires few { length known.now.events.now < 2 ^ 31 }
    ensures { OnOk result (captions_in elements.new.items ≡ captions_in elements.old.items) }
{
    let waits = waits_of(alloc, known.events)?;
    add_waits(alloc, elements, canvas, known.tries, waits.as_slice())
}

fn add_waits(
    alloc: Global,
    elements: &mut Vec<Element>,
    canvas: &Canvas,
    tries: &Tries,
    waits: &[Wait],
) -> Result<(), NoMemory>
    ensures { OnOk result (captions_in elements.new.items ≡ captions_in elements.old.items) }
{
    for wait in waits {
        let pale = tries.is_pale(wait.op);
        add_wait(alloc, elements, canvas, pale, wait)?;
    }
    Ok(())
}

fn add_items(
    alloc: Global,
    elements: &mut Vec<Element>,
    canvas: &Canvas,
    tries: &Tries,
    items: &[Journey],
) -> Result<(), NoMemory>
    ensures { OnOk result (captions_in elements.new.items ≡ captions_in elements.old.items ++
        flat_map (item_captions canvas.now.board.now canvas.now.frame.now.end
        canvas.now.frame.now.first canvas.now.frame.now.last) items.now) }
{
    for item in items {
        let pale = tries.is_pale(item.op);
        add_item(alloc, elements, canvas, pale, item)?;
    }
    Ok(())
}

fn add_acts(
    alloc: Global,
    elements: &mut Vec<Element>,
    canvas: &Canvas,
    rows: &[Row],
) -> Result<(), NoMemory>
    ensures { OnOk result (captions_in elements.new.items ≡ captions_in elements.old.items) }
{
    for row in rows {
        add_act(alloc, elements, canvas, row)?;
    }
    Ok(())
}

fn add_brackets(
    alloc: Global,
    elements: &mut Vec<Element>,
    frame: &Frame,
    spans: &[Span],
    tracks: &[Option<usize>],
) -> Result<(), NoMemory>
    ensures { OnOk result (captions_in elements.new.items ≡ captions_in elements.old.items) }
{
    for (span, track) in spans.iter().zip(tracks.iter()) {
        add_bracket(alloc, elements, frame, span.landed, span.read, *track)?;
    }
    Ok(())
}

fn add_rows(
    alloc: Global,
    elements: &mut Vec<Element>,
    canvas: &Canvas,
    rows: &[Row],
) -> Result<(), NoMemory>
    ensures { OnOk result (captions_in elements.new.items ≡ captions_in elements.old.items) }
{
    for row in rows {
        add_row(alloc, elements, canvas, row)?;
    }
    Ok(())
}
