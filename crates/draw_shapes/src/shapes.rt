ghost use Rattle.std.specs.Prelude.{◌≡◌, ◌∷◌, [], ◌++◌, OnOk};
ghost use Rattle.draw_elements.specs.Titles.{title_text};
ghost use Rattle.draw_shapes.specs.Shapes.{captions_in, item_captions, captions_from, has_title};

use crate::canvas::Canvas;
use crate::element::{Element, add_between, add_in_row, add_titled, is_seen};
use crate::frame::Frame;
use crate::keys::{BracketWay, print_bracket, print_dotted, print_mark, print_wait};
use crate::lists::print_row;
use crate::row::Row;
use draw_elements::{
    Act, ActLine, ActRow, DrawnRoute, print_act, print_act_rim, print_item_open, print_item_rim,
    print_item_way, print_refused, print_title, refused_place,
};
use draw_items::{Journey, Wait, product, sum};
use history_model::{Carried, Event, Step};
use pci_command::NoMemory;
use std::alloc::Global;

/// The class of the rim of what an event that is not allowed stands behind, which has no inside.
const AHEAD: &str = "z\" fill-opacity=\"0";

/// The mark of a key, and its dotted line; or that of an event that is not allowed.
pub fn add_key(
    alloc: Global,
    elements: &mut Vec<Element>,
    canvas: &Canvas,
    row: &Row,
) -> Result<(), NoMemory>
    ensures { OnOk result (captions_in elements.new.items ≡ captions_in elements.old.items) }
{
    if row.key {
        add_mark(alloc, elements, "o", canvas.frame, row)?;
        add_dotted_of(alloc, elements, canvas, row, &row.event)
    } else {
        add_refused_mark(alloc, elements, canvas.frame, row)
    }
}

fn add_refused_mark(
    alloc: Global,
    elements: &mut Vec<Element>,
    frame: &Frame,
    row: &Row,
) -> Result<(), NoMemory>
    ensures { OnOk result (captions_in elements.new.items ≡ captions_in elements.old.items) }
{
    if row.refused {
        add_mark(alloc, elements, "z", frame, row)
    } else {
        Ok(())
    }
}

fn add_mark(
    alloc: Global,
    elements: &mut Vec<Element>,
    class: &str,
    frame: &Frame,
    row: &Row,
) -> Result<(), NoMemory>
    ensures { OnOk result (captions_in elements.new.items ≡ captions_in elements.old.items) }
{
    let mut text = String::new(alloc);
    let x = frame.text_x.saturating_sub(4);
    let size = sum(row.width, 8);
    print_mark(&mut text, class, frame.first, row.n, x, size)?;
    add_in_row(alloc, elements, row.n, text)
}

fn add_dotted_of(
    alloc: Global,
    elements: &mut Vec<Element>,
    canvas: &Canvas,
    row: &Row,
    event: &Event,
) -> Result<(), NoMemory>
    ensures { OnOk result (captions_in elements.new.items ≡ captions_in elements.old.items) }
{
    match *event {
        Event::Act {
            bus,
            by,
            op,
            step,
            place,
        } if is_claimed(step) => {
            let line = ActLine {
                bus,
                by,
                op,
                step,
                place,
            };
            let act = Act::of(canvas.columns, line, row.item, row.taken);
            add_dotted(alloc, elements, canvas.frame, row.n, &act)
        }
        Event::Act { .. } | Event::Arrive { .. } => Ok(()),
    }
}

/// A dotted line from the brackets to the nearer end of the act.
fn add_dotted(
    alloc: Global,
    elements: &mut Vec<Element>,
    frame: &Frame,
    n: u32,
    act: &Act,
) -> Result<(), NoMemory>
    ensures { OnOk result (captions_in elements.new.items ≡ captions_in elements.old.items) }
{
    let mut text = String::new(alloc);
    let nearer = act.begin.min(act.end);
    print_dotted(&mut text, frame.first, n, frame.told_x, nearer)?;
    add_in_row(alloc, elements, n, text)
}

/// Whether somebody claims it.
fn is_claimed(step: Step) -> bool {
    !matches!(step, Step::MasterAbort)
}

/// The rim of an item whose operation is in the chain of a line.
pub fn add_item_rim(
    alloc: Global,
    elements: &mut Vec<Element>,
    canvas: &Canvas,
    loud: bool,
    item: &Journey,
) -> Result<(), NoMemory>
    ensures { OnOk result (captions_in elements.new.items ≡ captions_in elements.old.items) }
{
    if can_have_rim(item.carried) && loud {
        let route = DrawnRoute::of(canvas.columns, canvas.frame.end, item);
        add_route_rim(alloc, elements, "g", canvas.frame, &route)
    } else {
        Ok(())
    }
}

fn add_route_rim(
    alloc: Global,
    elements: &mut Vec<Element>,
    class: &str,
    frame: &Frame,
    route: &DrawnRoute,
) -> Result<(), NoMemory>
    ensures { OnOk result (captions_in elements.new.items ≡ captions_in elements.old.items) }
{
    if is_seen(frame, route.sent, route.left) {
        let mut text = String::new(alloc);
        print_item_rim(&mut text, class, frame.first, route)?;
        add_between(alloc, elements, route.sent, route.left, text)
    } else {
        Ok(())
    }
}

fn can_have_rim(item: Carried) -> bool {
    !matches!(item, Carried::Room | Carried::Gone { .. })
}

/// The rim of an act whose operation is in the chain of a line.
pub fn add_act_rim(
    alloc: Global,
    elements: &mut Vec<Element>,
    canvas: &Canvas,
    row: &Row,
) -> Result<(), NoMemory>
    ensures { OnOk result (captions_in elements.new.items ≡ captions_in elements.old.items) }
{
    add_act_rim_of(alloc, elements, canvas, row, &row.event)
}

fn add_act_rim_of(
    alloc: Global,
    elements: &mut Vec<Element>,
    canvas: &Canvas,
    row: &Row,
    event: &Event,
) -> Result<(), NoMemory>
    ensures { OnOk result (captions_in elements.new.items ≡ captions_in elements.old.items) }
{
    match *event {
        Event::Act {
            bus,
            by,
            op,
            step,
            place,
        } if is_claimed(step) && row.loud => {
            let line = ActLine {
                bus,
                by,
                op,
                step,
                place,
            };
            let act = Act::of(canvas.columns, line, row.item, row.taken);
            add_rim(alloc, elements, canvas.frame, row.n, &act)
        }
        Event::Act { .. } | Event::Arrive { .. } => Ok(()),
    }
}

fn add_rim(
    alloc: Global,
    elements: &mut Vec<Element>,
    frame: &Frame,
    n: u32,
    act: &Act,
) -> Result<(), NoMemory>
    ensures { OnOk result (captions_in elements.new.items ≡ captions_in elements.old.items) }
{
    let mut text = String::new(alloc);
    print_act_rim(&mut text, frame.first, n, act)?;
    add_in_row(alloc, elements, n, text)
}

/// The rim of what an event that is not allowed stands behind.
pub fn add_ahead_rim(
    alloc: Global,
    elements: &mut Vec<Element>,
    canvas: &Canvas,
    item: Option<Journey>,
) -> Result<(), NoMemory>
    ensures { OnOk result (captions_in elements.new.items ≡ captions_in elements.old.items) }
{
    match item {
        Some(item) => {
            let route = DrawnRoute::of(canvas.columns, canvas.frame.end, &item);
            add_route_rim(alloc, elements, AHEAD, canvas.frame, &route)
        }
        None => Ok(()),
    }
}

/// The bar of a master that waits.
pub fn add_wait(
    alloc: Global,
    elements: &mut Vec<Element>,
    canvas: &Canvas,
    pale: bool,
    wait: &Wait,
) -> Result<(), NoMemory>
    ensures { OnOk result (captions_in elements.new.items ≡ captions_in elements.old.items) }
{
    if wait.first < wait.last && is_seen(canvas.frame, wait.first, wait.last) {
        let mut text = String::new(alloc);
        let x = canvas.columns.master(wait.op.master);
        print_wait(&mut text, canvas.frame.first, x, pale, wait)?;
        add_between(alloc, elements, wait.first, wait.last, text)
    } else {
        Ok(())
    }
}

/// An item, with its title, if it has one.
#[tactic(auto, unfolding(crate::specs::Shapes::item_captions))]
pub fn add_item(
    alloc: Global,
    elements: &mut Vec<Element>,
    canvas: &Canvas,
    pale: bool,
    item: &Journey,
) -> Result<(), NoMemory>
    ensures { OnOk result (captions_in elements.new.items ≡ captions_in elements.old.items ++
        item_captions canvas.now.board.now canvas.now.frame.now.end canvas.now.frame.now.first
        canvas.now.frame.now.last item.now) }
{
    let route = DrawnRoute::of(canvas.columns, canvas.frame.end, item);
    add_routed(alloc, elements, canvas, pale, item, &route)
}

#[tactic(auto, using(crate::proofs::ShapeLemmas::no_captions))]
fn add_routed(
    alloc: Global,
    elements: &mut Vec<Element>,
    canvas: &Canvas,
    pale: bool,
    item: &Journey,
    route: &DrawnRoute,
) -> Result<(), NoMemory>
    ensures { OnOk result (captions_in elements.new.items ≡ captions_in elements.old.items ++
        captions_from canvas.now.board.now canvas.now.frame.now.first canvas.now.frame.now.last
        item.now route.now.sent route.now.left) }
{
    if is_seen(canvas.frame, route.sent, route.left) {
        if has_title(item.carried) {
            add_with_title(alloc, elements, canvas, pale, item, route)
        } else {
            add_credit(alloc, elements, canvas, pale, item, route)
        }
    } else {
        Ok(())
    }
}

fn has_title(item: Carried) -> bool
    ensures { result ≡ has_title item }
{
    !matches!(item, Carried::Room)
}

fn add_with_title(
    alloc: Global,
    elements: &mut Vec<Element>,
    canvas: &Canvas,
    pale: bool,
    item: &Journey,
    route: &DrawnRoute,
) -> Result<(), NoMemory>
    ensures { OnOk result (captions_in elements.new.items ≡ captions_in elements.old.items ++
        record {
          from = route.now.sent;
          to = route.now.left;
          title = title_text canvas.now.board.now item.now;
        } ∷ []) }
{
    let mut text = String::new(alloc);
    print_item_open(&mut text, item.carried, pale)?;
    let mut title = String::new(alloc);
    print_title(&mut title, canvas.board, item)?;
    let mut behind = String::new(alloc);
    print_item_way(&mut behind, canvas.frame.first, item, route)?;
    add_titled(elements, route.sent, route.left, text, title, behind)
}

fn add_credit(
    alloc: Global,
    elements: &mut Vec<Element>,
    canvas: &Canvas,
    pale: bool,
    item: &Journey,
    route: &DrawnRoute,
) -> Result<(), NoMemory>
    ensures { OnOk result (captions_in elements.new.items ≡ captions_in elements.old.items) }
{
    let mut text = String::new(alloc);
    print_item_open(&mut text, item.carried, pale)?;
    print_item_way(&mut text, canvas.frame.first, item, route)?;
    add_between(alloc, elements, route.sent, route.left, text)
}

/// An act; of an event that is not allowed a cross.
pub fn add_act(
    alloc: Global,
    elements: &mut Vec<Element>,
    canvas: &Canvas,
    row: &Row,
) -> Result<(), NoMemory>
    ensures { OnOk result (captions_in elements.new.items ≡ captions_in elements.old.items) }
{
    if row.refused {
        add_refused(alloc, elements, canvas, row)
    } else {
        add_act_of(alloc, elements, canvas, row, &row.event)
    }
}

fn add_refused(
    alloc: Global,
    elements: &mut Vec<Element>,
    canvas: &Canvas,
    row: &Row,
) -> Result<(), NoMemory>
    ensures { OnOk result (captions_in elements.new.items ≡ captions_in elements.old.items) }
{
    let x = refused_place(canvas.columns, row.item, &row.event);
    add_cross(alloc, elements, canvas.frame, row.n, x)
}

fn add_cross(
    alloc: Global,
    elements: &mut Vec<Element>,
    frame: &Frame,
    n: u32,
    x: u64,
) -> Result<(), NoMemory>
    ensures { OnOk result (captions_in elements.new.items ≡ captions_in elements.old.items) }
{
    let mut text = String::new(alloc);
    print_refused(&mut text, frame.first, n, x)?;
    add_in_row(alloc, elements, n, text)
}

fn add_act_of(
    alloc: Global,
    elements: &mut Vec<Element>,
    canvas: &Canvas,
    row: &Row,
    event: &Event,
) -> Result<(), NoMemory>
    ensures { OnOk result (captions_in elements.new.items ≡ captions_in elements.old.items) }
{
    match *event {
        Event::Act {
            bus,
            by,
            op,
            step,
            place,
        } => {
            let line = ActLine {
                bus,
                by,
                op,
                step,
                place,
            };
            let act = Act::of(canvas.columns, line, row.item, row.taken);
            let in_row = ActRow {
                first: canvas.frame.first,
                n: row.n,
                pale: row.pale,
            };
            let mut text = String::new(alloc);
            print_act(&mut text, canvas.board, canvas.columns, in_row, line, &act)?;
            add_in_row(alloc, elements, row.n, text)
        }
        Event::Arrive { .. } => Ok(()),
    }
}

/// The bracket of a write that landed and was read in these events, where it has a track.
pub fn add_bracket(
    alloc: Global,
    elements: &mut Vec<Element>,
    frame: &Frame,
    landed: u32,
    read: u32,
    track: Option<usize>,
) -> Result<(), NoMemory>
    ensures { OnOk result (captions_in elements.new.items ≡ captions_in elements.old.items) }
{
    match track {
        Some(track) => add_bracket_on(alloc, elements, frame, landed, read, track as u64),
        None => Ok(()),
    }
}

fn add_bracket_on(
    alloc: Global,
    elements: &mut Vec<Element>,
    frame: &Frame,
    landed: u32,
    read: u32,
    track: u64,
) -> Result<(), NoMemory>
    ensures { OnOk result (captions_in elements.new.items ≡ captions_in elements.old.items) }
{
    let low = landed.min(read);
    let high = landed.max(read);
    if !is_seen(frame, low, high) {
        return Ok(());
    }
    let x = frame.told_x;
    let way = BracketWay {
        x,
        right: sum(x, sum(product(10, track), 10)),
        tip: sum(x, 4),
        landed,
        read,
    };
    let mut text = String::new(alloc);
    print_bracket(&mut text, frame.first, way)?;
    add_between(alloc, elements, low, high, text)
}

/// An event in the list.
pub fn add_row(
    alloc: Global,
    elements: &mut Vec<Element>,
    canvas: &Canvas,
    row: &Row,
) -> Result<(), NoMemory>
    ensures { OnOk result (captions_in elements.new.items ≡ captions_in elements.old.items) }
{
    let mut text = String::new(alloc);
    print_row(alloc, &mut text, canvas.board, canvas.frame, row)?;
    add_in_row(alloc, elements, row.n, text)
}
