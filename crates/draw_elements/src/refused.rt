use crate::height::Height;
use board_model::Lane;
use draw_items::{Columns, Journey};
use history_model::{By, Event};
use pci_command::OpId;
use std::alloc::AllocError;

/// Where an event that is not allowed has its cross: at the line of the master, at the bar of the
/// item that it names, or at the face of the lane where nothing of it stands.
pub fn refused_place(columns: &Columns, item: Option<Journey>, event: &Event) -> u64 {
    match *event {
        Event::Act { by, op, .. } => initiator_place(columns, by, op, item),
        Event::Arrive { lane, .. } => columns.face(lane),
    }
}

fn initiator_place(columns: &Columns, by: By, op: OpId, item: Option<Journey>) -> u64 {
    match by {
        By::Master => columns.master(op.master),
        By::Lane(lane) => bar_or_face(columns, lane, item),
    }
}

fn bar_or_face(columns: &Columns, lane: Lane, item: Option<Journey>) -> u64 {
    match item {
        Some(item) => columns.bar(item.lane, item.track),
        None => columns.face(lane),
    }
}

/// The cross of an event that is not allowed, in row n.
pub fn print_refused(text: &mut String, first: u32, n: u32, x: u64) -> Result<(), AllocError> {
    let top = Height {
        first,
        row: n,
        down: 2,
    };
    let from = x.saturating_sub(6);
    writeln!(
        text,
        "<g class=\"x\"><path d=\"M{from} {top}l12 12m0 -12l-12 12\"/></g>"
    )
}
