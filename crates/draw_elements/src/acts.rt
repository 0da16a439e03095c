use crate::height::{print_circle, row_middle};
use crate::words::faint;
use board_model::{Board, Lane, Place, request_of};
use draw_items::{Columns, Journey, lane_back};
use history_model::{By, Step};
use pci_command::{Command, OpId};
use std::alloc::AllocError;

/// What an event says of its act.
#[derive(Clone, Copy, Debug)]
pub struct ActLine {
    pub bus: u8,
    pub by: By,
    pub op: OpId,
    pub step: Step,
    pub place: Place,
}

/// The row of an act: the first that is drawn, its own number, and whether it is a fruitless try.
#[derive(Clone, Copy, Debug)]
pub struct ActRow {
    pub first: u32,
    pub n: u32,
    pub pale: bool,
}

/// Where an act begins and ends.
#[derive(Clone, Copy, Debug)]
pub struct Act {
    pub begin: u64,
    pub end: u64,
}

impl Act {
    /// That of this line; `item` is what a lane presents, and `taken` the completion that is taken.
    pub fn of(
        columns: &Columns,
        line: ActLine,
        item: Option<Journey>,
        taken: Option<Journey>,
    ) -> Act {
        Act {
            begin: begin_of(columns, line.by, line.op, item),
            end: end_of(columns, line, taken),
        }
    }

    /// Whether it goes to the right.
    fn goes_right(&self) -> bool {
        self.begin < self.end
    }
}

fn bar_of(columns: &Columns, item: Option<Journey>) -> u64 {
    match item {
        Some(item) => columns.bar(item.lane, item.track),
        None => 0,
    }
}

fn begin_of(columns: &Columns, by: By, op: OpId, item: Option<Journey>) -> u64 {
    match by {
        By::Master => columns.master(op.master),
        By::Lane(_) => bar_of(columns, item),
    }
}

fn end_of(columns: &Columns, line: ActLine, taken: Option<Journey>) -> u64 {
    match line.place {
        Place::Target(target) => columns.target(target),
        Place::Header(bus) => columns.face(Lane { bus, up: true }),
        Place::Lane(lane) => end_at(columns, lane, taken, line.step),
        Place::Nobody => 0,
    }
}

fn end_at(columns: &Columns, lane: Lane, taken: Option<Journey>, step: Step) -> u64 {
    match step {
        Step::Take(_) => bar_of(columns, taken),
        Step::Land
        | Step::Part(_)
        | Step::Read(_)
        | Step::Accept
        | Step::Latch
        | Step::Stall
        | Step::MasterAbort
        | Step::TargetAbort => columns.face(lane_back(lane)),
    }
}

/// An arrow head with its point at a place of row n, to the right or to the left.
pub fn print_head(
    text: &mut String,
    first: u32,
    n: u32,
    x: u64,
    right: bool,
) -> Result<(), AllocError> {
    let back = if right { "l-7" } else { "l7" };
    write!(
        text,
        "<path class=\"q\" d=\"M{x} {}{back} -4v8z\"/>",
        row_middle(first, n)
    )
}

fn print_path(text: &mut String, first: u32, n: u32, act: &Act) -> Result<(), AllocError> {
    write!(text, "M{} {}H{}", act.begin, row_middle(first, n), act.end)
}

fn print_line(text: &mut String, first: u32, n: u32, act: &Act) -> Result<(), AllocError> {
    text.push_str("<path d=\"")?;
    print_path(text, first, n, act)?;
    text.push_str("\"/>")
}

/// A line with a circle at its end.
fn print_round(
    text: &mut String,
    first: u32,
    n: u32,
    act: &Act,
    radius: u8,
) -> Result<(), AllocError> {
    print_line(text, first, n, act)?;
    print_circle(text, first, n, act.end, radius)
}

fn print_cross(text: &mut String, first: u32, n: u32, act: &Act) -> Result<(), AllocError> {
    text.push_str("<path d=\"")?;
    print_path(text, first, n, act)?;
    text.push_str("m-4 -4l8 8m0 -8l-8 8\"/>")
}

/// Where the cross stands of what nobody claims: to the right of a master, and away from a face.
fn aside(columns: &Columns, by: By) -> &'static str {
    match by {
        By::Master => "12",
        By::Lane(lane) => { if columns.is_left(lane) { "12" } else { "-12" } }
    }
}

fn print_nobody(
    text: &mut String,
    columns: &Columns,
    first: u32,
    n: u32,
    by: By,
    act: &Act,
) -> Result<(), AllocError> {
    write!(
        text,
        "<path d=\"M{} {}h{}m-4 -4l8 8m0 -8l-8 8\"/>",
        act.begin,
        row_middle(first, n),
        aside(columns, by)
    )
}

fn print_class(
    text: &mut String,
    board: &Board,
    bus: u8,
    op: OpId,
    step: Step,
) -> Result<(), AllocError> {
    match step {
        Step::Land => print_landing(text, board, bus, op),
        Step::Part(_) | Step::Accept => text.push_str("p"),
        Step::Read(_) | Step::Take(_) => text.push_str("d"),
        Step::Latch => text.push_str("a"),
        Step::Stall | Step::TargetAbort | Step::MasterAbort => text.push_str("x"),
    }
}

fn print_landing(text: &mut String, board: &Board, bus: u8, op: OpId) -> Result<(), AllocError> {
    match request_of(board, op, bus) {
        Some(request) => {
            if request.command == Command::MemWrite {
                text.push_str("p")
            } else {
                text.push_str("a")
            }
        }
        None => text.push_str("a"),
    }
}

fn print_body(
    text: &mut String,
    columns: &Columns,
    row: ActRow,
    by: By,
    act: &Act,
    step: Step,
) -> Result<(), AllocError> {
    let first = row.first;
    let n = row.n;
    match step {
        Step::Land => print_round(text, first, n, act, 5),
        Step::Part(_) => print_round(text, first, n, act, 3),
        Step::Read(_) => {
            print_round(text, first, n, act, 4)?;
            print_head(text, first, n, act.begin, !act.goes_right())
        }
        Step::Take(_) => {
            print_line(text, first, n, act)?;
            print_head(text, first, n, act.begin, !act.goes_right())
        }
        Step::Accept | Step::Latch => {
            print_line(text, first, n, act)?;
            print_head(text, first, n, act.end, act.goes_right())
        }
        Step::Stall | Step::TargetAbort => print_cross(text, first, n, act),
        Step::MasterAbort => print_nobody(text, columns, first, n, by, act),
    }
}

/// An act in its row, pale if it is a fruitless try.
pub fn print_act(
    text: &mut String,
    board: &Board,
    columns: &Columns,
    row: ActRow,
    line: ActLine,
    act: &Act,
) -> Result<(), AllocError> {
    text.push_str("<g class=\"")?;
    print_class(text, board, line.bus, line.op, line.step)?;
    write!(text, "{}\">", faint(row.pale))?;
    print_body(text, columns, row, line.by, act, line.step)?;
    text.push_str("</g>\n")
}

/// The rim of an act that somebody claims.
pub fn print_act_rim(text: &mut String, first: u32, n: u32, act: &Act) -> Result<(), AllocError> {
    text.push_str("<path class=\"g\" d=\"")?;
    print_path(text, first, n, act)?;
    text.push_str("\"/>\n")
}
