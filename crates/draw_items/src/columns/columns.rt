ghost use Rattle.std.specs.Prelude.{◌≡◌, ◌++◌, List, length, IfOk, OnOk};
ghost use Rattle.draw_items.specs.declared.journey.Journey.{Journey};
ghost use Rattle.draw_items.specs.columns.Kept.{IsMost};
ghost use Rattle.draw_items.specs.columns.Places.{layout_of, room_before, room_behind, next_x};
ghost use Rattle.draw_items.specs.columns.Places.{past_lines, past_names, columns_from};

use crate::columns::line::{ColumnLine, name_length};
use crate::columns::most::Most;
use crate::columns::order::{in_order, lines_on, middle_of};
use crate::columns::sums::{product, sum};
use board_model::{Board, Lane};
use pci_command::NoMemory;
use std::alloc::Global;
use std::marker::Model;

/// The column of a bus, from its left end to its right end.
#[derive(Clone, Copy, Debug, PartialEq, Eq)]
pub struct Band {
    pub bus: u8,
    pub start: u64,
    pub end: u64,
}

/// Where a line stands, and the row of its name.
#[derive(Clone, Copy, Debug, PartialEq, Eq)]
pub struct Column {
    pub line: ColumnLine,
    pub place: u64,
    pub row: u64,
}

/// Where all stands, from left to right.
#[derive(Debug, Drop)]
pub struct Columns {
    bands: Vec<Band>,
    lines: Vec<Column>,
    /// The greatest number of lines on one bus.
    rows: u64,
    /// Where a column more would start.
    past: u64,
}

impl Model for Columns {
    ghost use Rattle.draw_items.specs.columns.Places.{Layout};

    ghost Value = { Layout };

    ghost view = { λ k.
        record { bands = k.bands.items; lines = k.lines.items; rows = k.rows; past = k.past } };
}

/// The columns of a board, from a place on, with room beside the faces for the tracks in use.
pub fn columns_of(
    alloc: Global,
    board: &Board,
    most: &Most,
    start: u64,
) -> Result<Columns, NoMemory>
    ensures { (items : List Journey) → IsMost items most.now →
        IfOk result (λ columns. columns ≡ layout_of board.now items start) }
{
    let mut columns = Columns::new(alloc, start);
    let middle = middle_of(alloc, board)?;
    let order = in_order(alloc, board, middle)?;
    let buses = order.as_slice();
    for bus in buses {
        let lines = lines_on(alloc, board, middle, *bus)?;
        columns.add_bus(alloc, board, most, *bus, lines.as_slice())?;
    }
    Ok(columns)
}

impl Columns {
    ghost use Rattle.std.specs.Prelude.{ℕ, ◌∷◌, [], Option};
    ghost use Rattle.draw_items.specs.columns.Places.{with_bus, found_place, place_of, is_left};
    ghost use Rattle.draw_items.specs.columns.Places.{face_place, bar_place, width_of};
    ghost use Rattle.draw_items.specs.declared.columns.line.ColumnLine.TheVariants as lines;

    /// No bus, where a column would start there.
    fn new(alloc: Global, start: u64) -> Columns
        ensures { result ≡ record { bands = []; lines = []; rows = 0; past = start } }
    {
        Columns {
            bands: Vec::new(alloc),
            lines: Vec::new(alloc),
            rows: 0,
            past: start,
        }
    }

    /// One bus more.
    fn add_bus(
        &mut self,
        alloc: Global,
        board: &Board,
        most: &Most,
        bus: u8,
        lines: &[ColumnLine],
    ) -> Result<(), NoMemory>
        ensures { (items : List Journey) → IsMost items most.now →
            OnOk result (self.new ≡ with_bus board.now items bus lines.now self.old) }
    {
        let start = self.past;
        let first = sum(start, 14);
        let past = add_columns(&mut self.lines, most, first, lines)?;
        let end = past.saturating_sub(8).max(sum(start, 48));
        let end = names_end(alloc, board, most, first, end, lines)?;
        self.bands.push(Band { bus, start, end })?;
        self.rows = self.rows.max(lines.len() as u64);
        self.past = sum(end, 34);
        Ok(())
    }

    /// The columns.
    pub fn bands(&self) -> &[Band]
        ensures { result.now ≡ self.now.bands }
    {
        self.bands.as_slice()
    }

    /// The lines.
    pub fn lines(&self) -> &[Column]
        ensures { result.now ≡ self.now.lines }
    {
        self.lines.as_slice()
    }

    /// The greatest number of lines on one bus.
    pub fn rows(&self) -> u64
        ensures { result ≡ self.now.rows }
    {
        self.rows
    }

    /// How wide the picture is: a multiple of 4.
    pub fn width(&self) -> u64
        ensures { result ≡ width_of self.now }
    {
        sum(self.past.saturating_sub(26), 3) / 4 * 4
    }

    fn found(&self, line: ColumnLine) -> Option<u64>
        ensures { result ≡ found_place line self.now }
    {
        self.lines
            .iter()
            .find(|column| column.line == line)
            .map(|column| column.place)
    }

    fn place(&self, line: ColumnLine) -> u64
        ensures { result ≡ place_of line self.now }
    {
        match self.found(line) {
            Some(place) => place,
            None => 0,
        }
    }

    /// Where a master stands.
    pub fn master(&self, master: u16) -> u64
        ensures { result ≡ place_of (lines.Master master) self.now }
    {
        self.place(ColumnLine::Master(usize::from(master)))
    }

    /// Where a target stands.
    pub fn target(&self, target: u16) -> u64
        ensures { result ≡ place_of (lines.Target target) self.now }
    {
        self.place(ColumnLine::Target(usize::from(target)))
    }

    /// Whether the face where the lane ends is at the left of its bus.
    pub fn is_left(&self, lane: Lane) -> bool
        ensures { result ≡ is_left lane self.now }
    {
        self.found(ColumnLine::Left(lane)).is_some()
    }

    /// Where the face stands at which the lane ends.
    pub fn face(&self, lane: Lane) -> u64
        ensures { result ≡ face_place lane self.now }
    {
        if self.is_left(lane) {
            self.place(ColumnLine::Left(lane))
        } else {
            self.place(ColumnLine::Right(lane))
        }
    }

    /// Where the bar of this track stands beside the face at which the lane ends.
    pub fn bar(&self, lane: Lane, track: usize) -> u64
        ensures { result ≡ bar_place lane track self.now }
    {
        let apart = product(6, sum(track as u64, 1));
        if self.is_left(lane) {
            self.face(lane).saturating_sub(apart)
        } else {
            sum(self.face(lane), apart)
        }
    }
}

/// The lines of a bus, from a place on. Tells where they end.
fn add_columns(
    columns: &mut Vec<Column>,
    most: &Most,
    first: u64,
    lines: &[ColumnLine],
) -> Result<u64, NoMemory>
    ensures columns { (items : List Journey) → IsMost items most.now → OnOk result
        (columns.new.items ≡ columns.old.items ++ columns_from items first 0 lines.now) }
    ensures past { (items : List Journey) → IsMost items most.now →
        IfOk result (λ past. past ≡ past_lines items first lines.now) }
{
    let mut x = first;
    for (row, line) in lines.iter().enumerate() {
        columns.push(Column {
            line: *line,
            place: sum(x, room_before(most, *line)),
            row: row as u64,
        })?;
        x = next_x(most, x, *line);
    }
    Ok(x)
}

/// Where the names of the lines end, or this end.
fn names_end(
    alloc: Global,
    board: &Board,
    most: &Most,
    first: u64,
    end: u64,
    lines: &[ColumnLine],
) -> Result<u64, NoMemory>
    ensures { (items : List Journey) → IsMost items most.now →
        IfOk result (λ past. past ≡ past_names board.now items first end lines.now) }
{
    let mut x = first;
    let mut end = end;
    for line in lines {
        let letters = name_length(alloc, board, *line)? as u64;
        let place = sum(x, room_before(most, *line));
        end = end.max(sum(place, sum(product(6, letters), 6)));
        x = next_x(most, x, *line);
    }
    Ok(end)
}

/// The next line stands from here on.
fn next_x(most: &Most, x: u64, line: ColumnLine) -> u64
    ensures { (items : List Journey) → IsMost items most.now → result ≡ next_x items x line }
{
    let place = sum(x, room_before(most, line));
    sum(sum(place, 22), room_behind(most, line))
}

/// The room for bars before a face at the left.
fn room_before(most: &Most, line: ColumnLine) -> u64
    ensures { (items : List Journey) → IsMost items most.now → result ≡ room_before items line }
{
    match line {
        ColumnLine::Left(lane) => product(6, most.of(lane) as u64),
        ColumnLine::Master(_) | ColumnLine::Target(_) | ColumnLine::Right(_) => 0,
    }
}

/// The room for bars behind a face at the right.
fn room_behind(most: &Most, line: ColumnLine) -> u64
    ensures { (items : List Journey) → IsMost items most.now → result ≡ room_behind items line }
{
    match line {
        ColumnLine::Right(lane) => product(6, most.of(lane) as u64),
        ColumnLine::Left(_) | ColumnLine::Master(_) | ColumnLine::Target(_) => 0,
    }
}
