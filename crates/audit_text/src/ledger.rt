ghost use Rattle.std.specs.Prelude.{◌≡◌, OnOk, IfOk, length, take};
ghost use Rattle.audit_landings.specs.Notes.{SameLandings};
ghost use Rattle.audit_landings.specs.Told.{ToldsFor};
ghost use Rattle.audit_text.specs.Notes.{Reads, Presents, Ends, Gets};

use crate::ends::{Ended, end_in};
use crate::readings::{Read, Reading, read_in, word_of};
use audit_clocks::{Clocks, OpTable, Track};
use audit_landings::DwordLandings;
use board_model::Board;
use history_model::{By, Event};
use pci_command::{NoMemory, OpId};
use std::alloc::Global;
use std::marker::Model;

/// What an audit notes down of a run.
#[derive(Drop)]
pub(crate) struct Ledger {
    /// What landed in each dword.
    landings: DwordLandings,
    /// What each operation last read at a target.
    readings: OpTable<Reading>,
    /// What each read got that its master ended with a value, if it read that at a target.
    gots: OpTable<Option<Reading>>,
    /// What each master knows, and since when.
    clocks: Clocks,
}

impl Model for Ledger {
    ghost use Rattle.audit_text.specs.Notes.{Notes};

    ghost Value = { Notes };

    ghost view = { λ k.
        record { landings = k.landings; readings = k.readings; gots = k.gots; clocks = k.clocks } };
}

impl Ledger {
    ghost use Rattle.audit_text.specs.Notes.{Happens, no_notes};
    ghost use Rattle.audit_clocks.specs.Tracks.{Tracked};
    ghost use Rattle.audit_text.specs.Found.{since_of, got_in, landed_before, landed_whole};
    ghost use Rattle.audit_text.specs.Search.{writes_at};

    /// Nothing happened.
    pub(crate) fn new(alloc: Global, board: &Board) -> Result<Ledger, NoMemory>
        ensures { IfOk result (λ ledger. ledger ≡ no_notes (length board.now.masters)) }
    {
        let clocks = Clocks::new(alloc, board.masters.as_slice().len())?;
        Ok(Ledger {
            landings: DwordLandings::new(alloc),
            readings: OpTable::new(alloc),
            gots: OpTable::new(alloc),
            clocks,
        })
    }

    /// One more event happens, after so many.
    pub(crate) fn happen(
        &mut self,
        alloc: Global,
        board: &Board,
        index: usize,
        event: &Event,
    ) -> Result<(), NoMemory>
        requires { ToldsFor (length board.now.masters) self.old.landings.whole
            self.old.clocks.starts self.old.landings.landed self.old.landings.tolds }
        ensures { OnOk result (Happens board.now index event.now self.old self.new) }
    {
        let masters = board.masters.as_slice().len();
        let read = read_in(board, event);
        let at = Moment { masters, index };
        record_read(
            alloc,
            at,
            &mut self.landings,
            read,
            &mut self.clocks,
            &mut self.readings,
        )?;
        record_start(alloc, &mut self.clocks, event)?;
        self.landings.happen(alloc, board, index, event)?;
        let ended = end_in(event);
        record_end(
            alloc,
            &mut self.clocks,
            &self.readings,
            &mut self.gots,
            ended,
        )
    }

    /// With which of its operations the master came to know of the write.
    pub(crate) fn since(&self, write: OpId, master: u16) -> Option<OpId>
        ensures { result ≡ since_of self.now write master }
    {
        self.clocks.since(write, master)
    }

    /// What the read got that its master ended with a value, if it read that at a target.
    pub(crate) fn got(&self, op: OpId) -> Option<Reading>
        ensures { result ≡ got_in self.now op }
    {
        match self.gots.get(op) {
            Some(got) => *got,
            None => None,
        }
    }

    /// The writes of the data phases that landed in the dword of the reading before it.
    pub(crate) fn landed_before(&self, reading: &Reading) -> &[OpId]
        ensures { result.now ≡ landed_before self.now reading.now }
    {
        let word = word_of(reading.target, reading.space, reading.address);
        first_ops(self.landings.of(word), reading.landed)
    }

    /// The places of what landed in the dword of the reading, along the programs of the authors.
    pub(crate) fn tracks(&self, reading: &Reading) -> &[Track]
        ensures { Tracked (writes_at self.now reading.now) result.now }
    {
        self.landings
            .tracks(word_of(reading.target, reading.space, reading.address))
    }

    /// Whether the write landed whole before the reading.
    pub(crate) fn landed_whole(&self, reading: &Reading, op: OpId) -> bool
        ensures { result ≡ landed_whole self.now reading.now op }
    {
        match self.landings.whole(op) {
            Some(events) => events < reading.events,
            None => false,
        }
    }
}

/// How many masters there are, and how many events were before.
#[derive(Clone, Copy)]
struct Moment {
    masters: usize,
    index: usize,
}

/// A Read event at a target: what it read, and what it tells.
fn record_read(
    alloc: Global,
    at: Moment,
    landings: &mut DwordLandings,
    read: Option<Read>,
    clocks: &mut Clocks,
    readings: &mut OpTable<Reading>,
) -> Result<(), NoMemory>
    requires { ToldsFor at.masters landings.old.whole clocks.old.starts landings.old.landed
        landings.old.tolds }
    ensures reads { OnOk result (Reads at.masters at.index landings.old read
        clocks.old clocks.new readings.old readings.new) }
    ensures tolds { OnOk result (ToldsFor at.masters landings.new.whole clocks.old.starts
        landings.new.landed landings.new.tolds) }
    ensures same { OnOk result (SameLandings landings.old landings.new) }
{
    match read {
        None => Ok(()),
        Some(read) => {
            let word = word_of(read.target, read.space, read.address);
            let numbers = landings.told(alloc, at.masters, clocks.starts(), word)?;
            let count = landings.of(word).len();
            clocks.teach(read.op, numbers)?;
            readings.put(
                read.op,
                Reading {
                    target: read.target,
                    space: read.space,
                    address: read.address,
                    value: read.value,
                    landed: count,
                    events: at.index,
                },
            )
        }
    }
}

/// A master that presents an operation.
fn record_start(alloc: Global, clocks: &mut Clocks, event: &Event) -> Result<(), NoMemory>
    ensures { OnOk result (Presents event.now clocks.old clocks.new) }
{
    match *event {
        Event::Act {
            by: By::Master,
            op,
            ..
        } => clocks.present(alloc, op),
        Event::Act { .. } | Event::Arrive { .. } => Ok(()),
    }
}

/// The operation that ends at its master, and what it got.
fn record_end(
    alloc: Global,
    clocks: &mut Clocks,
    readings: &OpTable<Reading>,
    gots: &mut OpTable<Option<Reading>>,
    ended: Option<Ended>,
) -> Result<(), NoMemory>
    ensures { OnOk result (Ends ended readings.now clocks.old clocks.new gots.old gots.new) }
{
    match ended {
        None => Ok(()),
        Some(ended) => {
            record_got(readings, gots, ended)?;
            clocks.end(alloc, ended.op, ended.value.is_some())
        }
    }
}

fn record_got(
    readings: &OpTable<Reading>,
    gots: &mut OpTable<Option<Reading>>,
    ended: Ended,
) -> Result<(), NoMemory>
    ensures { OnOk result (Gets ended.value ended.op readings.now gots.old gots.new) }
{
    match ended.value {
        Some(_) => gots.put(ended.op, readings.get(ended.op).copied()),
        None => Ok(()),
    }
}

/// The first so many.
fn first_ops(ops: &[OpId], count: usize) -> &[OpId]
    ensures { result.now ≡ take count ops.now }
{
    if count < ops.len() {
        let (first, _) = ops.split_at(count);
        first
    } else {
        ops
    }
}
