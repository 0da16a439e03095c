ghost use Rattle.std.specs.Prelude.{◌≡◌, None, Some, IsTrue, replicate, get_or, slice_set};
ghost use Rattle.board_model.specs.Valid.{IsValid};
ghost use Rattle.history_model.specs.Runs.{Run, history_of};
ghost use Rattle.history_model.specs.Program.{ended};
ghost use Rattle.history_model.specs.Knowledge.{stands_after};
ghost use Rattle.law_fresh.specs.Aware.{aware_of};
ghost use Rattle.plain_audit.specs.Places.{ArePlaces, knows_by, is_open, brings_it, learned};

use crate::readings::{ends_with_value, last_shown};
use board_model::Board;
use history_model::Event;
use machine_steps::{ended_op, stands_after};
use pci_command::{OpId, same_op};

/// Who knows of a write: a place for each master, with the first of its operations that ended and
/// is the write, or was told of it. A valid board has at most 256 masters.
#[derive(Drop)]
pub struct Places {
    pub write: OpId,
    pub since: [Option<OpId>; 256],
}

impl Places {
    /// Nobody knows of the write.
    pub fn new(write: OpId) -> Places
        ensures { result ≡ record { write = write; since = replicate 256 None } }
    {
        Places {
            write,
            since: [None; 256],
        }
    }

    /// Who knows of the write after these events of a valid board, the first event first.
    pub(crate) fn after(board: &Board, events: &[Event], write: OpId) -> Places
        requires valid { IsValid board.now }
        requires run { Run board.now (history_of events.now) }
        ensures write { result.write ≡ write }
        ensures places { ArePlaces (aware_of board.now write (history_of events.now)) result.since }
    {
        let mut places = Places::new(write);
        for (index, event) in events.iter().enumerate() {
            places.learn(board, &events[..=index], event);
        }
        places
    }

    /// One more event happens, the last of these.
    fn learn(&mut self, board: &Board, past: &[Event], event: &Event)
        ensures write { self.new.write ≡ self.old.write }
        ensures places { self.new.since ≡ learned board.now self.old.write self.old.since
            (history_of past.now) (ended event.now) }
    {
        if let Some(op) = ended_op(event) {
            if self.is_open(op) && self.brings_it(board, past, event, op) {
                self.note(op);
            }
        }
    }

    /// The place of its master, which is empty, is that of the operation.
    pub fn note(&mut self, op: OpId)
        requires { IsTrue (is_open self.old.since op) }
        ensures write { self.new.write ≡ self.old.write }
        ensures places { self.new.since ≡ slice_set self.old.since op.master (Some op) }
    {
        self.since[op.master as usize] = Some(op);
    }

    /// Whether the master of the operation has a place, and it is empty.
    pub fn is_open(&self, op: OpId) -> bool
        ensures { result ≡ is_open self.now.since op }
    {
        match self.since.get(op.master as usize) {
            Some(place) => place.is_none(),
            None => false,
        }
    }

    /// Whether the end of the operation by this event, the last of these, tells its master of the
    /// write.
    fn brings_it(&self, board: &Board, past: &[Event], event: &Event, op: OpId) -> bool
        ensures { result ≡ brings_it board.now self.now.write self.now.since (history_of past.now)
            (ended event.now) op }
    {
        same_op(op, self.write)
            || (ends_with_value(event) && last_shown(board, past, op, self).is_some())
    }

    /// Whether the operation stands in its program behind that of its master's place.
    pub fn knows(&self, op: OpId) -> bool
        ensures { result ≡ knows_by self.now.since op }
    {
        match self.first_of(op.master) {
            Some(first) => stands_after(first, op),
            None => false,
        }
    }

    /// The first operation of the master that ended and is the write, or was told of it.
    pub(crate) fn first_of(&self, master: u16) -> Option<OpId>
        ensures { result ≡ get_or self.now.since master None }
    {
        match self.since.get(master as usize) {
            Some(first) => *first,
            None => None,
        }
    }
}
