ghost use Rattle.std.specs.Prelude.{◌≡◌, OnOk, IfOk};

use crate::landed::{record_landed, record_parted, record_whole};
use crate::told::{Told, told_further, told_or_nothing};
use audit_clocks::{Landings, Numbers, OpTable, Track, WordTable};
use board_model::{Board, Word};
use history_model::Event;
use pci_command::{NoMemory, OpId};
use std::alloc::Global;
use std::marker::Model;

/// What landed in each dword, noted event by event, and what it tells, as far as that was asked.
#[derive(Debug, Drop)]
pub struct DwordLandings {
    /// How many data phases of each write went through.
    gone: OpTable<u128>,
    /// The writes of the data phases that landed, by dword.
    landed: Landings,
    /// Of each write that landed whole, how many events there were before.
    whole: OpTable<usize>,
    /// What the landings of each dword tell that were looked at.
    tolds: WordTable<Told>,
}

impl Model for DwordLandings {
    ghost use Rattle.audit_landings.specs.Notes.{LandingNotes};

    ghost Value = { LandingNotes };

    ghost view = { λ k.
        record { gone = k.gone; landed = k.landed; whole = k.whole; tolds = k.tolds } };
}

impl DwordLandings {
    ghost use Rattle.std.specs.Prelude.{length};
    ghost use Rattle.audit_clocks.specs.Tables.{value_of, writes_in};
    ghost use Rattle.audit_clocks.specs.Tracks.{Tracked};
    ghost use Rattle.audit_landings.specs.Notes.{Happened, SameLandings, no_landings};
    ghost use Rattle.audit_landings.specs.Told.{Tells, ToldsFor};

    /// Nothing landed.
    pub fn new(alloc: Global) -> DwordLandings
        ensures { result ≡ no_landings }
    {
        DwordLandings {
            gone: OpTable::new(alloc),
            landed: Landings::new(alloc),
            whole: OpTable::new(alloc),
            tolds: WordTable::new(alloc),
        }
    }

    /// One more event happens, after so many.
    #[tactic(auto, using(crate::proofs::StandLemmas::happened))]
    pub fn happen(
        &mut self,
        alloc: Global,
        board: &Board,
        index: usize,
        event: &Event,
    ) -> Result<(), NoMemory>
        ensures { OnOk result (Happened board.now index event.now self.old self.new) }
    {
        record_landed(alloc, &mut self.landed, board, &self.gone, event)?;
        record_whole(&mut self.whole, index, event)?;
        record_parted(&mut self.gone, event)
    }

    /// What those writes tell that landed whole in the dword; of so many masters, and by what each
    /// operation knew as its master presented it. Each landing is looked at once as it is new,
    /// and then at each call as long as the rest of its write did not land.
    pub fn told(
        &mut self,
        alloc: Global,
        masters: usize,
        starts: &OpTable<Numbers>,
        word: Word,
    ) -> Result<Numbers, NoMemory>
        requires { ToldsFor masters self.old.whole starts.now self.old.landed self.old.tolds }
        ensures tells { IfOk result (Tells masters self.old.whole starts.now
            (writes_in word self.old.landed)) }
        ensures stand { OnOk result
            (ToldsFor masters self.new.whole starts.now self.new.landed self.new.tolds) }
        ensures same { SameLandings self.old self.new }
    {
        let found = self.tolds.take(word);
        let old = told_or_nothing(alloc, masters, found)?;
        let next = told_further(alloc, starts, &self.whole, self.landed.of(word), old)?;
        let numbers = next.numbers.copied(alloc)?;
        self.tolds.put(word, next)?;
        Ok(numbers)
    }

    /// The writes of the data phases that landed in the dword, in their order.
    pub fn of(&self, word: Word) -> &[OpId]
        ensures { result.now ≡ writes_in word self.now.landed }
    {
        self.landed.of(word)
    }

    /// The places of what landed in the dword, along the programs of the authors.
    pub fn tracks(&self, word: Word) -> &[Track]
        ensures { Tracked (writes_in word self.now.landed) result.now }
    {
        self.landed.tracks(word)
    }

    /// How many events there were before the write landed whole, if it did.
    pub fn whole(&self, op: OpId) -> Option<usize>
        ensures { result ≡ value_of op self.now.whole }
    {
        self.whole.get(op).copied()
    }
}
