ghost use Rattle.std.specs.Prelude.{◌≡◌, length, replicate, IfOk, OnOk};
ghost use Rattle.audit_landings.specs.Notes.{SameLandings};
ghost use Rattle.audit_landings.specs.Told.{ToldsFor};
ghost use Rattle.untagged_run.specs.told.Knowers.{word_in, ToldAt};

use crate::Got;
use crate::told::learned::learn;
use crate::told::started::present;
use crate::told::words::word_in;
use audit_clocks::{Numbers, OpTable};
use audit_landings::DwordLandings;
use board_model::Board;
use history_model::Event;
use pci_command::NoMemory;
use std::alloc::Global;
use std::marker::Model;

/// What each master knows of all writes, and what that stands on.
#[derive(Debug, Drop)]
pub struct Knowers {
    /// Of each master, how many operations of each author's program it knows.
    known: Vec<Numbers>,
    /// The same as each operation's master first presented it.
    starts: OpTable<Numbers>,
    /// Of each event that read a dword of a target, what that told.
    told: Vec<Option<Numbers>>,
    landings: DwordLandings,
}

impl Model for Knowers {
    ghost use Rattle.untagged_run.specs.told.Knowers.{KnowerState};

    ghost Value = { KnowerState };

    ghost view = { λ k. record {
      known = k.known.items;
      starts = k.starts;
      told = k.told.items;
      landings = k.landings;
    } };
}

impl Knowers {
    ghost use Rattle.std.specs.Prelude.{List, [], ◌∷◌, slice_get};
    ghost use Rattle.std.specs.Option.{option_copied};
    ghost use Rattle.history_model.specs.declared.event.Event.{Event};
    ghost use Rattle.law_untagged.specs.Untagged.{UntaggedRun};
    ghost use Rattle.law_untagged.specs.Origins.{ending_reading};
    ghost use Rattle.untagged_run.specs.Table.{SameGot};
    ghost use Rattle.untagged_run.specs.told.Knowers.{Knows, Happens, AreTold};

    /// Before the first event nobody knows of anything.
    #[tactic(auto, using(crate::proofs::told::FirstLemmas::knows_first))]
    pub fn new(alloc: Global, board: &Board) -> Result<Knowers, NoMemory>
        ensures { IfOk result (Knows board.now []) }
    {
        let masters = board.masters.as_slice().len();
        Ok(Knowers {
            known: known_of(alloc, masters)?,
            starts: OpTable::new(alloc),
            told: Vec::new(alloc),
            landings: DwordLandings::new(alloc),
        })
    }

    /// One more event of a run happens, which gives this to the read that it ends.
    #[tactic(auto, using(crate::proofs::told::NextLemmas::knows_next))]
    pub fn happen(
        &mut self,
        alloc: Global,
        board: &Board,
        event: &Event,
        got: Option<Got>,
    ) -> Result<(), NoMemory>
        requires { (h : List Event) × Knows board.now h self.old }
        ensures { OnOk result ((h : List Event) →
            Knows board.now h self.old → UntaggedRun board.now (event.now ∷ h) →
            SameGot got (ending_reading board.now h event.now) →
            Knows board.now (event.now ∷ h) self.new) }
    {
        self.go_on(alloc, board, event, got)
    }

    /// How many operations of each author's program the master knows.
    pub fn known(&self, master: u16) -> Option<&Numbers>
        ensures { option_copied result ≡ slice_get self.now.known master }
    {
        self.known.as_slice().get(usize::from(master))
    }

    fn go_on(
        &mut self,
        alloc: Global,
        board: &Board,
        event: &Event,
        got: Option<Got>,
    ) -> Result<(), NoMemory>
        requires { AreTold (length board.now.masters) self.old }
        ensures { OnOk result (Happens board.now event.now got self.old self.new) }
    {
        let index = self.told.len();
        let masters = board.masters.as_slice().len();
        let told = read(
            alloc,
            masters,
            board,
            &self.starts,
            &mut self.landings,
            event,
        )?;
        self.told.push(told)?;
        present(alloc, self.known.as_slice(), &mut self.starts, event)?;
        self.landings.happen(alloc, board, index, event)?;
        learn(&mut self.known, alloc, self.told.as_slice(), event, got);
        Ok(())
    }
}

#[tactic(auto, using(crate::proofs::told::RaiseLemmas::replicate_more))]
fn known_of(alloc: Global, masters: usize) -> Result<Vec<Numbers>, NoMemory>
    ensures { IfOk result (λ known. known.items ≡ replicate masters (replicate masters 0)) }
{
    let mut known = Vec::new(alloc);
    for _master in 0..masters {
        known.push(Numbers::none(alloc, masters)?)?;
    }
    Ok(known)
}

/// What the event tells, if it reads a dword of a target.
fn read(
    alloc: Global,
    masters: usize,
    board: &Board,
    starts: &OpTable<Numbers>,
    landings: &mut DwordLandings,
    event: &Event,
) -> Result<Option<Numbers>, NoMemory>
    requires { ToldsFor masters landings.old.whole starts.now landings.old.landed
        landings.old.tolds }
    ensures told { IfOk result (ToldAt masters landings.old starts.now
        (word_in board.now event.now)) }
    ensures same { OnOk result (SameLandings landings.old landings.new) }
    ensures tolds { OnOk result
        (ToldsFor masters landings.new.whole starts.now landings.new.landed landings.new.tolds) }
{
    match word_in(board, event) {
        None => Ok(None),
        Some(word) => Ok(Some(landings.told(alloc, masters, starts, word)?)),
    }
}
