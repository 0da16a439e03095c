ghost use Rattle.std.specs.Prelude.{◌≡◌, ◌≤◌, ◌<◌, ◌+◌, ◌^◌, Some, slice_get, length};
ghost use Rattle.judge_state.specs.State.{gone_in, gone_added, list_in};
ghost use Rattle.machine_steps.specs.Counts.{or_zero};
ghost use Rattle.list_facts.specs.Lists.{changed_at};

use board_model::Board;
use history_model::{Event, Step};
use machine_steps::PhaseCounts;
use pci_command::{NoMemory, OpId};
use std::alloc::Global;
use std::marker::Model;

/// How many data phases went through, of each operation of each master.
#[derive(Debug, Drop)]
pub(crate) struct KeptGone {
    gone: Vec<PhaseCounts>,
}

impl Model for KeptGone {
    ghost use Rattle.std.specs.Prelude.{List, ℕ};

    ghost Value = { List (List ℕ) };

    ghost view = { λ k. k.gone.items };
}

impl KeptGone {
    ghost use Rattle.std.specs.Prelude.{IfOk};
    ghost use Rattle.judge_state.specs.First.{gone_at_first};
    ghost use Rattle.judge_state.specs.State.{gone_next, GoneFits};

    /// None of any operation.
    pub(crate) fn new(alloc: Global, board: &Board) -> Result<KeptGone, NoMemory>
        ensures { IfOk result (λ gone. gone ≡ gone_at_first board.now) }
    {
        let mut gone = Vec::new(alloc);
        for master in board.masters.as_slice() {
            gone.push(PhaseCounts::new(alloc, master.ops.as_slice())?)?;
        }
        Ok(KeptGone { gone })
    }

    /// Those of the operation.
    pub(crate) fn of(&self, op: OpId) -> u32
        ensures value { result ≡ gone_in self.now op }
        ensures fits { result < 2 ^ 32 }
    {
        match self.gone.as_slice().get(op.master as usize) {
            Some(counts) => counts.of(op.index),
            None => 0,
        }
    }

    /// One more event counts the data phases of which it is a part.
    pub(crate) fn happen(&mut self, event: &Event)
        requires { GoneFits event.now self.old }
        ensures { self.new ≡ gone_next event.now self.old }
    {
        match *event {
            Event::Act {
                op,
                step: Step::Part(phases),
                ..
            } => add_at(self.gone.as_mut_slice(), op, phases),
            Event::Act { .. } | Event::Arrive { .. } => {}
        }
    }
}

fn add_at(gone: &mut [PhaseCounts], op: OpId, more: u8)
    requires { gone_in gone.old op + more < 2 ^ 32 }
    ensures { gone.new ≡ gone_added op more gone.old }
{
    let place = op.master as usize;
    if place < gone.len() {
        gone[place].add(op.index, more);
    }
}
