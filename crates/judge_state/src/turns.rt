ghost use Rattle.judge_state.specs.State.{turn_changed};
ghost use Rattle.std.specs.Prelude.{◌≡◌, ◌<◌, ◌+◌, [], length, IsTrue};
ghost use Rattle.board_model.specs.WellFormed.{is_well_formed};
ghost use Rattle.history_model.specs.Answers.{is_turn};
ghost use Rattle.history_model.specs.Program.{turn_of};

use board_model::Board;
use history_model::{By, Event};
use machine_steps::{first_turn, turn_after};
use pci_command::{NoMemory, OpId, same_op};
use std::alloc::Global;
use std::marker::Model;

/// The turn of each master, in the order of the board.
#[derive(Debug, Drop)]
pub(crate) struct KeptTurns {
    turns: Vec<Option<OpId>>,
}

impl Model for KeptTurns {
    ghost use Rattle.std.specs.Prelude.{List, Option};
    ghost use Rattle.pci_command.specs.declared.op_id.OpId.{OpId};

    ghost Value = { List (Option OpId) };

    ghost view = { λ k. k.turns.items };
}

impl KeptTurns {
    ghost use Rattle.std.specs.Prelude.{IfOk};
    ghost use Rattle.judge_state.specs.First.{TurnsAtFirst};
    ghost use Rattle.judge_state.specs.State.{turn_in, flat, turns_next};

    /// The first operation of each program.
    #[tactic(auto, using(board_model::proofs::FewLemmas::few_masters_before, board_model::proofs::FewLemmas::master_more))]
    pub(crate) fn new(alloc: Global, board: &Board) -> Result<KeptTurns, NoMemory>
        requires { IsTrue (is_well_formed board.now) }
        ensures { IfOk result (TurnsAtFirst board.now) }
    {
        let mut turns = Vec::new(alloc);
        for (index, master) in board.masters.as_slice().iter().enumerate() {
            // It is one of 256 buses, with few masters on each.
            let _bus = master.bus;
            turns.push(first_turn(board, index as u16))?;
        }
        Ok(KeptTurns { turns })
    }

    /// The turn of the master.
    pub(crate) fn of(&self, master: u16) -> Option<OpId>
        ensures { result ≡ turn_in self.now master }
    {
        match self.turns.as_slice().get(master as usize) {
            Some(turn) => *turn,
            None => None,
        }
    }

    /// Whether the operation is its master's turn.
    pub(crate) fn is_turn(&self, op: OpId) -> bool
        ensures { result ≡ is_turn op (turn_in self.now op.master) }
    {
        match self.of(op.master) {
            Some(turn) => same_op(turn, op),
            None => false,
        }
    }

    /// One more event happens to the turn of its master.
    pub(crate) fn happen(&mut self, board: &Board, event: &Event)
        requires { IsTrue (is_well_formed board.now) }
        ensures { self.new ≡ turns_next board.now event.now self.old }
    {
        match *event {
            Event::Act {
                by: By::Master,
                op,
                ..
            } => happen_to(self.turns.as_mut_slice(), board, event, op.master),
            Event::Act { .. } | Event::Arrive { .. } => {}
        }
    }
}

fn happen_to(turns: &mut [Option<OpId>], board: &Board, event: &Event, master: u16)
    requires { IsTrue (is_well_formed board.now) }
    ensures { turns.new ≡ turn_changed board.now event.now master turns.old }
{
    let place = master as usize;
    if place < turns.len() {
        turns[place] = turn_after(board, master, turns[place], event);
    }
}
