ghost use Rattle.std.specs.Prelude.{◌≡◌, ◌+◌, ◌<◌, ℕ, List as Items, [], ◌∷◌, IfOk};
ghost use Rattle.pci_command.specs.declared.op_id.OpId.{OpId as OpName};
ghost use Rattle.board_model.specs.declared.board.Board.{Board as BoardTree};
ghost use Rattle.history_model.specs.declared.event.Event.{Event};
ghost use Rattle.history_model.specs.Words.{parted_by};
ghost use Rattle.bus_agents.specs.Through.{count_in, added, ThroughStands};

use board_model::Board;
use machine_steps::PhaseCounts;
use pci_command::{NoMemory, OpId};
use std::alloc::Global;
use std::marker::Model;

/// How many data phases of each operation went through in parts (PCI Local Bus 2.2, section
/// 3.3.3.2.1, from memory; a target that disconnects): a byte for each operation of each master.
#[derive(Debug, Drop)]
pub struct Through {
    gone: Vec<PhaseCounts>,
}

impl Model for Through {
    ghost use Rattle.std.specs.Prelude.{List, ℕ};
    ghost use Rattle.bus_agents.specs.Through.{AreBytes};

    ghost Value = { List (List ℕ) };

    ghost view = { λ k. k.gone.items };

    ghost invariant = { λ k. AreBytes k.gone.items };
}

impl Through {
    ghost use Rattle.bus_agents.specs.Through.{nothing_yet, AddsPart};

    /// None of any operation.
    pub fn new(alloc: Global, board: &Board) -> Result<Through, NoMemory>
        ensures { IfOk result (ThroughStands board.now []) }
    {
        let gone = Through::nothing(alloc, board)?;
        Ok(gone)
    }

    fn nothing(alloc: Global, board: &Board) -> Result<Through, NoMemory>
        ensures { IfOk result (λ gone. gone ≡ nothing_yet board.now) }
    {
        let mut gone = Vec::new(alloc);
        for master in board.masters.as_slice() {
            gone.push(PhaseCounts::new(alloc, master.ops.as_slice())?)?;
        }
        Ok(Through { gone })
    }

    /// How many data phases of the operation went through; 0 where it is not there.
    pub fn of(&self, op: OpId) -> u8
        ensures { result ≡ count_in self.now op }
    {
        match self.gone.as_slice().get(op.master as usize) {
            Some(counts) => counts.of(op.index) as u8,
            None => 0,
        }
    }

    /// So many more data phases of the operation went through. It takes no memory.
    pub fn part(&mut self, op: OpId, phases: u8)
        requires { count_in self.old op + phases < 256 }
        ensures kept { self.new ≡ added op phases self.old }
        ensures stands { AddsPart self.old op phases self.new }
    {
        self.add(op, phases);
    }

    fn add(&mut self, op: OpId, phases: u8)
        requires { count_in self.old op + phases < 256 }
        ensures { self.new ≡ added op phases self.old }
    {
        add_at(self.gone.as_mut_slice(), op, phases);
    }
}

fn add_at(gone: &mut [PhaseCounts], op: OpId, phases: u8)
    requires { count_in gone.old op + phases < 256 }
    ensures { gone.new ≡ added op phases gone.old }
{
    let place = op.master as usize;
    if place < gone.len() {
        gone[place].add(op.index, phases);
    }
}

/// An event that is no part of a write leaves all counts as they were.
pub fn other_events_leave_counts()
    ensures { (board : BoardTree) (p : Items Event) (gone : Items (Items ℕ)) (e : Event) →
        ((o : OpName) → parted_by o e ≡ 0) → ThroughStands board p gone →
        ThroughStands board (e ∷ p) gone }
{}
