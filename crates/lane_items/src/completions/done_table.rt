ghost use Rattle.std.specs.Prelude.{◌≡◌, ◌+◌, ◌<◌, ◌≤◌, ◌↔◌, None, Some, []};
ghost use Rattle.std.specs.Prelude.{◌∷◌, ◌++◌, length, position, IsSome, ◌==◌};
ghost use Rattle.std.specs.Option.{option_map};

use arrayvec::ArrayVec;
use pci_command::{OpId, Outcome};
use std::marker::Model;

/// A delayed completion that stands: the slot of its request, the operation, how it ended, and the
/// number of its arrival at this half of the bridge.
#[derive(Clone, Copy, Debug, Default, PartialEq, Eq)]
pub struct Done {
    pub slot: u8,
    pub op: OpId,
    pub outcome: Outcome,
    pub arrival: u64,
}

/// The delayed completions that stand, by the slot of their request: at most one of a slot, and in
/// all at most `depth`, which is from 1 to 8 (PCI Local Bus 2.2, section 3.3.3.3.5, from memory).
/// It takes no memory.
#[derive(Debug, Drop)]
pub struct DoneTable {
    limit: u8,
    standing: ArrayVec<Done, 8>,
}

impl Model for DoneTable {
    ghost use Rattle.lane_items.specs.completions.Completions.{Completions, IsTable};

    ghost Value = { Completions };

    ghost view = { λ t. record { depth = t.limit; dones = t.standing.items } };

    ghost invariant = { λ t. IsTable (record { depth = t.limit; dones = t.standing.items }) };
}

impl DoneTable {
    ghost use Rattle.lane_items.specs.completions.Completions.{IsTable, IsStanding};
    ghost use Rattle.lane_items.specs.completions.Completions.{KeepsOthers, done_at, without};

    /// A table without completions that has room for `depth` of them.
    pub fn new(depth: u8) -> DoneTable
        requires at_least_one { 1 ≤ depth }
        requires at_most_eight { depth ≤ 8 }
        ensures { result ≡ record { depth = depth; dones = [] } }
    {
        DoneTable {
            limit: depth,
            standing: ArrayVec::new(),
        }
    }

    /// For how many more completions there is room.
    pub fn room(&self) -> u8
        ensures value { result + length self.now.dones ≡ self.now.depth }
        ensures is_table { IsTable self.now }
    {
        self.limit - self.standing.len() as u8
    }

    /// The completion of a slot of which none stands comes, and stands behind the others.
    pub fn arrive(&mut self, slot: u8, op: OpId, outcome: Outcome, arrival: u64)
        requires room { length self.old.dones < self.old.depth }
        requires none_of_slot { ¬ IsStanding slot self.old.dones }
        ensures last { self.new.dones ≡ self.old.dones ++
            record { slot = slot; op = op; outcome = outcome; arrival = arrival } ∷ [] }
        ensures depth { self.new.depth ≡ self.old.depth }
        ensures stands { done_at slot self.new.dones ≡
            Some (record { slot = slot; op = op; outcome = outcome; arrival = arrival }) }
        ensures others { KeepsOthers slot self.old.dones self.new.dones }
    {
        self.standing.push(Done {
            slot,
            op,
            outcome,
            arrival,
        });
    }

    /// Outcome and arrival of the completion of this slot. There is none exactly where no
    /// completion of the slot stands.
    pub fn find(&self, slot: u8) -> Option<(Outcome, u64)>
        ensures value { result ≡
            option_map (λ done. (done.outcome, done.arrival)) (done_at slot self.now.dones) }
        ensures stands { IsSome result ↔ IsStanding slot self.now.dones }
        ensures is_table { IsTable self.now }
    {
        let done = self.done(slot)?;
        Some((done.outcome, done.arrival))
    }

    /// The completion of this slot, which stands, leaves, and the others keep their order.
    pub fn leave(&mut self, slot: u8)
        requires { IsStanding slot self.old.dones }
        ensures rest { self.new ≡ record self.old { dones = without slot self.old.dones } }
        ensures gone { done_at slot self.new.dones ≡ None }
        ensures others { KeepsOthers slot self.old.dones self.new.dones }
    {
        if let Some(place) = self.place(slot) {
            self.standing.remove(place);
        }
    }

    // the completion of this slot
    fn done(&self, slot: u8) -> Option<Done>
        ensures value { result ≡ done_at slot self.now.dones }
        ensures is_table { IsTable self.now }
    {
        self.standing
            .as_slice()
            .iter()
            .find(|done| done.slot == slot)
            .copied()
    }

    // where the completion of this slot stands
    fn place(&self, slot: u8) -> Option<usize>
        ensures { result ≡ position (λ done. done.slot == slot) self.now.dones }
    {
        self.standing
            .as_slice()
            .iter()
            .position(|done| done.slot == slot)
    }
}
