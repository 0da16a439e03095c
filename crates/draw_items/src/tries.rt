ghost use Rattle.std.specs.Prelude.{◌≡◌, IfOk};
ghost use Rattle.draw_items.specs.Kept.{TellsTries, Raises, first_try};

use audit_clocks::OpTable;
use history_model::Event;
use pci_command::{NoMemory, OpId};
use std::alloc::Global;
use std::marker::Model;

/// Of each poll the last try that an event names.
#[derive(Debug, Drop)]
pub struct Tries {
    last: OpTable<u32>,
}

impl Model for Tries {
    ghost use Rattle.std.specs.Prelude.{List, ℕ};
    ghost use Rattle.pci_command.specs.declared.op_id.OpId.{OpId};

    ghost Value = { List (OpId × ℕ) };

    ghost view = { λ k. k.last };
}

/// The tries that these events name.
pub fn tries_of(alloc: Global, events: &[Event]) -> Result<Tries, NoMemory>
    ensures { IfOk result (TellsTries events.now) }
{
    let mut tries = Tries {
        last: OpTable::new(alloc),
    };
    for event in events {
        tries.name(event)?;
    }
    Ok(tries)
}

/// The poll, by its first try.
fn first_try(op: OpId) -> OpId
    ensures { result ≡ first_try op }
{
    OpId { attempt: 0, ..op }
}

impl Tries {
    ghost use Rattle.std.specs.Prelude.{OnOk, List, ◌∷◌, [], ◌++◌};
    ghost use Rattle.history_model.specs.declared.event.Event.{Event};
    ghost use Rattle.draw_items.specs.Tries.{is_pale};
    ghost use Rattle.draw_items.specs.Kept.{last_of};

    /// One event more.
    fn name(&mut self, event: &Event) -> Result<(), NoMemory>
        ensures { (events : List Event) → TellsTries events self.old →
            OnOk result (TellsTries (events ++ event.now ∷ []) self.new) }
    {
        match *event {
            Event::Act { op, .. } => self.raise(op),
            Event::Arrive { .. } => Ok(()),
        }
    }

    fn raise(&mut self, op: OpId) -> Result<(), NoMemory>
        ensures { OnOk result (Raises op self.old self.new) }
    {
        if self.last_of(op) < op.attempt {
            self.last.put(first_try(op), op.attempt)
        } else {
            Ok(())
        }
    }

    fn last_of(&self, op: OpId) -> u32
        ensures { result ≡ last_of self.now op }
    {
        match self.last.get(first_try(op)) {
            Some(attempt) => *attempt,
            None => 0,
        }
    }

    /// Whether a later try of the same poll is named.
    pub fn is_pale(&self, op: OpId) -> bool
        ensures { (events : List Event) → TellsTries events self.now → result ≡ is_pale events op }
    {
        op.attempt < self.last_of(op)
    }
}
