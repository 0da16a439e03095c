//! A run whose arrivals stand apart from its acts.
ghost use Rattle.std.specs.Prelude.{◌≡◌, ◌≤◌, [], length, IfOk, OnOk};
ghost use Rattle.observe_told.specs.Woven.{events_of, GoesOn};

use board_model::Lane;
use history_model::{Event, Mark};
use pci_command::{List, NoMemory};
use std::alloc::Global;

/// What happened next in a run: the next of its acts, or an arrival.
#[derive(Clone, Copy, Debug, PartialEq, Eq)]
pub enum Strand {
    Act,
    Arrive { lane: Lane, mark: Mark },
}

/// The events of a run, of which there are many: an arrival takes four bytes, and an act stands
/// with the others alone.
#[derive(Debug, Drop)]
pub struct Woven {
    pub strands: Vec<Strand>,
    pub acts: Vec<Event>,
}

impl Woven {
    /// No event, and room for so many and for so many acts.
    pub fn with_room(alloc: Global, events: usize, acts: usize) -> Result<Woven, NoMemory>
        ensures strands { IfOk result (λ woven. woven.strands.items ≡ []) }
        ensures acts { IfOk result (λ woven. woven.acts.items ≡ []) }
    {
        let strands = Vec::with_capacity(alloc, events)?;
        let acts = Vec::with_capacity(alloc, acts)?;
        Ok(Woven { strands, acts })
    }

    /// One event more.
    pub fn push(&mut self, event: Event) -> Result<(), NoMemory>
        ensures { OnOk result (GoesOn event self.old self.new) }
    {
        match event {
            Event::Act { .. } => self.push_act(event),
            Event::Arrive { lane, mark } => self.push_arrival(lane, mark),
        }
    }

    fn push_act(&mut self, act: Event) -> Result<(), NoMemory>
        ensures { OnOk result (GoesOn act self.old self.new) }
    {
        self.acts.push(act)?;
        self.strands.push(Strand::Act)?;
        Ok(())
    }

    fn push_arrival(&mut self, lane: Lane, mark: Mark) -> Result<(), NoMemory>
        ensures { OnOk result (GoesOn (Event.Arrive lane mark) self.old self.new) }
    {
        self.strands.push(Strand::Arrive { lane, mark })?;
        Ok(())
    }

    /// How many events it has at most.
    #[tactic(auto, using(crate::proofs::WovenLemmas::events_few))]
    pub fn count(&self) -> usize
        ensures { length (events_of self.now) ≤ result }
    {
        self.strands.len()
    }

    /// Its events, oldest first.
    pub fn events(&self, alloc: Global) -> Result<List<Event>, NoMemory>
        ensures { IfOk result (λ events. events ≡ events_of self.now) }
    {
        let mut events = Vec::with_capacity(alloc, self.strands.len())?;
        let mut acts = 0usize;
        for strand in &self.strands {
            let event = match *strand {
                Strand::Arrive { lane, mark } => Event::Arrive { lane, mark },
                Strand::Act => match self.acts.get(acts) {
                    Some(act) => {
                        acts += 1;
                        *act
                    }
                    None => break,
                },
            };
            events.push(event)?;
        }
        Ok(List::from_vec(events))
    }
}
