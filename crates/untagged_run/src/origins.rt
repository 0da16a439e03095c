ghost use Rattle.std.specs.Prelude.{◌≡◌, Some};

use crate::got::Got;
use board_model::Lane;
use pci_command::NoMemory;
use std::alloc::Global;
use std::collections::HashMap;
use std::marker::Model;

/// A slot of a lane.
#[derive(Clone, Copy, PartialEq, Eq, Hash)]
pub(crate) struct Key {
    pub(crate) bus: u8,
    pub(crate) up: bool,
    pub(crate) number: u8,
}

/// Which reading made the completion of each slot.
#[derive(Drop)]
pub(crate) struct OriginTable {
    made: HashMap<Key, Option<Got>>,
}

impl Model for OriginTable {
    ghost use Rattle.untagged_run.specs.Table.{Table};

    ghost Value = { Table };

    ghost view = { λ k. k.made.entries };
}

impl OriginTable {
    ghost use Rattle.std.specs.Prelude.{OnOk, if◌then◌else◌, []};
    ghost use Rattle.untagged_run.specs.Table.{origin_at, same_key};
    ghost use Rattle.untagged_run.specs.declared.origins.Key.{Key};

    /// None is noted down.
    pub(crate) fn new(alloc: Global) -> OriginTable
        ensures { result ≡ [] }
    {
        OriginTable {
            made: HashMap::new(alloc),
        }
    }

    /// That of the slot.
    pub(crate) fn of(&self, key: Key) -> Option<Got>
        ensures { result ≡ origin_at self.now key }
    {
        match self.made.get(&key) {
            Some(got) => *got,
            None => None,
        }
    }

    /// That of the slot is this one.
    pub(crate) fn note(&mut self, key: Key, got: Option<Got>) -> Result<(), NoMemory>
        ensures { OnOk result ((q : Key) →
            origin_at self.new q ≡ (if same_key key q then got else origin_at self.old q)) }
    {
        self.made.insert(key, got)?;
        Ok(())
    }
}

/// The slot of that number on the lane.
pub(crate) fn key_of(lane: Lane, number: u8) -> Key
    ensures { result ≡ record { bus = lane.bus; up = lane.up; number = number } }
{
    Key {
        bus: lane.bus,
        up: lane.up,
        number,
    }
}
