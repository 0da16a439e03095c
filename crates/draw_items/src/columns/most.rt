ghost use Rattle.std.specs.Prelude.{◌≡◌, IfOk};
ghost use Rattle.draw_items.specs.columns.Kept.{slot_of, IsMost};

use crate::journey::Journey;
use board_model::Lane;
use pci_command::NoMemory;
use std::alloc::Global;
use std::marker::Model;

/// How many tracks are used on each lane.
#[derive(Debug, Drop)]
pub struct Most {
    /// By twice the bus, and one more for a lane up.
    tracks: Vec<usize>,
}

impl Model for Most {
    ghost use Rattle.std.specs.Prelude.{List, ℕ};

    ghost Value = { List ℕ };

    ghost view = { λ k. k.tracks.items };
}

/// How many tracks these items use.
pub fn most_of(alloc: Global, items: &[Journey]) -> Result<Most, NoMemory>
    ensures { IfOk result (IsMost items.now) }
{
    let mut most = Most::new(alloc)?;
    for item in items {
        let _bus = item.lane.bus;
        most.see(item);
    }
    Ok(most)
}

fn slot_of(lane: Lane) -> usize
    ensures { result ≡ slot_of lane }
{
    if lane.up {
        2 * usize::from(lane.bus) + 1
    } else {
        2 * usize::from(lane.bus)
    }
}

impl Most {
    ghost use Rattle.std.specs.Prelude.{List, OnOk, replicate};
    ghost use Rattle.draw_items.specs.declared.journey.Journey.{Journey};
    ghost use Rattle.draw_items.specs.columns.Kept.{with_item};
    ghost use Rattle.draw_items.specs.columns.Places.{most};

    fn new(alloc: Global) -> Result<Most, NoMemory>
        ensures { IfOk result (λ most. most ≡ replicate 512 0) }
    {
        let mut tracks = Vec::new(alloc);
        for _slot in 0..512usize {
            tracks.push(0)?;
        }
        Ok(Most { tracks })
    }

    /// One item more.
    #[tactic(auto, unfolding(crate::specs::columns::Sums::plus))]
    fn see(&mut self, item: &Journey)
        ensures { self.new ≡ with_item item.now self.old }
    {
        if !item.has_stood() {
            return;
        }
        let slot = slot_of(item.lane);
        let used = item.track.saturating_add(1);
        if slot < self.tracks.len() {
            let before = self.tracks[slot];
            self.tracks[slot] = before.max(used);
        }
    }

    /// How many tracks are used on the lane.
    pub fn of(&self, lane: Lane) -> usize
        ensures { (items : List Journey) → IsMost items self.now → result ≡ most items lane }
    {
        match self.tracks.as_slice().get(slot_of(lane)) {
            Some(tracks) => *tracks,
            None => 0,
        }
    }
}
