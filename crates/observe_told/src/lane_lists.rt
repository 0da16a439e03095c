use board_model::Lane;
use pci_command::NoMemory;
use std::alloc::Global;

/// Lists of lanes: of lines or of errands, say.
#[derive(Drop)]
pub struct LaneLists<T> {
    of_lanes: Vec<Vec<T>>,
}

impl<T: Drop> LaneLists<T> {
    /// Empty ones.
    pub fn new(alloc: Global) -> LaneLists<T> {
        let of_lanes = Vec::new(alloc);
        LaneLists { of_lanes }
    }

    /// One more of the lane.
    pub fn add(&mut self, alloc: Global, lane: Lane, item: T) -> Result<(), NoMemory> {
        let place = place_of(lane);
        for _lane in self.of_lanes.len()..=place {
            self.of_lanes.push(Vec::new(alloc))?;
        }
        if let Some(items) = self.of_lanes.get_mut(place) {
            items.push(item)?;
        }
        Ok(())
    }

    /// The list of the lane.
    pub fn of(&self, lane: Lane) -> &[T] {
        match self.of_lanes.get(place_of(lane)) {
            Some(items) => items.as_slice(),
            None => &[],
        }
    }
}

fn place_of(lane: Lane) -> usize {
    2 * usize::from(lane.bus) + usize::from(lane.up)
}
