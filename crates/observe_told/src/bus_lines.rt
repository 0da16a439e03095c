use crate::Seen;
use pci_command::NoMemory;
use std::alloc::Global;

/// The lines of a log bus by bus, and of each line its place on its bus. Lines are named by their
/// places in the log, from 0.
#[derive(Drop)]
pub struct BusLines {
    lines: Vec<u32>,
    firsts: Vec<u32>,
    places: Vec<u32>,
}

impl BusLines {
    /// Those of these lines.
    pub fn new(alloc: Global, seen: &[Seen]) -> Result<BusLines, NoMemory> {
        let mut firsts = vec![in alloc; 0u32; 257]?;
        count_buses(&mut firsts, seen);
        let mut on_buses = BusLines {
            lines: vec![in alloc; 0u32; seen.len()]?,
            places: vec![in alloc; 0u32; seen.len()]?,
            firsts,
        };
        let mut next = Vec::from_slice(alloc, on_buses.firsts.as_slice())?;
        on_buses.fill(&mut next, seen);
        Ok(on_buses)
    }

    /// No line.
    pub fn none(alloc: Global) -> BusLines {
        BusLines {
            lines: Vec::new(alloc),
            firsts: Vec::new(alloc),
            places: Vec::new(alloc),
        }
    }

    /// Each line where the next of its bus stands.
    fn fill(&mut self, next: &mut Vec<u32>, seen: &[Seen]) {
        for (line, seen) in seen.iter().enumerate() {
            let bus = usize::from(seen.bus);
            let first = self.firsts.get(bus).copied().unwrap_or(0);
            let place = bump(next, bus);
            if let Some(slot) = self.lines.get_mut(place as usize) {
                *slot = u32::try_from(line).unwrap_or(u32::MAX);
            }
            if let Some(slot) = self.places.get_mut(line) {
                *slot = place.saturating_sub(first);
            }
        }
    }

    /// The place of the line on its bus.
    pub fn place(&self, line: u32) -> u32 {
        let place = self.places.get(line as usize);
        place.copied().unwrap_or(0)
    }

    /// The lines of the bus, in its order.
    pub fn on_bus(&self, bus: u8) -> &[u32] {
        let bus = usize::from(bus);
        let first = self.firsts.get(bus).copied().unwrap_or(0);
        let end = self.firsts.get(bus + 1).copied().unwrap_or(0);
        let lines = self.lines.as_slice();
        lines.get(first as usize..end as usize).unwrap_or(&[])
    }
}

/// Places on a bus in their order, and of each so many lines of the bus how many of them stand
/// before these.
#[derive(Drop)]
pub struct BusPlaces {
    all: Vec<u32>,
    before: Vec<u32>,
}

impl BusPlaces {
    /// None yet.
    pub fn new(alloc: Global) -> BusPlaces {
        BusPlaces {
            all: Vec::new(alloc),
            before: Vec::new(alloc),
        }
    }

    /// One more, behind all others.
    pub fn add(&mut self, place: u32) -> Result<(), NoMemory> {
        let count = u32::try_from(self.all.len()).unwrap_or(u32::MAX);
        for _block in self.before.len()..=block_of(place) {
            self.before.push(count)?;
        }
        self.all.push(place)?;
        Ok(())
    }

    /// The one of this number, from 0.
    pub fn get(&self, number: u32) -> Option<u32> {
        self.all.get(number as usize).copied()
    }

    /// How many stand before this place.
    pub fn before(&self, place: u32) -> usize {
        let block = block_of(place);
        let first = self.first_of(block);
        let own = self.all.get(first..self.first_of(block.saturating_add(1)));
        first.saturating_add(own.unwrap_or(&[]).partition_point(|own| *own < place))
    }

    /// How many stand before this block of lines.
    fn first_of(&self, block: usize) -> usize {
        match self.before.get(block) {
            Some(before) => *before as usize,
            None => self.all.len(),
        }
    }
}

/// The block of lines in which the place stands.
fn block_of(place: u32) -> usize {
    (place / 32) as usize // not a limit
}

/// Of each bus how many lines the buses before it have.
fn count_buses(firsts: &mut Vec<u32>, seen: &[Seen]) {
    for seen in seen {
        bump(firsts, usize::from(seen.bus) + 1);
    }
    let mut total = 0u32;
    for first in firsts.iter_mut() {
        total = total.saturating_add(*first);
        *first = total;
    }
}

/// One more in the slot: what stood there.
pub fn bump(slots: &mut Vec<u32>, slot: usize) -> u32 {
    match slots.get_mut(slot) {
        Some(count) => {
            let before = *count;
            *count = before.saturating_add(1);
            before
        }
        None => 0,
    }
}
