use crate::errands::Wanted;
use crate::trial::Trying;
use pci_command::NoMemory;
use std::alloc::Global;

/// Of how many parts at most the orders of trying are changed for one that has no choice that
/// suffices.
const MOST_CHANGED: usize = 3;

/// Errands of one request at one lane that are open together: by the lane and the first of them,
/// and when they were open.
#[derive(Clone, Copy, Default, PartialEq, Eq)]
pub(crate) struct PartOf {
    pub(crate) rank: u32,
    pub(crate) first: u32,
    pub(crate) wanted: Wanted,
    pub(crate) start: u64,
    pub(crate) reach: u64,
}

/// The order in which a part is tried, and what it was before it was changed.
#[derive(Clone, Copy)]
struct Changed {
    part: PartOf,
    trying: Trying,
    before: Trying,
}

/// The orders of trying of the parts: what is chosen for one lane decides what can be chosen for
/// the next. So where a part has no choice that suffices, all orders are tried of those before it
/// which it goes by.
#[derive(Drop)]
pub(crate) struct Choices {
    /// Those that are not tried as usual.
    changed: Vec<Changed>,
    /// The parts so far that had several near errands.
    open: Vec<PartOf>,
    /// The part that has no choice that suffices, those that are changed for it, the last one
    /// first, and how many changes were tried.
    failed: Option<PartOf>,
    causes: Vec<Changed>,
    count: usize,
}

impl PartOf {
    fn is(&self, other: &PartOf) -> bool {
        self.begins_with(other.rank, other.first)
    }

    /// Whether it is the part of this lane that begins with this errand.
    fn begins_with(&self, rank: u32, first: u32) -> bool {
        self.rank == rank && self.first == first
    }

    /// Whether what is chosen for it bears on the other: it is of the same request, whose way goes
    /// on there, or of the same lane, whose slots both need.
    fn bears_on(&self, other: &PartOf) -> bool {
        let is_near = self.rank == other.rank || self.wanted == other.wanted;
        is_near && self.start <= other.reach && other.start <= self.reach
    }
}

impl Choices {
    /// All as usual.
    pub(crate) fn new(alloc: Global) -> Choices {
        Choices {
            changed: Vec::new(alloc),
            open: Vec::new(alloc),
            failed: None,
            causes: Vec::new(alloc),
            count: 0,
        }
    }

    /// In which order the part is tried.
    pub(crate) fn of(&self, part: &PartOf) -> Trying {
        let found = self.changed.iter().find(|changed| changed.part.is(part));
        found.map_or(Trying::Usual, |changed| changed.trying)
    }

    /// Whether some part is not tried as usual.
    pub(crate) fn are_changed(&self) -> bool {
        self.changed
            .iter()
            .any(|changed| changed.trying != Trying::Usual)
    }

    /// Before the first part.
    pub(crate) fn begin(&mut self) {
        self.open.clear();
    }

    /// The part has a choice that suffices, of several near errands or of one.
    pub(crate) fn pass(&mut self, part: PartOf, nears: usize) -> Result<(), NoMemory> {
        if nears > 1 {
            self.open.push(part)?;
        }
        self.mend(part.rank, part.first);
        Ok(())
    }

    /// The part of this lane that begins with this errand has one.
    pub(crate) fn mend(&mut self, rank: u32, first: u32) {
        if self
            .failed
            .is_some_and(|failed| failed.begins_with(rank, first))
        {
            self.failed = None;
        }
    }

    /// The part has none.
    pub(crate) fn fail(&mut self, part: PartOf) -> Result<(), NoMemory> {
        if self.failed.is_none() {
            self.causes = self.causes_of(&part)?;
            self.failed = Some(part);
            self.count = 0;
        }
        Ok(())
    }

    /// Those that bear on it, with the orders in which they are tried, the last one first.
    fn causes_of(&self, failed: &PartOf) -> Result<Vec<Changed>, NoMemory> {
        let mut causes = Vec::new(*self.open.allocator());
        for part in self.open.iter().rev() {
            if causes.len() < MOST_CHANGED && part.bears_on(failed) {
                let trying = self.of(part);
                causes.push(Changed {
                    part: *part,
                    trying,
                    before: trying,
                })?;
            }
        }
        Ok(causes)
    }

    /// The next orders for the part that failed; where all were tried, those from before.
    pub(crate) fn change(&mut self) -> Result<bool, NoMemory> {
        self.count = self.count.saturating_add(1);
        let mut rest = self.count;
        for at in 0..self.causes.len() {
            if let Some(cause) = self.causes.get(at).copied() {
                let trying = trying_of(cause.before, rest % 3);
                self.set(cause.part, trying)?;
            }
            rest /= 3;
        }
        Ok(rest == 0)
    }

    /// Those from before, where not all were tried.
    pub(crate) fn restore(&mut self) -> Result<(), NoMemory> {
        for at in 0..self.causes.len() {
            if let Some(cause) = self.causes.get(at).copied() {
                self.set(cause.part, cause.before)?;
            }
        }
        Ok(())
    }

    fn set(&mut self, part: PartOf, trying: Trying) -> Result<(), NoMemory> {
        self.changed.retain(|changed| !changed.part.is(&part));
        self.changed.push(Changed {
            part,
            trying,
            before: Trying::Usual,
        })?;
        Ok(())
    }
}

/// The orders one after the other, from this one on.
fn trying_of(first: Trying, count: usize) -> Trying {
    match (count, first) {
        (0, _) => first,
        (1, Trying::Usual) | (2, Trying::FirstBegun) => Trying::Staying,
        (1, Trying::Staying) | (2, Trying::Usual) => Trying::FirstBegun,
        _ => Trying::Usual,
    }
}
