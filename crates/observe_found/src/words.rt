use crate::ground::{Ground, address_of_line};
use board_model::{MOST_OPENINGS, Opening, Place};
use observe_told::{Seen, Unfound, Who};
use pci_command::{NoMemory, Phase, Space};
use std::alloc::Global;
use std::collections::HashMap;

/// A dword of a target, in memory or I/O.
#[derive(Clone, Copy, PartialEq, Eq, PartialOrd, Ord, Hash)]
struct Dword {
    target: u16,
    is_io: bool,
    address: u64,
}

/// Which bytes of a dword are known, since they were read or written, and what it opened as.
#[derive(Clone, Copy, Default)]
struct Known {
    enables: u8,
    opening: u32,
}

/// A word that a target opened with.
#[derive(Clone, Copy, PartialEq, Eq, PartialOrd, Ord)]
pub(crate) struct Further {
    dword: Dword,
    value: u32,
}

/// The opening words of all targets beside those that the board of the log names, target by target.
pub(crate) fn further_words(ground: &Ground) -> Result<Vec<Further>, Unfound> {
    let mut openings = Openings::new(ground.alloc);
    openings.list_all(ground)?;
    openings.know_all(ground)?;
    Ok(openings.further(ground.alloc)?)
}

/// What dwords opened as: their bytes as first read before they were written. Only those are kept
/// that were read as something else than 0.
#[derive(Drop)]
struct Openings {
    dwords: HashMap<Dword, Known>,
    /// Of each target how many it has.
    counts: Vec<usize>,
}

impl Openings {
    fn new(alloc: Global) -> Openings {
        Openings {
            dwords: HashMap::new(alloc),
            counts: Vec::new(alloc),
        }
    }

    /// Lists the dwords that may have opened as something else than 0.
    fn list_all(&mut self, ground: &Ground) -> Result<(), NoMemory> {
        for line in &ground.at_targets {
            if let Some(seen) = ground.seen(*line)
                && seen.command.is_read()
                && let Some(target) = target_of(ground, *line, seen)
            {
                self.list_read(first_dword(seen, target), looked_at(ground, seen))?;
            }
        }
        Ok(())
    }

    fn list_read(&mut self, first: Dword, phases: &[Phase]) -> Result<(), NoMemory> {
        for (count, phase) in phases.iter().enumerate() {
            if phase.value != 0 {
                self.dwords.insert(first.behind(count), Known::default())?;
            }
        }
        Ok(())
    }

    /// Those that the board of the log names, and those that its lines show.
    fn know_all(&mut self, ground: &Ground) -> Result<(), Unfound> {
        let targets = ground.board.targets.as_slice();
        for (place, target) in targets.iter().enumerate() {
            self.counts.push(target.openings.as_slice().len())?;
            for opening in target.openings.as_slice() {
                self.know_given(place, opening);
            }
        }
        if self.dwords.is_empty() {
            return Ok(());
        }
        for line in &ground.at_targets {
            if let Some(seen) = ground.seen(*line)
                && let Some(target) = target_of(ground, *line, seen)
            {
                self.follow(ground, *line, seen, first_dword(seen, target))?;
            }
        }
        Ok(())
    }

    /// A dword that the board of the log names.
    fn know_given(&mut self, target: usize, opening: &Opening) {
        let dword = Dword {
            target: u16::try_from(target).unwrap_or(u16::MAX),
            is_io: opening.space == Space::Io,
            address: opening.address,
        };
        if let Some(known) = self.dwords.get_mut(&dword) {
            known.enables = 15;
        }
    }

    /// The data phases of the line, which are of this dword and those behind it.
    fn follow(
        &mut self,
        ground: &Ground,
        line: u32,
        seen: &Seen,
        first: Dword,
    ) -> Result<(), Unfound> {
        for (count, phase) in looked_at(ground, seen).iter().enumerate() {
            let dword = first.behind(count);
            if self.look(&dword, seen.command.is_read(), phase) {
                self.count(dword.target, line)?;
            }
        }
        Ok(())
    }

    /// Whether by this look, at what is read or written, a dword is known to have opened as
    /// something else than 0.
    fn look(&mut self, dword: &Dword, is_read: bool, phase: &Phase) -> bool {
        let Some(known) = self.dwords.get_mut(dword) else {
            return false;
        };
        if !is_read {
            known.enables |= phase.enables;
            return false;
        }
        let fresh = phase.value & !bytes_of(known.enables);
        let is_first = known.opening == 0 && fresh != 0;
        known.opening |= fresh;
        known.enables = 15;
        is_first
    }

    fn count(&mut self, target: u16, line: u32) -> Result<(), Unfound> {
        if let Some(count) = self.counts.get_mut(usize::from(target)) {
            if *count >= MOST_OPENINGS {
                return Err(Unfound::TooManyOperations { line });
            }
            *count = count.saturating_add(1);
        }
        Ok(())
    }

    fn further(&self, alloc: Global) -> Result<Vec<Further>, NoMemory> {
        let mut all = Vec::new(alloc);
        for (dword, known) in &self.dwords {
            if known.opening != 0 {
                all.push(Further {
                    dword: *dword,
                    value: known.opening,
                })?;
            }
        }
        all.sort_unstable();
        Ok(all)
    }
}

impl Further {
    pub(crate) fn opening(&self) -> Opening {
        let Dword { is_io, address, .. } = self.dword;
        Opening {
            space: if is_io { Space::Io } else { Space::Mem },
            address,
            value: self.value,
        }
    }
}

impl Dword {
    /// So many dwords behind this one.
    fn behind(self, count: usize) -> Dword {
        Dword {
            address: self.address.saturating_add(4 * (count as u64 & 0xff_ffff)),
            ..self
        }
    }
}

/// The target that claims the line, in memory or I/O.
fn target_of(ground: &Ground, line: u32, seen: &Seen) -> Option<u16> {
    match ground.claimant(line) {
        Place::Target(target) if seen.command.space() != Space::Cfg => Some(target),
        _ => None,
    }
}

/// The dword of the first data phase of a line that this target claims.
fn first_dword(seen: &Seen, target: u16) -> Dword {
    Dword {
        target,
        is_io: seen.command.space() == Space::Io,
        address: address_of_line(seen),
    }
}

/// Those of this target, of all that stand target by target.
pub(crate) fn further_of(all: &[Further], target: u16) -> &[Further] {
    let first = all.partition_point(|further| further.dword.target < target);
    let end = all.partition_point(|further| further.dword.target <= target);
    all.get(first..end).unwrap_or(&[])
}

/// The data phases that acts tell of: of a read of a lane the first.
fn looked_at<'a>(ground: &'a Ground, seen: &Seen) -> &'a [Phase] {
    let moved = ground.moved(seen);
    match seen.who {
        Who::Lane(_) if seen.command.is_read() => moved.get(..1).unwrap_or(moved),
        _ => moved,
    }
}

/// The bits of the bytes that are enabled.
fn bytes_of(enables: u8) -> u32 {
    let byte = |bit: u8, bits: u32| if enables & bit == 0 { 0 } else { bits };
    byte(1, 0xff) | byte(2, 0xff00) | byte(4, 0xff_0000) | byte(8, 0xff00_0000) // not a limit
}
