use crate::errands::{Errand, Errands};
use crate::ground::{Ground, NO_PLACE, number};
use crate::pieces::{Piece, pieces};
use crate::streams::Streams;
use board_model::{MOST_AGENTS, MOST_DWORDS, MOST_OPS, MOST_TRIES, Master, Name, Op, Place};
use observe_told::{Addressed, Ending, Seen, Unfound, Who};
use pci_command::{Command, List, NoMemory, OpId, Phase, Phases};
use std::alloc::Global;
use std::collections::BTreeMap;

/// What an operation is of: data phases of a posted line, the first and the one behind the last;
/// what a posted line did not transfer; a delayed line, and of a read which of its dwords.
#[derive(Clone, Copy)]
enum Part {
    Piece { line: u32, first: u32, end: u32 },
    Rest { line: u32 },
    Dword { line: u32, count: u32 },
}

/// A master of the board that is found: of a master of the log, or a further one that does what
/// that one began while it had something else open.
#[derive(Drop)]
pub(crate) struct Draft {
    name: Name,
    bus: u8,
    ops: Vec<Part>,
    home: u16,
    /// From which place of the bus on it has nothing open.
    free: u32,
}

/// The programs of the masters.
#[derive(Drop)]
pub(crate) struct Programs {
    pub(crate) masters: Vec<Draft>,
    /// The operation of what a posted line of a master did not transfer.
    pub(crate) alone: BTreeMap<u32, OpId>,
    total: usize,
}

impl Draft {
    /// The master with its program.
    pub(crate) fn into_master(self, ground: &Ground) -> Result<Master, NoMemory> {
        let Draft {
            name,
            bus,
            ops,
            home: _home,
            free: _free,
        } = self;
        let ops = ops_of(ground, ops.as_slice())?;
        Ok(Master { name, bus, ops })
    }
}

/// The operations of these parts.
fn ops_of(ground: &Ground, parts: &[Part]) -> Result<List<Op>, NoMemory> {
    let mut ops = Vec::with_capacity(ground.alloc, parts.len())?;
    for part in parts {
        if let Some(op) = op_of(ground, *part) {
            ops.push(op)?;
        }
    }
    Ok(List::from_vec(ops))
}

fn op_of(ground: &Ground, part: Part) -> Option<Op> {
    match part {
        Part::Piece { line, first, end } => {
            let seen = ground.seen(line)?;
            Some(write_of(ground, seen, Piece { first, end }))
        }
        Part::Rest { line } => {
            let seen = ground.seen(line)?;
            Some(rest_of(ground, line, seen))
        }
        Part::Dword { line, count } => {
            let seen = ground.seen(line)?;
            Some(delayed_of(ground, seen, count))
        }
    }
}

impl Programs {
    /// None yet.
    pub(crate) fn new(alloc: Global) -> Programs {
        Programs {
            masters: Vec::new(alloc),
            alone: BTreeMap::new(alloc),
            total: 0,
        }
    }

    pub(crate) fn into_drafts(self) -> Vec<Draft> {
        let Programs { masters, .. } = self;
        masters
    }

    /// The programs, and whose operation each errand and each data phase of a master is.
    pub(crate) fn write_all(
        &mut self,
        ground: &Ground,
        streams: &mut Streams,
        errands: &mut Errands,
    ) -> Result<(), Unfound> {
        self.begin(ground)?;
        for (line, seen) in ground.lines.iter().enumerate() {
            self.write_line(ground, streams, errands, (number(line), seen))?;
        }
        Ok(())
    }

    fn begin(&mut self, ground: &Ground) -> Result<(), Unfound> {
        for (home, master) in ground.board.masters.as_slice().iter().enumerate() {
            let home = u16::try_from(home).unwrap_or(u16::MAX);
            self.add_master(master.name.bytes(), master.bus, home, 0)?;
        }
        Ok(())
    }

    fn add_master(&mut self, name: &[u8], bus: u8, home: u16, line: u32) -> Result<(), Unfound> {
        let alloc = *self.masters.allocator();
        match Name::new(name) {
            Some(name) => {
                self.masters.push(Draft {
                    name,
                    bus,
                    ops: Vec::new(alloc),
                    home,
                    free: 0,
                })?;
                Ok(())
            }
            None => Err(Unfound::TooManyOperations { line }),
        }
    }

    fn write_line(
        &mut self,
        ground: &Ground,
        streams: &mut Streams,
        errands: &mut Errands,
        (line, seen): (u32, &Seen),
    ) -> Result<(), Unfound> {
        let Who::Master(home) = seen.who else {
            return Ok(());
        };
        match errands.of_line(line) {
            Some(errand) if errands.get(errand).shown() == Some(line) => {
                self.write_delayed(ground, errands, errand, home)
            }
            None if seen.ending != Ending::Retry => {
                self.write_posted(ground, streams, line, home)
            }
            _ => Ok(()),
        }
    }

    /// The operations of a burst that was not retried.
    fn write_posted(
        &mut self,
        ground: &Ground,
        streams: &mut Streams,
        line: u32,
        home: u16,
    ) -> Result<(), Unfound> {
        let place = ground.place(line);
        let master = self.thread(ground, line, home, place)?;
        let pieces = pieces(ground, streams, line)?;
        self.write_pieces(streams, master, line, pieces.as_slice())?;
        self.write_rest(ground, master, line)
    }

    fn write_pieces(
        &mut self,
        streams: &mut Streams,
        master: u16,
        line: u32,
        pieces: &[Piece],
    ) -> Result<(), Unfound> {
        for piece in pieces {
            let Piece { first, end } = *piece;
            let op = self.add(master, line, Part::Piece { line, first, end })?;
            for phase in first..end {
                streams.name(phase, op);
            }
        }
        Ok(())
    }

    /// What the line did not transfer.
    fn write_rest(&mut self, ground: &Ground, master: u16, line: u32) -> Result<(), Unfound> {
        let seen = ground.seen(line);
        if seen.is_some_and(|seen| seen.ending != Ending::Done) {
            let op = self.add(master, line, Part::Rest { line })?;
            self.alone.insert(line, op)?;
        }
        Ok(())
    }

    /// The operation of an errand at its first line with an act. A read of several data phases that
    /// no lane claims is one for each.
    fn write_delayed(
        &mut self,
        ground: &Ground,
        errands: &mut Errands,
        errand: u32,
        home: u16,
    ) -> Result<(), Unfound> {
        let found = errands.get(errand);
        let line = errands.first_line(&found);
        let Some(seen) = ground.seen(line) else {
            return Ok(());
        };
        let until = found.ended().map_or(NO_PLACE, |line| ground.place(line));
        let shown = found.shown().unwrap_or(line);
        let master = self.thread(ground, shown, home, until)?;
        let first = self.add(master, line, Part::Dword { line, count: 0 })?;
        errands.name(errand, first);
        for count in 1..dwords(ground, &found, seen) {
            self.add(master, line, Part::Dword { line, count })?;
        }
        Ok(())
    }

    /// The master that does what begins at this line and is open to this place of its bus.
    fn thread(
        &mut self,
        ground: &Ground,
        line: u32,
        home: u16,
        until: u32,
    ) -> Result<u16, Unfound> {
        let place = ground.place(line);
        let found = self
            .masters
            .iter()
            .position(|draft| draft.home == home && draft.free <= place);
        let master = match found {
            Some(master) => master,
            None => self.add_thread(ground, line, home)?,
        };
        if let Some(draft) = self.masters.get_mut(master) {
            draft.free = until.saturating_add(1);
        }
        Ok(u16::try_from(master).unwrap_or(u16::MAX))
    }

    /// A further master, NAME-2, NAME-3 and so on.
    fn add_thread(&mut self, ground: &Ground, line: u32, home: u16) -> Result<usize, Unfound> {
        let too_many = Unfound::TooManyOperations { line };
        let Some(master) = ground.board.masters.as_slice().get(usize::from(home)) else {
            return Err(too_many);
        };
        let place = self.masters.len();
        let threads = self
            .masters
            .iter()
            .filter(|draft| draft.home == home)
            .count();
        let on_bus = self
            .masters
            .iter()
            .filter(|draft| draft.bus == master.bus)
            .count();
        let targets = ground.board.targets.as_slice().iter();
        let targets = targets.filter(|target| target.bus == master.bus).count();
        if on_bus.saturating_add(targets) >= MOST_AGENTS {
            return Err(too_many);
        }
        let next = threads.saturating_add(1);
        let name = master.name.as_str();
        let name = format!(in ground.alloc; "{name}-{next}")?;
        self.add_master(name.as_bytes(), master.bus, home, line)?;
        Ok(place)
    }

    /// One more operation of the master.
    fn add(&mut self, master: u16, line: u32, op: Part) -> Result<OpId, Unfound> {
        let too_many = Unfound::TooManyOperations { line };
        let Some(draft) = self.masters.get_mut(usize::from(master)) else {
            return Err(too_many);
        };
        let index = draft.ops.len();
        if index >= MOST_OPS || self.total >= MOST_TRIES as usize {
            return Err(too_many);
        }
        draft.ops.push(op)?;
        self.total = self.total.saturating_add(1);
        Ok(OpId {
            master,
            index: u16::try_from(index).unwrap_or(u16::MAX),
            attempt: 0,
        })
    }
}

/// How many operations a delayed line is: of a read that no lane claims one for each data phase,
/// and one for the abort behind them.
fn dwords(ground: &Ground, errand: &Errand, first: &Seen) -> u32 {
    let Some(line) = errand.ended() else {
        return 1;
    };
    let is_of_lane = matches!(ground.claimant(line), Place::Lane(_));
    if is_of_lane || !first.command.is_read() {
        return 1;
    }
    let (begin, end) = ground.span(line);
    let moved = end.saturating_sub(begin);
    match ground.seen(line) {
        Some(seen) if seen.ending == Ending::TargetAbort => moved.saturating_add(1),
        _ => moved,
    }
}

fn write_of(ground: &Ground, seen: &Seen, piece: Piece) -> Op {
    let mut phases = Phases::new();
    for phase in piece.first..piece.end {
        if let Some(phase) = ground.phases.get(phase as usize) {
            if phases.len() < MOST_DWORDS {
                phases.push(*phase);
            }
        }
    }
    Op::Write {
        command: seen.command,
        address: ground.address_of(piece.first),
        phases,
    }
}

/// What a posted line did not transfer: one word, 0.
fn rest_of(ground: &Ground, line: u32, seen: &Seen) -> Op {
    let (first, end) = ground.span(line);
    let before = 4 * u64::from(end.saturating_sub(first));
    Op::Write {
        command: seen.command,
        address: ground.first_address(line).saturating_add(before),
        phases: phases_of_word(0, 15),
    }
}

/// One data phase.
fn phases_of_word(value: u32, enables: u8) -> Phases {
    let mut phases = Phases::new();
    phases.push(Phase { value, enables });
    phases
}

/// The operation of a delayed line, or of a read that of one of its data phases.
fn delayed_of(ground: &Ground, seen: &Seen, phase: u32) -> Op {
    let word = ground.first_phase(seen);
    match seen.address {
        Addressed::Byte(address) => {
            let address = address.saturating_add(4 * u64::from(phase));
            byte_op(seen.command, address, word)
        }
        Addressed::Type0 { device, register } => {
            let device = device.unwrap_or_else(|| absent_device(ground, seen.bus));
            register_op(seen.command, (seen.bus, device, register), word)
        }
        Addressed::Type1 {
            bus,
            device,
            register,
        } => register_op(seen.command, (bus, device, register), word),
    }
}

fn byte_op(command: Command, address: u64, word: Phase) -> Op {
    if command.is_read() {
        Op::Read { command, address }
    } else {
        Op::Write {
            command,
            address,
            phases: phases_of_word(word.value, word.enables),
        }
    }
}

fn register_op(command: Command, at: (u8, u8, u8), phase: Phase) -> Op {
    let (bus, device, register) = at;
    if command.is_read() {
        Op::CfgRead {
            bus,
            device,
            register,
        }
    } else {
        Op::CfgWrite {
            bus,
            device,
            register,
            phase,
        }
    }
}

/// A device number that nobody has on the bus.
fn absent_device(ground: &Ground, bus: u8) -> u8 {
    (0..32u8)
        .rev()
        .find(|device| !ground.has_device(bus, *device))
        .unwrap_or(31) // not a limit
}
