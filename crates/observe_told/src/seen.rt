use board_model::{Board, Lane, Place, claim_in_space};
use pci_command::{Command, List, Phase};
use std::fmt;

/// How a transaction ended.
#[derive(Clone, Copy, Debug, Default, PartialEq, Eq)]
pub enum Ending {
    /// `done`: data was transferred, whoever ended it, so a Disconnect too.
    #[default]
    Done,
    /// `retry`: Retry, without data.
    Retry,
    /// `tabort`: Target-Abort, with or without data before it.
    TargetAbort,
    /// `nobody`: Master-Abort.
    Nobody,
}

/// Who drove a transaction.
#[derive(Clone, Copy, Debug, PartialEq, Eq)]
pub enum Who {
    /// A master on the bus, by its place in the board.
    Master(u16),
    /// A lane that ends on the bus.
    Lane(Lane),
}

/// What a transaction addressed.
#[derive(Clone, Copy, Debug, PartialEq, Eq)]
pub enum Addressed {
    /// A byte address in memory, or in I/O below 2^32: a multiple of 4.
    Byte(u64),
    /// Type 0: a register (0 to 63) of a device (0 to 31) of the bus; no device where no IDSEL was
    /// up.
    Type0 { device: Option<u8>, register: u8 },
    /// Type 1: a register of a device on the bus that is named.
    Type1 { bus: u8, device: u8, register: u8 },
}

/// A line of a log: one transaction on a bus.
#[derive(Clone, Copy, Debug, PartialEq, Eq)]
pub struct Seen {
    /// When the address was on the bus, and when the transaction ended, which is not before.
    pub start: u64,
    pub end: u64,
    pub address: Addressed,
    /// The number of the line, from 1, in the whole text.
    pub line: u32,
    /// Where its data phases stand in those of the log: the first, and how many. They are those in
    /// which data was transferred; where there was none, at most one that a write offered.
    pub first: u32,
    pub who: Who,
    pub count: u8,
    pub bus: u8,
    /// As on the bus: `mrl` and `mwi` are not `mr` and `mw`.
    pub command: Command,
    pub ending: Ending,
}

/// What a log says.
#[derive(Debug, Drop)]
pub struct Log {
    /// Its masters have no operations, and its targets neither stall nor disconnect.
    pub board: Board,
    /// The lines in the order of the text, so those of each bus in the order of the bus.
    pub lines: List<Seen>,
    /// The data phases of all lines, one line's behind those of the line before.
    pub phases: List<Phase>,
}

/// The number of a line in the text, and when it began: `line 24, 615`.
#[derive(Clone, Copy, Debug, PartialEq, Eq)]
pub struct LineWord {
    pub line: u32,
    pub start: u64,
}

impl fmt::Display for LineWord {
    fn fmt<W: fmt::Write>(&self, f: &mut fmt::Formatter<W>) -> fmt::Result {
        let LineWord { line, start } = *self;
        write!(f, "line {line}, {start}")
    }
}

impl Addressed {
    ghost use Rattle.std.specs.Prelude.{◌≡◌};
    ghost use Rattle.observe_told.specs.Addresses.{driven};

    /// The byte address that is driven; none where no IDSEL was up.
    pub fn driven(self) -> Option<u64>
        ensures { result ≡ driven self }
    {
        match self {
            Addressed::Byte(address) => Some(address),
            Addressed::Type0 { device, register } => {
                let device = device?;
                Some(0x800 * u64::from(device) + 4 * u64::from(register))
            }
            Addressed::Type1 {
                bus,
                device,
                register,
            } => Some(
                0x1_0000 * u64::from(bus) + 0x800 * u64::from(device) + 4 * u64::from(register) + 1,
            ),
        }
    }
}

impl Seen {
    ghost use Rattle.std.specs.Prelude.{◌≡◌, IsTrue};
    ghost use Rattle.board_model.specs.WellFormed.{is_well_formed};
    ghost use Rattle.observe_told.specs.Addresses.{is_posted_line, claimant};

    /// Whether it is a posted write: a write in memory. Every other request is delayed.
    pub fn is_posted(&self) -> bool
        ensures { result ≡ is_posted_line self.now }
    {
        self.command.plain().code() == Command::MemWrite.code()
    }

    /// Who claims it on its bus, by the addresses of the board.
    pub fn claimant(&self, board: &Board) -> Place
        requires { IsTrue (is_well_formed board.now) }
        ensures { result ≡ claimant board.now self.now }
    {
        match self.address.driven() {
            Some(address) => {
                claim_in_space(board, self.bus, self.command.space(), u128::from(address))
            }
            None => Place::Nobody,
        }
    }
}

impl Log {
    ghost use Rattle.std.specs.Prelude.{◌≡◌};
    ghost use Rattle.observe_told.specs.Addresses.{phases_of_line};

    /// The data phases of one of its lines.
    pub fn phases_of(&self, seen: &Seen) -> &[Phase]
        ensures { result.now ≡ phases_of_line self.now seen.now }
    {
        let phases = self.phases.as_slice();
        let first = (seen.first as usize).min(phases.len());
        let (_before, from_first) = phases.split_at(first);
        let count = usize::from(seen.count).min(from_first.len());
        let (own, _behind) = from_first.split_at(count);
        own
    }

    /// The line at this place, from 0, in words.
    pub fn word_of(&self, place: u32) -> LineWord {
        match self.lines.as_slice().get(place as usize) {
            Some(seen) => LineWord {
                line: seen.line,
                start: seen.start,
            },
            None => LineWord { line: 1, start: 0 },
        }
    }
}
