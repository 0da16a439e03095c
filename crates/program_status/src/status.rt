ghost use Rattle.std.specs.Prelude.{◌≡◌};
ghost use Rattle.program_status.specs.StatusText.{letter_of};

use crate::counts::SafeCounts;
use crate::log::{LogExcess, LogRefusal};
use history_model::Why;
use std::alloc::AllocError;
use std::fmt;
use text_faults::{
    DeviceFault, Family, LineFault, LogLineFault, LspciFault, TraceLineFault, TreeFault,
};

/// A fault of a board.
#[derive(Clone, Copy, Debug, PartialEq, Eq)]
pub enum BoardFault {
    /// A fault of a line, or of what it adds to the board.
    Line(LineFault),
    /// A fault of the tree of buses.
    Tree(TreeFault),
    /// This bound on the number of events is too high.
    Bound(u64),
    /// A fault of the text of devices on the board.
    Device(DeviceFault),
}

/// How a call of the program ends.
#[derive(Clone, Copy, PartialEq, Eq)]
pub enum Status {
    /// The text is whole in the sink.
    Done,
    /// There was no memory.
    NoMemory,
    /// The words are of no form: the place, from 0, of the first that fits no form, or the number
    /// of words where one is missing.
    Usage { word: u32 },
    /// The source failed.
    ReadFault,
    /// The sink failed: it has a front of the text.
    WriteFault,
    /// The source held too many bytes.
    TooLong,
    /// The board has a fault, at this line from 1 on, or 0 for the whole of it.
    BadBoard { line: u32, fault: BoardFault },
    /// The text of the trace has a fault outside its board, at this line from 1 on.
    BadTrace { line: u32, fault: TraceLineFault },
    /// What `lspci` wrote has a fault, at this line from 1 on, or 0 for the whole of it.
    BadMachine { line: u32, fault: LspciFault },
    /// So many events are to be drawn: more than a page may show.
    TooManyEvents { events: u64 },
    /// This event, from 1 on, is not allowed after those before it.
    NotRun { event: u32, why: Why },
    /// The run has not ended: at most so many events are left.
    Incomplete { left: u64 },
    /// The text is whole in the sink, and lists so many faults of the protocol: one at least.
    NotSafe { counts: SafeCounts },
    /// The read that was named did not read before the write that was named landed.
    NotShown,
    /// The text is whole in the sink: it shows the events before this one, from 1 on, and then this
    /// one, which is not allowed after them.
    DrawnTo { event: u32, why: Why },
    /// The text of the log has a fault outside its board, at this line from 1 on.
    BadLog { line: u32, fault: LogLineFault },
    /// What this line of the log shows, from 1 on, is not allowed.
    NotTold { line: u32, refusal: LogRefusal },
    /// This line of the log, from 1 on, is more than a board or a run of it may have.
    TooMuch { line: u32, excess: LogExcess },
    /// The text is whole in the sink: it has all acts of the log, of which one of this line, from 1
    /// on, is not allowed after those before it.
    ToldTo { line: u32, why: Why },
}

impl Status {
    ghost use Rattle.std.specs.Prelude.{◌≡◌};
    ghost use Rattle.program_status.specs.StatusText.{number_of};

    /// The number that the process ends with: 0 to 11.
    pub fn number(&self) -> u8
        ensures { result ≡ number_of self.now }
    {
        match self {
            Status::Done => 0,
            Status::NoMemory => 1,
            Status::Usage { .. } => 2,
            Status::ReadFault => 3,
            Status::WriteFault => 4,
            Status::TooLong => 5,
            Status::BadBoard { .. } => 6,
            Status::BadTrace { .. } => 7,
            Status::BadMachine { .. } => 6,
            Status::TooManyEvents { .. } => 5,
            Status::NotRun { .. } => 8,
            Status::Incomplete { .. } => 9,
            Status::NotSafe { .. } => 10,
            Status::NotShown => 11,
            Status::DrawnTo { .. } => 8,
            Status::BadLog { .. } => 7,
            Status::NotTold { .. } => 8,
            Status::TooMuch { .. } => 5,
            Status::ToldTo { .. } => 8,
        }
    }
}

fn letter_of(family: Family) -> &'static str
    ensures { result.now ≡ letter_of family }
{
    match family {
        Family::L => "L",
        Family::P => "P",
        Family::H => "H",
    }
}

impl fmt::Display for BoardFault {
    ghost use Rattle.std.specs.Prelude.{Some};
    ghost use Rattle.program_status.specs.StatusText.{fault_text};

    ghost output = { λ fault. Some (fault_text fault) };

    fn fmt<W: fmt::Write>(&self, f: &mut fmt::Formatter<W>) -> fmt::Result {
        match self {
            BoardFault::Line(fault) => {
                let letter = letter_of(fault.family());
                let code = fault.code();
                write!(f, "{letter}{code}")
            }
            BoardFault::Tree(fault) => {
                let code = fault.code();
                write!(f, "V{code}")
            }
            BoardFault::Bound(bound) => write!(f, "V9 bound {bound}"),
            BoardFault::Device(fault) => {
                let code = fault.code();
                write!(f, "Q{code}")
            }
        }
    }
}

impl fmt::Display for Status {
    ghost use Rattle.std.specs.Prelude.{Some};
    ghost use Rattle.program_status.specs.StatusText.{status_text};

    ghost output = { λ status. Some (status_text status) };

    fn fmt<W: fmt::Write>(&self, f: &mut fmt::Formatter<W>) -> fmt::Result {
        match self {
            Status::Done => Ok(()),
            Status::NoMemory => write!(f, "pcitree: no memory"),
            Status::Usage { word } => write!(f, "pcitree: usage, word {word}"),
            Status::ReadFault => write!(f, "pcitree: read failed"),
            Status::WriteFault => write!(f, "pcitree: write failed"),
            Status::TooLong => write!(f, "pcitree: input too long"),
            Status::BadBoard { line, fault } => write!(
                f,
                "pcitree: board line {line} fault {fault}"
            ),
            Status::BadTrace { line, fault } => {
                let code = fault.code();
                write!(f, "pcitree: trace line {line} fault X{code}")
            }
            Status::BadMachine { line, fault } => {
                let code = fault.code();
                write!(f, "pcitree: import line {line} fault I{code}")
            }
            Status::TooManyEvents { events } => {
                write!(f, "pcitree: {events} events are too many to draw")
            }
            Status::NotRun { event, why } | Status::DrawnTo { event, why } => {
                write!(f, "pcitree: event {event} is not allowed: {why}")
            }
            Status::Incomplete { left } => {
                write!(f, "pcitree: incomplete, at most {left} events left")
            }
            Status::NotSafe { counts } => write!(f, "pcitree: {counts}"),
            Status::NotShown => write!(f, "pcitree: READ did not read before WRITE landed"),
            Status::BadLog { line, fault } => {
                let code = fault.code();
                write!(f, "pcitree: log line {line} fault G{code}")
            }
            Status::NotTold { line, refusal } => {
                write!(f, "pcitree: log line {line} is not allowed: {refusal}")
            }
            Status::TooMuch { line, excess } => {
                write!(f, "pcitree: log line {line} is too much: {excess}")
            }
            Status::ToldTo { line, why } => {
                write!(f, "pcitree: log line {line} is not allowed: {why}")
            }
        }
    }
}

/// As it is told where a test fails: the number and the line.
impl fmt::Debug for Status {
    fn fmt<W: fmt::Write>(&self, f: &mut fmt::Formatter<W>) -> fmt::Result {
        write!(f, "{} {self}", self.number())
    }
}

impl From<AllocError> for Status {
    ghost use Rattle.std.specs.Prelude.{◌≡◌};
    ghost use Rattle.program_status.specs.declared.status.Status.TheVariants.{NoMemory};

    ghost from_gives = { λ _ status. status ≡ NoMemory };

    fn from(_refused: AllocError) -> Status {
        Status::NoMemory
    }
}
