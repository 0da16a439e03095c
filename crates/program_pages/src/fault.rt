ghost use Rattle.std.specs.Prelude.{◌≡◌};
ghost use Rattle.program_pages.specs.Sentences.{sentence_of};

use history_model::Why;
use program_status::{BoardFault, LogExcess, LogRefusal, Status};
use std::fmt;
use text_faults::{DeviceFault, LineFault, LogLineFault, LspciFault, TraceLineFault, TreeFault};

/// What an input is refused for.
#[derive(Clone, Copy, Debug, PartialEq, Eq)]
pub enum Fault {
    /// A fault of a line of the board.
    Line(LineFault),
    /// A fault of the tree of buses.
    Tree(TreeFault),
    /// A run may have too many events.
    Bound,
    /// A fault of the text of devices on a board.
    Device(DeviceFault),
    /// A fault of a trace outside its board.
    Trace(TraceLineFault),
    /// A fault of what `lspci` wrote of a machine.
    Machine(LspciFault),
    /// A fault of a log outside its board.
    Log(LogLineFault),
    /// An event is not allowed, or an act of a line of a log.
    Cause(Why),
    /// No act of a line of a log can be named.
    NoAct,
    /// A log is more than a board or a run of it may have.
    Excess(LogExcess),
}

impl Fault {
    /// The fault that a status tells, if it tells one.
    pub fn of(status: &Status) -> Option<Fault> {
        match status {
            Status::BadBoard { fault, .. } => Some(match fault {
                BoardFault::Line(fault) => Fault::Line(*fault),
                BoardFault::Tree(fault) => Fault::Tree(*fault),
                BoardFault::Bound(_) => Fault::Bound,
                BoardFault::Device(fault) => Fault::Device(*fault),
            }),
            Status::BadTrace { fault, .. } => Some(Fault::Trace(*fault)),
            Status::BadMachine { fault, .. } => Some(Fault::Machine(*fault)),
            Status::NotRun { why, .. }
            | Status::DrawnTo { why, .. }
            | Status::ToldTo { why, .. }
            | Status::NotTold {
                refusal: LogRefusal::Cause(why),
                ..
            } => Some(Fault::Cause(*why)),
            Status::NotTold {
                refusal: LogRefusal::NoAct,
                ..
            } => Some(Fault::NoAct),
            Status::BadLog { fault, .. } => Some(Fault::Log(*fault)),
            Status::TooMuch { excess, .. } => Some(Fault::Excess(*excess)),
            _ => None,
        }
    }
}

impl fmt::Display for Fault {
    fn fmt<W: fmt::Write>(&self, f: &mut fmt::Formatter<W>) -> fmt::Result {
        match self {
            Fault::Line(fault) => write!(f, "{fault}"),
            Fault::Tree(fault) => write!(f, "{fault}"),
            Fault::Bound => write!(f, "a run may have more than 500,000 events"),
            Fault::Device(fault) => write!(f, "{fault}"),
            Fault::Trace(fault) => write!(f, "{fault}"),
            Fault::Machine(fault) => write!(f, "{fault}"),
            Fault::Log(fault) => write!(f, "{fault}"),
            Fault::Cause(why) => f.write_str(sentence_of(*why)),
            Fault::NoAct => f.write_str(NO_ACT),
            Fault::Excess(excess) => f.write_str(sentence_of_excess(*excess)),
        }
    }
}

/// The code of a fault: a letter and a number.
#[derive(Clone, Copy)]
pub(crate) struct Code(pub(crate) Fault);

impl fmt::Display for Code {
    fn fmt<W: fmt::Write>(&self, f: &mut fmt::Formatter<W>) -> fmt::Result {
        match self.0 {
            Fault::Line(fault) => write!(f, "{}", BoardFault::Line(fault)),
            Fault::Tree(fault) => write!(f, "{}", BoardFault::Tree(fault)),
            Fault::Bound => write!(f, "V9"),
            Fault::Device(fault) => write!(f, "{}", BoardFault::Device(fault)),
            Fault::Trace(fault) => write!(f, "X{}", fault.code()),
            Fault::Machine(fault) => write!(f, "I{}", fault.code()),
            Fault::Log(fault) => write!(f, "G{}", fault.code()),
            Fault::Cause(why) => write!(f, "{why}"),
            Fault::NoAct => write!(f, "{}", LogRefusal::NoAct),
            Fault::Excess(excess) => write!(f, "{excess}"),
        }
    }
}

/// Why an event is not allowed, as one sentence.
#[tactic(auto, unfolding(crate::specs::Sentences::sentence_of))]
pub fn sentence_of(why: Why) -> &'static str
    ensures { result.now ≡ sentence_of why }
{
    match why {
        Why::NotPresented => "its initiator does not present that operation on that bus now",
        Why::AnsweredOtherwise => "the operation is answered by another event",
        Why::GetsRetry => "the operation is answered with Retry",
        Why::NothingInFlight => "nothing is in flight on the lane",
        Why::MarkedOtherwise => "the board marks this arrival otherwise",
    }
}

/// Why a line of a log is no act.
const NO_ACT: &str = "a bridge drives what it does not hold";

/// What of a log is too much, as one sentence.
fn sentence_of_excess(excess: LogExcess) -> &'static str {
    match excess {
        LogExcess::Operations => "more operations, masters or opening words than a board may have",
        LogExcess::Pieces => "more posted writes or delayed requests than a bridge may hold",
        LogExcess::Events => "more events than a run may have",
        LogExcess::Pairings => "too many pairings of equal requests to try",
    }
}
