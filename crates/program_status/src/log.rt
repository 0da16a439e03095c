use history_model::Why;
use std::fmt;

/// Why what a line of a log shows is not allowed.
#[derive(Clone, Copy, Debug, PartialEq, Eq)]
pub enum LogRefusal {
    /// An act of it is not allowed after those before it, for this cause.
    Cause(Why),
    /// No act can be named: a bridge drives a data phase of a write that it does not hold, or a
    /// request that nobody asks of it at that time.
    NoAct,
}

/// What of a log is more than a board or a run of it may have.
#[derive(Clone, Copy, Debug, PartialEq, Eq)]
pub enum LogExcess {
    /// Masters, operations, or words with which a target opens; or a write to a bridge's registers.
    Operations,
    /// Posted writes, their pieces, or delayed requests that a bridge holds, where it holds as many as
    /// can be written.
    Pieces,
    /// Events of a run.
    Events,
    /// Pairings of equal requests to be tried.
    Pairings,
}

impl fmt::Display for LogRefusal {
    ghost use Rattle.std.specs.Prelude.{Some};
    ghost use Rattle.program_status.specs.LogText.{refusal_text};

    ghost output = { λ refusal. Some (refusal_text refusal) };

    fn fmt<W: fmt::Write>(&self, f: &mut fmt::Formatter<W>) -> fmt::Result {
        match self {
            LogRefusal::Cause(why) => write!(f, "{why}"),
            LogRefusal::NoAct => write!(f, "O1"),
        }
    }
}

impl fmt::Display for LogExcess {
    ghost use Rattle.std.specs.Prelude.{Some};
    ghost use Rattle.program_status.specs.LogText.{excess_text};

    ghost output = { λ excess. Some (excess_text excess) };

    fn fmt<W: fmt::Write>(&self, f: &mut fmt::Formatter<W>) -> fmt::Result {
        f.write_str(match self {
            LogExcess::Operations => "O2",
            LogExcess::Pieces => "O3",
            LogExcess::Events => "O4",
            LogExcess::Pairings => "O5",
        })
    }
}
