ghost use Rattle.std.specs.Prelude.{◌≡◌, ◌++◌, ◌∷◌, [], OnOk, codes, if◌then◌else◌};
ghost use Rattle.trace_text.specs.Words.{lane_word, by_word, outcome_word};

use crate::digits::{push_decimal, push_word};
use board_model::Lane;
use history_model::By;
use pci_command::Outcome;
use std::alloc::AllocError;
use std::fmt;

/// A lane in a line: the secondary bus of its bridge, and `u` for up or `d` for down.
#[derive(Clone, Copy, Debug, PartialEq, Eq)]
pub struct LaneWord(pub Lane);

/// An initiator in a line: `m` for the operation's own master, otherwise the lane.
#[derive(Clone, Copy, Debug, PartialEq, Eq)]
pub struct ByWord(pub By);

impl fmt::Display for LaneWord {
    ghost use Rattle.std.specs.Prelude.{Some};
    ghost use Rattle.trace_text.specs.Words.{lane_word};

    ghost output = { λ word. Some (lane_word word.0) };

    fn fmt<W: fmt::Write>(&self, f: &mut fmt::Formatter<W>) -> fmt::Result {
        let bus = self.0.bus;
        if self.0.up {
            write!(f, "{bus}u")
        } else {
            write!(f, "{bus}d")
        }
    }
}

impl fmt::Display for ByWord {
    ghost use Rattle.std.specs.Prelude.{Some};
    ghost use Rattle.trace_text.specs.Words.{by_word};

    ghost output = { λ word. Some (by_word word.0) };

    fn fmt<W: fmt::Write>(&self, f: &mut fmt::Formatter<W>) -> fmt::Result {
        match self.0 {
            By::Master => write!(f, "m"),
            By::Lane(lane) => write!(f, "{}", LaneWord(lane)),
        }
    }
}

/// An initiator and a space, behind a text.
pub(crate) fn push_by(text: &mut Vec<u8>, by: By) -> Result<(), AllocError>
    ensures { OnOk result (text.new.items ≡ text.old.items ++ (by_word by ++ 32 ∷ [])) }
{
    match by {
        By::Master => text.extend_from_slice(b"m "),
        By::Lane(lane) => {
            push_lane(text, lane)?;
            text.push(b' ')?;
            Ok(())
        }
    }
}

/// A lane, behind a text.
pub(crate) fn push_lane(text: &mut Vec<u8>, lane: Lane) -> Result<(), AllocError>
    ensures { OnOk result (text.new.items ≡ text.old.items ++ lane_word lane) }
{
    push_decimal(text, u32::from(lane.bus))?;
    text.extend_from_slice(direction(lane.up))
}

fn direction(up: bool) -> &'static [u8]
    ensures { result.now ≡ (if up then codes "u" else codes "d") }
{
    if up { b"u" } else { b"d" }
}

/// How an operation ended, behind a text: its value in eight hexadecimal digits, `ok` or `abort`.
pub(crate) fn push_outcome(text: &mut Vec<u8>, outcome: Outcome) -> Result<(), AllocError>
    ensures { OnOk result (text.new.items ≡ text.old.items ++ outcome_word outcome) }
{
    match outcome {
        Outcome::Value(value) => push_word(text, value),
        Outcome::Written => text.extend_from_slice(b"ok"),
        Outcome::Aborted => text.extend_from_slice(b"abort"),
        Outcome::Nobody => text.extend_from_slice(b"nobody"),
    }
}
