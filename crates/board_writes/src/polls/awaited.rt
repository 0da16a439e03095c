ghost use Rattle.std.specs.Prelude.{◌≡◌, bit_and};
ghost use Rattle.std.specs.Option.{option_map};
ghost use Rattle.board_tree.specs.Decodable.{IsDecodable};
ghost use Rattle.board_model.specs.device.Registers.{enabled_bits};
ghost use Rattle.history_model.specs.Words.{opens_as};
ghost use Rattle.safe_model.specs.Raisers.{is_met_by, is_whole, is_plain, brings_met};
ghost use Rattle.safe_model.specs.largest.Tests.{wish_of};
ghost use Rattle.audit_clocks.specs.Tables.{dword};
ghost use Rattle.board_writes.specs.Polls.{wish_for, raises_it, is_clean_write};

use crate::writers::{WordWrite, first_named};
use board_model::{Board, Op, Want, Word, merge, op_of};
use machine_steps::opens_as;
use pci_command::{OpId, Phase, Space};

/// What a poll waits for of its dword.
#[derive(Clone, Copy, Debug, PartialEq, Eq, Hash)]
pub struct Awaited {
    pub word: Word,
    pub want: Want,
}

/// What the operation waits for: nothing where it is no poll that has a word.
pub fn awaited_by(board: &Board, op: OpId) -> Option<Awaited>
    requires { IsDecodable board.now }
    ensures { option_map wish_for result ≡ wish_of board.now op }
{
    match op_of(board, op) {
        Some(Op::Poll { want, .. }) => {
            let word = first_named(board, op)?;
            Some(Awaited { word, want: *want })
        }
        _ => None,
    }
}

impl Awaited {
    /// Whether the dword is in a space where a write changes all bits of the bytes that it enables.
    pub(crate) fn is_plain(&self) -> bool
        ensures { result ≡ is_plain self.now.word.space }
    {
        match self.word.space {
            Space::Mem | Space::Io => true,
            Space::Cfg => false,
        }
    }

    /// Whether what the dword opens as meets it.
    pub(crate) fn opens(&self, board: &Board) -> bool
        ensures { result ≡
            is_met_by self.now.want (opens_as board.now (dword self.now.word)) }
    {
        let Word {
            target,
            space,
            address,
        } = self.word;
        self.is_met_by(opens_as(board, target, space, address))
    }

    /// Whether the write brings a value that meets it.
    pub(crate) fn is_raised_by(&self, write: &WordWrite) -> bool
        ensures { result ≡ raises_it self.now write.now }
    {
        self.is_met_by(write.value())
    }

    /// Whether the write writes all that the mask looks at, and where it brings a value that meets
    /// it, does so last.
    pub(crate) fn is_clean(&self, write: &WordWrite) -> bool
        ensures { result ≡ is_clean_write self.now write.now }
    {
        is_whole(self.want.mask, write.phase) && (!self.is_raised_by(write) || write.last)
    }

    /// Whether the value meets it.
    pub(crate) fn is_met_by(&self, value: u32) -> bool
        ensures { result ≡ is_met_by self.now.want value }
    {
        self.want.is_met_by(value)
    }
}

/// Whether the data phase enables all bytes that the mask looks at.
fn is_whole(mask: u32, phase: Phase) -> bool
    ensures { result ≡ is_whole mask phase }
{
    enabled(phase) & mask == mask
}

/// The bits that a data phase writes: those that one of all ones leaves where there were zeros.
#[tactic(auto, using(crate::proofs::KeptLemmas::ones_left))]
pub(crate) fn enabled(phase: Phase) -> u32
    ensures { result ≡ bit_and (enabled_bits phase.enables) 0xffff_ffff }
{
    let ones = Phase {
        value: 0xffff_ffff,
        ..phase
    };
    merge(0, &ones, 0xffff_ffff)
}
