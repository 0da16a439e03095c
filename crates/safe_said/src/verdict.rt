use board_model::Word;
use pci_command::OpId;

/// What is said of an operation.
#[derive(Clone, Copy, Debug, PartialEq, Eq)]
pub enum Said {
    /// The read returns the value in every run in which it ends.
    Safe { word: Word, value: u32 },
    /// Nothing orders the read and this write, or this write and another.
    Unsafe { word: Word, beside: OpId },
    /// Nobody takes the write, or its target aborts it.
    Lost { aborted: bool },
    /// Nobody takes the read or the poll, or its target aborts it, so that it reads no word.
    Nowhere { aborted: bool },
    /// No run meets the poll.
    Vain,
    /// What meets the poll tells it of nothing.
    Loose,
}

/// An operation, and what is said of it.
#[derive(Clone, Copy, Debug, PartialEq, Eq)]
pub struct OpSaid {
    pub op: OpId,
    pub said: Said,
}
