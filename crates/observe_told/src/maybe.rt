//! Places and operations that may be missing, each in four bytes, since there are many of them.
use pci_command::OpId;

/// A place below 2^32 - 1, or none.
#[derive(Clone, Copy, Debug, PartialEq, Eq)]
pub struct MaybePlace(u32);

/// An operation of a program, by its first try, or none.
#[derive(Clone, Copy, Debug, PartialEq, Eq)]
pub struct MaybeOp {
    master: u16,
    index: u16,
}

impl MaybePlace {
    pub const NONE: MaybePlace = MaybePlace(u32::MAX);

    pub fn some(place: u32) -> MaybePlace {
        MaybePlace(place)
    }

    pub fn get(self) -> Option<u32> {
        if self.0 == u32::MAX {
            None
        } else {
            Some(self.0)
        }
    }
}

impl MaybeOp {
    /// No board has so many masters.
    pub const NONE: MaybeOp = MaybeOp {
        master: u16::MAX,
        index: 0,
    };

    pub fn some(op: OpId) -> MaybeOp {
        MaybeOp {
            master: op.master,
            index: op.index,
        }
    }

    pub fn get(self) -> Option<OpId> {
        if self.master == u16::MAX {
            return None;
        }
        Some(OpId {
            master: self.master,
            index: self.index,
            attempt: 0,
        })
    }
}
