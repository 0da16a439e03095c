use board_model::{Bridge, Name, Op, Opening, Planned, Range};

/// What a line of a board text says, by its words alone. Whether it fits the board is looked at
/// where it is added.
#[derive(Debug, Drop)]
pub enum Statement {
    /// `bridge`: the bridge as it is written.
    NewBridge(Bridge),
    /// `header`: a bridge by the 64 bytes of its header.
    NewHeader {
        device: u8,
        bytes: [u8; 64],
        posted: u8,
        delayed: u8,
    },
    /// `target`
    NewTarget {
        name: Name,
        bus: u8,
        device: u8,
    },
    /// `id`
    Identifies {
        vendor: u16,
        model: u16,
    },
    /// `stall`: stall tokens.
    Stalls(u32),
    /// `burst`: how many data phases of a write are taken at a time.
    Bursts(u8),
    /// `range`: claimed by the target.
    Claims(Range),
    /// `abort`: answered with Target-Abort.
    Aborts(Range),
    /// `word`: what a dword opens with.
    Opens(Opening),
    /// `master`
    NewMaster {
        name: Name,
        bus: u8,
    },
    /// An operation. Of a write with more than eight data words it has the first eight, and there
    /// were too many.
    Does {
        op: Op,
        too_many: bool,
    },
    /// `discard`
    Discards(Planned),
    /// `drop`
    Drops(Planned),
}
