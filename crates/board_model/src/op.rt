ghost use Rattle.std.specs.Prelude.{◌≡◌};
ghost use Rattle.board_model.specs.Wants.{wants};

use pci_command::{Command, Phase, Phases, Space};

/// An operation of a master's program.
#[derive(Debug, Drop)]
pub enum Op {
    /// A read of one dword in memory or I/O.
    Read {
        command: Command,
        address: u64,
    },
    /// A write in memory (one to eight dwords) or I/O (one dword).
    Write {
        command: Command,
        address: u64,
        phases: Phases,
    },
    /// A read of a register (0 to 63) in the configuration space of the device on that bus.
    CfgRead {
        bus: u8,
        device: u8,
        register: u8,
    },
    /// A write of such a register.
    CfgWrite {
        bus: u8,
        device: u8,
        register: u8,
        phase: Phase,
    },
    /// Reads again and again, at most `tries` times, until the dword is as it is wanted.
    Poll {
        space: Space,
        address: u64,
        want: Want,
        tries: u32,
    },
}

/// What a poll waits for: a dword that is `wanted` under the mask or, where it `differs`, any
/// other.
#[derive(Clone, Copy, Debug, PartialEq, Eq, Hash)]
pub struct Want {
    pub mask: u32,
    pub wanted: u32,
    pub differs: bool,
}

impl Want {
    /// Whether it is this value that the poll waits for.
    pub fn is_met_by(self, value: u32) -> bool
        ensures { result ≡ wants self value }
    {
        (value & self.mask == self.wanted) != self.differs
    }
}
