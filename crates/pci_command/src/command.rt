ghost use Rattle.std.specs.Prelude.{◌≡◌, IfSome};

/// An address space (PCI Local Bus 2.2, section 3.2.2, from memory).
#[derive(Clone, Copy, Debug, Default, PartialEq, Eq, Hash)]
pub enum Space {
    /// Memory, of 64-bit addresses.
    #[default]
    Mem,
    /// I/O, of 32-bit addresses.
    Io,
    /// Configuration, of the addresses of type 0 and type 1.
    Cfg,
}

/// A bus command (PCI Local Bus 2.2, section 3.1.1, from memory), without the reserved ones,
/// Interrupt Acknowledge, Special Cycle and Dual Address Cycle.
#[derive(Clone, Copy, Debug, Default, PartialEq, Eq)]
pub enum Command {
    IoRead,
    IoWrite,
    #[default]
    MemRead,
    MemWrite,
    CfgRead,
    CfgWrite,
    MemReadMultiple,
    MemReadLine,
    MemWriteInvalidate,
}

/// What the ordering table tells apart: a posted memory write, a delayed read or write request,
/// and a delayed read or write completion (PCI Local Bus 2.2, appendix E).
#[derive(Clone, Copy, Debug, Default, PartialEq, Eq)]
pub enum Kind {
    /// Posted memory write.
    #[default]
    Pmw,
    /// Delayed read request.
    Drr,
    /// Delayed write request.
    Dwr,
    /// Delayed read completion.
    Drc,
    /// Delayed write completion.
    Dwc,
}

impl Command {
    ghost use Rattle.pci_command.specs.Command.{code_of, plain_of, space_of, is_read};

    /// The command with this code on C/BE[3::0]#. There is none exactly for a code of no command.
    pub fn from_code(code: u8) -> Option<Command>
        ensures sound { IfSome result (λ command. code_of command ≡ code) }
        ensures complete { (command : Command) → code_of command ≡ code → result ≡ Some command }
    {
        match code {
            2 => Some(Command::IoRead),
            3 => Some(Command::IoWrite),
            6 => Some(Command::MemRead),
            7 => Some(Command::MemWrite),
            10 => Some(Command::CfgRead),
            11 => Some(Command::CfgWrite),
            12 => Some(Command::MemReadMultiple),
            14 => Some(Command::MemReadLine),
            15 => Some(Command::MemWriteInvalidate),
            _ => None,
        }
    }

    /// Its code on C/BE[3::0]# in the address phase.
    pub fn code(self) -> u8
        ensures { result ≡ code_of self }
    {
        match self {
            Command::IoRead => 2,
            Command::IoWrite => 3,
            Command::MemRead => 6,
            Command::MemWrite => 7,
            Command::CfgRead => 10,
            Command::CfgWrite => 11,
            Command::MemReadMultiple => 12,
            Command::MemReadLine => 14,
            Command::MemWriteInvalidate => 15,
        }
    }

    /// The command that it acts as, where nothing is prefetched and no cache listens.
    pub fn plain(self) -> Command
        ensures { result ≡ plain_of self }
    {
        match self {
            Command::MemReadMultiple | Command::MemReadLine => Command::MemRead,
            Command::MemWriteInvalidate => Command::MemWrite,
            other => other,
        }
    }

    /// The space that it addresses.
    pub fn space(self) -> Space
        ensures { result ≡ space_of self }
    {
        match self {
            Command::IoRead | Command::IoWrite => Space::Io,
            Command::CfgRead | Command::CfgWrite => Space::Cfg,
            Command::MemRead
            | Command::MemWrite
            | Command::MemReadMultiple
            | Command::MemReadLine
            | Command::MemWriteInvalidate => Space::Mem,
        }
    }

    /// Whether it reads.
    pub fn is_read(self) -> bool
        ensures { result ≡ is_read self }
    {
        match self {
            Command::IoRead
            | Command::MemRead
            | Command::CfgRead
            | Command::MemReadMultiple
            | Command::MemReadLine => true,
            Command::IoWrite
            | Command::MemWrite
            | Command::CfgWrite
            | Command::MemWriteInvalidate => { false }
        }
    }
}
