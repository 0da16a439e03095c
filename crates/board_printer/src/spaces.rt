ghost use Rattle.std.specs.Prelude.{◌≡◌};
ghost use Rattle.board_printer.specs.Spaces.{space_word, poll_word, command_word, direction_word};

use pci_command::{Command, Space};

/// The word for a space.
pub fn space_word(space: Space) -> &'static str
    ensures { result.now ≡ space_word space }
{
    match space {
        Space::Mem => "mem",
        Space::Io => "io",
        Space::Cfg => "cfg",
    }
}

/// The word of a poll of a space for a value, or for any that differs.
pub(crate) fn poll_word(space: Space, differs: bool) -> &'static str
    ensures { result.now ≡ poll_word space differs }
{
    match (space, differs) {
        (Space::Mem, false) => "poll",
        (Space::Mem, true) => "pollnot",
        (Space::Io, false) => "iopoll",
        (Space::Io, true) => "iopollnot",
        (Space::Cfg, false) => "cfgpoll",
        (Space::Cfg, true) => "cfgpollnot",
    }
}

/// The word with which an operation of this command begins.
pub fn command_word(command: Command) -> &'static str
    ensures { result.now ≡ command_word command }
{
    match command {
        Command::IoRead => "ior",
        Command::IoWrite => "iow",
        Command::MemRead => "mr",
        Command::MemWrite => "mw",
        Command::CfgRead => "cfr",
        Command::CfgWrite => "cfw",
        Command::MemReadMultiple => "mrm",
        Command::MemReadLine => "mrl",
        Command::MemWriteInvalidate => "mwi",
    }
}

pub(crate) fn direction_word(up: bool) -> &'static str
    ensures { result.now ≡ direction_word up }
{
    if up { "up" } else { "down" }
}
