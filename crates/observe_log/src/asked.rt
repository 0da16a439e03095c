//! The request of an act, and what a line asks.
ghost use Rattle.std.specs.Prelude.{◌≡◌, ◌+◌, ◌*◌, length, take};
ghost use Rattle.std.specs.Option.{option_copied};
ghost use Rattle.std.specs.Cmp.Lexicographic.{pointwise};
ghost use Rattle.pci_command.specs.Same.{same_phase};
ghost use Rattle.observe_log.specs.Acts.{is_register, stands_at, asks_at, stand_in_front, asks};
ghost use Rattle.observe_log.specs.Acts.{is_aborted, has_value, is_outcome};

use observe_told::{Addressed, Ending, Seen};
use pci_command::{Outcome, Phase, Request};

/// Whether a request has the command of the line, at the dword so many behind the one that it
/// addressed.
pub(crate) fn asks_at(seen: &Seen, k: u32, request: &Request) -> bool
    ensures { result ≡ asks_at seen.now k request.now }
{
    request.command.code() == seen.command.plain().code()
        && stands_at(seen.address, k, request.address)
}

fn stands_at(addressed: Addressed, k: u32, address: u64) -> bool
    ensures { result ≡ stands_at addressed k address }
{
    match addressed {
        Addressed::Byte(first) => { u128::from(address) == u128::from(first) + 4 * u128::from(k) }
        Addressed::Type0 { device, register } => k == 0 && is_register(device, register, address),
        Addressed::Type1 { .. } => k == 0 && addressed.driven() == Some(address),
    }
}

fn is_register(device: Option<u8>, register: u8, address: u64) -> bool
    ensures { result ≡ is_register device register address }
{
    match device {
        Some(device) => address == 0x800 * u64::from(device) + 4 * u64::from(register),
        None => address % 0x800 == 4 * u64::from(register),
    }
}

/// Whether a request asks all that the line asks: of a write with its data phase.
pub(crate) fn asks(seen: &Seen, words: &[Phase], request: &Request) -> bool
    ensures { result ≡ asks seen.now words.now request.now }
{
    asks_at(seen, 0, request) && (seen.command.is_read() || shows_word(words, request))
}

fn shows_word(words: &[Phase], request: &Request) -> bool
    ensures { result ≡ pointwise same_phase request.now.phases (take 1 words.now) }
{
    let (front, _behind) = words.split_at(words.len().min(1));
    request.phases.as_slice() == front
}

/// Whether these data phases, one or more, stand at the front of those.
pub(crate) fn stand_in_front(phases: &[Phase], words: &[Phase]) -> bool
    ensures { result ≡ stand_in_front phases.now words.now }
{
    let (front, _behind) = words.split_at(words.len().min(phases.len()));
    !phases.is_empty() && phases == front
}

/// Whether it ended with Target-Abort.
pub(crate) fn is_aborted(ending: Ending) -> bool
    ensures { result ≡ is_aborted ending }
{
    matches!(ending, Ending::TargetAbort)
}

/// Whether a data phase is there, and has this value.
pub(crate) fn has_value(value: u32, word: Option<&Phase>) -> bool
    ensures { result ≡ has_value value (option_copied word.entry) }
{
    match word {
        Some(word) => word.value == value,
        None => false,
    }
}

/// Whether the line ended its request so, which a read did with its first data phase.
pub(crate) fn is_outcome(seen: &Seen, words: &[Phase], outcome: Outcome) -> bool
    ensures { result ≡ is_outcome seen.now words.now outcome }
{
    let aborted = is_aborted(seen.ending);
    match outcome {
        Outcome::Value(value) => seen.command.is_read() && has_value(value, words.first()),
        Outcome::Written => !aborted && !seen.command.is_read(),
        Outcome::Aborted => aborted && (!seen.command.is_read() || words.is_empty()),
        Outcome::Nobody => false,
    }
}
