ghost use Rattle.std.specs.Prelude.{◌≡◌};
ghost use Rattle.command_traces.specs.draw.Rows.{event_of, names_event, rows_of};

use board_text::{NumberFault, decimal};

/// The numbers, from 1 on, of the first and the last event that is drawn. The last may be above the
/// number of events.
#[derive(Clone, Copy, Debug, PartialEq, Eq)]
pub struct Rows {
    pub first: u32,
    pub last: u32,
}

/// The number of an event that a word tells: a decimal of 1 to 10 digits, from 1 on; one of 2^32 or
/// above is lowered to the number before, which no event has. There is none exactly where the word
/// is no such number.
#[tactic(auto, unfolding(crate::specs::draw::Rows::event_of))]
fn event_of(word: &[u8]) -> Option<u32>
    ensures { result ≡ event_of word.now }
{
    match decimal(word) {
        Ok(0) => None,
        Ok(number) => Some(number),
        Err(NumberFault::OutOfRange) => Some(u32::MAX),
        Err(NumberFault::TooWide | NumberFault::NotDigits) => None,
    }
}

/// Whether a word tells the number of an event.
pub fn names_event(word: &[u8]) -> bool
    ensures { result ≡ names_event word.now }
{
    event_of(word).is_some()
}

/// The events that two words tell, the first and the last. There are none exactly where one of them
/// is no number of an event, or the last is below the first.
pub fn rows_of(first: &[u8], last: &[u8]) -> Option<Rows>
    ensures { result ≡ rows_of first.now last.now }
{
    match (event_of(first), event_of(last)) {
        (Some(first), Some(last)) if first <= last => Some(Rows { first, last }),
        _ => None,
    }
}
