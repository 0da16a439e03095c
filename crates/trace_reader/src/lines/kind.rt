ghost use Rattle.std.specs.Prelude.{◌≡◌};
ghost use Rattle.trace_reader.specs.lines.Events.{kind_of, later_kind_of};

/// What the second word of an event line says.
#[derive(Clone, Copy, Debug, PartialEq, Eq)]
pub enum EventWord {
    Land,
    Part,
    Read,
    Accept,
    Latch,
    Take,
    Stall,
    Nobody,
    Abort,
    Arrive,
}

pub(crate) fn kind_of(word: &[u8]) -> Option<EventWord>
    ensures { result ≡ kind_of word.now }
{
    if word == b"land".as_slice() {
        Some(EventWord::Land)
    } else if word == b"part".as_slice() {
        Some(EventWord::Part)
    } else if word == b"read".as_slice() {
        Some(EventWord::Read)
    } else if word == b"accept".as_slice() {
        Some(EventWord::Accept)
    } else if word == b"latch".as_slice() {
        Some(EventWord::Latch)
    } else {
        later_kind_of(word)
    }
}

fn later_kind_of(word: &[u8]) -> Option<EventWord>
    ensures { result ≡ later_kind_of word.now }
{
    if word == b"take".as_slice() {
        Some(EventWord::Take)
    } else if word == b"stall".as_slice() {
        Some(EventWord::Stall)
    } else if word == b"nobody".as_slice() {
        Some(EventWord::Nobody)
    } else if word == b"tabort".as_slice() {
        Some(EventWord::Abort)
    } else if word == b"arrive".as_slice() {
        Some(EventWord::Arrive)
    } else {
        None
    }
}
