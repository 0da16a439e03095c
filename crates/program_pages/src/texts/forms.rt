//! What stands at which place of a line, by its first word; called as `help board` and `help
//! device` call it.
use crate::texts::places::{first_word, is_among, word_at};
use crate::texts::wanted::{WantedWord, WordKind};
use board_model::{MOST_DELAYED, MOST_DWORDS, MOST_POSTED, MOST_TRIES};
use board_statements::is_word;

const NAME: WantedWord = WantedWord("NAME", WordKind::Name);

const TARGET: WantedWord = WantedWord("TARGET", WordKind::Name);

const ON: WantedWord = WantedWord("on", WordKind::Fixed);

const DEV_IS: WantedWord = WantedWord("dev", WordKind::Fixed);

const LAST_IS: WantedWord = WantedWord("last", WordKind::Fixed);

const BELL_IS: WantedWord = WantedWord("bell", WordKind::Fixed);

const IS: WantedWord = WantedWord("is", WordKind::Fixed);

const ANY: WantedWord = WantedWord("any", WordKind::Fixed);

const WAIT_IS: WantedWord = WantedWord("wait", WordKind::Fixed);

const SPACE: WantedWord = WantedWord("mem or io", WordKind::Fixed);

const DIRECTION: WantedWord = WantedWord("down or up", WordKind::Fixed);

const BUS: WantedWord = WantedWord("BUS", WordKind::Decimal(0, 255));

/// The bus of a bridge, which is not bus 0.
const BUS_BEHIND: WantedWord = WantedWord("BUS", WordKind::Decimal(1, 255));

const DEV: WantedWord = WantedWord("DEV", WordKind::Decimal(0, 31)); // not a limit

const TOKENS: WantedWord = WantedWord("COUNT", WordKind::Decimal(0, 1_000_000));

const BURST: WantedWord = WantedWord("COUNT", WordKind::Decimal(1, MOST_DWORDS as u32));

const POSTED: WantedWord = WantedWord("COUNT", WordKind::Decimal(1, MOST_POSTED as u32));

const DELAYED: WantedWord = WantedWord("COUNT", WordKind::Decimal(1, MOST_DELAYED as u32));

const MODE: WantedWord = WantedWord("MODE", WordKind::Decimal(0, 1));

const PLANNED: WantedWord = WantedWord("K", WordKind::Decimal(1, 1_000_000));

const REGISTER: WantedWord = WantedWord("REG", WordKind::Decimal(0, 63));

const TRIES: WantedWord = WantedWord("TRIES", WordKind::Decimal(1, MOST_TRIES));

const LENGTH: WantedWord = WantedWord("LENGTH", WordKind::Decimal(1, 4096));

const VENDOR: WantedWord = WantedWord("VENDOR", WordKind::Hex(4));

const DEVICE: WantedWord = WantedWord("DEVICE", WordKind::Hex(4));

const MESSAGE: WantedWord = WantedWord("DATA", WordKind::Hex(4));

/// Digits of a dword.
const OF_A_DWORD: u8 = 8; // not a limit

const PORT: WantedWord = WantedWord("ADDR", WordKind::Hex(OF_A_DWORD));

const MASK: WantedWord = WantedWord("MASK", WordKind::Hex(OF_A_DWORD));

const VALUE: WantedWord = WantedWord("VALUE", WordKind::Hex(OF_A_DWORD));

const BASE: WantedWord = WantedWord("BASE", WordKind::Hex(OF_A_DWORD));

const LIMIT: WantedWord = WantedWord("LIMIT", WordKind::Hex(OF_A_DWORD));

const ADDRESS: WantedWord = WantedWord("ADDR", WordKind::Long);

const LONG_BASE: WantedWord = WantedWord("BASE", WordKind::Long);

const LONG_LIMIT: WantedWord = WantedWord("LIMIT", WordKind::Long);

const ADDRESS_THERE: WantedWord = WantedWord("ADDR", WordKind::InSpace);

const BASE_THERE: WantedWord = WantedWord("BASE", WordKind::InSpace);

const SIZE_THERE: WantedWord = WantedWord("SIZE", WordKind::InSpace);

const DATA: WantedWord = WantedWord("WORD", WordKind::Data);

const BYTES: WantedWord = WantedWord("BYTES", WordKind::Bytes);

const VECTORS: WantedWord = WantedWord("VECTORS", WordKind::Vectors);

const VECTOR: WantedWord = WantedWord("V", WordKind::Vector);

const SEED: WantedWord = WantedWord("SEED", WordKind::Seed);

/// What may stand behind the words of a form.
#[derive(Clone, Copy)]
enum More {
    Nothing,
    /// Further data words.
    Data,
    /// Options of a bridge.
    Options,
    /// What a read should return, or that it may return anything.
    Tail,
}

/// The first words of the lines of a form, what their further words are, and what may stand behind.
type WordsOfLine = (&'static str, &'static [WantedWord], More);

/// The lines of a board.
static BOARD_FORMS: [WordsOfLine; 18] = [
    (
        "bridge",
        &[BUS_BEHIND, ON, BUS, DEV_IS, DEV, LAST_IS, BUS],
        More::Options,
    ),
    ("header", &[DEV, BYTES], More::Options),
    ("target", &[NAME, ON, BUS, DEV_IS, DEV], More::Nothing),
    ("master", &[NAME, ON, BUS], More::Nothing),
    ("id", &[VENDOR, DEVICE], More::Nothing),
    ("stall", &[TOKENS], More::Nothing),
    ("burst", &[BURST], More::Nothing),
    (
        "range abort",
        &[SPACE, BASE_THERE, SIZE_THERE],
        More::Nothing,
    ),
    ("word", &[SPACE, ADDRESS_THERE, VALUE], More::Nothing),
    ("discard drop", &[BUS, DIRECTION, PLANNED], More::Nothing),
    ("mr mrl mrm", &[ADDRESS], More::Tail),
    ("mw mwi", &[ADDRESS], More::Data),
    ("ior", &[PORT], More::Tail),
    ("iow", &[PORT, DATA], More::Nothing),
    ("cfr", &[BUS, DEV, REGISTER], More::Tail),
    ("cfw", &[BUS, DEV, REGISTER, DATA], More::Nothing),
    (
        "poll pollnot",
        &[ADDRESS, MASK, VALUE, TRIES],
        More::Nothing,
    ),
    (
        "iopoll iopollnot",
        &[PORT, MASK, VALUE, TRIES],
        More::Nothing,
    ),
];

/// The lines of devices.
static DEVICE_FORMS: [WordsOfLine; 7] = [
    (
        "device",
        &[NAME, ON, TARGET, BELL_IS, PORT, VALUE, TRIES],
        More::Nothing,
    ),
    (
        "handler",
        &[NAME, ON, BUS, WAIT_IS, PORT, VALUE, TRIES],
        More::Nothing,
    ),
    ("put", &[PORT, LENGTH, SEED], More::Nothing),
    ("get look", &[PORT], More::Tail),
    ("send", &[PORT, MESSAGE, VECTORS, VECTOR], More::Nothing),
    ("wait", &[PORT, VALUE, TRIES], More::Nothing),
    ("word", &[PORT, VALUE], More::Nothing),
];

/// What may be left out of the line of a bridge: its first word, and what stands behind.
type Choice = (&'static str, &'static [WantedWord]);

/// In their order.
static OPTIONS: [Choice; 6] = [
    ("mem", &[BASE, LIMIT]),
    ("pref", &[LONG_BASE, LONG_LIMIT]),
    ("io", &[BASE, LIMIT]),
    ("posted", &[POSTED]),
    ("delayed", &[DELAYED]),
    ("abort", &[MODE]),
];

/// What the word of this place, from 1, of a line of a board is read as, if one may stand there.
pub(super) fn wanted_at(line: &[u8], place: usize) -> Option<WantedWord> {
    wanted_in(form_in(&BOARD_FORMS, line)?, line, place)
}

/// The same of a line of devices.
pub(super) fn wanted_of_device(line: &[u8], place: usize) -> Option<WantedWord> {
    wanted_in(form_in(&DEVICE_FORMS, line)?, line, place)
}

/// Whether a line of devices begins so.
pub(super) fn is_of_devices(line: &[u8]) -> bool {
    form_in(&DEVICE_FORMS, line).is_some()
}

/// The form of a line, by its first word.
fn form_in(forms: &'static [WordsOfLine], line: &[u8]) -> Option<&'static WordsOfLine> {
    let first = first_word(line);
    for form in forms {
        if is_among(first, form.0) {
            return Some(form);
        }
    }
    None
}

fn wanted_in(form: &WordsOfLine, line: &[u8], place: usize) -> Option<WantedWord> {
    match (form.1.get(place.saturating_sub(1)), form.2) {
        (Some(wanted), _) => Some(in_space(*wanted, line)),
        (None, More::Nothing) => None,
        (None, More::Data) => Some(DATA),
        (None, More::Options) => {
            let (option, within) = option_from(line, behind(form), place)?;
            option.1.get(within.checked_sub(1)?).copied()
        }
        (None, More::Tail) => wanted_in_tail(line, behind(form), place),
    }
}

/// What a place of the tail of a read is read as, which begins at `from`.
fn wanted_in_tail(line: &[u8], from: usize, place: usize) -> Option<WantedWord> {
    let first = word_at(line, from)?;
    let behind = place.checked_sub(from)?;
    match (behind, first) {
        (0, b"is") => Some(IS),
        (0, b"any") => Some(ANY),
        (1, b"is") => Some(VALUE),
        _ => None,
    }
}

/// A number of the space that the second word of the line names.
fn in_space(wanted: WantedWord, line: &[u8]) -> WantedWord {
    match (wanted, word_at(line, 1)) {
        (WantedWord(word, WordKind::InSpace), Some(b"mem")) => WantedWord(word, WordKind::Long),
        (WantedWord(word, WordKind::InSpace), _) => WantedWord(word, WordKind::Hex(OF_A_DWORD)),
        _ => wanted,
    }
}

/// The place behind the words of a form.
fn behind(form: &WordsOfLine) -> usize {
    form.1.len().saturating_add(1)
}

/// The first word of the option of a bridge that a place of a line of a board belongs to.
pub(super) fn option_at(line: &[u8], place: usize) -> Option<&'static str> {
    let form = form_in(&BOARD_FORMS, line)?;
    let (option, _) = match form.2 {
        More::Options => option_from(line, behind(form), place)?,
        More::Nothing | More::Data | More::Tail => return None,
    };
    Some(option.0)
}

/// The option that a place of a line belongs to, whose options begin at `from`; and its place there.
fn option_from(line: &[u8], from: usize, place: usize) -> Option<(&'static Choice, usize)> {
    let mut at = from;
    for _ in 0..OPTIONS.len() {
        let option = option_of(word_at(line, at)?)?;
        let next = at.saturating_add(length_of(option, word_at(line, at.saturating_add(1))));
        if place < next {
            return Some((option, place.saturating_sub(at)));
        }
        at = next;
    }
    None
}

fn option_of(word: &[u8]) -> Option<&'static Choice> {
    for option in &OPTIONS {
        if is_word(word, option.0.as_bytes()) {
            return Some(option);
        }
    }
    None
}

/// How many words an option takes, with this second one: there is no limit behind `none`.
fn length_of(option: &Choice, second: Option<&[u8]>) -> usize {
    match second {
        Some(b"none") => 2,
        _ => option.1.len().saturating_add(1),
    }
}
