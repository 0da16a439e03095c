use crate::texts::text::Text;
use board_statements::{Words, is_word, parts};
use text_faults::LineFault;

/// What a word is read as: what the help calls it (a fixed word is called as it is), and its kind.
#[derive(Clone, Copy)]
pub(super) struct WantedWord(pub(super) &'static str, pub(super) WordKind);

/// A kind of words.
#[derive(Clone, Copy)]
pub(super) enum WordKind {
    /// Just this word, or one of these.
    Fixed,
    Name,
    /// A decimal number from one to another.
    Decimal(u32, u32),
    /// A hexadecimal number of so many digits at most.
    Hex(u8),
    /// The same of eight digits, which may have 64 bits in a `pciboard 2` text.
    Long,
    /// Such a number where the second word of the line is `mem`, else a number of eight digits.
    InSpace,
    /// A data word.
    Data,
    /// The bytes of a header.
    Bytes,
    /// How many vectors a function has: a power of 2.
    Vectors,
    /// One of the vectors, whose number stands before it.
    Vector,
    /// A hexadecimal number of a byte.
    Seed,
}

impl WantedWord {
    /// What is said of a word that is none of its kind, in a text that may have addresses of 64
    /// bits or not.
    pub(super) fn ill_formed(self, found: &[u8], wide: bool) -> Option<Text> {
        let WantedWord(word, kind) = self;
        Some(match kind {
            WordKind::Hex(_) | WordKind::Long | WordKind::Data if has_prefix(found) => {
                Text::Plain("hexadecimal numbers are written without 0x")
            }
            WordKind::Hex(most) => Text::Digits { word, most },
            WordKind::Long if parts(found, b':').is_none() => Text::Digits {
                word,
                most: 8, // not a limit
            },
            WordKind::Long => Text::Plain(text_of_long(wide)),
            WordKind::Decimal(low, high) => Text::Decimal { word, low, high },
            WordKind::Data => Text::Plain(
                "a word is 1 to 8 hexadecimal digits, and /E for the enabled bytes, E one digit",
            ),
            WordKind::Bytes => Text::Plain("a header is 128 hexadecimal digits"),
            WordKind::Name => {
                Text::Plain("a name is 1 to 16 letters, digits, _ and -, a letter first")
            }
            _ => return None,
        })
    }

    /// What is said of a word of a device text that is not as it is wanted: of a name nothing,
    /// which has a fault of its own.
    pub(super) fn misfit(self, found: &[u8]) -> Option<Text> {
        let WantedWord(word, kind) = self;
        let mut words = Words::new(found);
        let fault = match kind {
            WordKind::Fixed if is_word(found, word.as_bytes()) => return None,
            WordKind::Fixed => return Some(Text::Here(word)),
            WordKind::Decimal(low, high) => words.decimal(low, high).err()?,
            WordKind::Hex(4) => words.hex_half().err()?,
            WordKind::Hex(_) => words.hex().err()?,
            _ => return None,
        };
        match fault {
            LineFault::TooWide => Some(Text::Plain("a number with too many digits")),
            _ => self.ill_formed(found, false),
        }
    }
}

/// What is said of an address of two parts, in a text where it may have 64 bits or not.
fn text_of_long(wide: bool) -> &'static str {
    if wide {
        "an address of 64 bits is UPPER:LOWER, LOWER of exactly 8 hexadecimal digits"
    } else {
        "addresses of 64 bits are read in a text that begins with pciboard 2"
    }
}

/// Whether a number begins with 0x or 0X.
fn has_prefix(word: &[u8]) -> bool {
    word.starts_with(b"0x") || word.starts_with(b"0X")
}
