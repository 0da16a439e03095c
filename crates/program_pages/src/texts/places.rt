use board_statements::{Words, is_word};

/// The word of this place of a line, from 0.
pub(super) fn word_at(line: &[u8], place: usize) -> Option<&[u8]> {
    let mut words = Words::new(line);
    for _ in 0..place {
        let _before = words.take().ok()?;
    }
    words.take().ok()
}

/// How many words a line has.
pub(super) fn count_words(line: &[u8]) -> usize {
    Words::new(line).left()
}

/// The first word of a line, of a line without words none.
pub(super) fn first_word(line: &[u8]) -> &[u8] {
    word_at(line, 0).unwrap_or(b"")
}

/// Whether a word is one of these, between which a space stands each.
pub(super) fn is_among(word: &[u8], words: &str) -> bool {
    for one in words.as_bytes().split(|byte| *byte == b' ') {
        if is_word(word, one) {
            return true;
        }
    }
    false
}

/// A decimal number of a byte at this place of a line.
pub(super) fn byte_at(line: &[u8], place: usize) -> Option<u8> {
    let word = word_at(line, place)?;
    Words::new(word).decimal_byte(0, 255).ok()
}
