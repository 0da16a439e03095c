ghost use Rattle.std.specs.Prelude.{◌≡◌, ◌<◌, ◌≤◌, false, true, length, map, IfSome};
ghost use Rattle.std.specs.List.{position_or_len};
ghost use Rattle.trace_reader.specs.lines.Lines.{is_unreadable, is_regular, pieces_of};
ghost use Rattle.trace_reader.specs.lines.Scanned.{first_line, ends_word, BeginsWith};

use arrayvec::ArrayVec;

/// The words of the first line of a text, and the line without its newline, found in one pass:
/// where the line has a newline and is readable, single spaces alone stand between its words, and
/// there are no more than the longest line of an event has.
pub(crate) fn scan_line(text: &[u8]) -> Option<(ArrayVec<&[u8], 6>, &[u8])>
    ensures first { IfSome result (λ found. found.1.now ≡ first_line text.now) }
    ensures shorter { IfSome result (λ found. length found.1.now < length text.now) }
    ensures readable { IfSome result (λ found. is_unreadable found.1.now ≡ false) }
    ensures pieces { IfSome result
        (λ found. map (λ word. word.now) found.0.items ≡ pieces_of found.1.now) }
    ensures regular { IfSome result (λ found. is_regular (pieces_of found.1.now) ≡ true) }
{
    let mut words = ArrayVec::new();
    let mut rest = text;
    while !words.is_full() {
        let (word, stop, behind) = next_word(rest)?;
        words.push(word);
        if stop == b'\n' {
            let size = text.len() - behind.len() - 1;
            if size > 256 {
                return None;
            }
            let (line, _newline) = text.split_at(size);
            return Some((words, line));
        }
        if stop != b' ' {
            return None;
        }
        rest = behind;
    }
    None
}

/// The word with which a text begins, the byte that ends it, and what stands behind that.
fn next_word(text: &[u8]) -> Option<(&[u8], u8, &[u8])>
    ensures begins { IfSome result
        (λ found. BeginsWith text.now found.0.now found.1 found.2.now) }
    ensures shorter { IfSome result (λ found. length found.2.now < length text.now) }
{
    let (word, from) = text.split_at(length_of_word(text));
    if word.is_empty() {
        return None;
    }
    let (stop, behind) = from.split_first()?;
    Some((word, *stop, behind))
}

/// How many bytes stand before the first that ends a word.
fn length_of_word(text: &[u8]) -> usize
    ensures value { result ≡ position_or_len ends_word text.now }
    ensures within { result ≤ length text.now }
{
    text.iter()
        .position(|byte| ends_word(*byte))
        .unwrap_or(text.len())
}

fn ends_word(byte: u8) -> bool
    ensures { result ≡ ends_word byte }
{
    !(b'!'..=b'~').contains(&byte)
}
