ghost use Rattle.std.specs.Prelude.{◌≡◌, ◌+◌, ◌≤◌, [], ◌∷◌, length, IfSome, MatchOption};
ghost use Rattle.std.specs.List.{position_or_len};
ghost use Rattle.board_text.specs.Tokens.{is_separator, is_no_separator, is_comment, words_in};
ghost use Rattle.board_text.specs.Tokens.{IsFirstToken};

/// The first word of a text without a comment, and what stands behind it. Words are what stands
/// between spaces and tabs.
pub fn next_word(text: &[u8]) -> Option<(&[u8], &[u8])>
    ensures words { MatchOption result
        (words_in text.now ≡ []) (λ found. words_in text.now ≡ found.0.now ∷ words_in found.1.now) }
    ensures token { IfSome result (λ found. IsFirstToken text.now found.0.now found.1.now) }
    ensures within { IfSome result
        (λ found. length found.0.now + length found.1.now ≤ length text.now) }
{
    let (_between, from_word) = text.split_at(length_of_gap(text));
    if from_word.is_empty() {
        return None;
    }
    Some(from_word.split_at(length_of_word(from_word)))
}

fn length_of_gap(text: &[u8]) -> usize
    ensures value { result ≡ position_or_len is_no_separator text.now }
    ensures within { result ≤ length text.now }
{
    text.iter()
        .position(|byte| !is_separator(*byte))
        .unwrap_or(text.len())
}

fn length_of_word(text: &[u8]) -> usize
    ensures value { result ≡ position_or_len is_separator text.now }
    ensures within { result ≤ length text.now }
{
    text.iter()
        .position(|byte| is_separator(*byte))
        .unwrap_or(text.len())
}

fn is_separator(byte: u8) -> bool
    ensures { result ≡ is_separator byte }
{
    byte == b' ' || byte == b'\t'
}

/// How many bytes of a line stand before its comment, or all of them where it has none.
pub fn length_before_comment(line: &[u8]) -> usize
    ensures value { result ≡ position_or_len is_comment line.now }
    ensures within { result ≤ length line.now }
{
    line.iter()
        .position(|byte| *byte == b'#')
        .unwrap_or(line.len())
}
