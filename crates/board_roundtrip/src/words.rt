//! What was printed is read again: the lines of a text, the words of a line, and numbers. Each law
//! is the contract of a function that does nothing.
ghost use Rattle.std.specs.Prelude.{◌≡◌, ◌<◌, ◌^◌, ℕ, List, true, map, Ok};
ghost use Rattle.std.specs.Fmt.{decimal};
ghost use Rattle.std.specs.List.{list_all};
ghost use Rattle.board_text.specs.Lines.{lines_of, is_allowed};
ghost use Rattle.board_text.specs.Tokens.{words_of};
ghost use Rattle.board_text.specs.Numbers.{hex_answer, decimal_answer};
ghost use Rattle.board_printer.specs.Lines.{Line, text_of};
ghost use Rattle.board_printer.specs.Numbers.{word_text, half_text};
ghost use Rattle.board_roundtrip.specs.words.Printed.{is_word, has_words_alone, joined};

/// The lines of a text of lines of words are these lines, and the words of each are its words; no
/// line has a byte that no line may have.
pub fn lines_are_read_again()
    ensures lines { (lines : List Line) → list_all has_words_alone lines ≡ true →
        lines_of (text_of lines) ≡ map joined lines }
    ensures words { (words : Line) → has_words_alone words ≡ true →
        words_of (joined words) ≡ words }
    ensures allowed { (words : Line) → has_words_alone words ≡ true →
        list_all is_allowed (joined words) ≡ true }
{}

/// Numbers are read as what they were printed of, and what they are printed as are words.
pub fn numbers_are_read_again()
    ensures decimals { (n : ℕ) → n < 2 ^ 32 → decimal_answer (decimal n) ≡ Ok n }
    ensures eight_digits { (n : ℕ) → n < 2 ^ 32 → hex_answer (word_text n) 8 ≡ Ok n }
    ensures four_digits { (n : ℕ) → n < 2 ^ 16 → hex_answer (half_text n) 4 ≡ Ok n }
    ensures decimal_words { (n : ℕ) → n < 2 ^ 32 → is_word (decimal n) ≡ true }
    ensures hexadecimal_words { (n : ℕ) → n < 2 ^ 32 → is_word (word_text n) ≡ true }
    ensures half_words { (n : ℕ) → n < 2 ^ 16 → is_word (half_text n) ≡ true }
{}
