use std::marker::Model;

/// The words that the program is called with, without its own name. Clauses see their bytes.
#[derive(Drop)]
pub struct Called<'a>(&'a [String]);

impl<'a> Model for Called<'a> {
    ghost use Rattle.std.specs.Prelude.{ℕ, List, map, string_bytes};

    ghost Value = { List (List ℕ) };

    ghost view = { λ called. map string_bytes called.0.now };
}

impl<'a> Called<'a> {
    ghost use Rattle.std.specs.Prelude.{◌≡◌, map, string_bytes};

    /// These words.
    pub fn new(words: &'a [String]) -> Called<'a>
        ensures { result ≡ map string_bytes words.now }
    {
        Called(words)
    }

    /// The words, one by one.
    pub fn words(&self) -> &'a [String]
        ensures { map string_bytes result.now ≡ self.now }
    {
        self.0
    }
}
