ghost use Rattle.std.specs.Prelude.{◌≡◌};
ghost use Rattle.command_runs.specs.generate.Answers.{rounds_of, names_rounds};

use board_text::decimal;
use traffic_generator::Rounds;

/// The rounds that a word names: a decimal of 1 to 10 digits, from 1 to 300. There are none exactly
/// where the word is no such number.
#[tactic(auto, unfolding(crate::specs::generate::Answers::rounds_of))]
pub(crate) fn rounds_of(word: &[u8]) -> Option<Rounds>
    ensures { result ≡ rounds_of word.now }
{
    match decimal(word) {
        Ok(count) => Rounds::new(count),
        Err(_) => None,
    }
}

/// Whether a word names rounds.
pub fn names_rounds(word: &[u8]) -> bool
    ensures { result ≡ names_rounds word.now }
{
    rounds_of(word).is_some()
}
