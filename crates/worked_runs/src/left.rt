//! What reads of the relay return: one that was told of a write what that write left. And why the
//! law that says so has its premises.

ghost use Rattle.std.specs.Prelude.{◌≡◌, ◌∷◌, ◌++◌, [], Some, Contains, reverse};
ghost use Rattle.board_model.specs.Valid.{IsValid};
ghost use Rattle.history_model.specs.Knowledge.{got, given_value, words_named, Told};
ghost use Rattle.history_model.specs.Runs.{Run, history_of};
ghost use Rattle.law_audit.specs.Sound.{AreSound, AreAll, AreOnce};
ghost use Rattle.law_delivered.specs.left.Left.{ReturnsWhatWasLeft, ReturnsAsLeft, ReturnsAsHeld};
ghost use Rattle.worked_runs.specs.OneBus.{one_word_board, one_word_events};
ghost use Rattle.worked_runs.specs.Premises.{relay_history};
ghost use Rattle.worked_runs.specs.Wrong.{wrong_value};
ghost use Rattle.worked_runs.specs.Relay.{relay_board, first_write, first_flag, last_read};
ghost use Rattle.worked_runs.specs.left.Readings.{data_reading, early_look, early_reading};

use crate::{relay, writes_are_told_one_way};
use law_delivered::reads_return_what_was_left;

/// The third master was told of the data by two flags. By the law its read returns the data as the
/// first master left it.
pub fn relay_left()
    ensures read { got relay_board relay_history last_read ≡ Some data_reading }
    ensures left { ReturnsWhatWasLeft relay_board relay_history first_write last_read data_reading }
    ensures returned { given_value relay_history last_read ≡ Some 0x5 }
{
    relay();
    writes_are_told_one_way();
    reads_return_what_was_left();
}

/// A read that was not told of a write, and reads a word of it, may come before the write. And one
/// that was told may read another word. What they return is not what the write left.
pub fn other_reads_need_not_return_it()
    ensures run { Run relay_board relay_history }
    ensures read { got relay_board relay_history early_look ≡ Some early_reading }
    ensures names { Contains (words_named relay_board first_flag) early_reading.word }
    ensures untold { ¬ ReturnsWhatWasLeft relay_board relay_history first_flag early_look
        early_reading }
    ensures told { Told relay_board relay_history first_flag last_read }
    ensures other_word { ¬ ReturnsWhatWasLeft relay_board relay_history first_flag last_read
        data_reading }
{}

/// In a history that is no run reads need not return what was left, nor what their words hold: here
/// the read comes before the write of its own master, and gives what that writes.
pub fn only_runs_return_what_was_left()
    ensures valid { IsValid one_word_board }
    ensures not_left { ¬ ReturnsAsLeft one_word_board (history_of (reverse one_word_events)) }
    ensures not_held { ¬ ReturnsAsHeld one_word_board (history_of (reverse one_word_events)) }
{}

/// Of a history that is no run an audit may leave out a read whose master knew of a write: here the
/// read comes before the write of its own master. And where a read ends twice, it is named twice,
/// once with a value that it did not return last.
pub fn only_runs_are_audited()
    ensures not_all { ¬ AreAll one_word_board (history_of (reverse one_word_events)) }
    ensures not_once { ¬ AreOnce one_word_board
        (history_of (one_word_events ++ wrong_value ∷ [])) }
    ensures not_sound { ¬ AreSound one_word_board
        (history_of (one_word_events ++ wrong_value ∷ [])) }
{}
