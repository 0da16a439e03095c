//! What a board says of all its runs: a table of clocks that is consistent, and a read that is
//! safe; and why the law of safe reads has its premises.

ghost use Rattle.std.specs.Prelude.{◌≡◌, List, Some, false, true};
ghost use Rattle.board_model.specs.Valid.{IsValid};
ghost use Rattle.history_model.specs.declared.event.Event.{Event};
ghost use Rattle.history_model.specs.Knowledge.{has_ended, given_value, Told};
ghost use Rattle.history_model.specs.Runs.{Run, Complete, history_of};
ghost use Rattle.history_model.specs.Words.{landed};
ghost use Rattle.law_safe.specs.writes.InOrder.{NoneBehind};
ghost use Rattle.safe_model.specs.Clocks.{at_place, IsConsistent};
ghost use Rattle.safe_model.specs.Safe.{IsSafe};
ghost use Rattle.worked_runs.specs.Flags.{flag_board};
ghost use Rattle.worked_runs.specs.Premises.{flagged_board, data_read, early_history};
ghost use Rattle.worked_runs.specs.Safe.{flag_table, again_board, again_events, again_word};
ghost use Rattle.worked_runs.specs.Safe.{far_write, near_write, near_read};

use law_safe::safe_reads_return;

/// The data behind a flag: the consumer's read of it is safe, so in every run in which it ends it
/// returns what the producer wrote.
pub fn data_behind_a_flag()
    ensures valid { IsValid flag_board }
    ensures consistent { IsConsistent flag_board flag_table }
    ensures safe { IsSafe flag_board flag_table (at_place 1 1) 7 }
    ensures returned { (h : List Event) → Run flag_board h → has_ended h (at_place 1 1) ≡ true →
        given_value h (at_place 1 1) ≡ Some 7 }
{
    safe_reads_return();
}

/// A table that says more than is known shows nothing: where the flag opens set, the poll is met at
/// once, and the read returns what was there before.
pub fn tables_must_be_consistent()
    ensures valid { IsValid (flagged_board 1) }
    ensures safe { IsSafe (flagged_board 1) flag_table data_read 5 }
    ensures run { Run (flagged_board 1) early_history }
    ensures other { given_value early_history data_read ≡ Some 0 }
{}

/// Nor does a history that is no run show what a safe read returns.
pub fn only_runs_return_what_is_safe()
    ensures valid { IsValid (flagged_board 2) }
    ensures consistent { IsConsistent (flagged_board 2) flag_table }
    ensures safe { IsSafe (flagged_board 2) flag_table data_read 5 }
    ensures other { given_value early_history data_read ≡ Some 0 }
{}

/// A delayed write that was told of may land again, where its completion is discarded, and behind
/// the write that was told of it: so that is excluded of posted writes alone.
pub fn told_writes_may_land_again()
    ensures valid { IsValid again_board }
    ensures run { Run again_board (history_of again_events) }
    ensures complete { Complete again_board (history_of again_events) }
    ensures told { Told again_board (history_of again_events) far_write near_write }
    ensures behind { ¬ NoneBehind far_write near_write false
        (landed again_board (history_of again_events) again_word) }
    ensures returned { given_value (history_of again_events) near_read ≡ Some 1 }
{}
