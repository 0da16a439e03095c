//! Why laws have their premises: a board and a history, computed, on which a law would be false if
//! one of its premises were dropped, or two of its operations changed over.

ghost use Rattle.std.specs.Prelude.{◌≡◌, ◌<◌, true, false, [], length, reverse, Some};
ghost use Rattle.board_model.specs.Requests.{op_of, phases_of};
ghost use Rattle.board_model.specs.Valid.{IsValid};
ghost use Rattle.board_model.specs.Ways.{start_of, end_of};
ghost use Rattle.history_model.specs.Lanes.{empty_lane};
ghost use Rattle.history_model.specs.Knowledge.{Fresh, Told, is_write};
ghost use Rattle.history_model.specs.Local.{LocalRun, local_world};
ghost use Rattle.history_model.specs.Runs.{Run, Complete, history_of};
ghost use Rattle.history_model.specs.Words.{through};
ghost use Rattle.history_model.specs.World.{both, world_of};
ghost use Rattle.law_audit.specs.Clocks.{clocks_of};
ghost use Rattle.history_model.specs.Clear.{is_clear};
ghost use Rattle.law_delivered.specs.Delivered.{Awaits, Delivers};
ghost use Rattle.law_fresh.specs.Aware.{aware_of, knows};
ghost use Rattle.law_fresh.specs.Told.{was_told};
ghost use Rattle.law_local.specs.Answered.{AnswersAreLocal};
ghost use Rattle.law_local.specs.Known.{BetweenBuses, JointRun};
ghost use Rattle.law_local.specs.Stamps.{events_of, IsMerged};
ghost use Rattle.law_local.specs.Woven.{AllWoven};
ghost use Rattle.law_local.specs.phases.Pasts.{AllPasts, RunSoFar};
ghost use Rattle.law_local.specs.room.Sides.{Side};
ghost use Rattle.law_untagged.specs.Untagged.{UntaggedRun};
ghost use Rattle.law_untagged.specs.Worked.{taken_board, taken_events};
ghost use Rattle.worked_runs.specs.Credits.{credits_board};
ghost use Rattle.worked_runs.specs.OneBus.{one_word_board, one_word_events};
ghost use Rattle.worked_runs.specs.Relay.{relay_board, first_write, first_flag, second_write};
ghost use Rattle.worked_runs.specs.Premises.{nothing_sent, no_stamps, nothing_done, down};
ghost use Rattle.worked_runs.specs.Premises.{wrong_all, wrong_part};
ghost use Rattle.worked_runs.specs.Premises.{bare_board, bare_op, bare_write};
ghost use Rattle.worked_runs.specs.Premises.{flagged_board, flag_poll, early_history};
ghost use Rattle.worked_runs.specs.Premises.{relay_history, relay_after, credits_after};

/// A history that is no run need not be fresh: here the read comes before the write of its own
/// master.
pub fn only_runs_are_fresh()
    ensures valid { IsValid one_word_board }
    ensures stale { ¬ Fresh one_word_board (history_of (reverse one_word_events)) }
{}

/// Who was told of a write need not have told its master: the second flag was told of the data, and
/// not the data of the second flag.
pub fn writes_are_told_one_way()
    ensures valid { IsValid relay_board }
    ensures told { Told relay_board relay_history first_write second_write }
    ensures not_back { was_told relay_board relay_history second_write first_write ≡ false }
{}

/// Who knows of a write need not know of a later one of its master.
pub fn later_writes_need_not_be_known()
    ensures data { is_write relay_board first_write ≡ true }
    ensures flag { is_write relay_board first_flag ≡ true }
    ensures first { knows (aware_of relay_board first_write relay_history) first_flag ≡ true }
    ensures not_later { knows (aware_of relay_board first_flag relay_history) first_flag ≡ false }
{}

/// Lanes of a bridge carry something in a run, where lanes of none do not.
pub fn bridges_carry()
    ensures run { Run credits_board (credits_after 1) }
    ensures not_quiet { ¬ (world_of credits_board (credits_after 1) down ≡ empty_lane) }
{}

/// Of an operation that did not go through in part no data phase need be left: here it has none.
pub fn operations_need_no_phases()
    ensures there { op_of bare_board bare_write ≡ Some bare_op }
    ensures none_left { ¬ (through [] bare_write < length (phases_of bare_op)) }
{}

/// Before the first event a board is a run, and what each bus did is woven; but its programs have
/// not ended.
pub fn runs_need_not_be_complete()
    ensures valid { IsValid one_word_board }
    ensures between { BetweenBuses one_word_board nothing_sent }
    ensures woven { AllWoven one_word_board nothing_sent [] }
    ensures run { RunSoFar one_word_board nothing_sent [] }
    ensures not_complete { ¬ Complete one_word_board [] }
{}

/// Parts in which a bus breaks its own rules are merged to no run.
pub fn wrong_parts_make_no_run()
    ensures merged { IsMerged one_word_board wrong_part wrong_all }
    ensures no_run { ¬ JointRun one_word_board nothing_sent (events_of wrong_all) }
{}

/// What a bus knows is not enough for its answers where less is told to it than was sent: here the
/// credit that comes back.
pub fn answers_need_what_was_sent()
    ensures valid { IsValid credits_board }
    ensures run { Run credits_board (credits_after 4) }
    ensures not_local { ¬ AnswersAreLocal credits_board nothing_sent (credits_after 4) }
{}

/// What all buses did makes a run only where it is all that is taken together.
pub fn other_events_make_no_run()
    ensures pasts { AllPasts one_word_board nothing_sent no_stamps nothing_done }
    ensures no_run { ¬ RunSoFar one_word_board nothing_sent (events_of wrong_all) }
{}

/// A bus keeps its side of a bridge by the depths of that bridge, not by smaller ones: here one
/// posted write is owed.
pub fn sides_need_the_depths()
    ensures valid { IsValid credits_board }
    ensures start { start_of credits_board down ≡ 0 }
    ensures end { end_of credits_board down ≡ 1 }
    ensures run { LocalRun credits_board 0 nothing_sent (credits_after 1) }
    ensures too_many { ¬ Side 0 4 [] (both
        (local_world credits_board nothing_sent (credits_after 1)) down) }
{}

/// A flag that its dword opens with delivers nothing.
pub fn flags_that_open_set_do_not_deliver()
    ensures valid { IsValid (flagged_board 1) }
    ensures run { Run (flagged_board 1) early_history }
    ensures awaits { Awaits (flagged_board 1) flag_poll 0x10000040 1 }
    ensures not_delivered { ¬ Delivers (flagged_board 1) early_history flag_poll 0x10000040 1 }
{}

/// Nor does a clear flag in a history that is no run.
pub fn only_runs_deliver()
    ensures valid { IsValid (flagged_board 2) }
    ensures clear { is_clear (flagged_board 2) 0x10000040 1 ≡ true }
    ensures awaits { Awaits (flagged_board 2) flag_poll 0x10000040 1 }
    ensures not_delivered { ¬ Delivers (flagged_board 2) early_history flag_poll 0x10000040 1 }
{}

/// What a write tells is not settled before it lands: its author may learn of others until then.
pub fn writes_are_settled_as_they_land()
    ensures run { Run relay_board (relay_after 7) }
    ensures before { (clocks_of relay_board (relay_after 6)).start second_write 0 ≡ 0 }
    ensures after { (clocks_of relay_board (relay_after 7)).start second_write 0 ≡ 2 }
{}

/// Where masters are not apart, bridges that keep no local master have runs of their own.
pub fn masters_that_meet_have_other_runs()
    ensures valid { IsValid taken_board }
    ensures untagged { UntaggedRun taken_board (history_of taken_events) }
    ensures no_run { ¬ Run taken_board (history_of taken_events) }
{}
