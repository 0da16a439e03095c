//! Worked traces, computed to be runs by the definitions alone, and beside them events that are
//! none. Each entry of the first column of the ordering table has its example. `premises` has
//! boards and histories on which a law is false without one of its premises.
#![tactic(auto)]

ghost use Rattle.std.specs.Prelude.{◌≡◌, ℕ, false, IsTrue, Some, None, [], ◌∷◌, ◌++◌, map, take};
ghost use Rattle.std.specs.Prelude.{reverse};
ghost use Rattle.board_model.specs.Ways.{bound_of};
ghost use Rattle.board_model.specs.Valid.{IsValid};
ghost use Rattle.history_model.specs.declared.event.Step.TheVariants.{Land, Read, Accept, Latch};
ghost use Rattle.history_model.specs.Runs.{Run, Complete, history_of};
ghost use Rattle.history_model.specs.Local.{Matched};
ghost use Rattle.history_model.specs.Knowledge.{Told, saw};
ghost use Rattle.history_model.specs.Left.{left_of};
ghost use Rattle.law_audit.specs.Chains.{chain_of};
ghost use Rattle.law_audit.specs.Audit.{findings};
ghost use Rattle.law_audit.specs.Sound.{AreSound};
ghost use Rattle.worked_runs.specs.Audited.{relay_chain, relay_findings, one_word_findings};
ghost use Rattle.worked_runs.specs.Relay.{relay_board, relay_events, first_write, first_flag};
ghost use Rattle.worked_runs.specs.Relay.{second_write, last_read};
ghost use Rattle.worked_runs.specs.Wrong.{wrong_value, early_completion, second_accept};
ghost use Rattle.worked_runs.specs.Wrong.{all_at_once, plain_arrival, marked_arrival};
ghost use Rattle.worked_runs.specs.OneBus.{one_word_board, one_word_events, answers_board};
ghost use Rattle.worked_runs.specs.OneBus.{answers_events};
ghost use Rattle.worked_runs.specs.ThreeBridges.{three_bridges_board, three_bridges_events};
ghost use Rattle.worked_runs.specs.Bursts.{burst_board, burst_events, parted_board, parted_events};
ghost use Rattle.worked_runs.specs.Bursts.{between_board, between_events, parted_write};
ghost use Rattle.worked_runs.specs.Bursts.{read_between};
ghost use Rattle.worked_runs.specs.Flags.{flag_board, flag_events};
ghost use Rattle.worked_runs.specs.Credits.{credits_board, credits_events};
ghost use Rattle.worked_runs.specs.Unclaimed.{unclaimed_board, unclaimed_events, aborted_board};
ghost use Rattle.worked_runs.specs.Unclaimed.{aborted_events};
ghost use Rattle.worked_runs.specs.Discards.{discarded_board, discarded_events, landed_twice_board};
ghost use Rattle.worked_runs.specs.Discards.{landed_twice_events, dropped_board, dropped_events};
ghost use Rattle.worked_runs.specs.Registers.{registers_board, registers_events};
ghost use Rattle.worked_runs.specs.Registers.{written_board, written_events};
ghost use Rattle.worked_runs.specs.Wide.{wide_board, wide_events};
ghost use Rattle.worked_runs.specs.Passing.{passing_board, passing_events, behind_board};
ghost use Rattle.worked_runs.specs.Passing.{behind_events, read_behind, io_write_behind};
ghost use Rattle.worked_runs.specs.Passing.{write_behind};
ghost use Rattle.worked_runs.specs.Crossing.{crossing_board, crossing_events};
ghost use Rattle.worked_runs.specs.Crossing.{crossing_posted_board, crossing_posted_events};
ghost use Rattle.worked_runs.specs.Stealing.{stealing_board, stealing_events, held_back_events};

mod left;
mod premises;
mod safe;

pub use left::{
    only_runs_are_audited, only_runs_return_what_was_left, other_reads_need_not_return_it,
    relay_left,
};
pub use premises::{
    answers_need_what_was_sent, bridges_carry, flags_that_open_set_do_not_deliver,
    later_writes_need_not_be_known, masters_that_meet_have_other_runs, only_runs_are_fresh,
    only_runs_deliver, operations_need_no_phases, other_events_make_no_run,
    runs_need_not_be_complete, sides_need_the_depths, writes_are_settled_as_they_land,
    writes_are_told_one_way, wrong_parts_make_no_run,
};
pub use safe::{
    data_behind_a_flag, only_runs_return_what_is_safe, tables_must_be_consistent,
    told_writes_may_land_again,
};

/// A write, and a read of what it wrote, by one master: what its audit says.
pub fn one_word()
    ensures run { Run one_word_board (history_of one_word_events) }
    ensures complete { Complete one_word_board (history_of one_word_events) }
    ensures findings { findings one_word_board (history_of one_word_events) ≡ one_word_findings }
{}

/// A stall, a target abort, and a write of two bytes of a dword.
pub fn answers()
    ensures run { Run answers_board (history_of answers_events) }
    ensures complete { Complete answers_board (history_of answers_events) }
{}

/// A read from below two bridges to below a third.
pub fn three_bridges()
    ensures run { Run three_bridges_board (history_of three_bridges_events) }
    ensures complete { Complete three_bridges_board (history_of three_bridges_events) }
{}

/// Eight data phases through two bridges.
pub fn burst()
    ensures run { Run burst_board (history_of burst_events) }
    ensures complete { Complete burst_board (history_of burst_events) }
{}

/// The same to a target that takes three at a time.
pub fn parted()
    ensures run { Run parted_board (history_of parted_events) }
    ensures complete { Complete parted_board (history_of parted_events) }
{}

/// A read between the parts of a write: it saw nothing of the write, though it read a part of it.
pub fn between()
    ensures run { Run between_board (history_of between_events) }
    ensures complete { Complete between_board (history_of between_events) }
    ensures unseen { saw between_board (history_of between_events) read_between parted_write ≡
        false }
{}

/// Data and flag on two buses, the consumer on a third.
pub fn flag()
    ensures valid { IsValid flag_board }
    ensures run { Run flag_board (history_of flag_events) }
    ensures complete { Complete flag_board (history_of flag_events) }
{}

/// Three writers to a bridge that holds one posted write.
pub fn credits()
    ensures run { Run credits_board (history_of credits_events) }
    ensures complete { Complete credits_board (history_of credits_events) }
{}

/// A read and a write that nobody claims behind a bridge.
pub fn unclaimed()
    ensures run { Run unclaimed_board (history_of unclaimed_events) }
    ensures complete { Complete unclaimed_board (history_of unclaimed_events) }
{}

/// The same behind a bridge in the other master abort mode.
pub fn aborted()
    ensures run { Run aborted_board (history_of aborted_events) }
    ensures complete { Complete aborted_board (history_of aborted_events) }
{}

/// The completion of a read.
pub fn discarded()
    ensures run { Run discarded_board (history_of discarded_events) }
    ensures complete { Complete discarded_board (history_of discarded_events) }
{}

/// The completion of a delayed write, which lands twice.
pub fn landed_twice()
    ensures run { Run landed_twice_board (history_of landed_twice_events) }
    ensures complete { Complete landed_twice_board (history_of landed_twice_events) }
{}

/// A delayed request.
pub fn dropped()
    ensures run { Run dropped_board (history_of dropped_events) }
    ensures complete { Complete dropped_board (history_of dropped_events) }
{}

/// Of a device behind two bridges, of two bridges, and of none.
pub fn registers()
    ensures run { Run registers_board (history_of registers_events) }
    ensures complete { Complete registers_board (history_of registers_events) }
{}

/// Configuration writes: the bits that can be written, in the bytes that are enabled.
pub fn written()
    ensures run { Run written_board (history_of written_events) }
    ensures complete { Complete written_board (history_of written_events) }
{}

/// A write and a read above 2^32, through a prefetchable window.
pub fn wide()
    ensures run { Run wide_board (history_of wide_events) }
    ensures complete { Complete wide_board (history_of wide_events) }
{}

/// The completion that a bridge holds for one local master is not given to another with the same
/// request, and of two equal requests on one lane the younger waits.
pub fn completions_are_not_stolen()
    ensures before { Run stealing_board (history_of (take 15 stealing_events)) }
    ensures not_come { ¬ Run stealing_board (history_of stealing_events) }
    ensures behind_it { Run stealing_board (history_of (take 16 held_back_events)) }
    ensures held_back { ¬ Run stealing_board (history_of held_back_events) }
{}

/// A read gives what was written, and no operation comes before its turn.
pub fn wrong_reads()
    ensures value { ¬ Run one_word_board (history_of (take 1 one_word_events ++ wrong_value ∷ [])) }
    ensures turn { ¬ Run one_word_board (history_of (reverse one_word_events)) }
{}

/// A completion of a read does not pass a posted write that stands before it. It guards the entry
/// of the ordering table for a read's completion behind a posted write: No.
pub fn completion_waits_for_posted_write()
    ensures before { Run flag_board (history_of (take 11 flag_events)) }
    ensures behind { ¬ Run flag_board (history_of (take 11 flag_events ++ early_completion ∷ [])) }
{}

/// Neither does a delayed request, to read or to write. It guards the entries for both behind a
/// posted write: No.
pub fn request_waits_for_posted_write()
    ensures read_before { Run (behind_board read_behind)
        (history_of (take 4 (behind_events Latch (Read 0)))) }
    ensures read { ¬ Run (behind_board read_behind) (history_of (behind_events Latch (Read 0))) }
    ensures write_before { Run (behind_board io_write_behind)
        (history_of (take 4 (behind_events Latch Land))) }
    ensures write { ¬ Run (behind_board io_write_behind) (history_of (behind_events Latch Land)) }
{}

/// Nor does a younger posted write. It guards the entry for two posted writes: No.
pub fn posted_write_waits_for_posted_write()
    ensures before { Run (behind_board write_behind)
        (history_of (take 4 (behind_events Accept Land))) }
    ensures behind { ¬ Run (behind_board write_behind) (history_of (behind_events Accept Land)) }
{}

/// A write's completion passes a posted write that its target stalls. It guards the entry for a
/// write's completion behind a posted write: Yes or No, and passed.
pub fn write_completion_passes_posted_write()
    ensures run { Run passing_board (history_of passing_events) }
    ensures complete { Complete passing_board (history_of passing_events) }
{}

/// Four crossing reads, through bridges that hold one delayed request each way: a read's completion
/// passes the delayed request that stands before it.
pub fn crossing()
    ensures run { Run crossing_board (history_of crossing_events) }
    ensures complete { Complete crossing_board (history_of crossing_events) }
{}

/// The same with a posted write, which passes the delayed request that stands before it.
pub fn crossing_posted()
    ensures run { Run crossing_posted_board (history_of crossing_posted_events) }
    ensures complete { Complete crossing_posted_board (history_of crossing_posted_events) }
{}

/// A bridge that owes as many posted writes as it holds accepts no other.
pub fn no_credit()
    ensures { ¬ Run credits_board (history_of (take 1 credits_events ++ second_accept ∷ [])) }
{}

/// A target that takes one data phase at a time does not take two as all that is left.
pub fn whole_burst()
    ensures { ¬ Run between_board (history_of (take 2 between_events ++ all_at_once ∷ [])) }
{}

/// A mark of the board can neither be left off nor put on, and nothing arrives that is not in
/// flight.
pub fn wrong_arrivals()
    ensures left_off { ¬ Run discarded_board
        (history_of (take 7 discarded_events ++ plain_arrival ∷ [])) }
    ensures put_on { ¬ Run discarded_board
        (history_of (take 15 discarded_events ++ marked_arrival ∷ [])) }
    ensures nothing { ¬ Run one_word_board (history_of (plain_arrival ∷ [])) }
{}

/// A write reaches a third master by two flags: its chain, and the line of the last read.
pub fn relay()
    ensures valid { IsValid relay_board }
    ensures run { Run relay_board (history_of relay_events) }
    ensures complete { Complete relay_board (history_of relay_events) }
    ensures told { Told relay_board (history_of relay_events) first_write last_read }
    ensures seen { IsTrue (saw relay_board (history_of relay_events) last_read first_write) }
    ensures chain { chain_of relay_board (history_of relay_events) first_write last_read ≡
        Some relay_chain }
    ensures not_told { chain_of relay_board (history_of relay_events) last_read first_write ≡ None }
    ensures findings { findings relay_board (history_of relay_events) ≡ relay_findings }
{}

/// And that line is so: what the last read returned, how its master knew of the write before, by
/// which chain, and that nothing had landed in the word behind it.
pub fn relay_is_found()
    ensures { AreSound relay_board (history_of relay_events) }
{}

/// But the first master is told of nothing: not of the write by which the second one told the
/// third.
pub fn relay_goes_one_way()
    ensures { ¬ Told relay_board (history_of relay_events) second_write first_flag }
{}

/// The bounds of worked boards.
pub fn bounds()
    ensures three_bridges { bound_of three_bridges_board ≡ 13 }
    ensures flag { bound_of flag_board ≡ 95 }
    ensures parted { bound_of parted_board ≡ 9 }
    ensures between { bound_of between_board ≡ 5 }
    ensures wide { bound_of wide_board ≡ 9 }
{}

/// What is left of the read over three bridges falls by one with each event, from the bound to
/// nothing.
pub fn left_falls()
    ensures { map (λ (n : ℕ). left_of three_bridges_board
        (history_of (take n three_bridges_events)))
        (0 ∷ 1 ∷ 2 ∷ 3 ∷ 4 ∷ 5 ∷ 6 ∷ 7 ∷ 8 ∷ 9 ∷ 10 ∷ 11 ∷ 12 ∷ 13 ∷ [])
        ≡ 13 ∷ 12 ∷ 11 ∷ 10 ∷ 9 ∷ 8 ∷ 7 ∷ 6 ∷ 5 ∷ 4 ∷ 3 ∷ 2 ∷ 1 ∷ 0 ∷ [] }
{}

/// The same of a write in three pieces, of a discarded completion and of a dropped request.
pub fn left_by_place()
    ensures parted { map (λ (n : ℕ). left_of parted_board (history_of (take n parted_events)))
        (0 ∷ 1 ∷ 2 ∷ 3 ∷ 4 ∷ 5 ∷ 6 ∷ 7 ∷ 8 ∷ 9 ∷ []) ≡ 9 ∷ 8 ∷ 7 ∷ 6 ∷ 5 ∷ 4 ∷ 3 ∷ 2 ∷ 1 ∷ 0 ∷ [] }
    ensures discarded { map (λ (n : ℕ). left_of discarded_board
        (history_of (take n discarded_events)))
        (0 ∷ 7 ∷ 8 ∷ 17 ∷ []) ≡ 17 ∷ 10 ∷ 9 ∷ 0 ∷ [] }
    ensures dropped { map (λ (n : ℕ). left_of dropped_board (history_of (take n dropped_events)))
        (0 ∷ 1 ∷ 2 ∷ 3 ∷ 8 ∷ []) ≡ 8 ∷ 7 ∷ 6 ∷ 5 ∷ 0 ∷ [] }
{}

/// Each completion of the producer and the consumer is taken by its own operation.
pub fn matched()
    ensures { Matched flag_board (history_of flag_events) }
{}
