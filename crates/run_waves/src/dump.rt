ghost use Rattle.std.specs.Prelude.{◌≡◌, ◌≤◌, ◌+◌, ℕ, List, ◌∷◌, ◌++◌, length, not};
ghost use Rattle.std.specs.Prelude.{slice_get, string_bytes, IfOk, OnOk};
ghost use Rattle.board_model.specs.declared.board.Board.{Board};
ghost use Rattle.board_printer.specs.Lines.{Line, line_text, text_of};
ghost use Rattle.history_model.specs.Runs.{Run, history_of};
ghost use Rattle.run_waves.specs.declared.signal.Signal.TheVariants.{Bus};
ghost use Rattle.run_waves.specs.Shown.{Moment, beginning, idle_part, shown};
ghost use Rattle.run_waves.specs.Signals.{signals_of};
ghost use Rattle.run_waves.specs.Scenes.{Follows, IsAt, Reads, ReadsFrom, ReadsBelow, shown_of};
ghost use Rattle.run_waves.specs.Scenes.{scene_of, shown_on, new_line, bus_change};
ghost use Rattle.run_waves.specs.Dump.{same_shown, value_line, value_lines, time_line, change_line};
ghost use Rattle.run_waves.specs.Dump.{change_lines, first_lines, moments, dump_lines, dump_of};
ghost use Rattle.run_waves.specs.Blocks.{AreSpans, lines_from};

use crate::blocks::{BLOCK, Blocks, spans_of};
use crate::head::print_head;
use crate::lines::{is_idle, print_idle, print_part, print_reading};
use crate::reading::{SignalReading, is_same};
use crate::scene::Scene;
use crate::signal::{BusPart, Signal};
use crate::touched::Touch;
use crate::watch::Watch;
use board_model::Board;
use board_tree::Tree;
use history_model::Event;
use pci_command::{List, NoMemory};
use std::alloc::{AllocError, Global};

/// The value change dump of a run, complete or not, from its events, the oldest first.
pub fn waves(alloc: Global, tree: &Tree, events: &[Event]) -> Result<List<u8>, NoMemory>
    requires { Run tree.now (history_of events.now) }
    ensures { IfOk result (λ text. text ≡ dump_of tree.now events.now) }
{
    let mut text = String::new(alloc);
    print_dump(alloc, &mut text, tree, events)?;
    Ok(List::from_vec(text.into_bytes()))
}

fn print_dump(
    alloc: Global,
    text: &mut String,
    tree: &Tree,
    events: &[Event],
) -> Result<(), NoMemory>
    requires { Run tree.now (history_of events.now) }
    ensures { OnOk result (string_bytes text.new
        ≡ string_bytes text.old ++ text_of (dump_lines tree.now events.now)) }
{
    let mut watch = Watch::new(alloc, tree)?;
    print_watched(alloc, text, tree, events, &mut watch)
}

/// The same by what is watched of a run without events.
fn print_watched(
    alloc: Global,
    text: &mut String,
    tree: &Tree,
    events: &[Event],
    watch: &mut Watch,
) -> Result<(), NoMemory>
    requires run { Run tree.now (history_of events.now) }
    requires at { IsAt tree.now beginning watch.old.kept watch.old.waits.items watch.old.scene }
    ensures { OnOk result (string_bytes text.new
        ≡ string_bytes text.old ++ text_of (dump_lines tree.now events.now)) }
{
    let board = tree.board();
    let signals = print_head(alloc, text, board)?;
    let mut shown = readings_of(alloc, board, watch, &signals)?;
    print_first(text, &signals, &shown)?;
    let spans = spans_of(alloc, board, &signals)?;
    let blocks = Blocks {
        signals: &signals,
        spans: &spans,
    };
    print_moments(text, tree, events, &blocks, &mut shown, watch)?;
    Ok(())
}

/// What all signals show before the first event.
fn print_first(
    text: &mut String,
    signals: &[Signal],
    shown: &[SignalReading],
) -> Result<(), AllocError>
    requires { length signals.now ≡ length shown.now }
    ensures { (board : Board) (rest : List Line) → ReadsFrom board beginning signals.now shown.now 0
        → OnOk result (string_bytes text.new ++ text_of rest ≡ string_bytes text.old ++
        text_of (first_lines board signals.now rest)) }
{
    print_time(text, 0)?;
    writeln!(text, "$dumpvars")?;
    print_values(text, signals, shown)?;
    writeln!(text, "$end")?;
    Ok(())
}

/// What changes at each moment: one for each event, and the last.
fn print_moments(
    text: &mut String,
    tree: &Tree,
    events: &[Event],
    blocks: &Blocks,
    shown: &mut Vec<SignalReading>,
    watch: &mut Watch,
) -> Result<(), AllocError>
    requires run { Run tree.now (history_of events.now) }
    requires each { length blocks.now.signals.now ≡ length shown.old.items }
    requires signals { blocks.now.signals.now ≡ signals_of tree.now }
    requires spans { AreSpans tree.now blocks.now.signals.now blocks.now.spans.now }
    requires at { IsAt tree.now beginning watch.old.kept watch.old.waits.items watch.old.scene }
    requires reads { ReadsFrom tree.now beginning blocks.now.signals.now shown.old.items 0 }
    ensures { OnOk result (string_bytes text.new
        ≡ string_bytes text.old ++ text_of (moments tree.now 1 beginning events.now)) }
{
    let board = tree.board();
    for (number, event) in events.iter().enumerate() {
        let from = watch.scene();
        watch.happen(tree, event);
        let passed = MomentPassed { from, watch };
        print_moment(text, board, number + 1, blocks, shown, &passed)?;
    }
    let from = watch.scene();
    watch.rest();
    let passed = MomentPassed { from, watch };
    print_moment(text, board, events.len() + 1, blocks, shown, &passed)?;
    Ok(())
}

/// A moment: what happened a moment before, and what is watched now.
#[derive(Clone, Copy)]
struct MomentPassed<'a> {
    from: Option<Scene>,
    watch: &'a Watch,
}

fn print_time(text: &mut String, number: usize) -> Result<(), AllocError>
    ensures { OnOk result (string_bytes text.new
        ≡ string_bytes text.old ++ line_text (time_line number)) }
{
    writeln!(text, "#{number}")
}

/// What each signal reads.
fn readings_of(
    alloc: Global,
    board: &Board,
    watch: &Watch,
    signals: &[Signal],
) -> Result<Vec<SignalReading>, AllocError>
    ensures each { IfOk result (λ readings. length readings.items ≡ length signals.now) }
    ensures reads { IfOk result (λ readings. (m : Moment) →
        IsAt board.now m watch.now.kept watch.now.waits.items watch.now.scene →
        ReadsFrom board.now m signals.now readings.items 0) }
{
    let mut readings = Vec::new(alloc);
    for signal in signals {
        readings.push(watch.reading(board, *signal))?;
    }
    Ok(readings)
}

/// Every signal, before the first event.
fn print_values(
    text: &mut String,
    signals: &[Signal],
    shown: &[SignalReading],
) -> Result<(), AllocError>
    requires { length signals.now ≡ length shown.now }
    ensures { (board : Board) → ReadsFrom board beginning signals.now shown.now 0
        → OnOk result (string_bytes text.new ≡ string_bytes text.old ++
        text_of (value_lines board beginning 0 signals.now)) }
{
    for number in 0..signals.len() {
        print_value(text, number, signals[number], shown[number])?;
    }
    Ok(())
}

/// A signal, before the first event.
fn print_value(
    text: &mut String,
    number: usize,
    signal: Signal,
    reading: SignalReading,
) -> Result<(), AllocError>
    ensures { (board : Board) → Reads board beginning signal reading
        → OnOk result (string_bytes text.new ≡ string_bytes text.old ++
        line_text (value_line number (shown board beginning signal))) }
{
    match signal {
        Signal::Bus { part, .. } => print_idle(text, number, part),
        _ => print_reading(text, number, reading),
    }
}

/// What changes at a moment.
fn print_moment(
    text: &mut String,
    board: &Board,
    number: usize,
    blocks: &Blocks,
    shown: &mut Vec<SignalReading>,
    passed: &MomentPassed,
) -> Result<(), AllocError>
    requires each { length blocks.now.signals.now ≡ length shown.old.items }
    requires spans { AreSpans board.now blocks.now.signals.now blocks.now.spans.now }
    ensures each { OnOk result (length shown.new.items ≡ length shown.old.items) }
    ensures text { (before after : Moment) → Follows before after →
        passed.now.from ≡ scene_of board.now before
        → ReadsFrom board.now before blocks.now.signals.now shown.old.items 0 → IsAt board.now after
        passed.now.watch.now.kept passed.now.watch.now.waits.items passed.now.watch.now.scene
        → OnOk result (string_bytes text.new ≡ string_bytes text.old ++
        text_of (time_line number ∷ change_lines board.now before after 0 blocks.now.signals.now)) }
    ensures reads { (before after : Moment) → Follows before after →
        passed.now.from ≡ scene_of board.now before
        → ReadsFrom board.now before blocks.now.signals.now shown.old.items 0 → IsAt board.now after
        passed.now.watch.now.kept passed.now.watch.now.waits.items passed.now.watch.now.scene
        → OnOk result (ReadsFrom board.now after blocks.now.signals.now shown.new.items 0) }
{
    print_time(text, number)?;
    print_changes(text, board, blocks, shown.as_mut_slice(), passed)
}

/// The signals that change, block by block: a block that the event does not touch is passed over.
fn print_changes(
    text: &mut String,
    board: &Board,
    blocks: &Blocks,
    shown: &mut [SignalReading],
    passed: &MomentPassed,
) -> Result<(), AllocError>
    requires each { length blocks.now.signals.now ≡ length shown.old }
    requires spans { AreSpans board.now blocks.now.signals.now blocks.now.spans.now }
    ensures text { (before after : Moment) → Follows before after →
        passed.now.from ≡ scene_of board.now before
        → ReadsFrom board.now before blocks.now.signals.now shown.old 0 → IsAt board.now after
        passed.now.watch.now.kept passed.now.watch.now.waits.items passed.now.watch.now.scene
        → OnOk result (string_bytes text.new ≡ string_bytes text.old ++
        text_of (change_lines board.now before after 0 blocks.now.signals.now)) }
    ensures reads { (before after : Moment) → Follows before after →
        passed.now.from ≡ scene_of board.now before
        → ReadsFrom board.now before blocks.now.signals.now shown.old 0 → IsAt board.now after
        passed.now.watch.now.kept passed.now.watch.now.waits.items passed.now.watch.now.scene
        → OnOk result (ReadsFrom board.now after blocks.now.signals.now shown.new 0) }
{
    let touch = Touch::of(board, passed.from, passed.watch.scene());
    for number in 0..blocks.spans.len() {
        if blocks.spans[number].meets(&touch) {
            print_block(text, board, blocks.signals, shown, passed, number * BLOCK)?;
        }
    }
    Ok(())
}

/// Those of the block that begins there: signals that the event does not touch are passed over.
fn print_block(
    text: &mut String,
    board: &Board,
    signals: &[Signal],
    shown: &mut [SignalReading],
    passed: &MomentPassed,
    start: usize,
) -> Result<(), AllocError>
    requires each { length signals.now ≡ length shown.old }
    requires start { start ≤ length signals.now }
    ensures text { (before after : Moment) → Follows before after →
        passed.now.from ≡ scene_of board.now before
        → ReadsFrom board.now before signals.now shown.old start → IsAt board.now after
        passed.now.watch.now.kept passed.now.watch.now.waits.items passed.now.watch.now.scene
        → OnOk result (string_bytes text.new
        ++ text_of (lines_from board.now before after (start + 32) signals.now)
        ≡ string_bytes text.old ++ text_of (lines_from board.now before after start signals.now)) }
    ensures reads { (before after : Moment) → Follows before after →
        passed.now.from ≡ scene_of board.now before
        → ReadsFrom board.now before signals.now shown.old start → IsAt board.now after
        passed.now.watch.now.kept passed.now.watch.now.waits.items passed.now.watch.now.scene
        → ReadsBelow board.now after signals.now shown.old start
        → OnOk result (ReadsBelow board.now after signals.now shown.new (start + 32)) }
    ensures rest { OnOk result
        ((k : ℕ) → start + 32 ≤ k → slice_get shown.new k ≡ slice_get shown.old k) }
{
    let touch = Touch::of(board, passed.from, passed.watch.scene());
    for number in start..signals.len().min(start + BLOCK) {
        let signal = signals[number];
        if touch.may_change(signal) {
            let old = shown[number];
            shown[number] = print_change(text, board, number, signal, old, passed)?;
        }
    }
    Ok(())
}

/// A signal, if it changes. Tells what it reads now.
fn print_change(
    text: &mut String,
    board: &Board,
    number: usize,
    signal: Signal,
    old: SignalReading,
    passed: &MomentPassed,
) -> Result<SignalReading, AllocError>
    ensures text { (before after : Moment) → passed.now.from ≡ scene_of board.now before →
        Reads board.now before signal old
        → IsAt board.now after passed.now.watch.now.kept
        passed.now.watch.now.waits.items passed.now.watch.now.scene
        → OnOk result (string_bytes text.new ≡ string_bytes text.old ++
        text_of (change_line board.now before after number signal)) }
    ensures reads { (after : Moment) →
        IsAt board.now after passed.now.watch.now.kept
        passed.now.watch.now.waits.items passed.now.watch.now.scene
        → IfOk result (λ reading. Reads board.now after signal reading) }
{
    let reading = passed.watch.reading(board, signal);
    match signal {
        Signal::Bus { bus, part } => print_bus(text, board, number, bus, part, passed)?,
        _ => print_new(text, number, old, reading)?,
    }
    Ok(reading)
}

/// What a signal of a lane, a master or a target reads, if that is new.
fn print_new(
    text: &mut String,
    number: usize,
    old: SignalReading,
    reading: SignalReading,
) -> Result<(), AllocError>
    ensures { OnOk result (string_bytes text.new
        ≡ string_bytes text.old ++ text_of (new_line number (shown_of old) (shown_of reading))) }
{
    if is_same(old, reading) {
        return Ok(());
    }
    print_reading(text, number, reading)
}

/// A part of what happens on a bus, where something happens there, or did a moment before.
fn print_bus(
    text: &mut String,
    board: &Board,
    number: usize,
    bus: u8,
    part: BusPart,
    passed: &MomentPassed,
) -> Result<(), AllocError>
    ensures { OnOk result (string_bytes text.new ≡ string_bytes text.old ++ text_of
        (bus_change board.now number bus part passed.now.from passed.now.watch.now.scene)) }
{
    match passed.watch.scene() {
        Some(scene) => {
            if scene.bus(board) == bus {
                print_part(text, board, number, part, &scene)
            } else {
                print_gone(text, board, number, bus, part, passed.from)
            }
        }
        None => print_gone(text, board, number, bus, part, passed.from),
    }
}

/// That nothing happens any more on a bus, where something showed a moment before.
fn print_gone(
    text: &mut String,
    board: &Board,
    number: usize,
    bus: u8,
    part: BusPart,
    from: Option<Scene>,
) -> Result<(), AllocError>
    ensures { OnOk result (string_bytes text.new
        ≡ string_bytes text.old ++ text_of (new_line number (shown_on board.now bus part from)
        (idle_part part))) }
{
    if has_shown(board, bus, part, from) {
        print_idle(text, number, part)
    } else {
        Ok(())
    }
}

/// Whether something showed there.
fn has_shown(board: &Board, bus: u8, part: BusPart, from: Option<Scene>) -> bool
    ensures { result ≡ not (same_shown (shown_on board.now bus part from) (idle_part part)) }
{
    match from {
        Some(scene) => scene.bus(board) == bus && !is_idle(board, part, &scene),
        None => false,
    }
}
