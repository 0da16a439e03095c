ghost use Rattle.std.specs.Prelude.{◌≡◌, ◌++◌, ◌-◌, [], List, IfOk, OnOk, slice_get};
ghost use Rattle.board_model.specs.declared.board.Board.{Board};
ghost use Rattle.history_model.specs.declared.event.Event.{Event};
ghost use Rattle.history_model.specs.declared.rule.Rule.TheVariants.{Untagged};
ghost use Rattle.history_model.specs.Runs.{RunBy, history_of};
ghost use Rattle.history_model.specs.Program.{ended};
ghost use Rattle.law_untagged.specs.Stale.{stale_of};
ghost use Rattle.untagged_run.specs.Course.{AreGots};
ghost use Rattle.machine_steps.specs.Endings.{ended_op};
ghost use Rattle.untagged_run.specs.told.Knowers.{Knows};
ghost use Rattle.untagged_check.specs.Judged.{reads_of, listed};
ghost use Rattle.untagged_check.specs.Found.{IndexesRun, first_unlanded, found_at, found_by};
ghost use Rattle.untagged_check.specs.Found.{found_ending, found_with};

use crate::index::WriteIndex;
use crate::verdict::Stale;
use audit_clocks::Numbers;
use audit_landings::whole_landings;
use board_tree::Tree;
use history_model::Event;
use machine_steps::ended_op;
use pci_command::{NoMemory, OpId};
use std::alloc::Global;
use untagged_run::{Got, Knowers, got_at};

/// The reads of a run that break freshness, in the order in which their masters ended them.
pub(crate) fn stale_reads(
    alloc: Global,
    tree: &Tree,
    events: &[Event],
    gots: &[Option<Got>],
) -> Result<Vec<Stale>, NoMemory>
    requires run { RunBy Untagged tree.now (history_of events.now) }
    requires gots { AreGots tree.now events.now gots.now }
    ensures { IfOk result
        (λ stale. reads_of stale.items ≡ stale_of tree.now (history_of events.now)) }
{
    let mut stale = Vec::new(alloc);
    list_reads(&mut stale, alloc, tree, events, gots)?;
    Ok(stale)
}

fn list_reads(
    stale: &mut Vec<Stale>,
    alloc: Global,
    tree: &Tree,
    events: &[Event],
    gots: &[Option<Got>],
) -> Result<(), NoMemory>
    requires run { RunBy Untagged tree.now (history_of events.now) }
    requires gots { AreGots tree.now events.now gots.now }
    requires none { stale.old.items ≡ [] }
    ensures { OnOk result (reads_of stale.new.items ≡ stale_of tree.now (history_of events.now)) }
{
    let index = index_of(alloc, tree, events)?;
    let mut knowers = Knowers::new(alloc, tree.board())?;
    let course = GotRun { events, gots };
    list_each(stale, &mut knowers, alloc, tree, &index, &course)
}

/// A run, and what each of its events gives a master that reads.
#[derive(Clone, Copy)]
struct GotRun<'a> {
    events: &'a [Event],
    gots: &'a [Option<Got>],
}

/// The writes of the board, and when they landed in this run.
fn index_of(alloc: Global, tree: &Tree, events: &[Event]) -> Result<WriteIndex, NoMemory>
    ensures { IfOk result (IndexesRun tree.now (history_of events.now)) }
{
    let landed = whole_landings(alloc, events)?;
    WriteIndex::new(alloc, tree, &landed)
}

/// Event by event.
fn list_each(
    stale: &mut Vec<Stale>,
    knowers: &mut Knowers,
    alloc: Global,
    tree: &Tree,
    index: &WriteIndex,
    course: &GotRun,
) -> Result<(), NoMemory>
    requires run { RunBy Untagged tree.now (history_of course.now.events.now) }
    requires gots { AreGots tree.now course.now.events.now course.now.gots.now }
    requires index { IndexesRun tree.now (history_of course.now.events.now) index.now }
    requires knowers { Knows tree.now [] knowers.old }
    requires none { stale.old.items ≡ [] }
    ensures { OnOk result (reads_of stale.new.items
        ≡ stale_of tree.now (history_of course.now.events.now)) }
{
    for (place, event) in course.events.iter().enumerate() {
        let got = got_at(course.gots, place);
        knowers.happen(alloc, tree.board(), event, got)?;
        add_ended(stale, index, knowers, event, got)?;
    }
    Ok(())
}

/// The read that the event ends, if it ends one, and which got this, is added where it breaks
/// freshness.
fn add_ended(
    stale: &mut Vec<Stale>,
    index: &WriteIndex,
    knowers: &Knowers,
    event: &Event,
    got: Option<Got>,
) -> Result<(), NoMemory>
    ensures { OnOk result ((board : Board) (h : List Event) → IndexesRun board h index.now →
        reads_of stale.new.items ≡ reads_of stale.old.items ++
        found_ending board h knowers.now.known got (ended_op (ended event.now))) }
{
    match ended_op(event) {
        None => Ok(()),
        Some(read) => add(stale, stale_at(index, knowers, got, read)),
    }
}

/// One more, where there is one.
fn add(stale: &mut Vec<Stale>, found: Option<Stale>) -> Result<(), NoMemory>
    ensures { OnOk result (reads_of stale.new.items ≡ reads_of stale.old.items ++ listed found) }
{
    if let Some(found) = found {
        stale.push(found)?;
    }
    Ok(())
}

/// The read, which got this, where it breaks freshness, and the first write for which it does.
fn stale_at(index: &WriteIndex, knowers: &Knowers, got: Option<Got>, read: OpId) -> Option<Stale>
    ensures { (board : Board) (h : List Event) → IndexesRun board h index.now →
        listed result ≡ found_at board h read got (slice_get knowers.now.known read.master) }
{
    match knowers.known(read.master) {
        None => None,
        Some(known) => stale_with(index, known, got, read),
    }
}

/// The same by what its master knows.
fn stale_with(index: &WriteIndex, known: &Numbers, got: Option<Got>, read: OpId) -> Option<Stale>
    ensures { (board : Board) (h : List Event) → IndexesRun board h index.now →
        listed result ≡ found_with board h read known.now got }
{
    match got {
        None => None,
        Some(got) => stale_by(read, got.event, first_unlanded(index, known, got)),
    }
}

/// The first write of the dword that had not landed before the reading, and that is known.
fn first_unlanded(index: &WriteIndex, known: &Numbers, got: Got) -> Option<OpId>
    ensures { (board : Board) (h : List Event) → IndexesRun board h index.now →
        result ≡ first_unlanded board h got.word (got.event - 1) known.now }
{
    let before = (got.event as usize).saturating_sub(1);
    index.first(got.word, before, known)
}

fn stale_by(read: OpId, event: u32, write: Option<OpId>) -> Option<Stale>
    ensures { listed result ≡ found_by read event write }
{
    match write {
        None => None,
        Some(write) => Some(Stale { read, write, event }),
    }
}
