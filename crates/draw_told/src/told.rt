ghost use Rattle.std.specs.Prelude.{◌≡◌, ◌<◌, ◌^◌, ◌+◌, [], ◌||◌, ◌==◌, ℕ, false, is_some, length};
ghost use Rattle.std.specs.Prelude.{replicate, List, IfOk, OnOk};
ghost use Rattle.pci_command.specs.declared.op_id.OpId.{OpId};
ghost use Rattle.audit_clocks.specs.Tables.{value_of};
ghost use Rattle.std.specs.List.{list_any};
ghost use Rattle.pci_command.specs.Same.{same_op};
ghost use Rattle.board_model.specs.declared.board.Board.{Board as BoardNow};
ghost use Rattle.law_audit.specs.Audit.{findings};
ghost use Rattle.history_model.specs.declared.event.Event.{Event};
ghost use Rattle.history_model.specs.Runs.{Run, history_of};
ghost use Rattle.draw_told.specs.Told.{span_of, spans_in, is_loud_in, is_key_in, is_event_of};
ghost use Rattle.draw_told.specs.Kept.{TellsEnds, TellsTouches, TellsTold, Marks, Louder, key_at};

use crate::ends::Ends;
use crate::touches::Landed;
use audit_clocks::OpTable;
use audit_text::{Found, findings_of};
use board_model::{Board, Word};
use board_tree::Tree;
use history_model::Event;
use pci_command::{List, NoMemory, OpId};
use std::alloc::Global;
use std::marker::Model;

/// Of a line of the audit: the event in which the write landed and that in which it was read.
#[derive(Clone, Copy, Debug, PartialEq, Eq)]
pub struct Span {
    pub landed: u32,
    pub read: u32,
}

/// What the lines of the audit tell.
#[derive(Debug, Drop)]
pub struct Told {
    found: List<Found>,
    spans: Vec<Span>,
    loud: OpTable<bool>,
    /// By the number of the event; there is none of number 0.
    keys: Vec<bool>,
}

impl Model for Told {
    ghost use Rattle.draw_told.specs.Kept.{ToldTables};

    ghost Value = { ToldTables };

    ghost view = { λ k.
        record { found = k.found; spans = k.spans.items; loud = k.loud; keys = k.keys.items } };
}

/// What an audit of the run tells.
pub fn told_of(alloc: Global, tree: &Tree, events: &[Event]) -> Result<Told, NoMemory>
    requires run { Run tree.now (history_of events.now) }
    requires few { length events.now < 2 ^ 31 }
    ensures { IfOk result (TellsTold tree.now events.now) }
{
    let mut ends = Ends::new(alloc);
    let mut landed = Landed::new(alloc);
    told_behind(alloc, tree, &mut ends, &mut landed, events)
}

/// The same, where nothing was noted down before.
fn told_behind(
    alloc: Global,
    tree: &Tree,
    ends: &mut Ends,
    landed: &mut Landed,
    events: &[Event],
) -> Result<Told, NoMemory>
    requires run { Run tree.now (history_of events.now) }
    requires few { length events.now < 2 ^ 31 }
    requires ends { TellsEnds [] ends.old }
    requires landed { TellsTouches tree.now [] landed.old }
    ensures { IfOk result (TellsTold tree.now events.now) }
{
    note_all(alloc, tree.board(), ends, landed, events)?;
    let found = findings_of(alloc, tree, events)?;
    told_by(alloc, ends, landed, events.len() + 1, found)
}

/// All events happen, one after another.
fn note_all(
    alloc: Global,
    board: &Board,
    ends: &mut Ends,
    landed: &mut Landed,
    events: &[Event],
) -> Result<(), NoMemory>
    requires few { length events.now < 2 ^ 31 }
    requires ends { TellsEnds [] ends.old }
    requires landed { TellsTouches board.now [] landed.old }
    ensures ends { OnOk result (TellsEnds (history_of events.now) ends.new) }
    ensures landed { OnOk result (TellsTouches board.now (history_of events.now) landed.new) }
{
    for (before, event) in events.iter().enumerate() {
        let n = (before + 1) as u32;
        ends.happen(n, event)?;
        landed.happen(alloc, board, n, event)?;
    }
    Ok(())
}

/// What these lines of a run tell, of which this was noted down; its events have numbers below
/// `count`.
fn told_by(
    alloc: Global,
    ends: &Ends,
    landed: &Landed,
    count: usize,
    found: List<Found>,
) -> Result<Told, NoMemory>
    ensures { (board : BoardNow) (events : List Event) → TellsEnds (history_of events) ends.now →
        TellsTouches board (history_of events) landed.now
        → found ≡ findings board (history_of events) → count ≡ length events + 1 →
        IfOk result (TellsTold board events) }
{
    let spans = spans_of(alloc, ends, landed, found.as_slice())?;
    let loud = loud_of(alloc, found.as_slice())?;
    let keys = keys_of(alloc, ends, count, found.as_slice(), spans.as_slice())?;
    Ok(Told {
        found,
        spans,
        loud,
        keys,
    })
}

/// The events of each line.
fn spans_of(
    alloc: Global,
    ends: &Ends,
    landed: &Landed,
    found: &[Found],
) -> Result<Vec<Span>, NoMemory>
    ensures told { (board : BoardNow) (h : List Event) → TellsEnds h ends.now → TellsTouches board h
        landed.now → IfOk result (λ spans. spans.items ≡ spans_in board h found.now) }
    ensures many { IfOk result (λ spans. length spans.items ≡ length found.now) }
{
    let mut spans = Vec::new(alloc);
    for one in found {
        spans.push(span_of(ends, landed, one))?;
    }
    Ok(spans)
}

fn span_of(ends: &Ends, landed: &Landed, found: &Found) -> Span
    ensures { (board : BoardNow) (h : List Event) → TellsEnds h ends.now →
        TellsTouches board h landed.now → result ≡ span_of board h found.now }
{
    let read = ends.read(found.read);
    let word = Word {
        target: found.target,
        space: found.space,
        address: u128::from(found.address),
    };
    let landed = landed.last_before(found.write, word, read);
    Span { landed, read }
}

/// The operations of the chains.
fn loud_of(alloc: Global, found: &[Found]) -> Result<OpTable<bool>, NoMemory>
    ensures { IfOk result (λ loud. (o : OpId) →
        is_some (value_of o loud) ≡ is_loud_in found.now o) }
{
    let mut loud = OpTable::new(alloc);
    for one in found {
        add_chain(&mut loud, one.chain.as_slice())?;
    }
    Ok(loud)
}

fn add_chain(loud: &mut OpTable<bool>, chain: &[OpId]) -> Result<(), NoMemory>
    ensures { OnOk result (Louder loud.old loud.new (λ o. list_any (λ p. same_op p o) chain.now)) }
{
    for op in chain {
        loud.put(*op, true)?;
    }
    Ok(())
}

/// The keys among so many numbers.
fn keys_of(
    alloc: Global,
    ends: &Ends,
    count: usize,
    found: &[Found],
    spans: &[Span],
) -> Result<Vec<bool>, NoMemory>
    requires { length found.now ≡ length spans.now }
    ensures { (board : BoardNow) (h : List Event) → TellsEnds h ends.now →
        spans.now ≡ spans_in board h found.now → IfOk result (λ keys. (n : ℕ) → 0 < n → n < count →
        key_at keys.items n ≡ is_key_in board h found.now n) }
{
    let mut keys = no_keys(alloc, count)?;
    for line in 0..found.len() {
        mark_line(&mut keys, ends, &found[line], spans[line]);
    }
    Ok(keys)
}

fn no_keys(alloc: Global, count: usize) -> Result<Vec<bool>, NoMemory>
    ensures { IfOk result (λ keys. keys.items ≡ replicate count false) }
{
    let mut keys = Vec::new(alloc);
    for _number in 0..count {
        keys.push(false)?;
    }
    Ok(keys)
}

/// The landing and the read of a line, and those of its chain.
#[tactic(auto, using(crate::proofs::KeyLemmas::marks_then))]
fn mark_line(keys: &mut Vec<bool>, ends: &Ends, found: &Found, span: Span)
    ensures { (h : List Event) → TellsEnds h ends.now
        → Marks keys.old.items keys.new.items
        (λ n. (span.landed == n || span.read == n) || list_any (is_event_of h n) found.now.chain) }
{
    mark_span(keys, span);
    mark_chain(keys, ends, found.chain.as_slice());
}

fn mark_span(keys: &mut Vec<bool>, span: Span)
    ensures { Marks keys.old.items keys.new.items (λ n. span.landed == n || span.read == n) }
{
    mark(keys, span.landed);
    mark(keys, span.read);
}

/// The reads and landings of a chain.
fn mark_chain(keys: &mut Vec<bool>, ends: &Ends, chain: &[OpId])
    ensures { (h : List Event) → TellsEnds h ends.now →
        Marks keys.old.items keys.new.items (λ n. list_any (is_event_of h n) chain.now) }
{
    for op in chain {
        mark_op(keys, ends, *op);
    }
}

fn mark_op(keys: &mut Vec<bool>, ends: &Ends, op: OpId)
    ensures { (h : List Event) → TellsEnds h ends.now →
        Marks keys.old.items keys.new.items (λ n. is_event_of h n op) }
{
    mark(keys, ends.read(op));
    mark(keys, ends.land(op));
}

fn mark(keys: &mut Vec<bool>, number: u32)
    ensures { Marks keys.old.items keys.new.items (λ n. number == n) }
{
    let number = number as usize;
    if number < keys.len() {
        keys[number] = true;
    }
}

impl Told {
    /// The lines.
    pub fn found(&self) -> &[Found]
        ensures { result.now ≡ self.now.found }
    {
        self.found.as_slice()
    }

    /// Their events.
    pub fn spans(&self) -> &[Span]
        ensures { result.now ≡ self.now.spans }
    {
        self.spans.as_slice()
    }

    /// Whether the operation is in the chain of a line.
    pub fn is_loud(&self, op: OpId) -> bool
        ensures { result ≡ is_some (value_of op self.now.loud) }
    {
        self.loud.get(op).is_some()
    }

    /// Whether the event is the landing or the read of a line, or of an operation of its chain.
    pub fn is_key(&self, n: u32) -> bool
        ensures { result ≡ key_at self.now.keys n }
    {
        match self.keys.as_slice().get(n as usize) {
            Some(key) => *key,
            None => false,
        }
    }
}
