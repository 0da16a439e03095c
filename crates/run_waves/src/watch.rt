ghost use Rattle.std.specs.Prelude.{◌≡◌, ◌-◌, count_by};
ghost use Rattle.history_model.specs.Lanes.{is_post};
ghost use Rattle.run_waves.specs.Shown.{count_on, is_request, is_completion};
ghost use Rattle.run_waves.specs.Scenes.{came_in};

use crate::reading::SignalReading;
use crate::scene::Scene;
use crate::signal::{LaneCount, Signal};
use board_model::{Board, Lane};
use board_tree::Tree;
use history_model::{By, Carried, Event, Moved};
use judge_lanes::LaneTables;
use judge_state::Kept;
use pci_command::{NoMemory, same_op};
use std::alloc::Global;

/// A run as it goes on: what it leaves, which masters presented their turn before, and what happens
/// now.
#[derive(Drop)]
pub(crate) struct Watch {
    kept: Kept,
    waits: Vec<bool>,
    scene: Option<Scene>,
}

impl Watch {
    ghost use Rattle.std.specs.Prelude.{List, None, IfOk};
    ghost use Rattle.board_model.specs.declared.board.Board.{Board};
    ghost use Rattle.history_model.specs.declared.event.Event.{Event};
    ghost use Rattle.history_model.specs.Answers.{stalls_used};
    ghost use Rattle.history_model.specs.Runs.{Allowed};
    ghost use Rattle.judge_state.specs.State.{turn_in, lane_in};
    ghost use Rattle.judge_state.specs.Stands.{StandsFor, Stands};
    ghost use Rattle.std.specs.Prelude.{false, slice_get};
    ghost use Rattle.std.specs.Option.{option_map_or};
    ghost use Rattle.run_waves.specs.Shown.{Moment, past, beginning, next, ops_of, index_of};
    ghost use Rattle.run_waves.specs.Shown.{try_of, stalls_of};
    ghost use Rattle.run_waves.specs.Scenes.{IsAt, Reads, waits_next};

    /// Before the first event.
    pub(crate) fn new(alloc: Global, tree: &Tree) -> Result<Watch, NoMemory>
        ensures { IfOk result
            (λ watch. IsAt tree.now beginning watch.kept watch.waits.items watch.scene) }
    {
        let mut waits = Vec::new(alloc);
        for _master in tree.board().masters.as_slice() {
            waits.push(false)?;
        }
        Ok(Watch {
            kept: Kept::new(alloc, tree)?,
            waits,
            scene: None,
        })
    }

    /// What happens now.
    pub(crate) fn scene(&self) -> Option<Scene>
        ensures { result ≡ self.now.scene }
    {
        self.scene
    }

    /// The event happens, which is allowed next.
    pub(crate) fn happen(&mut self, tree: &Tree, event: &Event)
        requires { Stands tree.now self.old.kept }
        ensures { (m : Moment) →
            IsAt tree.now m self.old.kept self.old.waits.items self.old.scene →
            Allowed tree.now (past m) event.now
            → IsAt tree.now (next m event.now) self.new.kept self.new.waits.items self.new.scene }
    {
        match self.kept.step(tree, event) {
            Ok(found) => {
                self.scene = Some(Scene {
                    event: *event,
                    item: came_in(event, found),
                });
                self.note(event);
            }
            Err(_) => {}
        }
    }

    /// Nothing happens any more.
    pub(crate) fn rest(&mut self)
        ensures kept { self.new.kept ≡ self.old.kept }
        ensures waits { self.new.waits ≡ self.old.waits }
        ensures scene { self.new.scene ≡ None }
    {
        self.scene = None;
    }

    /// A master that presented its turn waits, unless that ended.
    fn note(&mut self, event: &Event)
        ensures kept { self.new.kept ≡ self.old.kept }
        ensures waits { self.new.waits.items
            ≡ waits_next self.old.kept.turns event.now self.old.waits.items }
        ensures scene { self.new.scene ≡ self.old.scene }
    {
        if let Event::Act {
            by: By::Master,
            op,
            ..
        } = event
        {
            let still = match self.kept.turn(op.master) {
                Some(turn) => same_op(turn, *op),
                None => false,
            };
            let place = usize::from(op.master);
            if place < self.waits.len() {
                self.waits[place] = still;
            }
        }
    }

    /// What a signal of a lane, a master or a target reads now; of a bus 0.
    pub(crate) fn reading(&self, board: &Board, signal: Signal) -> SignalReading
        ensures { (m : Moment) →
            IsAt board.now m self.now.kept self.now.waits.items self.now.scene →
            Reads board.now m signal result }
    {
        match signal {
            Signal::Bus { .. } => SignalReading::Number(0),
            Signal::Lane { lane, count } => SignalReading::Number(self.count(board, lane, count)),
            Signal::Index { master } => SignalReading::Number(self.index(board, master)),
            Signal::Try { master } => SignalReading::Number(self.attempt(master)),
            Signal::Waits { master } => SignalReading::Level(self.waits(master)),
            Signal::Stall { target } => SignalReading::Number(self.stalls(board, target)),
        }
    }

    fn index(&self, board: &Board, master: u16) -> u64
        ensures { result ≡ index_of (ops_of board.now master) (turn_in self.now.kept.turns master) }
    {
        match self.kept.turn(master) {
            Some(op) => u64::from(op.index),
            None => match board.masters.as_slice().get(usize::from(master)) {
                Some(agent) => agent.ops.as_slice().len() as u64,
                None => 0,
            },
        }
    }

    fn attempt(&self, master: u16) -> u64
        ensures { result ≡ try_of (turn_in self.now.kept.turns master) }
    {
        match self.kept.turn(master) {
            Some(op) => u64::from(op.attempt),
            None => 0,
        }
    }

    fn waits(&self, master: u16) -> bool
        ensures { result ≡ option_map_or
            (λ waits. waits) (slice_get self.now.waits.items master) false }
    {
        match self.waits.get(usize::from(master)) {
            Some(waits) => *waits,
            None => false,
        }
    }

    fn stalls(&self, board: &Board, target: u16) -> u64
        ensures { (h : List Event) → StandsFor board.now h self.now.kept →
            result ≡ stalls_of board.now target - stalls_used h target }
    {
        match board.targets.as_slice().get(usize::from(target)) {
            Some(_) => u64::from(self.kept.tokens(target)),
            None => 0,
        }
    }

    fn count(&self, board: &Board, lane: Lane, count: LaneCount) -> u64
        ensures { result ≡ count_on count (lane_in board.now self.now.kept.lanes lane) }
    {
        match self.kept.lanes_to(board, lane.bus) {
            Some(lanes) => count_on(lanes.lane(lane.up), count),
            None => 0,
        }
    }
}

/// What arrives by the event, which found this on the lanes.
fn came_in(event: &Event, found: Moved) -> Option<Carried>
    ensures { result ≡ came_in event.now found }
{
    match event {
        Event::Act { .. } => None,
        Event::Arrive { .. } => found.item,
    }
}

/// A count of a lane.
fn count_on(lane: &LaneTables, count: LaneCount) -> u64
    ensures { result ≡ count_on count lane.now }
{
    match count {
        LaneCount::Owed => u64::from(lane.owed()),
        LaneCount::Held => lane.held().len() as u64,
        LaneCount::Flight => lane.flight().len() as u64,
        LaneCount::Posts => posts_of(lane.standing()),
        LaneCount::Requests => requests_of(lane.standing()),
        LaneCount::Completions => completions_of(lane.standing()),
    }
}

fn posts_of(items: &[Carried]) -> u64
    ensures { result ≡ count_by is_post items.now }
{
    items
        .iter()
        .filter(|item| matches!(item, Carried::Post { .. }))
        .count() as u64
}

fn requests_of(items: &[Carried]) -> u64
    ensures { result ≡ count_by is_request items.now }
{
    items
        .iter()
        .filter(|item| matches!(item, Carried::Ask { .. }))
        .count() as u64
}

fn completions_of(items: &[Carried]) -> u64
    ensures { result ≡ count_by is_completion items.now }
{
    items
        .iter()
        .filter(|item| matches!(item, Carried::Done { .. }))
        .count() as u64
}
