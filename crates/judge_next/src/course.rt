ghost use Rattle.std.specs.Prelude.{◌≡◌, ◌↔◌, ◌∷◌, List, None, IfOk, IfNone, IfSome, OnOk, OnErr, IsTrue};
ghost use Rattle.std.specs.Option.{option_or};
ghost use Rattle.board_model.specs.WellFormed.{is_well_formed};
ghost use Rattle.board_model.specs.declared.board.Board.{Board};
ghost use Rattle.board_tree.specs.Sites.{AreSites};
ghost use Rattle.history_model.specs.declared.event.Event.{Event};
ghost use Rattle.history_model.specs.Runs.{Allowed, Complete};
ghost use Rattle.machine_steps.specs.Verdicts.{Holds, cause_in};
ghost use Rattle.history_model.specs.Local.{bus_of};
ghost use Rattle.board_model.specs.declared.bridge.Lane.{Lane as BridgeLane};
ghost use Rattle.pci_command.specs.declared.op_id.OpId.{OpId};
ghost use Rattle.board_model.specs.declared.bridge.Place.{Place};
ghost use Rattle.history_model.specs.declared.event.By.TheVariants.{Master, Lane as ByLane};
ghost use Rattle.history_model.specs.declared.event.Mark.{Mark};
ghost use Rattle.history_model.specs.declared.event.Step.{Step};
ghost use Rattle.history_model.specs.declared.event.Event.TheVariants.{Act, Arrive};
ghost use Rattle.history_model.specs.Program.{turn_of};
ghost use Rattle.history_model.specs.Next.{first_bus, first_in, next_of};
ghost use Rattle.history_model.specs.Next.{first_arrival, act_of_lane, act_of_turn};
ghost use Rattle.judge_state.specs.Stands.{StandsFor};
ghost use Rattle.judge_next.specs.Lines.{AreLines};
ghost use Rattle.judge_next.specs.Now.{arrival_on, lane_now, master_now, act_on_now};
ghost use Rattle.judge_next.specs.Course.{KnowsQuiet, IsCourse, HasCourse, IsArrival};
ghost use Rattle.judge_next.specs.Flights.{KnowsFlights};
ghost use Rattle.judge_next.specs.Quiet.{AreFlags};

use crate::acts::{act_of_lane, act_of_lanes, act_of_master, act_of_masters};
use crate::flights::LaneFlights;
use crate::lines::Lines;
use crate::quiet::Quiet;
use board_model::{Board, Lane, board_fits};
use board_tree::{Sites, Tree};
use history_model::{Event, Why};
use judge_state::Kept;
use law_lanes::next_goes_on;
use machine_steps::bus_of;
use pci_command::NoMemory;
use std::alloc::Global;

/// A run that goes on: the state that it leaves, and where its next event is looked for.
#[derive(Debug, Drop)]
pub struct Course {
    kept: Kept,
    lines: Vec<Lines>,
    quiet: Quiet,
    flights: LaneFlights,
}

impl Course {
    /// The course of the run for which what is kept stands.
    pub fn new(alloc: Global, tree: &Tree, kept: Kept) -> Result<Course, NoMemory>
        ensures { (h : List Event) → StandsFor tree.now h kept → IfOk result (IsCourse tree.now h) }
    {
        let board = tree.board();
        // its bus numbers are as wide as their fields
        board_fits(board);
        let lines = all_lines(alloc, board)?;
        let quiet = Quiet::none(alloc)?;
        let flights = LaneFlights::new(alloc, &kept, board, lines.as_slice())?;
        Ok(Course {
            kept,
            lines,
            quiet,
            flights,
        })
    }

    /// What is kept of the run.
    pub fn kept(&self) -> &Kept
        ensures { result.now ≡ self.now.kept }
    {
        &self.kept
    }

    /// One more event, where it is allowed after those of the run: then the run goes on by it.
    pub fn step(&mut self, tree: &Tree, event: &Event) -> Result<(), Why>
        requires { HasCourse tree.now self.old }
        ensures verdict { (h : List Event) → IsCourse tree.now h self.old → Holds tree.now h event.now (cause_in result) }
        ensures goes_on { (h : List Event) → IsCourse tree.now h self.old → OnOk result (IsCourse tree.now (event.now ∷ h) self.new) }
        ensures refused { OnErr result (self.new ≡ self.old) }
    {
        match self.kept.step(tree, event) {
            Ok(_) => {
                let board = tree.board();
                self.quiet.mark(bus_of(board, event), false);
                self.flights.look_again(&self.kept, board, event);
                Ok(())
            }
            Err(why) => Err(why),
        }
    }

    /// The next event of the run, in the fixed order: the first arrival that is allowed, by increasing bus
    /// and there by line; then the first act, by increasing bus, line and, of a lane, in the order in
    /// which its items stand. There is none where the run is complete.
    pub fn next(&mut self, tree: &Tree) -> Option<Event>
        requires { HasCourse tree.now self.old }
        ensures next { (h : List Event) → IsCourse tree.now h self.old → result ≡ next_of tree.now h }
        ensures stays { (h : List Event) → IsCourse tree.now h self.old → IsCourse tree.now h self.new }
        ensures allowed { (h : List Event) → IsCourse tree.now h self.old → IfSome result (Allowed tree.now h) }
        ensures complete { (h : List Event) → IsCourse tree.now h self.old → result ≡ None ↔ Complete tree.now h }
    {
        next_goes_on();
        let board = tree.board();
        let sites = tree.sites();
        let lines = self.lines.as_slice();
        next_now(
            &self.kept,
            board,
            sites,
            &self.flights,
            lines,
            &mut self.quiet,
        )
    }

    /// The run goes on by its next event, if it is not complete.
    pub fn go_on(&mut self, tree: &Tree) -> Option<Event>
        requires { HasCourse tree.now self.old }
        ensures next { (h : List Event) → IsCourse tree.now h self.old → result ≡ next_of tree.now h }
        ensures stays { (h : List Event) → IsCourse tree.now h self.old → IfNone result (IsCourse tree.now h self.new) }
        ensures goes_on { (h : List Event) → IsCourse tree.now h self.old → IfSome result (λ event. IsCourse tree.now (event ∷ h) self.new) }
        ensures allowed { (h : List Event) → IsCourse tree.now h self.old → IfSome result (Allowed tree.now h) }
        ensures complete { (h : List Event) → IsCourse tree.now h self.old → result ≡ None ↔ Complete tree.now h }
    {
        let event = self.next(tree)?;
        // it is allowed, so that the run goes on by it
        let _ok = self.step(tree, &event);
        Some(event)
    }

    /// The first arrival that is allowed, by increasing bus and there by line: none where nothing
    /// is in flight.
    pub fn next_arrival(&self, tree: &Tree) -> Option<Event>
        requires { HasCourse tree.now self.now }
        ensures first { (h : List Event) → IsCourse tree.now h self.now →
            result ≡ first_arrival tree.now h }
        ensures arrives { IfSome result IsArrival }
        ensures allowed { (h : List Event) → IsCourse tree.now h self.now →
            IfSome result (Allowed tree.now h) }
        ensures none { (h : List Event) → IsCourse tree.now h self.now →
            IfNone result ((lane : BridgeLane) (mark : Mark) →
            Allowed tree.now h (Arrive lane mark) → ⊥) }
    {
        self.flights.first(&self.kept, tree.board())
    }

    /// The act on the bus of the first that stands on the lane, the oldest first, and is not
    /// answered with Retry: none where no act of the lane is allowed there.
    pub fn act_of_lane(&self, tree: &Tree, bus: u8, lane: Lane) -> Option<Event>
        ensures act { (h : List Event) → IsCourse tree.now h self.now →
            result ≡ act_of_lane tree.now h bus lane }
        ensures allowed { (h : List Event) → IsCourse tree.now h self.now →
            IfSome result (Allowed tree.now h) }
        ensures none { (h : List Event) → IsCourse tree.now h self.now →
            IfNone result ((o : OpId) (step : Step) (place : Place) →
            Allowed tree.now h (Act bus (ByLane lane) o step place) → ⊥) }
    {
        act_of_lane(&self.kept, tree.board(), tree.sites(), bus, lane)
    }

    /// The act on the bus of the turn of the master: none where no act of the master is allowed
    /// there.
    pub fn act_of_master(&self, tree: &Tree, bus: u8, master: u16) -> Option<Event>
        ensures act { (h : List Event) → IsCourse tree.now h self.now →
            result ≡ act_of_turn tree.now h bus (turn_of tree.now h master) }
        ensures allowed { (h : List Event) → IsCourse tree.now h self.now →
            IfSome result (Allowed tree.now h) }
        ensures none { (h : List Event) → IsCourse tree.now h self.now →
            IfNone result ((o : OpId) (step : Step) (place : Place) →
            o.master ≡ master → Allowed tree.now h (Act bus Master o step place) → ⊥) }
    {
        act_of_master(&self.kept, tree.board(), tree.sites(), bus, master)
    }
}

/// The lines of each of 256 buses.
fn all_lines(alloc: Global, board: &Board) -> Result<Vec<Lines>, NoMemory>
    requires { IsTrue (is_well_formed board.now) }
    ensures { IfOk result (λ lines. AreLines board.now lines.items) }
{
    let mut lines = Vec::new(alloc);
    for bus in 0..256u16 {
        let of_bus = Lines::new(alloc, board, bus as u8)?;
        lines.push(of_bus)?;
    }
    Ok(lines)
}

/// The first arrival, and where there is none the first act.
fn next_now(
    kept: &Kept,
    board: &Board,
    sites: &Sites,
    flights: &LaneFlights,
    lines: &[Lines],
    quiet: &mut Quiet,
) -> Option<Event>
    requires formed { IsTrue (is_well_formed board.now) }
    requires sites { AreSites board.now sites.now }
    requires flights { KnowsFlights board.now kept.now flights.now }
    requires lines { AreLines board.now lines.now }
    requires flags { AreFlags quiet.old }
    requires known { KnowsQuiet board.now kept.now quiet.old.buses.items }
    ensures value { result ≡ option_or (first_bus (arrival_on board.now kept.now)) (first_bus (act_on_now board.now kept.now)) }
    ensures flags { AreFlags quiet.new }
    ensures known { KnowsQuiet board.now kept.now quiet.new.buses.items }
{
    match flights.first(kept, board) {
        Some(event) => Some(event),
        None => first_act(kept, board, sites, lines, quiet),
    }
}

/// The first act, by increasing bus and there by line. It is looked for from a bus on below which all
/// are known to be quiet. Others that are known to be are passed over, and those that are found to be
/// are known from then on.
fn first_act(
    kept: &Kept,
    board: &Board,
    sites: &Sites,
    lines: &[Lines],
    quiet: &mut Quiet,
) -> Option<Event>
    requires formed { IsTrue (is_well_formed board.now) }
    requires sites { AreSites board.now sites.now }
    requires lines { AreLines board.now lines.now }
    requires flags { AreFlags quiet.old }
    requires known { KnowsQuiet board.now kept.now quiet.old.buses.items }
    ensures value { result ≡ first_bus (act_on_now board.now kept.now) }
    ensures flags { AreFlags quiet.new }
    ensures known { KnowsQuiet board.now kept.now quiet.new.buses.items }
{
    for bus in quiet.from..256u16 {
        if let Some(event) = act_at(kept, board, sites, lines, quiet, bus as u8) {
            return Some(event);
        }
    }
    None
}

/// The first act on the bus, where that is not known to be quiet.
fn act_at(
    kept: &Kept,
    board: &Board,
    sites: &Sites,
    lines: &[Lines],
    quiet: &mut Quiet,
    bus: u8,
) -> Option<Event>
    requires formed { IsTrue (is_well_formed board.now) }
    requires sites { AreSites board.now sites.now }
    requires lines { AreLines board.now lines.now }
    requires flags { AreFlags quiet.old }
    requires known { KnowsQuiet board.now kept.now quiet.old.buses.items }
    ensures value { result ≡ act_on_now board.now kept.now bus }
    ensures flags { AreFlags quiet.new }
    ensures known { KnowsQuiet board.now kept.now quiet.new.buses.items }
{
    if quiet.knows(bus) {
        quiet.mark(bus, true);
        return None;
    }
    match act_on(kept, board, sites, lines, bus) {
        Some(event) => Some(event),
        None => {
            quiet.mark(bus, true);
            None
        }
    }
}

fn act_on(kept: &Kept, board: &Board, sites: &Sites, lines: &[Lines], bus: u8) -> Option<Event>
    requires formed { IsTrue (is_well_formed board.now) }
    requires sites { AreSites board.now sites.now }
    requires lines { AreLines board.now lines.now }
    ensures { result ≡ act_on_now board.now kept.now bus }
{
    match lines.get(bus as usize) {
        Some(lines) => act_of_lines(kept, board, sites, bus, lines),
        None => None,
    }
}

/// On a bus its lanes act before its masters.
fn act_of_lines(kept: &Kept, board: &Board, sites: &Sites, bus: u8, lines: &Lines) -> Option<Event>
    requires formed { IsTrue (is_well_formed board.now) }
    requires sites { AreSites board.now sites.now }
    ensures { result ≡ option_or (first_in (lane_now board.now kept.now bus) lines.now.lanes) (first_in (master_now board.now kept.now bus) lines.now.masters) }
{
    match act_of_lanes(kept, board, sites, bus, lines.lanes()) {
        Some(event) => Some(event),
        None => act_of_masters(kept, board, sites, bus, lines.masters()),
    }
}
