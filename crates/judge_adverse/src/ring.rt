ghost use Rattle.std.specs.Prelude.{◌≡◌, ◌++◌, ◌≤◌, ◌<◌, ◌==◌, IfOk, OnOk, IsTrue, List, true, false};
ghost use Rattle.std.specs.Prelude.{length, map, replicate, slice_get, Some, if◌then◌else◌};
ghost use Rattle.std.proofs.Math.ListN.{set};
ghost use Rattle.board_model.specs.WellFormed.{is_well_formed};
ghost use Rattle.history_model.specs.declared.event.Event.{Event};
ghost use Rattle.judge_next.specs.Lines.{lines_of};
ghost use Rattle.judge_adverse.specs.Turns.{initiators_on, ring_below, bus_on, IsRing, KnowsIdle};
ghost use Rattle.judge_adverse.specs.Turns.{IsWoken};

use board_model::{Board, Lane};
use board_tree::Tree;
use judge_next::Lines;
use pci_command::NoMemory;
use std::alloc::Global;

/// Who may act on a bus: a lane that ends there, or a master on it.
#[derive(Clone, Copy)]
pub(crate) enum Initiator {
    Lane { bus: u8, lane: Lane },
    Master { bus: u8, master: u16 },
}

/// The initiators of a board in a ring, which of them are known to have no act for now, and the
/// place at which the next act is looked for first.
#[derive(Drop)]
pub(crate) struct Ring {
    pub(crate) initiators: Vec<Initiator>,
    pub(crate) idle: Vec<bool>,
    pub(crate) place: usize,
}

impl Ring {
    /// The ring of the board: bus by bus the lanes that end there, and then its masters. The next
    /// act is looked for at the first of them, and of none it is known that it idles.
    pub(crate) fn new(alloc: Global, tree: &Tree) -> Result<Ring, NoMemory>
        ensures ring { IfOk result (IsRing tree.now) }
        ensures idle { (h : List Event) → IfOk result (KnowsIdle tree.now h) }
    {
        let initiators = initiators_of(alloc, tree.board())?;
        let idle = none_idle(alloc, initiators.len())?;
        Ok(Ring {
            initiators,
            idle,
            place: 0,
        })
    }

    /// The initiators on the bus are not known to idle any more.
    pub(crate) fn wake(&mut self, bus: u8)
        requires { length self.old.idle.items ≡ length self.old.initiators.items }
        ensures initiators { self.new.initiators.items ≡ self.old.initiators.items }
        ensures place { self.new.place ≡ self.old.place }
        ensures woken { IsWoken bus self.old.initiators.items
            self.old.idle.items self.new.idle.items }
    {
        wake_all(self.initiators.as_slice(), &mut self.idle, bus);
    }
}

/// Of none of so many initiators it is known that it idles.
fn none_idle(alloc: Global, many: usize) -> Result<Vec<bool>, NoMemory>
    ensures { IfOk result (λ idle. idle.items ≡ replicate many false) }
{
    let idle = vec![in alloc; false; many]?;
    Ok(idle)
}

/// The initiators on the bus are not known to idle any more.
fn wake_all(initiators: &[Initiator], idle: &mut Vec<bool>, bus: u8)
    requires { length idle.old.items ≡ length initiators.now }
    ensures { IsWoken bus initiators.now idle.old.items idle.new.items }
{
    for place in 0..initiators.len() {
        wake_at(idle, place, bus_on(initiators[place]) == bus);
    }
}

/// The initiator at the place is not known to idle any more, where its bus is the one.
fn wake_at(idle: &mut Vec<bool>, place: usize, is_there: bool)
    requires { place < length idle.old.items }
    ensures { idle.new.items ≡ (if is_there then set idle.old.items place false
        else idle.old.items) }
{
    if is_there {
        idle[place] = false;
    }
}

/// The bus on which the initiator acts.
fn bus_on(initiator: Initiator) -> u8
    ensures { result ≡ bus_on initiator }
{
    match initiator {
        Initiator::Lane { bus, .. } => bus,
        Initiator::Master { bus, .. } => bus,
    }
}

/// Whether the initiator at the place is known to idle.
pub(crate) fn is_idle(idle: &Vec<bool>, place: usize) -> bool
    requires { place < length idle.now.items }
    ensures { result ≡ true → slice_get idle.now.items place ≡ Some true }
{
    idle[place]
}

/// The initiator at the place is known to idle from now on.
pub(crate) fn hush(idle: &mut Vec<bool>, place: usize)
    requires { place < length idle.old.items }
    ensures { idle.new.items ≡ set idle.old.items place true }
{
    idle[place] = true;
}

fn initiators_of(alloc: Global, board: &Board) -> Result<Vec<Initiator>, NoMemory>
    requires { IsTrue (is_well_formed board.now) }
    ensures { IfOk result (λ all. all.items ≡ ring_below 256 board.now) }
{
    let mut all = Vec::new(alloc);
    for bus in 0..256u16 {
        list_bus(&mut all, alloc, board, bus as u8)?;
    }
    Ok(all)
}

/// Those of one bus more.
fn list_bus(all: &mut Vec<Initiator>, alloc: Global, board: &Board, bus: u8) -> Result<(), NoMemory>
    requires { IsTrue (is_well_formed board.now) }
    ensures { OnOk result
        (all.new.items ≡ all.old.items ++ initiators_on bus (lines_of board.now bus)) }
{
    let lines = Lines::new(alloc, board, bus)?;
    list_lines(all, bus, &lines)
}

fn list_lines(all: &mut Vec<Initiator>, bus: u8, lines: &Lines) -> Result<(), NoMemory>
    ensures { OnOk result (all.new.items ≡ all.old.items ++ initiators_on bus lines.now) }
{
    list_lanes(all, bus, lines.lanes())?;
    list_masters(all, bus, lines.masters())
}

fn list_lanes(all: &mut Vec<Initiator>, bus: u8, lanes: &[Lane]) -> Result<(), NoMemory>
    ensures { OnOk result (all.new.items ≡ all.old.items ++ map (Initiator.Lane bus) lanes.now) }
{
    for lane in lanes {
        all.push(Initiator::Lane { bus, lane: *lane })?;
    }
    Ok(())
}

fn list_masters(all: &mut Vec<Initiator>, bus: u8, masters: &[u16]) -> Result<(), NoMemory>
    ensures { OnOk result
        (all.new.items ≡ all.old.items ++ map (Initiator.Master bus) masters.now) }
{
    for master in masters {
        all.push(Initiator::Master {
            bus,
            master: *master,
        })?;
    }
    Ok(())
}
