ghost use Rattle.std.specs.Prelude.{◌≡◌, IsTrue, length};
ghost use Rattle.board_model.specs.WellFormed.{is_well_formed};
ghost use Rattle.history_model.specs.declared.event.By.TheVariants.{Lane as ByLane};
ghost use Rattle.history_model.specs.World.{world_of};
ghost use Rattle.history_model.specs.Program.{turn_of};
ghost use Rattle.history_model.specs.Answers.{wants, answer};
ghost use Rattle.history_model.specs.Runs.{Run, history_of};
ghost use Rattle.history_model.specs.Next.{first_bus, first_in, first_below, up_from, given_on};
ghost use Rattle.history_model.specs.Next.{first_lane, act_given, act_of, act_of_item, act_of_lane};
ghost use Rattle.history_model.specs.Next.{act_of_turn, act_of_masters, act_on, first_act};

use crate::answers::answer;
use crate::lanes::{down_to, lanes_after_events, up_from};
use crate::presenting::wants;
use crate::turns::turn_of;
use board_model::{Board, Lane};
use history_model::{By, Carried, Event};
use machine_steps::{Presented, act_given, ends_on};
use pci_command::OpId;

/// The first act, by increasing bus and there by line.
#[tactic(auto, using(law_lanes::proofs::progress::NextFirstLemmas::first_more))]
pub(crate) fn first_act(board: &Board, before: &[Event]) -> Option<Event>
    requires formed { IsTrue (is_well_formed board.now) }
    requires run { Run board.now (history_of before.now) }
    ensures { result ≡ first_act board.now (history_of before.now) }
{
    for bus in 0..256u16 {
        if let Some(event) = act_on(board, before, bus as u8) {
            return Some(event);
        }
    }
    None
}

/// The first act on the bus: of the lanes that end there, or of its masters.
fn act_on(board: &Board, before: &[Event], bus: u8) -> Option<Event>
    requires formed { IsTrue (is_well_formed board.now) }
    requires run { Run board.now (history_of before.now) }
    ensures { result ≡ act_on board.now (history_of before.now) bus }
{
    match act_of_lanes(board, before, bus) {
        Some(event) => Some(event),
        None => act_of_masters(board, before, bus),
    }
}

/// The first act of a lane on the bus: of that of its own bridge, or of those of the bridges below.
fn act_of_lanes(board: &Board, before: &[Event], bus: u8) -> Option<Event>
    requires formed { IsTrue (is_well_formed board.now) }
    requires run { Run board.now (history_of before.now) }
    ensures { result ≡
        first_lane board.now bus (act_of_lane board.now (history_of before.now) bus) }
{
    match act_from(board, before, bus, down_to(bus)) {
        Some(event) => Some(event),
        None => act_from_below(board, before, bus),
    }
}

/// The first act on the bus of a bridge below, by increasing number.
#[tactic(auto, using(law_lanes::proofs::progress::NextFirstLemmas::first_more))]
fn act_from_below(board: &Board, before: &[Event], bus: u8) -> Option<Event>
    requires formed { IsTrue (is_well_formed board.now) }
    requires run { Run board.now (history_of before.now) }
    ensures { result ≡ first_bus (λ child. given_on board.now bus
        (act_of_lane board.now (history_of before.now) bus) (up_from child)) }
{
    for child in 0..256u16 {
        if let Some(event) = act_from(board, before, bus, up_from(child as u8)) {
            return Some(event);
        }
    }
    None
}

/// The first act of the lane, where that ends on the bus.
fn act_from(board: &Board, before: &[Event], bus: u8, lane: Lane) -> Option<Event>
    requires formed { IsTrue (is_well_formed board.now) }
    requires run { Run board.now (history_of before.now) }
    ensures { result ≡
        given_on board.now bus (act_of_lane board.now (history_of before.now) bus) lane }
{
    if ends_on(board, bus, lane) {
        act_of_lane(board, before, bus, lane)
    } else {
        None
    }
}

fn act_of_lane(board: &Board, before: &[Event], bus: u8, lane: Lane) -> Option<Event>
    requires formed { IsTrue (is_well_formed board.now) }
    requires run { Run board.now (history_of before.now) }
    ensures { result ≡ act_of_lane board.now (history_of before.now) bus lane }
{
    let lanes = lanes_after_events(board, before, lane.bus);
    act_of_items(board, before, bus, lane, lanes.lane(lane.up).standing())
}

/// The first act of what stands on the lane, the oldest first.
fn act_of_items(
    board: &Board,
    before: &[Event],
    bus: u8,
    lane: Lane,
    standing: &[Carried],
) -> Option<Event>
    requires formed { IsTrue (is_well_formed board.now) }
    requires run { Run board.now (history_of before.now) }
    ensures { result ≡
        first_in (act_of_item board.now (history_of before.now) bus lane) standing.now }
{
    for item in standing {
        if let Some(event) = act_of_item(board, before, bus, lane, *item) {
            return Some(event);
        }
    }
    None
}

fn act_of_item(board: &Board, before: &[Event], bus: u8, lane: Lane, item: Carried) -> Option<Event>
    requires formed { IsTrue (is_well_formed board.now) }
    requires run { Run board.now (history_of before.now) }
    ensures { result ≡ act_of_item board.now (history_of before.now) bus lane item }
{
    match item {
        Carried::Post { op } => act_by_lane(board, before, bus, lane, op),
        Carried::Ask { op, .. } => act_by_lane(board, before, bus, lane, op),
        Carried::Done { .. } | Carried::Room | Carried::Gone { .. } => None,
    }
}

fn act_by_lane(board: &Board, before: &[Event], bus: u8, lane: Lane, op: OpId) -> Option<Event>
    requires formed { IsTrue (is_well_formed board.now) }
    requires run { Run board.now (history_of before.now) }
    ensures { result ≡ act_of board.now (history_of before.now) bus (ByLane lane) op }
{
    let by = By::Lane(lane);
    act_of(board, before, Presented { bus, by, op })
}

/// The first act of a master on the bus, in the order of the board.
#[tactic(auto, using(law_lanes::proofs::progress::NextFirstLemmas::first_more, board_model::proofs::FewLemmas::few_masters_before, board_model::proofs::FewLemmas::master_more))]
fn act_of_masters(board: &Board, before: &[Event], bus: u8) -> Option<Event>
    requires formed { IsTrue (is_well_formed board.now) }
    requires run { Run board.now (history_of before.now) }
    ensures { result ≡ act_of_masters board.now (history_of before.now) bus }
{
    for (index, master) in board.masters.as_slice().iter().enumerate() {
        // It is one of 256 buses, with eight masters at most on each.
        let _bus = master.bus;
        let turn = turn_of(board, before, index as u16);
        if let Some(event) = act_of_turn(board, before, bus, turn) {
            return Some(event);
        }
    }
    None
}

/// The act of a master whose turn is this operation.
fn act_of_turn(board: &Board, before: &[Event], bus: u8, turn: Option<OpId>) -> Option<Event>
    requires formed { IsTrue (is_well_formed board.now) }
    requires run { Run board.now (history_of before.now) }
    ensures { result ≡ act_of_turn board.now (history_of before.now) bus turn }
{
    match turn {
        Some(op) => {
            let by = By::Master;
            act_of(board, before, Presented { bus, by, op })
        }
        None => None,
    }
}

/// The act of what the initiator presents, where its answer is an event.
fn act_of(board: &Board, before: &[Event], presented: Presented) -> Option<Event>
    requires formed { IsTrue (is_well_formed board.now) }
    requires run { Run board.now (history_of before.now) }
    ensures { result ≡
        act_of board.now (history_of before.now) presented.bus presented.by presented.op }
{
    if wants(board, before, presented) {
        act_given(presented, answer(board, before, presented))
    } else {
        None
    }
}
