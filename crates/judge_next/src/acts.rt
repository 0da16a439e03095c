ghost use Rattle.std.specs.Prelude.{◌≡◌, IsTrue, true};
ghost use Rattle.board_model.specs.WellFormed.{is_well_formed};
ghost use Rattle.board_tree.specs.Sites.{AreSites};
ghost use Rattle.history_model.specs.declared.event.By.TheVariants.{Lane as ByLane};
ghost use Rattle.history_model.specs.Next.{first_in};
ghost use Rattle.judge_next.specs.Now.{act_now, item_now, lane_now, master_now};

use board_model::{Board, Lane};
use board_tree::Sites;
use history_model::{By, Carried, Event};
use judge_state::Kept;
use machine_steps::{Presented, act_given};
use pci_command::OpId;

/// The first act of these lanes, which end on the bus.
pub(crate) fn act_of_lanes(
    kept: &Kept,
    board: &Board,
    sites: &Sites,
    bus: u8,
    lanes: &[Lane],
) -> Option<Event>
    requires formed { IsTrue (is_well_formed board.now) }
    requires sites { AreSites board.now sites.now }
    ensures { result ≡ first_in (lane_now board.now kept.now bus) lanes.now }
{
    match lanes {
        [] => None,
        [lane, rest @ ..] => match act_of_lane(kept, board, sites, bus, *lane) {
            Some(event) => Some(event),
            None => act_of_lanes(kept, board, sites, bus, rest),
        },
    }
}

/// The first act of what stands on the lane, the oldest first.
pub(crate) fn act_of_lane(
    kept: &Kept,
    board: &Board,
    sites: &Sites,
    bus: u8,
    lane: Lane,
) -> Option<Event>
    requires formed { IsTrue (is_well_formed board.now) }
    requires sites { AreSites board.now sites.now }
    ensures { result ≡ lane_now board.now kept.now bus lane }
{
    match kept.lanes_to(board, lane.bus) {
        Some(lanes) => act_of_items(
            kept,
            board,
            sites,
            bus,
            lane,
            lanes.lane(lane.up).standing(),
        ),
        None => None,
    }
}

fn act_of_items(
    kept: &Kept,
    board: &Board,
    sites: &Sites,
    bus: u8,
    lane: Lane,
    standing: &[Carried],
) -> Option<Event>
    requires formed { IsTrue (is_well_formed board.now) }
    requires sites { AreSites board.now sites.now }
    ensures { result ≡ first_in (item_now board.now kept.now bus lane) standing.now }
{
    for item in standing {
        if let Some(event) = act_of_item(kept, board, sites, bus, lane, *item) {
            return Some(event);
        }
    }
    None
}

fn act_of_item(
    kept: &Kept,
    board: &Board,
    sites: &Sites,
    bus: u8,
    lane: Lane,
    item: Carried,
) -> Option<Event>
    requires formed { IsTrue (is_well_formed board.now) }
    requires sites { AreSites board.now sites.now }
    ensures { result ≡ item_now board.now kept.now bus lane item }
{
    match item {
        Carried::Post { op } => act_by_lane(kept, board, sites, bus, lane, op),
        Carried::Ask { op, .. } => act_by_lane(kept, board, sites, bus, lane, op),
        Carried::Done { .. } | Carried::Room | Carried::Gone { .. } => None,
    }
}

fn act_by_lane(
    kept: &Kept,
    board: &Board,
    sites: &Sites,
    bus: u8,
    lane: Lane,
    op: OpId,
) -> Option<Event>
    requires formed { IsTrue (is_well_formed board.now) }
    requires sites { AreSites board.now sites.now }
    ensures { result ≡ act_now board.now kept.now bus (ByLane lane) op }
{
    let by = By::Lane(lane);
    act_of(kept, board, sites, Presented { bus, by, op })
}

/// The first act of these masters, which are on the bus.
pub(crate) fn act_of_masters(
    kept: &Kept,
    board: &Board,
    sites: &Sites,
    bus: u8,
    masters: &[u16],
) -> Option<Event>
    requires formed { IsTrue (is_well_formed board.now) }
    requires sites { AreSites board.now sites.now }
    ensures { result ≡ first_in (master_now board.now kept.now bus) masters.now }
{
    for master in masters {
        if let Some(event) = act_of_master(kept, board, sites, bus, *master) {
            return Some(event);
        }
    }
    None
}

/// The act of the turn of the master.
pub(crate) fn act_of_master(
    kept: &Kept,
    board: &Board,
    sites: &Sites,
    bus: u8,
    master: u16,
) -> Option<Event>
    requires formed { IsTrue (is_well_formed board.now) }
    requires sites { AreSites board.now sites.now }
    ensures { result ≡ master_now board.now kept.now bus master }
{
    match kept.turn(master) {
        Some(op) => {
            let by = By::Master;
            act_of(kept, board, sites, Presented { bus, by, op })
        }
        None => None,
    }
}

/// The act of what the initiator presents, where its answer is an event.
fn act_of(kept: &Kept, board: &Board, sites: &Sites, presented: Presented) -> Option<Event>
    requires formed { IsTrue (is_well_formed board.now) }
    requires sites { AreSites board.now sites.now }
    ensures { result ≡ act_now board.now kept.now presented.bus presented.by presented.op }
{
    if kept.wants(board, presented) {
        let answer = kept.answer_with(board, Some(sites), presented);
        act_given(presented, answer)
    } else {
        None
    }
}
