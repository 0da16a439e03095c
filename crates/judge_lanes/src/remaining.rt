ghost use Rattle.std.specs.Prelude.{◌≡◌, ◌+◌, ◌*◌, ◌-◌, ◌^◌, ◌<◌, ◌≤◌};
ghost use Rattle.std.specs.Prelude.{drop, length, Some, None, true, false};
ghost use Rattle.std.specs.Option.{option_copied};
ghost use Rattle.std.specs.List.{find, list_any};
ghost use Rattle.list_facts.specs.Lists.{total};
ghost use Rattle.board_model.specs.Requests.{phases_of, tries_of};
ghost use Rattle.board_model.specs.Ways.{way, pieces_of, cost_of, cost_of_try};
ghost use Rattle.board_tree.specs.Decodable.{IsDecodable};
ghost use Rattle.history_model.specs.Lanes.{is_done_for};
ghost use Rattle.history_model.specs.Local.{is_ask_of, is_gone_of};
ghost use Rattle.history_model.specs.Left.{is_slot_of, lane_or, slot_left};

use crate::lane_tables::LaneTables;
use board_model::{Board, Lane, Op, request_on, tries_of};
use board_tree::{cost_of_program, cost_of_try, pieces_by, route_of};
use history_model::{Carried, Slot};
use machine_steps::is_done_for;
use pci_command::{OpId, same_op};

/// What a posted write, of which so many data phases went through, has left from the bus on: three
/// events for each lane of its way, and one for each piece that is left of it.
pub fn posted_left(board: &Board, on: u8, op: &Op, gone: u128) -> u32
    requires { IsDecodable board.now }
    ensures value { result ≡ 3 * length (way board.now op.now on) +
        pieces_of board.now op.now on (length (phases_of op.now) - gone) }
    ensures fits { result ≤ 66300 }
{
    let route = route_of(board, op, on);
    let request = request_on(op, route.bus);
    let phases = phases_left(request.phases.len() as u8, gone);
    3 * u32::from(route.lanes) + u32::from(pieces_by(board, &request, phases, route.owner))
}

/// How many data phases are left when so many went through.
fn phases_left(phases: u8, gone: u128) -> u8
    ensures { result ≡ phases - gone }
{
    if gone < u128::from(phases) {
        phases - gone as u8
    } else {
        0
    }
}

/// What the operations behind this one of a program cost, from the bus on.
pub fn behind_left(board: &Board, bus: u8, ops: &[Op], index: u16) -> u64
    requires decodable { IsDecodable board.now }
    requires short { total (cost_of board.now bus) ops.now ≤ 500000 }
    ensures value { result ≡ total (cost_of board.now bus) (drop (index + 1) ops.now) }
    ensures fits { result ≤ 500000 }
{
    let next = index as usize + 1;
    if next < ops.len() {
        let (_, behind) = ops.split_at(next);
        cost_of_program(board, bus, behind)
    } else {
        0
    }
}

/// What the tries of an operation behind this one cost, from the bus on.
pub fn tries_left(board: &Board, on: u8, attempt: u32, op: &Op) -> u64
    requires { IsDecodable board.now }
    ensures value { result ≡ (tries_of op.now - (attempt + 1)) * cost_of_try board.now on op.now }
    ensures fits { result ≤ 2 ^ 32 * 66300 }
{
    let tries = u64::from(tries_of(op)).saturating_sub(u64::from(attempt) + 1);
    let cost = u64::from(cost_of_try(board, on, op));
    tries * cost
}

/// How many lanes of its way, from the first on, hold a slot for an operation, and the last of
/// these.
#[derive(Clone, Copy, Debug, PartialEq, Eq)]
pub struct Reach {
    pub lanes: u8,
    pub last: Option<Lane>,
}

impl Reach {
    /// No lane holds one.
    pub fn none() -> Reach
        ensures { result ≡ record { lanes = 0; last = None } }
    {
        Reach {
            lanes: 0,
            last: None,
        }
    }

    /// This lane holds one, and those behind it.
    pub fn through(lane: Lane, behind: Reach) -> Reach
        requires { behind.lanes < 255 }
        ensures { result ≡ record {
          lanes = behind.lanes + 1;
          last = Some (lane_or behind.last lane);
        } }
    {
        Reach {
            lanes: behind.lanes + 1,
            last: Some(lane_or(behind.last, lane)),
        }
    }
}

fn lane_or(other: Option<Lane>, lane: Lane) -> Lane
    ensures { result ≡ lane_or other lane }
{
    match other {
        None => lane,
        Some(other) => other,
    }
}

/// Whether a slot of the lane is held for the operation.
pub fn has_slot(tables: &LaneTables, op: OpId) -> bool
    ensures { result ≡ list_any (is_slot_of op) tables.now.held }
{
    some_slot(tables.held(), op)
}

fn some_slot(held: &[Slot], op: OpId) -> bool
    ensures { result ≡ list_any (is_slot_of op) held.now }
{
    held.iter().any(|slot| same_op(slot.op, op))
}

/// What a delayed request has left by its furthest slot, on lane number `far` of a way of `long`
/// lanes: that lane, and the one of its bridge that comes back.
pub fn found_left(long: u8, far: u8, here: &LaneTables, back: &LaneTables, op: OpId) -> u32
    ensures value { result ≡
        slot_left long far here.now back.now (find (is_slot_of op) here.now.held) }
    ensures fits { result ≤ 2000 }
{
    slot_left(long, far, here, back, slot_of(here.held(), op))
}

fn slot_of(held: &[Slot], op: OpId) -> Option<Slot>
    ensures { result ≡ find (is_slot_of op) held.now }
{
    first_slot(held, op).copied()
}

fn first_slot(held: &[Slot], op: OpId) -> Option<&Slot>
    ensures { option_copied result ≡ find (is_slot_of op) held.now }
{
    held.iter().find(|slot| same_op(slot.op, op))
}

/// On a way of `long` lanes, with the slot at lane number `far`: an Ask has the rest of its way and
/// its way back before it, a completion the way back, and a request that was dropped all of its
/// way again.
fn slot_left(long: u8, far: u8, here: &LaneTables, back: &LaneTables, slot: Option<Slot>) -> u32
    ensures value { result ≡ slot_left long far here.now back.now slot }
    ensures fits { result ≤ 2000 }
{
    match slot {
        None => 4 * u32::from(long) + 1,
        Some(slot) => item_left(u32::from(long), u32::from(far), here, back, slot),
    }
}

fn item_left(long: u32, far: u32, here: &LaneTables, back: &LaneTables, slot: Slot) -> u32
    requires long { long ≤ 255 }
    requires far { far ≤ 255 }
    ensures value { result ≡ slot_left long far here.now back.now (Some slot) }
    ensures fits { result ≤ 2000 }
{
    let number = slot.number;
    let onwards = 4 * long.saturating_sub(far);
    if some_ask(here.flight(), number) {
        onwards + 2 * far + 2
    } else if some_ask(here.standing(), number) {
        onwards + 2 * far + 1
    } else if some_done(back.flight(), number) {
        2 * far
    } else if some_done(back.standing(), number) {
        (2 * far).saturating_sub(1)
    } else if some_gone(back.flight(), number) {
        onwards + 2 * far + 4
    } else {
        4 * long + 1
    }
}

fn some_ask(items: &[Carried], number: u8) -> bool
    ensures { result ≡ list_any (is_ask_of number) items.now }
{
    items.iter().any(|item| is_ask_of(*item, number))
}

fn some_done(items: &[Carried], number: u8) -> bool
    ensures { result ≡ list_any (is_done_for number) items.now }
{
    items.iter().any(|item| is_done_for(*item, number))
}

fn some_gone(items: &[Carried], number: u8) -> bool
    ensures { result ≡ list_any (is_gone_of number) items.now }
{
    items.iter().any(|item| is_gone_of(*item, number))
}

fn is_ask_of(item: Carried, number: u8) -> bool
    ensures { result ≡ is_ask_of number item }
{
    match item {
        Carried::Ask { slot, .. } => slot == number,
        Carried::Post { .. } | Carried::Done { .. } | Carried::Room | Carried::Gone { .. } => false,
    }
}

fn is_gone_of(item: Carried, number: u8) -> bool
    ensures { result ≡ is_gone_of number item }
{
    match item {
        Carried::Gone { slot } => slot == number,
        Carried::Post { .. } | Carried::Ask { .. } | Carried::Done { .. } | Carried::Room => false,
    }
}
