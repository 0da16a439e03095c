ghost use Rattle.std.specs.Prelude.{◌≡◌, ◌≤◌, ◌++◌, [], length, Some};
ghost use Rattle.board_model.specs.Ways.{lane_back};
ghost use Rattle.history_model.specs.Lanes.{effect_of};
ghost use Rattle.history_model.specs.Moves.{moves_in, place_moves, claim_moves, initiator_moves};
ghost use Rattle.history_model.specs.Moves.{end_moves, arrival_moves, effect_moves};

use arrayvec::ArrayVec;
use board_model::{Board, Lane, Place};
use history_model::{By, Carried, Event, Mark, Move, Moved, Rule, Slot, Step};
use machine_steps::lane_outcome;
use pci_command::{OpId, Outcome};

/// What an event does to the lanes, by the rule of the bridge, where it found this on them: at most
/// four moves, in their order.
pub fn moves_in(board: &Board, rule: Rule, event: &Event, found: Moved) -> ArrayVec<Move, 4>
    ensures { result.items ≡ moves_in rule board.now event.now found }
{
    let mut moves = ArrayVec::new();
    match *event {
        Event::Act {
            by,
            op,
            step,
            place,
            ..
        } => {
            at_place(&mut moves, rule.noted(by), op, step, place, found.slot);
            at_initiator(&mut moves, board, by, op, step, found.item);
        }
        Event::Arrive { lane, mark } => arrive(&mut moves, lane, mark, found.item),
    }
    moves
}

fn at_place(
    moves: &mut ArrayVec<Move, 4>,
    by: By,
    op: OpId,
    step: Step,
    place: Place,
    slot: Option<u8>,
)
    requires { moves.old.items ≡ [] }
    ensures moves { moves.new.items ≡ place_moves by op step place slot }
    ensures two { length moves.new.items ≤ 2 }
{
    match place {
        Place::Lane(lane) => claim(moves, lane, by, op, step, slot),
        Place::Target(_) | Place::Header(_) | Place::Nobody => {}
    }
}

/// What a step does at the lane that claims.
fn claim(moves: &mut ArrayVec<Move, 4>, lane: Lane, by: By, op: OpId, step: Step, slot: Option<u8>)
    requires { moves.old.items ≡ [] }
    ensures moves { moves.new.items ≡ claim_moves lane by op step slot }
    ensures two { length moves.new.items ≤ 2 }
{
    match (step, slot) {
        (Step::Accept, _) => {
            let item = Carried::Post { op };
            moves.push(Move::Sent { lane, op, item });
            moves.push(Move::Owed { lane });
        }
        (Step::Latch, Some(number)) => {
            let slot = Slot { number, by, op };
            let item = Carried::Ask { op, slot: number };
            moves.push(Move::Held { lane, slot });
            moves.push(Move::Sent { lane, op, item });
        }
        (Step::Take(outcome), Some(number)) => {
            let item = Carried::Done {
                op,
                slot: number,
                outcome,
            };
            moves.push(Move::Freed { lane, number });
            moves.push(Move::Left {
                lane: back_of(lane),
                item,
            });
        }
        _ => {}
    }
}

fn at_initiator(
    moves: &mut ArrayVec<Move, 4>,
    board: &Board,
    by: By,
    op: OpId,
    step: Step,
    item: Option<Carried>,
)
    requires { length moves.old.items ≤ 2 }
    ensures { moves.new.items ≡ moves.old.items ++ initiator_moves board.now by op step item }
{
    match by {
        By::Lane(lane) => {
            if let Some(outcome) = lane_outcome(board, lane, op, step)
                && let Some(item) = item
            {
                end(moves, lane, op, outcome, item);
            }
        }
        By::Master => {}
    }
}

/// An item ends: it leaves, and it is answered on the lane back.
fn end(moves: &mut ArrayVec<Move, 4>, lane: Lane, op: OpId, outcome: Outcome, item: Carried)
    requires { length moves.old.items ≤ 2 }
    ensures { moves.new.items ≡ moves.old.items ++ end_moves lane op (Some outcome) (Some item) }
{
    moves.push(Move::Left { lane, item });
    let lane = back_of(lane);
    match item {
        Carried::Post { .. } => moves.push(Move::Sent {
            lane,
            op,
            item: Carried::Room,
        }),
        Carried::Ask { op: of, slot } => moves.push(Move::Sent {
            lane,
            op,
            item: Carried::Done {
                op: of,
                slot,
                outcome,
            },
        }),
        Carried::Done { .. } | Carried::Room | Carried::Gone { .. } => {}
    }
}

fn arrive(moves: &mut ArrayVec<Move, 4>, lane: Lane, mark: Mark, item: Option<Carried>)
    requires { moves.old.items ≡ [] }
    ensures { moves.new.items ≡ arrival_moves lane mark item }
{
    if let Some(item) = item {
        come(moves, lane, mark, item);
    }
}

/// What the arrival of the item does.
fn come(moves: &mut ArrayVec<Move, 4>, lane: Lane, mark: Mark, item: Carried)
    requires { moves.old.items ≡ [] }
    ensures { moves.new.items ≡ effect_moves lane item (effect_of mark item) }
{
    let back = back_of(lane);
    match (mark, item) {
        (_, Carried::Room) => {
            moves.push(Move::Lost { lane, item });
            moves.push(Move::Paid { lane: back });
        }
        (_, Carried::Gone { slot }) | (Mark::Discard, Carried::Done { slot, .. }) => {
            moves.push(Move::Lost { lane, item });
            moves.push(Move::Freed {
                lane: back,
                number: slot,
            });
        }
        (Mark::Drop, Carried::Ask { op, slot }) => {
            moves.push(Move::Lost { lane, item });
            moves.push(Move::Sent {
                lane: back,
                op,
                item: Carried::Gone { slot },
            });
        }
        _ => moves.push(Move::Came { lane, item }),
    }
}

/// The other lane of the bridge.
fn back_of(lane: Lane) -> Lane
    ensures { result ≡ lane_back lane }
{
    Lane {
        bus: lane.bus,
        up: !lane.up,
    }
}
