ghost use Rattle.std.specs.Prelude.{◌≡◌, ◌<◌, ◌≤◌, ◌^◌, [], IsTrue, IsSome, slice_get, true, Some};
ghost use Rattle.board_model.specs.WellFormed.{is_well_formed};
ghost use Rattle.board_model.specs.Requests.{op_of};
ghost use Rattle.history_model.specs.Answers.{is_on};
ghost use Rattle.history_model.specs.Knowledge.{stands_after};
ghost use Rattle.history_model.specs.Program.{turn_of, turn_after, ended, ending_of};
ghost use Rattle.history_model.specs.Program.{ended_by, master_outcome, follows, follows_op};
ghost use Rattle.history_model.specs.Program.{next_op, next_try, present, meets};

use crate::endings::master_outcome;
use board_model::{Board, Op, Want, op_of};
use history_model::{By, Event, Step};
use pci_command::{OpId, Outcome};

/// The operation, where it is there.
pub fn present(board: &Board, op: OpId) -> Option<OpId>
    ensures { result ≡ present board.now op }
{
    op_of(board, op)?;
    Some(op)
}

/// The turn of the master before the first event: the first operation of its program, where it has
/// one.
pub fn first_turn(board: &Board, master: u16) -> Option<OpId>
    ensures { result ≡ turn_of board.now [] master }
{
    present(
        board,
        OpId {
            master,
            index: 0,
            attempt: 0,
        },
    )
}

/// The turn of the master after one more event.
pub fn turn_after(board: &Board, master: u16, turn: Option<OpId>, event: &Event) -> Option<OpId>
    requires { IsTrue (is_well_formed board.now) }
    ensures { result ≡ turn_after board.now master turn (ended event.now) }
{
    match *event {
        Event::Act {
            by: By::Master,
            op,
            step,
            ..
        } => turn_after_step(board, master, turn, op, step),
        Event::Act { .. } | Event::Arrive { .. } => turn,
    }
}

fn turn_after_step(
    board: &Board,
    master: u16,
    turn: Option<OpId>,
    op: OpId,
    step: Step,
) -> Option<OpId>
    requires { IsTrue (is_well_formed board.now) }
    ensures { result ≡ turn_after board.now master turn (ending_of op (master_outcome step)) }
{
    match master_outcome(step) {
        Some(outcome) if op.master == master => follows(board, op, outcome),
        _ => turn,
    }
}

/// What follows an operation that ended so: after a try of a poll that was not met the next try,
/// and else the next operation; nothing where that is not there.
pub fn follows(board: &Board, op: OpId, outcome: Outcome) -> Option<OpId>
    requires { IsTrue (is_well_formed board.now) }
    ensures { result ≡ follows board.now (record { op = op; outcome = outcome }) }
{
    match op_of(board, op)? {
        Op::Poll { want, .. } if !meets(*want, outcome) => next_try(board, op),
        _ => next_op(board, op),
    }
}

/// Whether a read of this outcome meets a poll.
fn meets(want: Want, outcome: Outcome) -> bool
    ensures { result ≡ meets want outcome }
{
    match outcome {
        Outcome::Value(value) => want.is_met_by(value),
        Outcome::Written | Outcome::Aborted | Outcome::Nobody => false,
    }
}

#[tactic(auto, using(crate::proofs::LimitLemmas::index_limit))]
fn next_op(board: &Board, op: OpId) -> Option<OpId>
    requires formed { IsTrue (is_well_formed board.now) }
    requires there { IsSome (op_of board.now op) }
    ensures { result ≡ next_op board.now op }
{
    let next = OpId {
        master: op.master,
        index: op.index + 1,
        attempt: 0,
    };
    present(board, next)
}

#[tactic(auto, using(crate::proofs::LimitLemmas::attempt_limit))]
fn next_try(board: &Board, op: OpId) -> Option<OpId>
    requires formed { IsTrue (is_well_formed board.now) }
    requires there { IsSome (op_of board.now op) }
    ensures { result ≡ next_try board.now op }
{
    let next = OpId {
        master: op.master,
        index: op.index,
        attempt: op.attempt + 1,
    };
    present(board, next)
}

/// Whether the master is on the bus.
pub fn is_on(board: &Board, bus: u8, master: u16) -> bool
    ensures { result ≡ is_on bus (slice_get board.now.masters master) }
{
    match board.masters.as_slice().get(master as usize) {
        Some(master) => master.bus == bus,
        None => false,
    }
}

/// Whether the second stands behind the first in the order of their program: a later operation, or
/// a later try of one poll.
pub fn stands_after(first: OpId, op: OpId) -> bool
    ensures { result ≡ stands_after first op }
{
    first.index < op.index || (first.index == op.index && first.attempt < op.attempt)
}
