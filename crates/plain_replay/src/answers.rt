ghost use Rattle.std.specs.Prelude.{◌≡◌, ◌+◌, ◌*◌, ◌^◌, ◌≤◌, ◌<◌, IsTrue, length, slice_get};
ghost use Rattle.std.specs.Prelude.{if◌then◌else◌, nat_lt};
ghost use Rattle.std.specs.Option.{option_copied};
ghost use Rattle.std.specs.List.{find};
ghost use Rattle.pci_command.specs.Command.{is_read};
ghost use Rattle.board_model.specs.WellFormed.{is_well_formed};
ghost use Rattle.board_model.specs.Requests.{request_of};
ghost use Rattle.board_model.specs.Claims.{claim};
ghost use Rattle.board_model.specs.Ways.{aborts_at};
ghost use Rattle.history_model.specs.World.{world_of};
ghost use Rattle.history_model.specs.Words.{without};
ghost use Rattle.history_model.specs.Answers.{answer, answer_in, answer_to, answer_by};
ghost use Rattle.history_model.specs.Answers.{target_answer, target_step, header_answer};
ghost use Rattle.history_model.specs.Answers.{lane_answer, bridge_to};
ghost use Rattle.history_model.specs.Runs.{Run, history_of};

use crate::lanes::lanes_after_events;
use crate::words::{stalls_used, through, value_of};
use board_model::{
    Board, Lane, Place, Target, Word, bridge_to, claim_in_space, is_in_ranges, request_of,
};
use history_model::{Answer, Event, Step};
use machine_steps::{
    Presented, address_left, dword_address, header_answer, left_of, nobody, write_step,
};
use pci_command::Request;

/// What the operation is answered, presented on the bus by the initiator after these events, the
/// first event first.
pub fn answer(board: &Board, before: &[Event], presented: Presented) -> Answer
    requires formed { IsTrue (is_well_formed board.now) }
    requires run { Run board.now (history_of before.now) }
    ensures { result ≡
        answer board.now (history_of before.now) presented.bus presented.by presented.op }
{
    match request_of(board, presented.op, presented.bus) {
        Some(request) => {
            let gone = through(before, presented.op);
            answer_to(board, before, presented, &request, gone)
        }
        None => nobody(),
    }
}

/// The answer of who claims what is left of the request, of which so many data phases went through.
fn answer_to(
    board: &Board,
    before: &[Event],
    presented: Presented,
    request: &Request,
    gone: u128,
) -> Answer
    requires formed { IsTrue (is_well_formed board.now) }
    requires run { Run board.now (history_of before.now) }
    requires fits { gone ≤ 2 ^ 100 }
    ensures { let h = history_of before.now in let rest = without gone request.now in
        result ≡ answer_by board.now (world_of board.now h) h presented.bus presented.by
        presented.op rest (claim board.now presented.bus rest) }
{
    let address = address_left(request, gone);
    match claim_in_space(board, presented.bus, request.command.space(), address) {
        Place::Target(target) => target_answer(board, before, target, request, gone),
        Place::Header(header) => header_answer(board, header, address),
        Place::Lane(lane) => lane_answer(board, before, presented, lane, request),
        Place::Nobody => nobody(),
    }
}

fn target_answer(
    board: &Board,
    before: &[Event],
    place: u16,
    request: &Request,
    gone: u128,
) -> Answer
    requires { gone ≤ 2 ^ 100 }
    ensures { result ≡ target_answer board.now (history_of before.now) place
        (without gone request.now) (slice_get board.now.targets place) }
{
    match board.targets.as_slice().get(place as usize) {
        Some(target) => Answer::Gives {
            step: target_step(board, before, place, request, gone, target),
            place: Place::Target(place),
        },
        None => nobody(),
    }
}

/// A target that claims: a stall while tokens are left, an abort in an abort range, and else the
/// access.
fn target_step(
    board: &Board,
    before: &[Event],
    place: u16,
    request: &Request,
    gone: u128,
    target: &Target,
) -> Step
    requires { gone ≤ 2 ^ 100 }
    ensures { result ≡
        target_step board.now (history_of before.now) place (without gone request.now) target.now }
{
    let space = request.command.space();
    let address = address_left(request, gone);
    if stalls_used(before, place) < u64::from(target.stalls) {
        Step::Stall
    } else if is_in_ranges(target.aborts.as_slice(), space, address) {
        Step::TargetAbort
    } else if request.command.is_read() {
        let word = Word {
            target: place,
            space,
            address: dword_address(space, address),
        };
        Step::Read(value_of(board, before, word))
    } else {
        write_step(target.burst, left_of(request.phases.as_slice(), gone).len())
    }
}

/// The face of a bridge where the lane begins.
fn lane_answer(
    board: &Board,
    before: &[Event],
    presented: Presented,
    lane: Lane,
    request: &Request,
) -> Answer
    requires formed { IsTrue (is_well_formed board.now) }
    requires run { Run board.now (history_of before.now) }
    ensures { result ≡
        lane_answer board.now (world_of board.now (history_of before.now)) presented.bus
        presented.by presented.op request.now lane (bridge_to board.now lane.bus) }
{
    match bridge_to(board, lane.bus) {
        Some(bridge) => {
            let lanes = lanes_after_events(board, before, lane.bus);
            lanes.answer(board, bridge, presented, request, lane)
        }
        None => nobody(),
    }
}
