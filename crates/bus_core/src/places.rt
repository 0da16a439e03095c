ghost use Rattle.std.specs.Prelude.{◌≡◌, ◌+◌, ◌<◌, ◌==◌, length};
ghost use Rattle.std.specs.Prelude.{position, slice_get, IfSome, IsTrue};
ghost use Rattle.std.specs.List.{Contains};
ghost use Rattle.board_model.specs.WellFormed.{is_well_formed};
ghost use Rattle.bus_face.specs.Offers.{offers_of};
ghost use Rattle.bus_core.specs.Calls.{stamp_of as stamp_in};
ghost use Rattle.history_model.specs.Words.{phases_parted};
ghost use Rattle.bus_agents.specs.Through.{count_in};
ghost use Rattle.bus_targets.specs.State.{step_of};
ghost use Rattle.history_model.specs.World.{same_lane};
ghost use Rattle.board_model.specs.Ways.{lane_back};
ghost use Rattle.bus_core.specs.Places.{OffersAt, RespondsAt, AccessesAt, NotesPart};
ghost use Rattle.bus_core.specs.Places.{WantsAt, EndsTurnAt, TellsMaster, EndsAt};

use crate::port::Port;
use arrayvec::ArrayVec;
use board_model::{Board, Lane, MOST_OFFERS};
use bus_agents::{MasterState, Through};
use bus_face::{Offer, Reply};
use bus_targets::{Access, TargetState};
use history_model::Step;
use lane_items::Item;
use machine_steps::master_outcome;
use pci_command::{OpId, Outcome, Request};

/// The place of the port whose lane back this is.
pub(crate) fn port_back(ports: &[Port], lane: Lane) -> Option<usize>
    ensures { result ≡ position (λ port. same_lane port.lane (lane_back lane)) ports.now }
{
    let back = Lane {
        bus: lane.bus,
        up: !lane.up,
    };
    ports.iter().position(|port| has_lane(port, back))
}

fn has_lane(port: &Port, lane: Lane) -> bool
    ensures { result ≡ same_lane port.now.lane lane }
{
    let own = port.lane();
    own.bus == lane.bus && own.up == lane.up
}

/// The place of the target.
pub(crate) fn target_place(targets: &[TargetState], target: u16) -> Option<usize>
    ensures { result ≡ position (λ t. t.target == target) targets.now }
{
    targets.iter().position(|state| is_target(state, target))
}

fn is_target(state: &TargetState, target: u16) -> bool
    ensures { result ≡ (state.now.target == target) }
{
    state.target() == target
}

/// What the port at the place answers.
pub(crate) fn respond_at(
    ports: &mut [Port],
    place: usize,
    line: u8,
    op: OpId,
    request: &Request,
) -> Reply
    requires { place < length ports.old }
    ensures { RespondsAt place ports.old line op request.now result ports.new }
{
    let port = &mut ports[place];
    port.respond(line, op, request)
}

/// What the target at the place answers.
pub(crate) fn access_at(
    targets: &mut [TargetState],
    place: usize,
    board: &Board,
    request: &Request,
) -> Access
    requires { place < length targets.old }
    ensures { AccessesAt board.now place targets.old request.now result targets.new }
{
    let target = &mut targets[place];
    target.access(board, request)
}

/// So many data phases of the operation went through as the target took in parts.
pub(crate) fn note_part(through: &mut Through, op: OpId, access: Access)
    requires { count_in through.old op + phases_parted (step_of access) < 256 }
    ensures { NotesPart through.old op access through.new }
{
    if let Access::Part(phases) = access {
        through.part(op, phases);
    }
}

/// What the master at the place presents.
pub(crate) fn want_at(masters: &[MasterState], place: usize) -> Option<OpId>
    requires { place < length masters.now }
    ensures { WantsAt place masters.now result }
{
    masters[place].want()
}

/// The operation of the master at the place was answered with this step.
pub(crate) fn tell_master(masters: &mut [MasterState], place: usize, board: &Board, step: Step)
    requires place { place < length masters.old }
    requires formed { IsTrue (is_well_formed board.now) }
    ensures { TellsMaster board.now place step masters.old masters.new }
{
    match master_outcome(step) {
        Some(outcome) => end_turn_at(masters, place, board, outcome),
        None => {}
    }
}

/// The operation of the master at the place ended.
fn end_turn_at(masters: &mut [MasterState], place: usize, board: &Board, outcome: Outcome)
    requires place { place < length masters.old }
    requires formed { IsTrue (is_well_formed board.now) }
    ensures { EndsTurnAt board.now place masters.old outcome masters.new }
{
    let master = &mut masters[place];
    master.ended(board, outcome);
}

/// An item that the port at the place offers ended.
pub(crate) fn end_at(
    ports: &mut [Port],
    place: usize,
    offer: &Offer,
    outcome: Outcome,
    stamp: u32,
) -> Item
    requires place { place < length ports.old }
    requires offered { IfSome (slice_get ports.old place)
        (λ port. Contains (offers_of port.face) offer.now) }
    ensures ends { EndsAt place ports.old offer.now outcome ports.new result }
    ensures stamped { stamp_in result ≡ stamp }
{
    let port = &mut ports[place];
    port.ended(offer, outcome, stamp)
}

/// What the lane of the port at the place presents.
pub(crate) fn offers_at(ports: &[Port], place: usize) -> ArrayVec<Offer, MOST_OFFERS>
    requires { place < length ports.now }
    ensures kept { IfSome (slice_get ports.now place) (λ port. result.items ≡ offers_of port.face) }
    ensures offers { OffersAt place ports.now result.items }
{
    ports[place].offers()
}
