ghost use Rattle.std.specs.Prelude.{◌≡◌, true, IfSome, IsTrue};
ghost use Rattle.board_model.specs.WellFormed.{is_well_formed};
ghost use Rattle.observe_log.specs.Acts.{IsInitiator, place_by, IsOf};

use crate::boards::is_master;
use crate::row::{is_lane, row_by};
use crate::rows::{Act, goes_on};
use crate::shown::Shown;
use board_model::{Board, Place, request_of};
use history_model::{By, Event, Step};
use observe_told::{Log, Seen, Who};
use pci_command::OpId;

/// What is shown of a line behind this event, if it is an act of the line.
pub(crate) fn act_of(
    log: &Log,
    board: &Board,
    seen: &Seen,
    before: Shown,
    event: &Event,
) -> Option<Shown>
    requires { IsTrue (is_well_formed log.now.board) }
    ensures { IfSome result (λ shown. IsOf log.now board.now seen.now before event.now shown) }
{
    let Event::Act {
        bus,
        by,
        op,
        step,
        place,
    } = *event
    else {
        return None;
    };
    let claimant = seen.claimant(&log.board);
    if bus != seen.bus
        || !is_initiator(log, board, seen.who, by, op)
        || !same_place(place, place_by(claimant, step))
    {
        return None;
    }
    let request = request_of(board, op, bus)?;
    let act = Act {
        row: row_by(claimant, seen),
        lane: is_lane(claimant),
        seen,
        words: log.phases_of(seen),
        op,
        request: &request,
    };
    goes_on(&act, before, step)
}

fn is_initiator(log: &Log, board: &Board, who: Who, by: By, op: OpId) -> bool
    ensures { IsTrue result → IsInitiator log.now.board board.now who by op }
{
    match (who, by) {
        (Who::Master(own), By::Master) => is_master(&log.board, board, own, op.master),
        (Who::Lane(own), By::Lane(lane)) => lane == own,
        _ => false,
    }
}

/// Who claims: nobody a MasterAbort, and else the claimant of the line.
fn place_by(claimant: Place, step: Step) -> Place
    ensures { result ≡ place_by claimant step }
{
    match step {
        Step::MasterAbort => Place::Nobody,
        _ => claimant,
    }
}

fn same_place(one: Place, other: Place) -> bool
    ensures { IsTrue result → one ≡ other }
{
    match (one, other) {
        (Place::Target(one), Place::Target(other)) => one == other,
        (Place::Header(one), Place::Header(other)) => one == other,
        (Place::Lane(one), Place::Lane(other)) => one == other,
        (Place::Nobody, Place::Nobody) => true,
        _ => false,
    }
}
