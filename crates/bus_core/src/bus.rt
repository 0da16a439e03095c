ghost use Rattle.std.specs.Prelude.{◌≡◌, ◌+◌, ◌<◌, ℕ, length, None};
ghost use Rattle.std.specs.Prelude.{IfSome, IfNone, IsTrue, slice_get};
ghost use Rattle.pci_command.specs.declared.request.Request.{Request as RequestOf};
ghost use Rattle.board_model.specs.declared.board.Board.{Board as BoardTree};
ghost use Rattle.board_model.specs.declared.bridge.Place.TheVariants.{Target, Lane as LaneOf};
ghost use Rattle.history_model.specs.Answers.{header_answer, bridge_to};
ghost use Rattle.board_model.specs.Claims.{claim};
ghost use Rattle.board_model.specs.WellFormed.{is_well_formed};

use crate::Given;
use crate::places::{
    access_at, note_part, offers_at, port_back, respond_at, target_place, want_at,
};
use crate::port::Port;
use crate::steps::{as_answer, nobody, rest_of, sent_over, step_of};
use arrayvec::ArrayVec;
use board_model::{Board, Lane, MOST_OFFERS, Place, request_of};
use board_tree::{Tree, claim_with};
use bus_agents::{MasterState, Through};
use bus_face::Offer;
use bus_targets::TargetState;
use history_model::Answer;
use machine_steps::header_answer;
use pci_command::{OpId, Request};
use std::marker::Model;

/// One bus with all that is on it.
#[derive(Debug, Drop)]
pub struct Bus {
    pub(crate) bus: u8,
    pub(crate) ports: Vec<Port>,
    pub(crate) masters: Vec<MasterState>,
    pub(crate) targets: Vec<TargetState>,
    pub(crate) through: Through,
}

impl Model for Bus {
    ghost use Rattle.bus_core.specs.Bus.{BusView};

    ghost Value = { BusView };

    ghost view = { λ b. record {
      bus = b.bus;
      ports = b.ports.items;
      masters = b.masters.items;
      targets = b.targets.items;
      through = b.through;
    } };
}

impl Bus {
    ghost use Rattle.bus_core.specs.Bus.{shape_of, arrivals_at, StandsAtFirst};
    ghost use Rattle.bus_core.specs.Calls.{IsStamped, IsElsewhere, BusAnswers, TurnsBack};
    ghost use Rattle.bus_core.specs.Calls.{BusStaysAtRetry};
    ghost use Rattle.bus_face.specs.Offers.{offers_of};
    ghost use Rattle.bus_core.specs.Places.{WantsAt};
    ghost use Rattle.bus_core.specs.Serves.{BusOffers};
    ghost use Rattle.bus_core.specs.Parts.{PlaceAnswers, PlaceTurns, RequestAnswers, RequestTurns};
    ghost use Rattle.bus_agents.specs.Through.{count_in};

    /// A bus with these ports, masters and targets on it, before its first event: the bridge to the
    /// bus itself has the first port. It takes no memory.
    pub fn new(
        bus: u8,
        ports: Vec<Port>,
        masters: Vec<MasterState>,
        targets: Vec<TargetState>,
        through: Through,
    ) -> Bus
        ensures kept { result ≡ record {
          bus = bus;
          ports = ports.items;
          masters = masters.items;
          targets = targets.items;
          through = through;
        } }
        ensures first { StandsAtFirst result }
    {
        Bus {
            bus,
            ports,
            masters,
            targets,
            through,
        }
    }

    /// Its number.
    pub fn number(&self) -> u8
        ensures { result ≡ self.now.bus }
    {
        self.bus
    }

    /// How many bridges are on it.
    pub fn ports(&self) -> usize
        ensures { result ≡ length self.now.ports }
    {
        self.ports.len()
    }

    /// How many masters are on it.
    pub fn masters(&self) -> usize
        ensures { result ≡ length self.now.masters }
    {
        self.masters.len()
    }

    /// The items that the lane of the port at this place presents, in the order in which they came.
    pub fn offers(&self, place: usize) -> ArrayVec<Offer, MOST_OFFERS>
        requires { place < length self.now.ports }
        ensures kept { IfSome (slice_get self.now.ports place) (λ port. result.items ≡
            offers_of port.face) }
        ensures offers { BusOffers place self.now result.items }
    {
        offers_at(self.ports.as_slice(), place)
    }

    /// The operation that the master at this place presents, if its program did not end.
    pub fn wants(&self, place: usize) -> Option<OpId>
        requires { place < length self.now.masters }
        ensures { WantsAt place self.now.masters result }
    {
        want_at(self.masters.as_slice(), place)
    }

    /// What the operation is answered that the initiator of this line presents, with what that does
    /// at whoever claims it; a Retry changes nothing. What goes over a bridge has the stamp. None, and
    /// nothing is done, where a lane presents it and its lane back claims it.
    pub fn answer(&mut self, board: &Tree, line: u8, op: OpId, stamp: u32) -> Option<Given>
        requires { IsTrue (is_well_formed board.now) }
        ensures shape { shape_of self.new ≡ shape_of self.old }
        ensures arrivals { arrivals_at self.new ≡ arrivals_at self.old }
        ensures masters { self.new.masters ≡ self.old.masters }
        ensures presenter { slice_get self.new.ports line ≡ slice_get self.old.ports line }
        ensures stamped { IfSome result (λ given. IsStamped stamp given.over) }
        ensures apart { IfSome result (λ given. IsElsewhere line given.over) }
        ensures answers { IfSome result (λ given. BusAnswers board.now self.old line op given.answer given.over self.new) }
        ensures retried { IfSome result (λ given. BusStaysAtRetry self.old given.answer self.new) }
        ensures turns { IfNone result (TurnsBack board.now self.old line op) }
    {
        match request_of(board.board(), op, self.bus) {
            Some(request) => self.answer_request(board, line, op, &request, stamp),
            None => Some(nobody()),
        }
    }

    /// The same of an operation with this request.
    fn answer_request(
        &mut self,
        board: &Tree,
        line: u8,
        op: OpId,
        request: &Request,
        stamp: u32,
    ) -> Option<Given>
        requires { IsTrue (is_well_formed board.now) }
        ensures shape { shape_of self.new ≡ shape_of self.old }
        ensures arrivals { arrivals_at self.new ≡ arrivals_at self.old }
        ensures masters { self.new.masters ≡ self.old.masters }
        ensures presenter { slice_get self.new.ports line ≡ slice_get self.old.ports line }
        ensures stamped { IfSome result (λ given. IsStamped stamp given.over) }
        ensures apart { IfSome result (λ given. IsElsewhere line given.over) }
        ensures answers { IfSome result (λ given. RequestAnswers board.now self.old line op request.now given.answer given.over self.new) }
        ensures retried { IfSome result (λ given. BusStaysAtRetry self.old given.answer self.new) }
        ensures turns { IfNone result (RequestTurns board.now self.old line op request.now) }
    {
        let rest = rest_of(request, self.through.of(op));
        let plain = board.board();
        match claim_on(board, self.bus, &rest) {
            Place::Target(target) => Some(self.target_answer(plain, target, op, &rest)),
            Place::Header(bus) => Some(header_given(plain, bus, &rest)),
            Place::Lane(lane) => self.lane_answer(lane, line, op, request, stamp),
            Place::Nobody => Some(nobody()),
        }
    }

    /// A target claims what is left of the request.
    fn target_answer(&mut self, board: &Board, target: u16, op: OpId, rest: &Request) -> Given
        requires { count_in self.old.through op + length rest.now.phases < 256 }
        ensures shape { shape_of self.new ≡ shape_of self.old }
        ensures arrivals { arrivals_at self.new ≡ arrivals_at self.old }
        ensures masters { self.new.masters ≡ self.old.masters }
        ensures ports { self.new.ports ≡ self.old.ports }
        ensures none { result.over ≡ None }
        ensures answers { (line : ℕ) (request : RequestOf) → PlaceAnswers board.now self.old (Target target) line op request rest.now result.answer result.over self.new }
        ensures retried { BusStaysAtRetry self.old result.answer self.new }
    {
        match target_place(self.targets.as_slice(), target) {
            None => nobody(),
            Some(place) => {
                let access = access_at(self.targets.as_mut_slice(), place, board, rest);
                note_part(&mut self.through, op, access);
                Given {
                    answer: Answer::Gives {
                        step: step_of(access),
                        place: Place::Target(target),
                    },
                    over: None,
                }
            }
        }
    }

    /// The lane claims the request.
    fn lane_answer(
        &mut self,
        lane: Lane,
        line: u8,
        op: OpId,
        request: &Request,
        stamp: u32,
    ) -> Option<Given>
        ensures shape { shape_of self.new ≡ shape_of self.old }
        ensures arrivals { arrivals_at self.new ≡ arrivals_at self.old }
        ensures masters { self.new.masters ≡ self.old.masters }
        ensures presenter { slice_get self.new.ports line ≡ slice_get self.old.ports line }
        ensures stamped { IfSome result (λ given. IsStamped stamp given.over) }
        ensures apart { IfSome result (λ given. IsElsewhere line given.over) }
        ensures answers { (board : BoardTree) (rest : RequestOf) → IfSome result (λ given. PlaceAnswers board self.old (LaneOf lane) line op request.now rest given.answer given.over self.new) }
        ensures retried { IfSome result (λ given. BusStaysAtRetry self.old given.answer self.new) }
        ensures turns { (board : BoardTree) (rest : RequestOf) → IfNone result (PlaceTurns board self.old (LaneOf lane) line op request.now rest) }
    {
        match port_back(self.ports.as_slice(), lane) {
            None => Some(nobody()),
            Some(place) if place == line as usize => None,
            Some(place) => {
                let reply = respond_at(self.ports.as_mut_slice(), place, line, op, request);
                Some(Given {
                    answer: as_answer(lane, reply),
                    over: sent_over(place, op, reply, stamp),
                })
            }
        }
    }
}

/// Who claims the request on the bus.
fn claim_on(board: &Tree, bus: u8, request: &Request) -> Place
    ensures { result ≡ claim board.now bus request.now }
{
    let plain = board.board();
    let space = request.command.space();
    claim_with(
        plain,
        Some(board.sites()),
        bus,
        space,
        u128::from(request.address),
    )
}

/// The header of a bridge is read.
fn header_given(board: &Board, bus: u8, rest: &Request) -> Given
    ensures answer { result.answer ≡ header_answer bus rest.now (bridge_to board.now bus) }
    ensures none { result.over ≡ None }
{
    Given {
        answer: header_answer(board, bus, u128::from(rest.address)),
        over: None,
    }
}
