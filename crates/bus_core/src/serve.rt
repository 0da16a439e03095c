ghost use Rattle.std.specs.Prelude.{◌≡◌, ◌+◌, ◌<◌, length, slice_get, Some, IfSome, IsTrue};
ghost use Rattle.std.specs.List.{Contains};
ghost use Rattle.board_model.specs.WellFormed.{is_well_formed};
ghost use Rattle.history_model.specs.declared.event.By.TheVariants.{Master, Lane as ByLane};
ghost use Rattle.bus_face.specs.Offers.{offers_of};
ghost use Rattle.bus_agents.specs.Turns.{MasterView};
ghost use Rattle.bus_core.specs.Bus.{shape_of, arrivals_at};
ghost use Rattle.bus_core.specs.port.Port.{PortView};
ghost use Rattle.bus_core.specs.Calls.{IsStamped};
ghost use Rattle.bus_core.specs.declared.given.Served.TheVariants.{Retried};
ghost use Rattle.bus_core.specs.Parts.{TellsLane};
ghost use Rattle.bus_core.specs.Serves.{Serves, SendsStamped, SendsApart, IsAt, ServesMaster};
ghost use Rattle.board_model.specs.Limits.{most_ports};

use crate::places::{end_at, tell_master, want_at};
use crate::{Acted, Bus, Sent, Served};
use board_model::{Board, Lane, MOST_PORTS};
use board_tree::Tree;
use bus_face::Offer;
use history_model::{Answer, By, Event, Step};
use machine_steps::lane_outcome;
use pci_command::OpId;

/// The line of the first master; those below are of ports.
const FIRST_MASTER: u8 = MOST_PORTS as u8;

impl Bus {
    /// The master at this place presents its turn, if its program did not end. A Retry changes
    /// nothing.
    pub fn serve_master(&mut self, board: &Tree, place: u8, stamp: u32) -> Served
        requires formed { IsTrue (is_well_formed board.now) }
        requires place { place < length self.old.masters }
        requires few { most_ports + place < 256 }
        ensures shape { shape_of self.new ≡ shape_of self.old }
        ensures arrivals { arrivals_at self.new ≡ arrivals_at self.old }
        ensures stamped { SendsStamped stamp result }
        ensures apart { SendsApart result }
        ensures serves { ServesMaster board.now place self.old result self.new }
        ensures retried { result ≡ Retried → self.new ≡ self.old }
    {
        match want_at(self.masters.as_slice(), place as usize) {
            None => Served::Nothing,
            Some(op) => self.serve_turn(board, place, op, stamp),
        }
    }

    /// The operation is the turn of the master at this place.
    fn serve_turn(&mut self, board: &Tree, place: u8, op: OpId, stamp: u32) -> Served
        requires formed { IsTrue (is_well_formed board.now) }
        requires place { place < length self.old.masters }
        requires few { most_ports + place < 256 }
        ensures shape { shape_of self.new ≡ shape_of self.old }
        ensures arrivals { arrivals_at self.new ≡ arrivals_at self.old }
        ensures stamped { SendsStamped stamp result }
        ensures apart { SendsApart result }
        ensures serves { (master : MasterView) → slice_get self.old.masters place ≡ Some master → master.turn ≡ Some op → Serves board.now Master op self.old result self.new }
        ensures retried { result ≡ Retried → self.new ≡ self.old }
    {
        let plain = board.board();
        match self.answer(board, FIRST_MASTER + place, op, stamp) {
            None => Served::TurnsBack,
            Some(given) => match given.answer {
                Answer::Retry { .. } => Served::Retried,
                Answer::Gives { step, place: at } => {
                    tell_master(self.masters.as_mut_slice(), place as usize, plain, step);
                    let event = Event::Act {
                        bus: self.bus,
                        by: By::Master,
                        op,
                        step,
                        place: at,
                    };
                    Served::Did(Acted {
                        event,
                        over: given.over,
                        back: None,
                    })
                }
            },
        }
    }

    /// The lane of the port at this place presents what it offers. Its line is its place. A Retry
    /// changes nothing.
    pub fn serve_offer(&mut self, board: &Tree, place: u8, offer: &Offer, stamp: u32) -> Served
        requires formed { IsTrue (is_well_formed board.now) }
        requires place { place < length self.old.ports }
        requires offered { IfSome (slice_get self.old.ports place)
            (λ port. Contains (offers_of port.face) offer.now) }
        ensures shape { shape_of self.new ≡ shape_of self.old }
        ensures arrivals { arrivals_at self.new ≡ arrivals_at self.old }
        ensures stamped { SendsStamped stamp result }
        ensures apart { SendsApart result }
        ensures serves { (port : PortView) → slice_get self.old.ports place ≡ Some port → Serves board.now (ByLane port.lane) offer.now.op self.old result self.new }
        ensures retried { result ≡ Retried → self.new ≡ self.old }
    {
        let plain = board.board();
        match self.answer(board, place, offer.op, stamp) {
            None => Served::TurnsBack,
            Some(given) => match given.answer {
                Answer::Retry { .. } => Served::Retried,
                Answer::Gives { step, place: at } => {
                    let lane = self.lane_of(place as usize);
                    let back = self.tell_lane(plain, place as usize, offer, step, stamp);
                    let event = Event::Act {
                        bus: self.bus,
                        by: By::Lane(lane),
                        op: offer.op,
                        step,
                        place: at,
                    };
                    Served::Did(Acted {
                        event,
                        over: given.over,
                        back,
                    })
                }
            },
        }
    }

    /// The lane of the port at this place.
    pub fn lane_of(&self, place: usize) -> Lane
        requires { place < length self.now.ports }
        ensures { IfSome (slice_get self.now.ports place) (λ port. result ≡ port.lane) }
    {
        self.ports[place].lane()
    }

    /// What the port at this place offered was answered with this step: it leaves where that ends
    /// it, and its answer goes back.
    fn tell_lane(
        &mut self,
        board: &Board,
        place: usize,
        offer: &Offer,
        step: Step,
        stamp: u32,
    ) -> Option<Sent>
        requires place { place < length self.old.ports }
        requires offered { IfSome (slice_get self.old.ports place)
            (λ port. Contains (offers_of port.face) offer.now) }
        ensures shape { shape_of self.new ≡ shape_of self.old }
        ensures arrivals { arrivals_at self.new ≡ arrivals_at self.old }
        ensures stamped { IsStamped stamp result }
        ensures placed { IsAt place result }
        ensures tells { TellsLane board.now place offer.now step self.old result self.new }
    {
        let lane = self.lane_of(place);
        match lane_outcome(board, lane, offer.op, step) {
            None => None,
            Some(outcome) => {
                let item = end_at(self.ports.as_mut_slice(), place, offer, outcome, stamp);
                Some(Sent { place, item })
            }
        }
    }
}
