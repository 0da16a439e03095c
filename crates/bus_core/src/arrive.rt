ghost use Rattle.std.specs.Prelude.{◌≡◌, ◌+◌, ◌<◌, ◌^◌, ◌&&◌, length};
ghost use Rattle.std.specs.Prelude.{slice_get, true, IfSome, IfNone};
ghost use Rattle.bus_face.specs.Arrivals.{carried, is_taken, HasRequest};
ghost use Rattle.bus_core.specs.Bus.{shape_of, arrivals_at};
ghost use Rattle.bus_core.specs.Places.{ComesAt, TestsAt, ask_request};
ghost use Rattle.bus_core.specs.Serves.{is_there_as, names_its_kind, HasStamp};
ghost use Rattle.bus_core.specs.Serves.{IsTested, OneMoreAt, BusRefuses, BusArrives};

use crate::Bus;
use crate::port::{Arrival, Port};
use board_model::{Board, request_of};
use lane_items::Item;
use pci_command::{Command, Request};

impl Bus {
    /// The item comes at the port of this place, and arrives; what goes back at once has the stamp.
    /// None, and nothing changes, where the bus does not take it: no lawful peer sends it now, or
    /// it is not of the kind of its operation.
    pub fn arrive(&mut self, board: &Board, place: usize, item: Item, stamp: u32) -> Option<Arrival>
        requires place { place < length self.old.ports }
        requires counts { IfSome (slice_get self.old.ports place)
            (λ port. port.face.arrivals + 1 < 2 ^ 64) }
        ensures shape { shape_of self.new ≡ shape_of self.old }
        ensures arrivals { IfSome result (λ _.
            OneMoreAt place (arrivals_at self.old) (arrivals_at self.new)) }
        ensures stamped { IfSome result (λ arrival. HasStamp stamp arrival.back) }
        ensures arrives { IfSome result (λ arrival.
            BusArrives board.now place self.old item arrival.mark arrival.back self.new) }
        ensures refuses { IfNone result (BusRefuses board.now place self.old item) }
        ensures unchanged { IfNone result (self.new ≡ self.old) }
    {
        if !self.takes(board, place, item) {
            return None;
        }
        let request = request_for(board, self.bus, item);
        Some(arrive_at(self.ports.as_mut_slice(), place, item, request, stamp))
    }

    /// Whether the bus takes the item at the port of this place.
    fn takes(&self, board: &Board, place: usize, item: Item) -> bool
        requires { place < length self.now.ports }
        ensures { IsTested board.now place self.now (carried item) result }
    {
        let lawful = lawful_at(self.ports.as_slice(), place, &item);
        let kind = names_its_kind(board, self.bus, item);
        lawful && kind
    }
}

/// Whether the port at the place takes the item.
fn lawful_at(ports: &[Port], place: usize, item: &Item) -> bool
    requires { place < length ports.now }
    ensures { TestsAt place ports.now (carried item.now) result }
{
    ports[place].lawful(item)
}

/// The item arrives at the port of the place, which takes it.
fn arrive_at(
    ports: &mut [Port],
    place: usize,
    item: Item,
    request: Option<Request>,
    stamp: u32,
) -> Arrival
    requires place { place < length ports.old }
    requires taken { IfSome (slice_get ports.old place) (λ port. is_taken port.face (carried item) ≡
        true) }
    requires request { HasRequest (carried item) request }
    requires counts { IfSome (slice_get ports.old place) (λ port. port.face.arrivals + 1 < 2 ^ 64) }
    ensures comes { ComesAt place ports.old (carried item)
        request result.mark result.back ports.new }
    ensures stamped { HasStamp stamp result.back }
{
    let port = &mut ports[place];
    port.arrive(item, request, stamp)
}

/// Whether the operation that the item names is there, and a posted item carries a write in memory,
/// a delayed one any other.
fn names_its_kind(board: &Board, bus: u8, item: Item) -> bool
    ensures { result ≡ names_its_kind board.now bus (carried item) }
{
    match item {
        Item::Post { op, .. } => is_there_as(true, request_of(board, op, bus)),
        Item::Ask { op, .. } | Item::Done { op, .. } => is_there_as(
            false,
            request_of(board, op, bus),
        ),
        Item::Room { .. } | Item::Gone { .. } => true,
    }
}

fn is_there_as(posted: bool, request: Option<Request>) -> bool
    ensures { result ≡ is_there_as posted request }
{
    match request {
        None => false,
        Some(request) => {
            let is_posted = request.command == Command::MemWrite;
            is_posted == posted
        }
    }
}

/// The request of a delayed request, as driven on the bus.
fn request_for(board: &Board, bus: u8, item: Item) -> Option<Request>
    ensures { result ≡ ask_request board.now bus (carried item) }
{
    match item {
        Item::Ask { op, .. } => request_of(board, op, bus),
        Item::Post { .. } | Item::Done { .. } | Item::Room { .. } | Item::Gone { .. } => None,
    }
}
