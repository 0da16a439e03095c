ghost use Rattle.std.specs.Prelude.{◌≡◌, ◌+◌, ◌<◌, ◌≤◌, ◌==◌, ◌↔◌, Some, [], ◌∷◌};
ghost use Rattle.std.specs.Prelude.{◌++◌, length, slice_get, remove, IsTrue};
ghost use Rattle.std.specs.Option.{option_map};
ghost use Rattle.std.specs.List.{Any, list_any};
ghost use Rattle.pci_command.specs.Command.{is_read};

use arrayvec::ArrayVec;
use pci_command::{OpId, Request, same_request};
use std::marker::Model;

/// A delayed request that stands: its operation, the slot that it holds in the other half of the
/// bridge, the request as it is driven on this bus, and the number of its arrival here.
#[derive(Debug, Default, Drop)]
pub struct Ask {
    pub op: OpId,
    pub slot: u8,
    pub request: Request,
    pub arrival: u64,
}

/// The delayed requests that stand, in the order in which they came, at places from 0: at most
/// `depth`, which is from 1 to 8 (PCI Local Bus 2.2, section 3.3.3.3.5, from memory). It takes no
/// memory.
#[derive(Debug, Drop)]
pub struct AskTable {
    limit: u8,
    standing: ArrayVec<Ask, 8>,
}

impl Model for AskTable {
    ghost use Rattle.lane_items.specs.requests.Asks.{Asks, IsAskTable};

    ghost Value = { Asks };

    ghost view = { λ t. record { depth = t.limit; asks = t.standing.items } };

    ghost invariant = { λ t. IsAskTable (record { depth = t.limit; asks = t.standing.items }) };
}

impl AskTable {
    ghost use Rattle.lane_items.specs.requests.Asks.{IsAskTable, HasOlderEqual};

    /// A table without requests that has room for `depth` of them.
    pub fn new(depth: u8) -> AskTable
        requires at_least_one { 1 ≤ depth }
        requires at_most_eight { depth ≤ 8 }
        ensures { result ≡ record { depth = depth; asks = [] } }
    {
        AskTable {
            limit: depth,
            standing: ArrayVec::new(),
        }
    }

    /// For how many more requests there is room.
    pub fn room(&self) -> u8
        ensures value { result + length self.now.asks ≡ self.now.depth }
        ensures is_table { IsAskTable self.now }
    {
        self.limit - self.standing.len() as u8
    }

    /// One more request stands, behind the others.
    pub fn arrive(&mut self, op: OpId, slot: u8, request: Request, arrival: u64)
        requires { length self.old.asks < self.old.depth }
        ensures last { self.new.asks ≡ self.old.asks ++
            record { op = op; slot = slot; request = request; arrival = arrival } ∷ [] }
        ensures depth { self.new.depth ≡ self.old.depth }
    {
        self.standing.push(Ask {
            op,
            slot,
            request,
            arrival,
        });
    }

    /// Whether a request at a lower place, which came earlier, is the same as that at this place.
    pub fn older_equal(&self, place: u8) -> bool
        requires { place < length self.now.asks }
        ensures older { IsTrue result ↔ HasOlderEqual self.now.asks place }
        ensures is_table { IsAskTable self.now }
    {
        let asks = self.standing.as_slice();
        let (older, others) = asks.split_at(place as usize);
        any_same(older, &others[0].request)
    }

    /// Whether a request stands that holds this slot.
    pub fn has_slot(&self, slot: u8) -> bool
        ensures { result ≡ list_any (λ ask. ask.slot == slot) self.now.asks }
    {
        self.standing.as_slice().iter().any(|ask| ask.slot == slot)
    }

    /// How many requests stand.
    pub fn len(&self) -> u8
        ensures value { result ≡ length self.now.asks }
        ensures is_table { IsAskTable self.now }
    {
        self.standing.len() as u8
    }

    /// Operation, slot and arrival of the request at this place.
    pub fn get(&self, place: u8) -> (OpId, u8, u64)
        requires { place < length self.now.asks }
        ensures value { Some result ≡
            option_map (λ ask. (ask.op, ask.slot, ask.arrival)) (slice_get self.now.asks place) }
        ensures is_table { IsAskTable self.now }
    {
        let ask = &self.standing.as_slice()[place as usize];
        (ask.op, ask.slot, ask.arrival)
    }

    /// Whether the request at this place reads.
    pub fn is_read(&self, place: u8) -> bool
        requires { place < length self.now.asks }
        ensures value { Some result ≡
            option_map (λ ask. is_read ask.request.command) (slice_get self.now.asks place) }
        ensures is_table { IsAskTable self.now }
    {
        let asks = self.standing.as_slice();
        asks[place as usize].request.command.is_read()
    }

    /// The request at this place leaves, and the others keep their order.
    pub fn leave(&mut self, place: u8)
        requires { place < length self.old.asks }
        ensures { self.new ≡ record self.old { asks = remove self.old.asks place } }
    {
        self.standing.remove(place as usize);
    }
}

fn any_same(asks: &[Ask], request: &Request) -> bool
    ensures { IsTrue result ↔ Any (λ ask. ask.request ≡ request.now) asks.now }
{
    asks.iter().any(|ask| same_request(&ask.request, request))
}
