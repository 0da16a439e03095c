ghost use Rattle.std.specs.Prelude.{◌≡◌, ◌+◌, ◌<◌, ◌≤◌, ◌==◌, ◌↔◌, None, Some, [], ◌∷◌};
ghost use Rattle.std.specs.Prelude.{◌++◌, length, position, IsNone, IsSome, IfSome};
ghost use Rattle.std.specs.Option.{option_map};

use arrayvec::ArrayVec;
use pci_command::{OpId, Request, same_request};
use std::marker::Model;

/// A held slot: its number, the tag of the initiator whose request was latched, the operation, and
/// the request as it was driven on this bus.
#[derive(Debug, Default, Drop)]
pub struct SlotEntry {
    pub number: u8,
    pub tag: u8,
    pub op: OpId,
    pub request: Request,
}

/// The held slots, in the order in which their requests were latched: at most `depth`, which is
/// from 1 to 8, with numbers below it (PCI Local Bus 2.2, section 3.3.3.3.5, from memory). It takes
/// no memory.
#[derive(Debug, Drop)]
pub struct SlotTable {
    limit: u8,
    held: ArrayVec<SlotEntry, 8>,
}

impl Model for SlotTable {
    ghost use Rattle.lane_items.specs.requests.Slots.{Slots, IsSlotTable};

    ghost Value = { Slots };

    ghost view = { λ t. record { depth = t.limit; slots = t.held.items } };

    ghost invariant = { λ t. IsSlotTable (record { depth = t.limit; slots = t.held.items }) };
}

impl SlotTable {
    ghost use Rattle.lane_items.specs.requests.Slots.{IsSlotTable, IsHeld, IsLowestFree, IsOwnNumber};
    ghost use Rattle.lane_items.specs.requests.Slots.{HasNoOwn, KeepsOthers, slot_at, without};

    /// A table with no slot held, of which `depth` can be held.
    pub fn new(depth: u8) -> SlotTable
        requires at_least_one { 1 ≤ depth }
        requires at_most_eight { depth ≤ 8 }
        ensures { result ≡ record { depth = depth; slots = [] } }
    {
        SlotTable {
            limit: depth,
            held: ArrayVec::new(),
        }
    }

    /// How many more slots can be held.
    pub fn room(&self) -> u8
        ensures value { result + length self.now.slots ≡ self.now.depth }
        ensures is_table { IsSlotTable self.now }
    {
        self.limit - self.held.len() as u8
    }

    /// The number of the held slot with this tag and request, of more such slots the first that
    /// was latched. There is none exactly where no held slot has them.
    pub fn find(&self, tag: u8, request: &Request) -> Option<u8>
        ensures own { IfSome result (λ number. IsOwnNumber tag request.now self.now.slots number) }
        ensures held { IfSome result (λ number. IsHeld number self.now.slots) }
        ensures none { IsNone result ↔ HasNoOwn tag request.now self.now.slots }
        ensures is_table { IsSlotTable self.now }
    {
        for slot in self.held.as_slice() {
            if slot.tag == tag && same_request(&slot.request, request) {
                return Some(slot.number);
            }
        }
        None
    }

    /// The operation for which the slot of this number is held; none exactly where it is free.
    pub fn operation(&self, slot: u8) -> Option<OpId>
        ensures value { result ≡ option_map (λ held. held.op) (slot_at slot self.now.slots) }
        ensures held { IsSome result ↔ IsHeld slot self.now.slots }
        ensures is_table { IsSlotTable self.now }
    {
        for held in self.held.as_slice() {
            if held.number == slot {
                return Some(held.op);
            }
        }
        None
    }

    /// The lowest free slot is held, with this tag, operation and request; its number is told.
    pub fn hold(&mut self, tag: u8, op: OpId, request: Request) -> u8
        requires { length self.old.slots < self.old.depth }
        ensures lowest { IsLowestFree result self.old.slots }
        ensures below_depth { result < self.old.depth }
        ensures last { self.new.slots ≡ self.old.slots ++
            record { number = result; tag = tag; op = op; request = request } ∷ [] }
        ensures depth { self.new.depth ≡ self.old.depth }
        ensures held { slot_at result self.new.slots ≡
            Some (record { number = result; tag = tag; op = op; request = request }) }
        ensures others { KeepsOthers result self.old.slots self.new.slots }
    {
        let number = self.lowest_free();
        self.held.push(SlotEntry {
            number,
            tag,
            op,
            request,
        });
        number
    }

    /// The slot of this number, which is held, is free again. The others keep their order.
    pub fn free(&mut self, slot: u8)
        requires { IsHeld slot self.old.slots }
        ensures rest { self.new ≡ record self.old { slots = without slot self.old.slots } }
        ensures free { slot_at slot self.new.slots ≡ None }
        ensures others { KeepsOthers slot self.old.slots self.new.slots }
    {
        if let Some(place) = self.place(slot) {
            self.held.remove(place);
        }
    }

    // the least number of which no slot is held
    fn lowest_free(&self) -> u8
        requires { length self.now.slots < self.now.depth }
        ensures lowest { IsLowestFree result self.now.slots }
        ensures below_depth { result < self.now.depth }
        ensures is_table { IsSlotTable self.now }
    {
        let mut number = 0;
        while self.operation(number).is_some() {
            number += 1;
        }
        number
    }

    // where the slot of this number stands in the order
    fn place(&self, number: u8) -> Option<usize>
        ensures place { result ≡ position (λ slot. slot.number == number) self.now.slots }
        ensures is_table { IsSlotTable self.now }
    {
        self.held
            .as_slice()
            .iter()
            .position(|slot| slot.number == number)
    }
}
