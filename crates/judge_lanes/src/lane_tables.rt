ghost use Rattle.std.specs.Prelude.{◌≡◌, ◌+◌, ◌-◌, ◌^◌, ◌<◌, ◌≤◌, [], ◌∷◌};
ghost use Rattle.std.specs.Prelude.{◌++◌, length, drop, IfNone, IfSome};
ghost use Rattle.std.specs.List.{find, list_any, position};
ghost use Rattle.list_facts.specs.Lists.{less};
ghost use Rattle.history_model.specs.Lanes.{is_of, is_done_for, has_number, asks_in};
ghost use Rattle.history_model.specs.Lanes.{dones_in, lowest_free, lowest_free_from};
ghost use Rattle.history_model.specs.Moves.{oldest};
ghost use Rattle.board_model.specs.Limits.{most_posted, most_delayed, most_in_flight, most_standing};

use arrayvec::ArrayVec;
use board_model::{MOST_DELAYED, MOST_IN_FLIGHT, MOST_STANDING};
use history_model::{By, Carried, Slot};
use machine_steps::{place_of_completion, place_of_request};
use pci_command::OpId;
use std::marker::Model;

/// Places for items in flight and standing, and for held slots: for those that a lane may have, and
/// two more, which one event may bring.
const FLIGHT: usize = MOST_IN_FLIGHT + 2;

const STANDING: usize = MOST_STANDING + 2;

const HELD: usize = MOST_DELAYED as usize + 2;

/// One lane of a bridge, and what the bridge's face where it begins keeps of it. It takes no
/// memory.
#[derive(Debug, Drop)]
pub struct LaneTables {
    asks: u64,
    dones: u64,
    flight: ArrayVec<Carried, FLIGHT>,
    standing: ArrayVec<Carried, STANDING>,
    held: ArrayVec<Slot, HELD>,
    owed: u8,
}

impl Model for LaneTables {
    ghost use Rattle.history_model.specs.Lanes.{LaneState};

    ghost Value = { LaneState };

    ghost view = { λ t. record {
      asks = t.asks;
      dones = t.dones;
      flight = t.flight.items;
      standing = t.standing.items;
      held = t.held.items;
      owed = t.owed;
    } };
}

impl LaneTables {
    ghost use Rattle.history_model.specs.Lanes.{empty_lane, came_off};

    /// A lane with nothing on it.
    pub(crate) fn new() -> LaneTables
        ensures { result ≡ empty_lane }
    {
        LaneTables {
            asks: 0,
            dones: 0,
            flight: ArrayVec::new(),
            standing: ArrayVec::new(),
            held: ArrayVec::new(),
            owed: 0,
        }
    }

    /// How many delayed requests arrived so far.
    pub fn asks(&self) -> u64
        ensures { result ≡ self.now.asks }
    {
        self.asks
    }

    /// How many delayed completions arrived so far.
    pub fn dones(&self) -> u64
        ensures { result ≡ self.now.dones }
    {
        self.dones
    }

    /// What is in flight, oldest first.
    pub fn flight(&self) -> &[Carried]
        ensures { result.now ≡ self.now.flight }
    {
        self.flight.as_slice()
    }

    /// What stands at the far face, oldest first.
    pub fn standing(&self) -> &[Carried]
        ensures { result.now ≡ self.now.standing }
    {
        self.standing.as_slice()
    }

    /// The slots held at the near face, in the order of latching.
    pub fn held(&self) -> &[Slot]
        ensures { result.now ≡ self.now.held }
    {
        self.held.as_slice()
    }

    /// How many posted writes are owed.
    pub fn owed(&self) -> u8
        ensures { result ≡ self.now.owed }
    {
        self.owed
    }

    /// An item is sent.
    pub(crate) fn send(&mut self, item: Carried)
        requires { length self.old.flight < most_in_flight + 2 }
        ensures { self.new ≡ record self.old { flight = self.old.flight ++ item ∷ [] } }
    {
        self.flight.push(item);
    }

    /// A posted write more is owed.
    pub(crate) fn owe(&mut self)
        requires { self.old.owed < most_posted + 2 }
        ensures { self.new ≡ record self.old { owed = self.old.owed + 1 } }
    {
        self.owed += 1;
    }

    /// A credit came: a posted write less is owed.
    pub(crate) fn credit(&mut self)
        ensures { self.new ≡ record self.old { owed = self.old.owed - 1 } }
    {
        self.owed = self.owed.saturating_sub(1);
    }

    /// The lowest free slot is held for the operation and the local master that presented it. The
    /// answer is its number.
    pub(crate) fn hold(&mut self, by: By, op: OpId) -> u8
        requires { length self.old.held < most_delayed + 2 }
        ensures number { result ≡ lowest_free self.old.held }
        ensures held { self.new ≡ record self.old {
          held = self.old.held ++
              record { number = lowest_free self.old.held; by = by; op = op } ∷ [];
        } }
    {
        let number = lowest_free(self.held.as_slice());
        self.held.push(Slot { number, by, op });
        number
    }

    /// The slot of this number is free.
    #[tactic(auto, using(crate::proofs::LeaveLemmas::leaves))]
    pub(crate) fn free(&mut self, number: u8)
        ensures left { self.new ≡ record self.old {
          held = less (has_number number) self.old.held;
        } }
        ensures no_more { length self.new.held ≤ length self.old.held }
    {
        if let Some(place) = place_of_slot(self.held.as_slice(), number) {
            self.held.remove(place);
        }
    }

    /// An item stands, behind the others.
    pub(crate) fn stand(&mut self, item: Carried)
        requires { length self.old.standing < most_standing + 2 }
        ensures { self.new ≡ record self.old { standing = self.old.standing ++ item ∷ [] } }
    {
        self.standing.push(item);
    }

    /// The completion of this slot leaves.
    #[tactic(auto, using(crate::proofs::LeaveLemmas::leaves))]
    pub(crate) fn leave_done(&mut self, number: u8)
        ensures left { self.new ≡ record self.old {
          standing = less (is_done_for number) self.old.standing;
        } }
        ensures no_more { length self.new.standing ≤ length self.old.standing }
    {
        if let Some(place) = place_of_completion(self.standing.as_slice(), number) {
            self.standing.remove(place);
        }
    }

    /// The oldest standing posted write or delayed request of the operation leaves.
    #[tactic(auto, using(crate::proofs::LeaveLemmas::leaves))]
    pub(crate) fn leave(&mut self, op: OpId) -> Option<Carried>
        ensures item { result ≡ find (is_of op) self.old.standing }
        ensures left { self.new ≡ record self.old { standing = less (is_of op) self.old.standing } }
    {
        let place = place_of_request(self.standing.as_slice(), op)?;
        Some(self.standing.remove(place))
    }

    /// The oldest item in flight comes off the lane, and is counted.
    pub(crate) fn come_off(&mut self) -> Option<Carried>
        requires asks { self.old.asks + 1 < 2 ^ 64 }
        requires dones { self.old.dones + 1 < 2 ^ 64 }
        ensures nothing { IfNone result (self.old.flight ≡ []) }
        ensures oldest { IfSome result (λ item. self.old.flight ≡ item ∷ drop 1 self.old.flight) }
        ensures item { result ≡ oldest self.old.flight }
        ensures unchanged { IfNone result (self.new ≡ self.old) }
        ensures came_off { IfSome result (λ item.
            self.new ≡ came_off item (drop 1 self.old.flight) self.old) }
    {
        let item = self.flight.as_slice().first().copied()?;
        self.flight.remove(0);
        self.asks += u64::from(asks_in(item));
        self.dones += u64::from(dones_in(item));
        Some(item)
    }
}

fn asks_in(item: Carried) -> u8
    ensures value { result ≡ asks_in item }
    ensures fits { result ≤ 1 }
{
    match item {
        Carried::Ask { .. } => 1,
        Carried::Post { .. } | Carried::Done { .. } | Carried::Room | Carried::Gone { .. } => 0,
    }
}

fn dones_in(item: Carried) -> u8
    ensures value { result ≡ dones_in item }
    ensures fits { result ≤ 1 }
{
    match item {
        Carried::Done { .. } => 1,
        Carried::Post { .. } | Carried::Ask { .. } | Carried::Room | Carried::Gone { .. } => 0,
    }
}

fn place_of_slot(held: &[Slot], number: u8) -> Option<usize>
    ensures { result ≡ position (has_number number) held.now }
{
    held.iter().position(|slot| slot.number == number)
}

/// The lowest number that no held slot has.
#[tactic(auto, using(crate::proofs::FreeLemmas::one_more, crate::proofs::FreeLemmas::all_held))]
fn lowest_free(held: &[Slot]) -> u8
    requires { length held.now < most_delayed + 2 }
    ensures { result ≡ lowest_free held.now }
{
    let mut number = 0;
    for _ in held {
        if !is_held(held, number) {
            return number;
        }
        number += 1;
    }
    number
}

fn is_held(held: &[Slot], number: u8) -> bool
    ensures { result ≡ list_any (has_number number) held.now }
{
    held.iter().any(|slot| slot.number == number)
}
