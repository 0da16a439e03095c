ghost use Rattle.std.specs.Prelude.{◌≡◌, ◌==◌, [], ◌∷◌, true, not, slice_get, OnOk};
ghost use Rattle.std.specs.List.{filter, find, position_from};
ghost use Rattle.std.proofs.Math.ListN.{set};
ghost use Rattle.list_facts.specs.Lists.{changed_at};
ghost use Rattle.history_model.specs.Moves.{is_like};
ghost use Rattle.draw_items.specs.Journeys.{flies, is_there};
ghost use Rattle.draw_journeys.specs.Steps.{sends, leaving, leaves, coming, comes, begins};
ghost use Rattle.draw_journeys.specs.Steps.{move_on, moves_on};
ghost use Rattle.draw_journeys.specs.Kept.{is_under_way, IsListed, IsThere, passes};

use crate::tracks::free_track;
use board_model::Lane;
use draw_items::{Journey, can_stand};
use history_model::{Carried, Move};
use machine_moves::is_like;
use pci_command::{NoMemory, OpId};
use std::alloc::Global;

/// The journeys of a run as it goes on.
#[derive(Drop)]
pub(crate) struct Travel {
    /// All, in the order of sending.
    pub(crate) journeys: Vec<Journey>,
    /// The places of those in flight and of those that stand, in that order.
    pub(crate) under_way: Vec<usize>,
}

impl Travel {
    /// Nothing was sent.
    pub(crate) fn new(alloc: Global) -> Travel
        ensures none { result.journeys.items ≡ [] }
        ensures listed { IsListed result.journeys.items result.under_way.items }
    {
        Travel {
            journeys: Vec::new(alloc),
            under_way: Vec::new(alloc),
        }
    }

    /// The moves of event number n happen, one after another.
    pub(crate) fn follow(&mut self, alloc: Global, n: u32, moves: &[Move]) -> Result<(), NoMemory>
        requires { IsListed self.old.journeys.items self.old.under_way.items }
        ensures now { OnOk result
            (self.new.journeys.items ≡ moves_on n moves.now self.old.journeys.items) }
        ensures listed { OnOk result (IsListed self.new.journeys.items self.new.under_way.items) }
    {
        for one in moves {
            self.go(alloc, n, *one)?;
        }
        Ok(())
    }

    /// A move of event number n: a journey begins, comes, or leaves.
    fn go(&mut self, alloc: Global, n: u32, one: Move) -> Result<(), NoMemory>
        requires { IsListed self.old.journeys.items self.old.under_way.items }
        ensures now { OnOk result
            (self.new.journeys.items ≡ move_on n one self.old.journeys.items) }
        ensures listed { OnOk result (IsListed self.new.journeys.items self.new.under_way.items) }
    {
        match one {
            Move::Sent { lane, op, item } => self.send(n, lane, op, item),
            Move::Came { lane, .. } => self.come(alloc, n, lane, false),
            Move::Lost { lane, .. } => self.come(alloc, n, lane, true),
            Move::Left { lane, item } => {
                self.leave(n, lane, item);
                Ok(())
            }
            Move::Held { .. } | Move::Freed { .. } | Move::Owed { .. } | Move::Paid { .. } => {
                Ok(())
            }
        }
    }

    /// The oldest in flight on the lane comes by event number n, with the least track that is free
    /// where it stands, and stands or is lost.
    fn come(&mut self, alloc: Global, n: u32, lane: Lane, lost: bool) -> Result<(), NoMemory>
        requires { IsListed self.old.journeys.items self.old.under_way.items }
        ensures now { OnOk result
            (self.new.journeys.items ≡ comes n lane lost self.old.journeys.items) }
        ensures listed { OnOk result (IsListed self.new.journeys.items self.new.under_way.items) }
    {
        let place = self.first_flying(lane);
        let track = free_track(
            alloc,
            self.journeys.as_slice(),
            self.under_way.as_slice(),
            lane,
        )?;
        self.come_at(n, lost, track, place);
        Ok(())
    }

    /// What is at the place comes so.
    fn come_at(&mut self, n: u32, lost: bool, track: usize, place: Option<usize>)
        requires listed { IsListed self.old.journeys.items self.old.under_way.items }
        requires there { IsThere self.old.journeys.items place }
        ensures now { self.new.journeys.items
            ≡ changed_at (coming n lost track) self.old.journeys.items place }
        ensures listed { IsListed self.new.journeys.items self.new.under_way.items }
    {
        if let Some(place) = place
            && let Some(journey) = self.journeys.as_slice().get(place).copied()
        {
            let came = Journey {
                came: n,
                left: 0,
                marked: lost && can_stand(journey.carried),
                track,
                ..journey
            };
            self.change(place, came);
        }
    }

    /// The oldest that stands where the lane ends and is like the item leaves by event number n.
    fn leave(&mut self, n: u32, lane: Lane, item: Carried)
        requires { IsListed self.old.journeys.items self.old.under_way.items }
        ensures now { self.new.journeys.items
            ≡ leaves n lane (is_like item) self.old.journeys.items }
        ensures listed { IsListed self.new.journeys.items self.new.under_way.items }
    {
        let place = self.first_like(lane, item);
        self.leave_at(n, place);
    }

    /// What is at the place leaves by event number n.
    fn leave_at(&mut self, n: u32, place: Option<usize>)
        requires listed { IsListed self.old.journeys.items self.old.under_way.items }
        requires there { IsThere self.old.journeys.items place }
        ensures now { self.new.journeys.items
            ≡ changed_at (leaving n) self.old.journeys.items place }
        ensures listed { IsListed self.new.journeys.items self.new.under_way.items }
    {
        if let Some(place) = place
            && let Some(journey) = self.journeys.as_slice().get(place).copied()
        {
            self.change(place, Journey { left: n, ..journey });
        }
    }

    /// The journey at the place is so now; one that is not under way any more is not listed.
    fn change(&mut self, place: usize, journey: Journey)
        requires listed { IsListed self.old.journeys.items self.old.under_way.items }
        requires there { passes is_under_way (slice_get self.old.journeys.items place) ≡ true }
        ensures now { self.new.journeys.items ≡ set self.old.journeys.items place journey }
        ensures listed { IsListed self.new.journeys.items self.new.under_way.items }
    {
        put_journey(&mut self.journeys, place, journey);
        if !is_under_way(journey) {
            drop_place(&mut self.under_way, place);
        }
    }

    /// Event number n sends the item.
    fn send(&mut self, n: u32, lane: Lane, op: OpId, item: Carried) -> Result<(), NoMemory>
        requires { IsListed self.old.journeys.items self.old.under_way.items }
        ensures now { OnOk result
            (self.new.journeys.items ≡ sends n lane op (item ∷ []) self.old.journeys.items) }
        ensures listed { OnOk result (IsListed self.new.journeys.items self.new.under_way.items) }
    {
        let place = self.journeys.len();
        self.under_way.push(place)?;
        self.journeys.push(begins(n, lane, op, item))?;
        Ok(())
    }

    /// The place of the oldest in flight on the lane.
    fn first_flying(&self, lane: Lane) -> Option<usize>
        requires { IsListed self.now.journeys.items self.now.under_way.items }
        ensures first { result ≡ position_from (flies lane) 0 self.now.journeys.items }
        ensures there { IsThere self.now.journeys.items result }
    {
        flying_at(self.journeys.as_slice(), self.under_way.as_slice(), lane)
    }

    /// The place of the oldest that stands where the lane ends and is like the item.
    fn first_like(&self, lane: Lane, item: Carried) -> Option<usize>
        requires { IsListed self.now.journeys.items self.now.under_way.items }
        ensures first { result ≡
            position_from (is_there lane (is_like item)) 0 self.now.journeys.items }
        ensures there { IsThere self.now.journeys.items result }
    {
        like_at(
            self.journeys.as_slice(),
            self.under_way.as_slice(),
            lane,
            item,
        )
    }
}

fn flying_at(journeys: &[Journey], places: &[usize], lane: Lane) -> Option<usize>
    ensures { result ≡
        find (λ place. passes (flies lane) (slice_get journeys.now place)) places.now }
{
    places
        .iter()
        .copied()
        .find(|place| is_flying(journeys, *place, lane))
}

fn is_flying(journeys: &[Journey], place: usize, lane: Lane) -> bool
    ensures { result ≡ passes (flies lane) (slice_get journeys.now place) }
{
    match journeys.get(place) {
        Some(journey) => journey.flies(lane),
        None => false,
    }
}

fn like_at(journeys: &[Journey], places: &[usize], lane: Lane, item: Carried) -> Option<usize>
    ensures { result ≡ find
        (λ place. passes (is_there lane (is_like item)) (slice_get journeys.now place)) places.now }
{
    places
        .iter()
        .copied()
        .find(|place| is_like_at(journeys, *place, lane, item))
}

fn is_like_at(journeys: &[Journey], place: usize, lane: Lane, item: Carried) -> bool
    ensures { result ≡ passes (is_there lane (is_like item)) (slice_get journeys.now place) }
{
    match journeys.get(place) {
        Some(journey) => journey.stands(lane) && is_like(item, journey.carried),
        None => false,
    }
}

/// Event number n sends the item.
fn begins(n: u32, lane: Lane, op: OpId, carried: Carried) -> Journey
    ensures { result ≡ begins n lane op carried }
{
    Journey {
        carried,
        op,
        lane,
        sent: n,
        came: 0,
        left: 0,
        marked: false,
        track: 0,
    }
}

/// Whether it is in flight, or stands.
fn is_under_way(journey: Journey) -> bool
    ensures { result ≡ is_under_way journey }
{
    journey.came == 0 || (!journey.marked && (can_stand(journey.carried) && journey.left == 0))
}

fn put_journey(journeys: &mut Vec<Journey>, place: usize, journey: Journey)
    ensures { journeys.new.items ≡ set journeys.old.items place journey }
{
    if place < journeys.len() {
        journeys[place] = journey;
    }
}

fn drop_place(places: &mut Vec<usize>, place: usize)
    ensures { places.new.items ≡ filter (λ other. not (other == place)) places.old.items }
{
    places.retain(|other| *other != place);
}
