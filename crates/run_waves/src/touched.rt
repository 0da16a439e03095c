ghost use Rattle.std.specs.Prelude.{◌≡◌};
ghost use Rattle.run_waves.specs.Touched.{
  presents_over,
  claims_over,
  moves_lanes,
  presents_as,
  moves_master,
  claims_at,
  moves_target,
  may_change,
  touch_of,
};

use crate::homes::{mover_bus, taker_bus};
use crate::scene::Scene;
use crate::signal::Signal;
use board_model::{Board, Place};
use history_model::{By, Event};
use pci_command::OpId;

/// What happens in a moment, on which bus something happened in the moment before, and to which
/// buses belong who moves and who claims.
#[derive(Clone, Copy)]
pub(crate) struct Touch {
    pub(crate) from: Option<u8>,
    pub(crate) to: Option<u8>,
    pub(crate) event: Option<Event>,
    pub(crate) mover: Option<u8>,
    pub(crate) taker: Option<u8>,
}

impl Touch {
    /// Of two scenes.
    pub(crate) fn of(board: &Board, from: Option<Scene>, to: Option<Scene>) -> Touch
        ensures { result ≡ touch_of board.now from to }
    {
        Touch {
            from: from.map(|scene| scene.bus(board)),
            to: to.map(|scene| scene.bus(board)),
            event: to.map(|scene| scene.event),
            mover: to.map(|scene| mover_bus(board, &scene.event)),
            taker: to.and_then(|scene| taker_bus(board, &scene.event)),
        }
    }

    /// Whether a signal may show something else than before.
    pub(crate) fn may_change(&self, signal: Signal) -> bool
        ensures { result ≡ may_change self.now signal }
    {
        match signal {
            Signal::Bus { bus, .. } => {
                self.from.is_some_and(|from| from == bus) || self.to.is_some_and(|to| to == bus)
            }
            Signal::Lane { lane, .. } => {
                self.event
                    .is_some_and(|event| moves_lanes(lane.bus, &event))
            }
            Signal::Index { master } | Signal::Try { master } | Signal::Waits { master } => {
                self.event.is_some_and(|event| moves_master(master, &event))
            }
            Signal::Stall { target } => {
                self.event.is_some_and(|event| moves_target(target, &event))
            }
        }
    }
}

fn moves_lanes(bus: u8, event: &Event) -> bool
    ensures { result ≡ moves_lanes bus event.now }
{
    match event {
        Event::Act { by, place, .. } => presents_over(*by, bus) || claims_over(*place, bus),
        Event::Arrive { lane, .. } => lane.bus == bus,
    }
}

fn presents_over(by: By, bus: u8) -> bool
    ensures { result ≡ presents_over by bus }
{
    match by {
        By::Master => false,
        By::Lane(lane) => lane.bus == bus,
    }
}

fn claims_over(place: Place, bus: u8) -> bool
    ensures { result ≡ claims_over place bus }
{
    match place {
        Place::Lane(lane) => lane.bus == bus,
        Place::Target(_) | Place::Header(_) | Place::Nobody => false,
    }
}

fn moves_master(master: u16, event: &Event) -> bool
    ensures { result ≡ moves_master master event.now }
{
    match event {
        Event::Act { by, op, .. } => presents_as(*by, *op, master),
        Event::Arrive { .. } => false,
    }
}

fn presents_as(by: By, op: OpId, master: u16) -> bool
    ensures { result ≡ presents_as by op master }
{
    match by {
        By::Master => op.master == master,
        By::Lane(_) => false,
    }
}

fn moves_target(target: u16, event: &Event) -> bool
    ensures { result ≡ moves_target target event.now }
{
    match event {
        Event::Act { place, .. } => claims_at(*place, target),
        Event::Arrive { .. } => false,
    }
}

fn claims_at(place: Place, target: u16) -> bool
    ensures { result ≡ claims_at place target }
{
    match place {
        Place::Target(place) => place == target,
        Place::Header(_) | Place::Lane(_) | Place::Nobody => false,
    }
}
