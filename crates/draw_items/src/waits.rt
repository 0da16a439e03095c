ghost use Rattle.std.specs.Prelude.{◌≡◌, ◌<◌, ◌^◌, length, IfOk, OnOk};
ghost use Rattle.draw_items.specs.Waits.{waits_of, waited, presented};
ghost use Rattle.draw_items.specs.Kept.{TellsPlaces};

use audit_clocks::OpTable;
use history_model::{By, Event};
use pci_command::{List, NoMemory, OpId};
use std::alloc::Global;

/// An operation that its master presented, and the first and the last event in which it did.
#[derive(Clone, Copy, Debug, PartialEq, Eq)]
pub struct Wait {
    pub op: OpId,
    pub first: u32,
    pub last: u32,
}

/// What masters presented, by the first events.
pub fn waits_of(alloc: Global, events: &[Event]) -> Result<List<Wait>, NoMemory>
    requires { length events.now < 2 ^ 32 }
    ensures { IfOk result (λ waits. waits ≡ waits_of events.now) }
{
    let mut waits = Vec::new(alloc);
    let mut places = OpTable::new(alloc);
    for (before, event) in events.iter().enumerate() {
        let n = (before + 1) as u32;
        happen(&mut waits, &mut places, n, event)?;
    }
    Ok(List::from_vec(waits))
}

/// Event number n happens.
fn happen(
    waits: &mut Vec<Wait>,
    places: &mut OpTable<usize>,
    n: u32,
    event: &Event,
) -> Result<(), NoMemory>
    requires { TellsPlaces waits.old.items places.old }
    ensures waits { OnOk result (waits.new.items ≡ waited n event.now waits.old.items) }
    ensures places { OnOk result (TellsPlaces waits.new.items places.new) }
{
    match *event {
        Event::Act {
            by: By::Master,
            op,
            ..
        } => present(waits, places, n, op),
        Event::Act { .. } | Event::Arrive { .. } => Ok(()),
    }
}

/// The master presents the operation in event number n.
fn present(
    waits: &mut Vec<Wait>,
    places: &mut OpTable<usize>,
    n: u32,
    op: OpId,
) -> Result<(), NoMemory>
    requires { TellsPlaces waits.old.items places.old }
    ensures waits { OnOk result (waits.new.items ≡ presented n op waits.old.items) }
    ensures places { OnOk result (TellsPlaces waits.new.items places.new) }
{
    match places.get(op).copied() {
        Some(place) => {
            if place < waits.len() {
                waits[place].last = n;
            }
            Ok(())
        }
        None => {
            places.put(op, waits.len())?;
            waits.push(Wait {
                op,
                first: n,
                last: n,
            })?;
            Ok(())
        }
    }
}
