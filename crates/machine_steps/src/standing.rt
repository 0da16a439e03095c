ghost use Rattle.std.specs.Prelude.{◌≡◌, ◌≤◌, length, take};
ghost use Rattle.std.specs.Option.{option_copied};
ghost use Rattle.std.specs.List.{find, position};
ghost use Rattle.list_facts.specs.Lists.{before};
ghost use Rattle.history_model.specs.Lanes.{is_of, is_done_for};

use history_model::Carried;
use pci_command::{OpId, same_op};

/// The oldest posted write or delayed request of the operation among what stands on a lane.
pub fn standing_request(standing: &[Carried], op: OpId) -> Option<Carried>
    ensures { result ≡ find (is_of op) standing.now }
{
    oldest_request(standing, op).copied()
}

fn oldest_request(standing: &[Carried], op: OpId) -> Option<&Carried>
    ensures { option_copied result ≡ find (is_of op) standing.now }
{
    standing.iter().find(|item| is_of(**item, op))
}

/// What stands before it; all where there is none.
#[tactic(auto, using(crate::proofs::LeaveLemmas::front_there, crate::proofs::LeaveLemmas::front_none))]
pub fn before_request(standing: &[Carried], op: OpId) -> &[Carried]
    ensures { result.now ≡ before (is_of op) standing.now }
{
    match place_of_request(standing, op) {
        Some(place) => front(standing, place),
        None => standing,
    }
}

/// The completion for the slot among what stands on a lane.
pub fn standing_completion(standing: &[Carried], slot: u8) -> Option<Carried>
    ensures { result ≡ find (is_done_for slot) standing.now }
{
    oldest_completion(standing, slot).copied()
}

fn oldest_completion(standing: &[Carried], slot: u8) -> Option<&Carried>
    ensures { option_copied result ≡ find (is_done_for slot) standing.now }
{
    standing.iter().find(|item| is_done_for(**item, slot))
}

/// What stands before it; all where there is none.
#[tactic(auto, using(crate::proofs::LeaveLemmas::front_there, crate::proofs::LeaveLemmas::front_none))]
pub fn before_completion(standing: &[Carried], slot: u8) -> &[Carried]
    ensures { result.now ≡ before (is_done_for slot) standing.now }
{
    match place_of_completion(standing, slot) {
        Some(place) => front(standing, place),
        None => standing,
    }
}

/// The first so many.
fn front(standing: &[Carried], place: usize) -> &[Carried]
    requires { place ≤ length standing.now }
    ensures { result.now ≡ take place standing.now }
{
    let (front, _) = standing.split_at(place);
    front
}

/// The place of the completion for the slot among what stands on a lane.
pub fn place_of_completion(standing: &[Carried], number: u8) -> Option<usize>
    ensures { result ≡ position (is_done_for number) standing.now }
{
    standing.iter().position(|item| is_done_for(*item, number))
}

/// The place of the oldest posted write or delayed request of the operation among what stands on a
/// lane.
pub fn place_of_request(standing: &[Carried], op: OpId) -> Option<usize>
    ensures { result ≡ position (is_of op) standing.now }
{
    standing.iter().position(|item| is_of(*item, op))
}

/// Whether it is the completion for the slot.
pub fn is_done_for(item: Carried, number: u8) -> bool
    ensures { result ≡ is_done_for number item }
{
    match item {
        Carried::Done { slot, .. } => slot == number,
        Carried::Post { .. } | Carried::Ask { .. } | Carried::Room | Carried::Gone { .. } => false,
    }
}

/// Whether it is a posted write or a delayed request of the operation.
pub fn is_of(item: Carried, of: OpId) -> bool
    ensures { result ≡ is_of of item }
{
    match item {
        Carried::Post { op } | Carried::Ask { op, .. } => same_op(of, op),
        Carried::Done { .. } | Carried::Room | Carried::Gone { .. } => false,
    }
}
