ghost use Rattle.std.specs.Prelude.{◌≡◌, ◌+◌, ◌*◌, ◌^◌, ◌<◌, ◌≤◌, ℕ, ◌==◌, if◌then◌else◌, List, []};
ghost use Rattle.std.specs.Prelude.{◌∷◌, length, take, drop, IsTrue, Some, None, false};
ghost use Rattle.pci_command.specs.declared.phases.Phase.{Phase};
ghost use Rattle.pci_command.specs.declared.op_id.OpId.{OpId};
ghost use Rattle.pci_command.specs.Same.{same_op, same_space};
ghost use Rattle.pci_command.specs.Command.{space_of};
ghost use Rattle.board_model.specs.declared.bridge.Place.TheVariants.{Target as AtTarget};
ghost use Rattle.board_model.specs.Ways.{Dword, address_in};
ghost use Rattle.board_model.specs.device.Registers.{merge_of};
ghost use Rattle.history_model.specs.Words.{through, parted_by, phases_parted, without, brings};
ghost use Rattle.history_model.specs.Words.{landings_at, landings_in, landings_of, landings_by};
ghost use Rattle.history_model.specs.Words.{brought, merged, mask_in, opens_as, value_of};
ghost use Rattle.machine_steps.specs.Values.{value_merged};
ghost use Rattle.history_model.specs.Answers.{stalls_used, stalls_by, stalls_in};
ghost use Rattle.history_model.specs.Runs.{history_of};

use board_model::{Board, Place, Word, merge, request_of};
use history_model::{Event, Step};
use machine_steps::{brought_by, dword_address, left_of, mask_of, opens_as};
use pci_command::{OpId, Phase, Request, Space, same_op};

/// How many data phases of the write went through in these events, the first event first.
pub fn through(before: &[Event], op: OpId) -> u128
    ensures value { result ≡ through (history_of before.now) op }
    ensures fits { result ≤ 255 * length before.now }
{
    let mut phases = 0;
    for event in before {
        phases += u128::from(parted_by(event, op));
    }
    phases
}

fn parted_by(event: &Event, of: OpId) -> u8
    ensures { result ≡ parted_by of event.now }
{
    match *event {
        Event::Act {
            op,
            step: Step::Part(phases),
            ..
        } if same_op(op, of) => phases,
        Event::Act { .. } | Event::Arrive { .. } => 0,
    }
}

/// How many stall tokens of the target were used in these events, the first event first.
pub fn stalls_used(before: &[Event], target: u16) -> u64
    ensures value { result ≡ stalls_used (history_of before.now) target }
    ensures fits { result ≤ length before.now }
{
    let mut used = 0;
    for event in before {
        used += u64::from(stalls_by(event, target));
    }
    used
}

fn stalls_by(event: &Event, target: u16) -> u8
    ensures value { result ≡ stalls_by target event.now }
    ensures fits { result ≤ 1 }
{
    match *event {
        Event::Act {
            step: Step::Stall,
            place: Place::Target(place),
            ..
        } if place == target => 1,
        Event::Act { .. } | Event::Arrive { .. } => 0,
    }
}

/// What the dword holds after these events.
pub(crate) fn value_of(board: &Board, before: &[Event], word: Word) -> u32
    ensures { result ≡ value_of board.now (history_of before.now)
        (record { target = word.target; space = word.space; address = word.address }) }
{
    let mut value = opens_as(board, word.target, word.space, word.address);
    for (index, event) in before.iter().enumerate() {
        value = value_after(board, &before[..index], event, word, value);
    }
    value
}

/// What one more event makes of the dword.
#[tactic(auto, using(machine_steps::proofs::ValueLemmas::nothing_brought))]
fn value_after(board: &Board, done: &[Event], event: &Event, word: Word, value: u32) -> u32
    ensures { let dword : Dword = record {
      target = word.target;
      space = word.space;
      address = word.address;
    } in
        result ≡ merged dword value (brought board.now (history_of done.now) dword event.now) }
{
    match *event {
        Event::Act {
            bus,
            op,
            step,
            place: Place::Target(place),
            ..
        } if place == word.target => {
            if !brings_phases(step) {
                return value;
            }
            match request_of(board, op, bus) {
                None => value,
                Some(request) => {
                    let gone = through(done, op);
                    value_landed(&request, gone, step, word.space, word.address, value)
                }
            }
        }
        Event::Act { .. } | Event::Arrive { .. } => value,
    }
}

/// Whether a step may bring data phases to its target; only of these is looked up what went before.
fn brings_phases(step: Step) -> bool
    ensures { (phases : List Phase) → result ≡ false → brings step phases ≡ [] }
{
    match step {
        Step::Land | Step::Part(_) => true,
        _ => false,
    }
}

/// What a step of a write, of which so many data phases went through before, makes of it.
#[tactic(auto, using(machine_steps::proofs::ValueLemmas::merged_landings))]
pub fn value_landed(
    request: &Request,
    gone: u128,
    step: Step,
    space: Space,
    address: u128,
    value: u32,
) -> u32
    requires { gone ≤ 2 ^ 100 }
    ensures { (target : ℕ) (o : OpId) →
        let word : Dword = record { target = target; space = space; address = address } in
        result ≡ merged word value (landings_of o step gone word (Some request.now)) }
{
    if request.command.space() != space {
        return value;
    }
    let at = dword_address(space, u128::from(request.address) + 4 * gone);
    let phases = brought_by(step, left_of(request.phases.as_slice(), gone));
    value_merged(phases, space, address, at, value)
}

/// What data phases from `at` on make of the dword at the address.
pub fn value_merged(phases: &[Phase], space: Space, address: u128, at: u128, value: u32) -> u32
    requires { at ≤ 2 ^ 120 }
    ensures { result ≡ value_merged space address at value phases.now }
{
    let mask = mask_of(space, address);
    let mut merged = value;
    let mut next = at;
    for phase in phases {
        merged = merged_at(phase, address, next, merged, mask);
        next += 4;
    }
    merged
}

pub fn merged_at(phase: &Phase, address: u128, at: u128, value: u32, mask: u32) -> u32
    ensures { result ≡ (if at == address then merge_of value phase.now mask else value) }
{
    if at == address {
        merge(value, phase, mask)
    } else {
        value
    }
}
