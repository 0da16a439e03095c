ghost use Rattle.std.specs.Prelude.{◌≡◌, ◌/◌, ◌%◌, [], ◌∷◌, slice_get, take, drop, Some};
ghost use Rattle.list_facts.specs.Lists.{changed_at};
ghost use Rattle.board_model.specs.Ways.{address_in};
ghost use Rattle.board_model.specs.device.Registers.{opening_of, write_mask_of, merge_of};
ghost use Rattle.history_model.specs.Words.{brings, mask_in, opening_word, opens_in, opens_as};
ghost use Rattle.machine_steps.specs.Counts.{or_zero};
ghost use Rattle.machine_steps.specs.Words.{word_at};

use board_model::{Board, Opening, Target, Word, merge, opening, write_mask};
use history_model::Step;
use pci_command::{Phase, Request, Space};

/// Where in its space the first of the data phases goes.
pub fn dword_address(space: Space, address: u128) -> u128
    ensures { result ≡ address_in space address }
{
    match space {
        Space::Mem | Space::Io => address,
        Space::Cfg => address % 0x100,
    }
}

/// The dword of the target that a read of this request reads.
pub fn word_read(request: &Request, target: u16) -> Word
    ensures { result ≡ word_at target request.now }
{
    let space = request.command.space();
    Word {
        target,
        space,
        address: dword_address(space, u128::from(request.address)),
    }
}

/// What the dword of the target at the address opens as.
pub fn opens_as(board: &Board, target: u16, space: Space, address: u128) -> u32
    ensures { result ≡ opens_as board.now (record {
      target = target;
      space = space;
      address = address;
    }) }
{
    match board.targets.as_slice().get(target as usize) {
        None => 0,
        Some(target) => opens_in(target, space, address),
    }
}

fn opens_in(target: &Target, space: Space, address: u128) -> u32
    ensures { result ≡ opens_in space address target.now }
{
    match space {
        Space::Cfg => opening_at(target, address / 4),
        Space::Mem | Space::Io => opening_word(target.openings.as_slice(), space, address),
    }
}

/// A register of the target; those from 16 on are 0.
fn opening_at(target: &Target, register: u128) -> u32
    ensures { result ≡ opening_of target.now register }
{
    match u8::try_from(register) {
        Ok(register) => opening(target, register),
        Err(_) => 0,
    }
}

/// The last of the opening words for the address, or 0.
fn opening_word(openings: &[Opening], space: Space, address: u128) -> u32
    ensures { result ≡ opening_word space address 0 openings.now }
{
    let mut value = 0;
    for word in openings {
        value = word_or(word, space, address, value);
    }
    value
}

fn word_or(word: &Opening, space: Space, address: u128, value: u32) -> u32
    ensures { result ≡ opening_word space address value (word.now ∷ []) }
{
    if word.space == space && u128::from(word.address) == address {
        word.value
    } else {
        value
    }
}

/// The data phases behind the first so many.
pub fn left_of(phases: &[Phase], gone: u128) -> &[Phase]
    ensures { result.now ≡ drop gone phases.now }
{
    if gone < phases.len() as u128 {
        let (_, rest) = phases.split_at(gone as usize);
        rest
    } else {
        &[]
    }
}

/// Those of the data phases that are left that a step brings into the target.
pub fn brought_by(step: Step, phases: &[Phase]) -> &[Phase]
    ensures { result.now ≡ brings step phases.now }
{
    match step {
        Step::Land => phases,
        Step::Part(number) => first_of(phases, number),
        _ => &[],
    }
}

fn first_of(phases: &[Phase], number: u8) -> &[Phase]
    ensures { result.now ≡ take number phases.now }
{
    if (number as usize) < phases.len() {
        let (first, _) = phases.split_at(number as usize);
        first
    } else {
        phases
    }
}

/// Which of its bits a write changes.
pub fn mask_of(space: Space, address: u128) -> u32
    ensures { result ≡ mask_in space address }
{
    match space {
        Space::Mem | Space::Io => 0xffff_ffff,
        Space::Cfg => mask_at(address / 4),
    }
}

fn mask_at(register: u128) -> u32
    ensures { result ≡ write_mask_of register }
{
    match u8::try_from(register) {
        Ok(register) => write_mask(register),
        Err(_) => 0,
    }
}

/// The value at the place of those that are kept; 0 where there is none.
pub fn value_at(values: &[u32], place: usize) -> u32
    ensures { result ≡ or_zero (slice_get values.now place) }
{
    match values.get(place) {
        Some(value) => *value,
        None => 0,
    }
}

/// The data phase lands in the value at the place, in the bits of the mask.
pub fn merge_at(values: &mut [u32], place: usize, phase: &Phase, mask: u32)
    ensures { values.new ≡
        changed_at (λ value. merge_of value phase.now mask) values.old (Some place) }
{
    if place < values.len() {
        values[place] = merge(values[place], phase, mask);
    }
}
