ghost use Rattle.std.specs.Prelude.{◌≡◌, ◌≤◌, ◌+◌, ◌^◌, ℕ, Some, slice_get, map, IfOk};
ghost use Rattle.std.specs.List.{Contains};
ghost use Rattle.std.specs.List.Sorted.{IsStrictlyIncreasing};
ghost use Rattle.history_model.specs.Words.{opens_as};
ghost use Rattle.bus_targets.specs.Words.{place_in, value_at, merged_at, landed_at};

use board_model::Board;
use machine_steps::{mask_of, merge_at, opens_as, value_at};
use pci_command::{NoMemory, Phase, Space};
use std::alloc::Global;
use std::marker::Model;

/// The dwords of one space of a target that operations read, by rising address, and what each
/// holds.
#[derive(Debug, Drop)]
pub struct TargetWords {
    addresses: Vec<u64>,
    values: Vec<u32>,
}

impl Model for TargetWords {
    ghost use Rattle.std.specs.List.Sorted.{IsStrictlyIncreasing};
    ghost use Rattle.bus_targets.specs.Words.{WordsOfSpace};

    ghost Value = { WordsOfSpace };

    ghost view = { λ t. record { addresses = t.addresses.items; values = t.values.items } };

    ghost invariant = { λ t. IsStrictlyIncreasing t.addresses.items };
}

impl TargetWords {
    /// The words at these addresses of the target's space, as they open.
    pub(crate) fn new(
        alloc: Global,
        board: &Board,
        target: u16,
        space: Space,
        mut addresses: Vec<u64>,
    ) -> Result<TargetWords, NoMemory>
        ensures rises { IfOk result (λ words. IsStrictlyIncreasing words.addresses) }
        ensures kept { IfOk result (λ words. (address : ℕ) → Contains addresses.items address →
            Contains words.addresses address) }
        ensures opens { IfOk result (λ words. words.values ≡ map (λ address. opens_as board.now
            (record { target = target; space = space; address = address })) words.addresses) }
    {
        addresses.sort_unstable();
        addresses.dedup();
        let values = open(alloc, board, target, space, addresses.as_slice())?;
        Ok(TargetWords { addresses, values })
    }

    /// The place of the word at the address, where it is kept.
    fn find(&self, address: u128) -> Option<usize>
        ensures { result ≡ place_in self.now.addresses address }
    {
        place_in(self.addresses.as_slice(), address)
    }

    /// What the word at the address holds; 0 where no operation reads it.
    pub fn value(&self, address: u128) -> u32
        ensures { result ≡ value_at self.now address }
    {
        match self.find(address) {
            Some(place) => value_at(self.values.as_slice(), place),
            None => 0,
        }
    }

    /// A data phase lands at the address.
    fn merge(&mut self, space: Space, address: u128, phase: &Phase)
        ensures { self.new ≡ record self.old
            { values = merged_at space self.old.addresses address phase.now self.old.values } }
    {
        let mask = mask_of(space, address);
        if let Some(place) = self.find(address) {
            merge_at(self.values.as_mut_slice(), place, phase, mask);
        }
    }

    /// Data phases land from the address on, four bytes apart.
    pub fn land(&mut self, space: Space, at: u128, phases: &[Phase])
        requires { at ≤ 2 ^ 120 }
        ensures { self.new ≡ record self.old
            { values = landed_at space self.old.addresses at phases.now self.old.values } }
    {
        let mut next = at;
        for phase in phases {
            self.merge(space, next, phase);
            next += 4;
        }
    }
}

/// What each word opens as.
fn open(
    alloc: Global,
    board: &Board,
    target: u16,
    space: Space,
    addresses: &[u64],
) -> Result<Vec<u32>, NoMemory>
    ensures { IfOk result (λ values. values.items ≡ map (λ address. opens_as board.now
        (record { target = target; space = space; address = address })) addresses.now) }
{
    let mut values = Vec::new(alloc);
    for address in addresses {
        values.push(opens_as(board, target, space, u128::from(*address)))?;
    }
    Ok(values)
}

/// The place of the address among those that rise.
fn place_in(addresses: &[u64], address: u128) -> Option<usize>
    requires { IsStrictlyIncreasing addresses.now }
    ensures { result ≡ place_in addresses.now address }
{
    match u64::try_from(address) {
        Ok(address) => found_at(addresses, address),
        Err(_) => None,
    }
}

fn found_at(addresses: &[u64], address: u64) -> Option<usize>
    requires { IsStrictlyIncreasing addresses.now }
    ensures { result ≡ place_in addresses.now address }
{
    match addresses.binary_search(&address) {
        Ok(place) => Some(place),
        Err(_) => None,
    }
}
