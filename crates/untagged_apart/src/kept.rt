ghost use Rattle.std.specs.Prelude.{◌≡◌};
ghost use Rattle.untagged_apart.specs.Kept.{spots_in};

use pci_command::NoMemory;
use std::alloc::Global;
use std::collections::HashMap;
use std::marker::Model;

/// Where an operation stands: the number of its master, and its place in the program.
#[derive(Clone, Copy)]
pub(crate) struct Spot {
    pub master: usize,
    pub index: usize,
}

/// Those of one address.
#[derive(Drop)]
struct Spots {
    items: Vec<Spot>,
}

impl Model for Spots {
    ghost use Rattle.std.specs.Prelude.{List};
    ghost use Rattle.untagged_apart.specs.declared.kept.Spot.{Spot};

    ghost Value = { List Spot };

    ghost view = { λ k. k.items.items };
}

impl Spots {
    ghost use Rattle.std.specs.Prelude.{OnOk, [], ◌∷◌, ◌++◌};

    fn new(alloc: Global) -> Spots
        ensures { result ≡ [] }
    {
        Spots {
            items: Vec::new(alloc),
        }
    }

    fn push(&mut self, spot: Spot) -> Result<(), NoMemory>
        ensures { OnOk result (self.new ≡ self.old ++ spot ∷ []) }
    {
        self.items.push(spot)?;
        Ok(())
    }
}

/// Operations by their address on bus 0.
#[derive(Drop)]
pub(crate) struct Kept {
    entries: HashMap<u64, Spots>,
}

impl Model for Kept {
    ghost use Rattle.std.specs.Prelude.{List, ℕ};
    ghost use Rattle.untagged_apart.specs.declared.kept.Spot.{Spot};

    ghost Value = { List (ℕ × List Spot) };

    ghost view = { λ k. k.entries.entries };
}

impl Kept {
    ghost use Rattle.std.specs.Prelude.{OnOk, []};
    ghost use Rattle.untagged_apart.specs.Kept.{kept_at, Keeps};

    /// None.
    pub(crate) fn new(alloc: Global) -> Kept
        ensures { result ≡ [] }
    {
        Kept {
            entries: HashMap::new(alloc),
        }
    }

    /// Those with the address.
    pub(crate) fn at(&self, address: u64) -> &[Spot]
        ensures { result.now ≡ kept_at address self.now }
    {
        match self.entries.get(&address) {
            Some(spots) => spots.items.as_slice(),
            None => &[],
        }
    }

    /// One more has the address.
    pub(crate) fn keep(&mut self, alloc: Global, address: u64, spot: Spot) -> Result<(), NoMemory>
        ensures { OnOk result (Keeps address spot self.old self.new) }
    {
        let found = self.entries.remove(&address);
        let mut spots = spots_or_none(alloc, found);
        spots.push(spot)?;
        self.entries.insert(address, spots)?;
        Ok(())
    }
}

fn spots_or_none(alloc: Global, spots: Option<Spots>) -> Spots
    ensures { result ≡ spots_in spots }
{
    match spots {
        Some(spots) => spots,
        None => Spots::new(alloc),
    }
}
