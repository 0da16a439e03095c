ghost use Rattle.std.specs.Prelude.{◌≡◌, ◌<◌, ◌+◌, ◌^◌, Some, slice_get};
ghost use Rattle.list_facts.specs.Lists.{changed_at};
ghost use Rattle.machine_steps.specs.Counts.{or_zero};

use board_model::Op;
use pci_command::NoMemory;
use std::alloc::Global;
use std::marker::Model;

/// One count for each operation of a program.
#[derive(Debug, Drop)]
pub struct PhaseCounts {
    counts: Vec<u32>,
}

impl Model for PhaseCounts {
    ghost use Rattle.std.specs.Prelude.{List, ℕ};

    ghost Value = { List ℕ };

    ghost view = { λ k. k.counts.items };
}

impl PhaseCounts {
    ghost use Rattle.std.specs.Prelude.{IfOk};
    ghost use Rattle.machine_steps.specs.Counts.{none_of_any};

    /// None of any of these operations.
    pub fn new(alloc: Global, ops: &[Op]) -> Result<PhaseCounts, NoMemory>
        ensures { IfOk result (λ counts. counts ≡ none_of_any ops.now) }
    {
        let counts = ops.iter().map(|_| 0).collect(alloc)?;
        Ok(PhaseCounts { counts })
    }

    /// That of the operation; 0 where it is not there.
    pub fn of(&self, index: u16) -> u32
        ensures value { result ≡ or_zero (slice_get self.now index) }
        ensures fits { result < 2 ^ 32 }
    {
        match self.counts.as_slice().get(index as usize) {
            Some(count) => *count,
            None => 0,
        }
    }

    /// That of the operation rises. It takes no memory.
    pub fn add(&mut self, index: u16, more: u8)
        requires { or_zero (slice_get self.old index) + more < 2 ^ 32 }
        ensures { self.new ≡ changed_at (λ n. n + more) self.old (Some index) }
    {
        add_to(self.counts.as_mut_slice(), index as usize, more);
    }
}

fn add_to(counts: &mut [u32], place: usize, more: u8)
    requires { or_zero (slice_get counts.old place) + more < 2 ^ 32 }
    ensures { counts.new ≡ changed_at (λ n. n + more) counts.old (Some place) }
{
    if place < counts.len() {
        counts[place] += u32::from(more);
    }
}
