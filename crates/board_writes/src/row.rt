ghost use Rattle.std.specs.Prelude.{◌≡◌};
ghost use Rattle.board_writes.specs.Rows.{lowered, number};
ghost use Rattle.board_writes.specs.Falls.{Falls};

use pci_command::NoMemory;
use std::alloc::Global;
use std::marker::Model;

/// How many operations of each master's program are known, from the first on: a program has few,
/// and there may be many rows.
#[derive(Debug, Drop)]
pub(crate) struct Row {
    numbers: Vec<u16>,
}

impl Model for Row {
    ghost use Rattle.std.specs.Prelude.{List, ℕ};

    ghost Value = { List ℕ };

    ghost view = { λ row. row.numbers.items };
}

impl Row {
    ghost use Rattle.std.specs.Prelude.{[], IfOk};

    /// Of no master.
    pub(crate) fn empty(alloc: Global) -> Row
        ensures { result ≡ [] }
    {
        Row {
            numbers: Vec::new(alloc),
        }
    }

    /// These.
    pub(crate) fn of(numbers: Vec<u16>) -> Row
        ensures { result ≡ numbers.items }
    {
        Row { numbers }
    }

    /// The same again.
    pub(crate) fn copied(&self, alloc: Global) -> Result<Row, NoMemory>
        ensures { IfOk result (λ row. row ≡ self.now) }
    {
        let numbers = self.numbers.iter().copied().collect(alloc)?;
        Ok(Row { numbers })
    }

    /// All of them.
    pub(crate) fn as_slice(&self) -> &[u16]
        ensures { result.now ≡ self.now }
    {
        self.numbers.as_slice()
    }

    /// That of the master is at most this from now on.
    #[tactic(auto, using(crate::proofs::LowerLemmas::of_row))]
    pub(crate) fn lower(&mut self, master: usize, most: usize)
        ensures { self.new ≡ lowered self.old master most }
    {
        if master < self.numbers.len() && most < usize::from(self.numbers[master]) {
            self.numbers[master] = most as u16;
        }
    }

    /// Each number is at most that of these from now on; whether one fell.
    #[tactic(auto, using(crate::proofs::FallLemmas::of_row))]
    pub(crate) fn lower_to(&mut self, most: &[usize]) -> bool
        ensures { Falls most.now self.old self.new result }
    {
        let mut fell = false;
        for (master, number) in most.iter().enumerate() {
            if master < self.numbers.len() && *number < usize::from(self.numbers[master]) {
                self.numbers[master] = *number as u16;
                fell = true;
            }
        }
        fell
    }
}

/// That of the master; 0 where there is none.
pub(crate) fn number_at(numbers: &[u16], master: usize) -> usize
    ensures { result ≡ number numbers.now master }
{
    match numbers.get(master) {
        Some(number) => usize::from(*number),
        None => 0,
    }
}
