ghost use Rattle.std.specs.Prelude.{◌≡◌, ◌≤◌, [], ◌∷◌, ◌++◌, OnOk, true, if◌then◌else◌};
ghost use Rattle.std.specs.Prelude.{drop, length, map, reverse, take};
ghost use Rattle.std.specs.List.{filter, find};
ghost use Rattle.std.specs.Option.{option_copied};
ghost use Rattle.board_writes.specs.Polls.{raises_it};
ghost use Rattle.board_writes.specs.Stretches.{from_first, value_in};

use crate::polls::Awaited;
use crate::writers::write::WordWrite;
use pci_command::NoMemory;
use std::alloc::Global;
use std::cell::Cell;
use std::marker::Model;

/// Writes of one dword by one master, one behind another in its program; the values that they bring;
/// and a guess at a stretch by which one of them is left out, of which nothing is claimed.
#[derive(Debug, Drop)]
pub(crate) struct Run {
    writes: Vec<WordWrite>,
    values: Vec<u32>,
    guess: Cell<usize>,
}

impl Model for Run {
    ghost use Rattle.std.specs.Prelude.{◌≡◌, List, map};
    ghost use Rattle.board_writes.specs.declared.writers.write.WordWrite.{WordWrite};
    ghost use Rattle.board_writes.specs.Stretches.{value_in};

    ghost Value = { List WordWrite };

    ghost view = { λ k. k.writes.items };

    ghost invariant = { λ k. k.values.items ≡ map value_in k.writes.items };
}

impl Run {
    ghost use Rattle.std.specs.Prelude.{IfOk};

    /// One.
    pub(crate) fn one(alloc: Global, write: WordWrite) -> Result<Run, NoMemory>
        ensures { IfOk result (λ run. run ≡ write ∷ []) }
    {
        let mut writes = Vec::new(alloc);
        let mut values = Vec::new(alloc);
        writes.push(write)?;
        values.push(write.value())?;
        Ok(Run {
            writes,
            values,
            guess: Cell::new(0),
        })
    }

    /// One more at the end.
    pub(crate) fn push(&mut self, write: WordWrite) -> Result<(), NoMemory>
        ensures { OnOk result (self.new ≡ self.old ++ write ∷ []) }
    {
        self.values.push(write.value())?;
        if let Err(error) = self.writes.push(write) {
            self.values.pop();
            return Err(error.into());
        }
        Ok(())
    }

    /// All of them.
    pub(crate) fn as_slice(&self) -> &[WordWrite]
        ensures { result.now ≡ self.now }
    {
        self.writes.as_slice()
    }

    /// Behind so many, those from the first on that brings what is waited for.
    pub(crate) fn from_raising(&self, awaited: Awaited, count: usize) -> &[WordWrite]
        requires { count ≤ length self.now }
        ensures { result.now ≡ from_first (raises_it awaited) (drop count self.now) }
    {
        let (_, writes) = self.writes.as_slice().split_at(count);
        let (_, values) = self.values.as_slice().split_at(count);
        let (_, rest) = writes.split_at(awaited.count_unmet(values));
        rest
    }

    /// Those that bring it are put behind others, as long as these are fewer than so many; whether
    /// all were.
    pub(crate) fn put_raising(
        &self,
        found: &mut Vec<WordWrite>,
        awaited: Awaited,
        most: usize,
    ) -> Result<bool, NoMemory>
        ensures { IfOk result (λ all. all ≡ true → found.new.items ≡
            found.old.items ++ filter (raises_it awaited) self.now) }
    {
        let mut place = self.place_raising(awaited, 0);
        while let Some(write) = self.as_slice().get(place) {
            if found.len() >= most {
                return Ok(false);
            }
            push_if(awaited.is_raised_by(write), found, *write)?;
            place = self.place_raising(awaited, place + 1);
        }
        Ok(true)
    }

    /// The place of the first behind so many that brings what is waited for, or past all of them.
    fn place_raising(&self, awaited: Awaited, count: usize) -> usize
        requires { count ≤ length self.now }
        ensures within { result ≤ length self.now }
        ensures behind { count ≤ result }
        ensures place { drop result self.now ≡
            from_first (raises_it awaited) (drop count self.now) }
    {
        let (_, values) = self.values.as_slice().split_at(count);
        count + awaited.count_unmet(values)
    }

    /// The last of so many that brings what is waited for.
    pub(crate) fn last_raising(&self, awaited: Awaited, count: usize) -> Option<&WordWrite>
        requires { count ≤ length self.now }
        ensures { option_copied result ≡ find (raises_it awaited) (reverse (take count self.now)) }
    {
        let (writes, _) = self.writes.as_slice().split_at(count);
        let (values, _) = self.values.as_slice().split_at(count);
        let (others, _) = writes.split_at(awaited.count_to_last(values));
        others.last()
    }

    /// Where to look first.
    pub(crate) fn guess(&self) -> usize {
        self.guess.get()
    }

    /// From now on there.
    pub(crate) fn guess_next(&self, place: usize) {
        self.guess.set(place);
    }
}

fn push_if(is_one: bool, found: &mut Vec<WordWrite>, write: WordWrite) -> Result<(), NoMemory>
    ensures { OnOk result (found.new.items ≡
        found.old.items ++ (if is_one then write ∷ [] else [])) }
{
    if is_one {
        found.push(write)?;
    }
    Ok(())
}
