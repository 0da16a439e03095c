ghost use Rattle.std.specs.Prelude.{◌≡◌, IfOk, OnOk};
ghost use Rattle.std.specs.List.{find};
ghost use Rattle.untagged_check.specs.index.Entries.{Rises, is_late, reached, landed_in, last_of};

use crate::index::entry::{Entry, Write};
use pci_command::{NoMemory, OpId};
use std::alloc::Global;
use std::marker::Model;

/// The writes of one master that name a dword, in the order of its program.
#[derive(Debug, Drop)]
pub(crate) struct Author {
    master: u16,
    entries: Vec<Entry>,
}

impl Model for Author {
    ghost use Rattle.untagged_check.specs.index.Entries.{Listing, Rises};

    ghost Value = { Listing };

    ghost view = { λ a. record { master = a.master; entries = a.entries.items } };

    ghost invariant = { λ a. Rises a.entries.items };
}

impl Author {
    ghost use Rattle.untagged_check.specs.index.Entries.{alone, first_of, longer};

    /// With one write.
    pub(crate) fn begin(alloc: Global, write: Write) -> Result<Author, NoMemory>
        ensures { IfOk result (λ author. author ≡ alone write) }
    {
        let mut entries = Vec::new(alloc);
        entries.push(Entry {
            index: write.op.index,
            landed: write.landed,
        })?;
        Ok(Author {
            master: write.op.master,
            entries,
        })
    }

    pub(crate) fn master(&self) -> u16
        ensures { result ≡ self.now.master }
    {
        self.master
    }

    /// One more write of the master.
    pub(crate) fn push(&mut self, write: Write) -> Result<(), NoMemory>
        ensures { OnOk result (self.new ≡ longer write self.old) }
    {
        let before = last_landed(self.entries.as_slice());
        self.entries.push(Entry {
            index: write.op.index,
            landed: write.landed.max(before),
        })?;
        Ok(())
    }

    /// The first write that had not landed before so many events, if so many operations of the
    /// program reach it: where they do not, they reach no later one.
    pub(crate) fn first(&self, events: usize, count: usize) -> Option<OpId>
        ensures { result ≡ first_of events count self.now }
    {
        let late = first_late(self.entries.as_slice(), events);
        reached(self.master, count, late)
    }
}

/// The first write that had not landed before so many events. A binary search.
fn first_late(entries: &[Entry], events: usize) -> Option<Entry>
    requires { Rises entries.now }
    ensures { result ≡ find (is_late events) entries.now }
{
    let start = entries.partition_point(|entry| entry.landed < events);
    entries.get(start).copied()
}

/// The write of the entry, where so many operations of the program reach it.
fn reached(master: u16, count: usize, entry: Option<Entry>) -> Option<OpId>
    ensures { result ≡ reached master count entry }
{
    match entry {
        Some(entry) if usize::from(entry.index) < count => Some(OpId {
            master,
            index: entry.index,
            attempt: 0,
        }),
        _ => None,
    }
}

/// What the last entry says; 0 where there is none.
fn last_landed(entries: &[Entry]) -> usize
    ensures { result ≡ landed_in (last_of entries.now) }
{
    match entries.last() {
        Some(last) => last.landed,
        None => 0,
    }
}
