ghost use Rattle.std.specs.Prelude.{◌≡◌, IfOk, OnOk};
ghost use Rattle.untagged_check.specs.index.Entries.{first_in, pushed};

use crate::index::author::Author;
use crate::index::entry::Write;
use audit_clocks::Numbers;
use pci_command::{NoMemory, OpId};
use std::alloc::Global;
use std::marker::Model;

/// The writes that name one dword, by their masters.
#[derive(Debug, Drop)]
pub(crate) struct Authors {
    authors: Vec<Author>,
}

impl Model for Authors {
    ghost use Rattle.std.specs.Prelude.{List};
    ghost use Rattle.untagged_check.specs.index.Entries.{Listing};

    ghost Value = { List Listing };

    ghost view = { λ a. a.authors.items };
}

impl Authors {
    ghost use Rattle.std.specs.Prelude.{[]};
    /// None.
    pub(crate) fn new(alloc: Global) -> Authors
        ensures { result ≡ [] }
    {
        Authors {
            authors: Vec::new(alloc),
        }
    }

    /// One write more, of the last master or of the next.
    pub(crate) fn with(self, alloc: Global, write: Write) -> Result<Authors, NoMemory>
        ensures { IfOk result (λ authors. authors ≡ pushed write self) }
    {
        let Authors { mut authors } = self;
        push(&mut authors, alloc, write)?;
        Ok(Authors { authors })
    }

    /// The first write that had not landed before so many events, and that these numbers reach. A
    /// binary search for each master.
    pub(crate) fn first(&self, events: usize, bounds: &Numbers) -> Option<OpId>
        ensures { result ≡ first_in events bounds.now self.now }
    {
        first_in(self.authors.as_slice(), events, bounds)
    }
}

fn push(authors: &mut Vec<Author>, alloc: Global, write: Write) -> Result<(), NoMemory>
    ensures { OnOk result (authors.new.items ≡ pushed write authors.old.items) }
{
    let count = authors.len();
    if count > 0 && authors[count - 1].master() == write.op.master {
        authors[count - 1].push(write)
    } else {
        authors.push(Author::begin(alloc, write)?)?;
        Ok(())
    }
}

fn first_in(authors: &[Author], events: usize, bounds: &Numbers) -> Option<OpId>
    ensures { result ≡ first_in events bounds.now authors.now }
{
    for author in authors {
        let count = bounds.of(usize::from(author.master()));
        let found = author.first(events, count);
        if found.is_some() {
            return found;
        }
    }
    None
}
