ghost use Rattle.std.specs.Prelude.{◌≡◌, ◌<◌, ◌≤◌, ◌^◌, length, vec_len, IfOk};
ghost use Rattle.import_text.specs.Entries.{without_return, entries_read};

use crate::digits::byte_at;
use crate::entry::{Entry, entry_of};
use board_text::next_line;
use pci_command::NoMemory;
use std::alloc::Global;

fn without_return(line: &[u8]) -> &[u8]
    ensures { result.now ≡ without_return line.now }
{
    match line {
        [before @ .., last] if *last == b'\r' => before,
        _ => line,
    }
}

/// What each line of a text is, in order.
#[tactic(auto, unfolding(crate::specs::Entries::entries_read))]
pub(crate) fn entries_read(alloc: Global, text: &[u8]) -> Result<Vec<Entry>, NoMemory>
    requires { length text.now < 2 ^ 31 }
    ensures value { IfOk result (λ entries. entries.items ≡ entries_read text.now) }
    ensures few { IfOk result (λ entries. vec_len entries ≤ length text.now) }
{
    let mut entries = Vec::new(alloc);
    let mut at = 0;
    while let Some((line, next)) = next_line(text, at) {
        entries.push(entry_of(alloc, without_return(line))?)?;
        at = next;
    }
    Ok(entries)
}
