ghost use Rattle.std.specs.Prelude.{◌≡◌, ◌<◌, Some, IfOk, IfSome, OnOk};
ghost use Rattle.program_input.specs.Refusals.{board_refusal};

use crate::refused::cut::{between, is_blank, without_lines};
use crate::refused::reading::is_refused;
use pci_command::NoMemory;
use program_pages::behind;
use program_status::Status;
use std::alloc::Global;

/// About how many bytes are looked at again at most to find the lines that matter: 4 MiB.
const MOST_READ: usize = 0x40_0000;

/// A text that is refused with this status as well, in which most lines that do not matter are
/// blank; the others stand at their places. None where the text is not refused with it.
pub fn smallest(alloc: Global, text: &[u8], status: &Status) -> Result<Option<Vec<u8>>, NoMemory>
    ensures { IfOk result (λ found. IfSome found (λ text. board_refusal text.items ≡ Some status.now)) }
{
    if !is_refused(alloc, text, status)? {
        return Ok(None);
    }
    let starts = starts_of(alloc, text)?;
    let mut left = text.to_vec(alloc)?;
    let mut unread = MOST_READ;
    let mut size = starts.len();
    while size > 0 {
        unread = sweep(alloc, &mut left, starts.as_slice(), size, status, unread)?;
        size /= 2;
    }
    sweep(alloc, &mut left, starts.as_slice(), 1, status, unread)?;
    Ok(Some(left))
}

/// The places at which lines begin that are not blank.
fn starts_of(alloc: Global, text: &[u8]) -> Result<Vec<usize>, NoMemory> {
    let mut starts = Vec::new(alloc);
    let mut at: usize = 0;
    for line in text.split(|byte| *byte == b'\n') {
        if !is_blank(line) {
            starts.push(at)?;
        }
        at = behind(at, line);
    }
    Ok(starts)
}

/// So many lines at a time, from the last ones on, are left out where the status stays, as long as
/// fewer bytes were looked at than may be: a look at the lines costs their bytes, a try the text's.
/// Gives how many may still be looked at.
fn sweep(
    alloc: Global,
    text: &mut Vec<u8>,
    starts: &[usize],
    size: usize,
    status: &Status,
    mut unread: usize,
) -> Result<usize, NoMemory>
    requires some { 0 < size }
    requires refused { board_refusal text.old.items ≡ Some status.now }
    ensures { OnOk result (board_refusal text.new.items ≡ Some status.now) }
{
    let mut end = starts.len();
    let mut to = text.len();
    while end > 0 && unread > 0 {
        let first = end.saturating_sub(size);
        let from = place_of(starts, first);
        let lines = between(text.as_slice(), from, to);
        unread = unread.saturating_sub(lines.len());
        if !is_blank(lines) {
            unread = unread.saturating_sub(text.len());
            let other = without_lines(alloc, text.as_slice(), from, to)?;
            if is_refused(alloc, other.as_slice(), status)? {
                *text = other;
            }
        }
        end = first;
        to = from;
    }
    Ok(unread)
}

fn place_of(starts: &[usize], line: usize) -> usize {
    starts.get(line).copied().unwrap_or(0)
}
