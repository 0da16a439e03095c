use board_statements::has_words;
use board_text::next_line;
use pci_command::NoMemory;
use program_pages::find_line;
use program_words::Reads;
use std::alloc::Global;

/// A text in which every byte from one place to another but its newlines is a space, so that its
/// lines keep their numbers.
pub fn without_lines(
    alloc: Global,
    text: &[u8],
    from: usize,
    to: usize,
) -> Result<Vec<u8>, NoMemory> {
    let mut other = text.to_vec(alloc)?;
    let end = to.min(other.len());
    for byte in other.as_mut_slice()[from.min(end)..end].iter_mut() {
        if *byte != b'\n' {
            *byte = b' ';
        }
    }
    Ok(other)
}

/// The board text of an input that is read so, each line with the number that it has in the input: of a
/// trace the part between its first line, which is blank here, and the line `events`, of a log that
/// up to the line `log`, and of a text of devices that up to the line `devices`.
pub fn board_part(alloc: Global, input: &[u8], reads: Reads) -> Result<Vec<u8>, NoMemory> {
    match (reads, next_line(input, 0)) {
        (Reads::Trace(_) | Reads::Filled, Some((b"pcitrace 1", next))) => {
            board_between(alloc, input, next, b"events")
        }
        (Reads::Log, Some((_, next))) => board_between(alloc, input, next, b"log"),
        (Reads::Protocol, Some((b"pcidevices 1", next))) => {
            board_between(alloc, input, next, b"devices")
        }
        _ => Ok(input.to_vec(alloc)?),
    }
}

fn board_between(
    alloc: Global,
    input: &[u8],
    from: usize,
    mark: &[u8],
) -> Result<Vec<u8>, NoMemory> {
    let end = match find_line(input, mark) {
        Some((_, at)) => at,
        None => input.len(),
    };
    without_lines(alloc, &input[..end.min(input.len())], 0, from)
}

/// Some lines of a board text, one behind the other, and the number of each.
#[derive(Debug, Drop)]
pub struct SomeLines {
    pub text: Vec<u8>,
    pub numbers: Vec<u32>,
}

impl SomeLines {
    fn new(alloc: Global) -> SomeLines {
        SomeLines {
            text: Vec::new(alloc),
            numbers: Vec::new(alloc),
        }
    }

    /// One line more.
    pub fn push(&mut self, line: &[u8], number: u32) -> Result<(), NoMemory> {
        self.text.extend_from_slice(line)?;
        self.text.push(b'\n')?;
        self.numbers.push(number)?;
        Ok(())
    }
}

/// The lines of a text that have words. A board has the faults of its tree by these alone.
pub fn word_lines(alloc: Global, text: &[u8]) -> Result<SomeLines, NoMemory> {
    let mut lines = SomeLines::new(alloc);
    let mut number: u32 = 1;
    for line in text.split(|byte| *byte == b'\n') {
        if has_words(line) {
            lines.push(line, number)?;
        }
        number = number.saturating_add(1);
    }
    Ok(lines)
}

/// What of a text stands from one place to another, as far as it has these.
pub(crate) fn between(text: &[u8], from: usize, to: usize) -> &[u8] {
    let end = to.min(text.len());
    &text[from.min(end)..end]
}

/// Whether a text has nothing but spaces and newlines.
pub(crate) fn is_blank(text: &[u8]) -> bool {
    text.iter().all(|byte| *byte == b' ' || *byte == b'\n')
}
