ghost use Rattle.std.specs.Prelude.{IsTrue};
ghost use Rattle.std.specs.List.{list_all};
ghost use Rattle.program_pages.specs.shown.Shown.{is_shown};

use crate::fault::{Code, Fault};
use crate::shown::Message;
use pci_command::NoMemory;
use std::alloc::Global;

/// The columns that are shown of a line of the file: two blanks, and dots where it is cut, make
/// 120.
const PART: usize = 112;

/// A place in a long line that has a column below this one is shown from the beginning of its line.
const FRONT: usize = 88;

/// The lines of a message about one file, of this fault if it has one.
#[derive(Drop)]
pub struct Teller<'a> {
    alloc: Global,
    name: &'a str,
    fault: Option<Fault>,
    message: Message,
}

impl<'a> Teller<'a> {
    pub fn new(alloc: Global, name: &'a str, fault: Option<Fault>) -> Teller<'a> {
        Teller {
            alloc,
            name,
            fault,
            message: Message::new(alloc),
        }
    }

    pub fn into_message(self) -> Message
        ensures { IsTrue (list_all is_shown result) }
    {
        self.message
    }

    pub fn alloc(&self) -> Global {
        self.alloc
    }

    /// The fault as one sentence.
    pub fn sentence(&self) -> Result<String, NoMemory> {
        match self.fault {
            Some(fault) => Ok(fault.to_string(self.alloc)?),
            None => Ok(String::new(self.alloc)),
        }
    }

    /// A sentence without a place.
    pub fn note(&mut self, text: &str) -> Result<(), NoMemory> {
        let line = format!(in self.alloc; "note: {text}")?;
        self.message.line(self.alloc, line.as_bytes())
    }

    /// What is wrong with the file, where no line of it has that.
    pub fn error(&mut self, text: &str) -> Result<(), NoMemory> {
        let mut row = self.shown_name()?;
        row.extend_from_slice(b": ")?;
        self.end_error(row, text)
    }

    /// What is wrong at a place of a line of the file; and the line, with a caret below the place.
    /// Of a line with no bytes nothing is shown.
    pub fn point(
        &mut self,
        number: u32,
        line: &[u8],
        at: usize,
        text: &str,
    ) -> Result<(), NoMemory> {
        let at = at.min(line.len());
        let row = self.place(number, at)?;
        self.end_error(row, text)?;
        if line.is_empty() {
            return Ok(());
        }
        let from = first_shown(line, at);
        self.show(line, from)?;
        let dots = if from > 0 { 5 } else { 2 };
        let column = at.saturating_sub(from).saturating_add(dots);
        let mut below = vec![in self.alloc; b' '; column]?;
        below.push(b'^')?;
        self.message.line(self.alloc, below.as_slice())
    }

    /// A further place of the file, with its line.
    pub fn also(
        &mut self,
        number: u32,
        line: &[u8],
        at: usize,
        text: &str,
    ) -> Result<(), NoMemory> {
        let at = at.min(line.len());
        let mut row = self.place(number, at)?;
        row.extend_from_slice(b"note: ")?;
        row.extend_from_slice(text.as_bytes())?;
        self.message.whole_line(self.alloc, row.as_slice())?;
        if line.is_empty() {
            return Ok(());
        }
        self.show(line, first_shown(line, at))
    }

    /// The last line: where more is said of the fault.
    pub fn more(&mut self) -> Result<(), NoMemory> {
        match self.fault {
            None => Ok(()),
            Some(fault) => {
                let code = Code(fault);
                let line = format!(in self.alloc; "more: pcitree explain {code}")?;
                self.message.line(self.alloc, line.as_bytes())
            }
        }
    }

    /// A line that says what is wrong, behind where that is.
    fn end_error(&mut self, mut row: Vec<u8>, text: &str) -> Result<(), NoMemory> {
        row.extend_from_slice(b"error: ")?;
        if let Some(fault) = self.fault {
            let code = Code(fault);
            let code = format!(in self.alloc; "{code}: ")?;
            row.extend_from_slice(code.as_bytes())?;
        }
        row.extend_from_slice(text.as_bytes())?;
        self.message.whole_line(self.alloc, row.as_slice())
    }

    /// The part of a line of the file that begins at this place of it.
    fn show(&mut self, line: &[u8], from: usize) -> Result<(), NoMemory> {
        let mut row = b"  ".as_slice().to_vec(self.alloc)?;
        if from > 0 {
            row.extend_from_slice(b"...")?;
        }
        for byte in line.iter().skip(from).take(PART) {
            row.push(*byte)?;
        }
        if from.saturating_add(PART) < line.len() {
            row.extend_from_slice(b"...")?;
        }
        self.message.line(self.alloc, row.as_slice())
    }

    /// The name of the file, the number of a line and the column of a place in it.
    fn place(&self, number: u32, at: usize) -> Result<Vec<u8>, NoMemory> {
        let mut place = self.shown_name()?;
        let column = at.saturating_add(1);
        let numbers = format!(in self.alloc; ":{number}:{column}: ")?;
        place.extend_from_slice(numbers.as_bytes())?;
        Ok(place)
    }

    /// The name of the file, whole.
    fn shown_name(&self) -> Result<Vec<u8>, NoMemory> {
        let mut name = Vec::new(self.alloc);
        for byte in self.name.as_bytes() {
            let is_printing = (b' '..=b'~').contains(byte);
            name.push(if is_printing { *byte } else { b'?' })?;
        }
        Ok(name)
    }
}

/// The first place of a line that is shown.
fn first_shown(line: &[u8], at: usize) -> usize {
    if line.len() <= PART || at < FRONT {
        0
    } else {
        at.saturating_sub(PART / 2)
    }
}
