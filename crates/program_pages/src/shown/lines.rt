ghost use Rattle.std.specs.Prelude.{◌≡◌, [], ◌++◌, map, take, IfOk, OnOk, IsTrue};
ghost use Rattle.std.specs.List.{list_all};
ghost use Rattle.program_pages.specs.shown.Shown.{is_printing, is_shown, shown, shown_line};
ghost use Rattle.program_pages.specs.shown.Shown.{whole_line};

use pci_command::NoMemory;
use std::alloc::{AllocError, Global};
use std::marker::Model;

/// The columns that a line has at most, where it names no file.
const WIDTH: usize = 120;

/// Lines for a terminal, of printing characters of ASCII: of at most 120 columns, but for those
/// that name a file.
#[derive(Debug, Drop)]
pub struct Message {
    text: Vec<u8>,
}

impl Model for Message {
    ghost use Rattle.std.specs.Prelude.{ℕ, List, IsTrue};
    ghost use Rattle.std.specs.List.{list_all};
    ghost use Rattle.program_pages.specs.shown.Shown.{is_shown};

    ghost Value = { List ℕ };

    ghost view = { λ message. message.text.items };

    ghost invariant = { λ message. IsTrue (list_all is_shown message.text.items) };
}

impl Message {
    /// No line.
    pub fn new(alloc: Global) -> Message
        ensures { result ≡ [] }
    {
        Message {
            text: Vec::new(alloc),
        }
    }

    /// The lines, each with its newline.
    pub fn as_bytes(&self) -> &[u8]
        ensures value { result.now ≡ self.now }
        ensures printing { IsTrue (list_all is_shown self.now) }
    {
        self.text.as_slice()
    }

    /// One more line: a text as it is shown, of at most 120 columns.
    pub fn line(&mut self, alloc: Global, text: &[u8]) -> Result<(), NoMemory>
        ensures { OnOk result (self.new ≡ self.old ++ shown_line text.now) }
    {
        let front = front_of(alloc, text)?;
        self.whole_line(alloc, front.as_slice())
    }

    /// One more line: a text as it is shown, however long it is.
    #[tactic(auto, using(crate::proofs::shown::ShownLemmas::all_shown))]
    pub fn whole_line(&mut self, alloc: Global, text: &[u8]) -> Result<(), NoMemory>
        ensures { OnOk result (self.new ≡ self.old ++ whole_line text.now) }
    {
        let line = whole_line(alloc, text)?;
        self.text.extend_from_slice(line.as_slice())?;
        Ok(())
    }
}

/// The first 120 columns.
fn front_of(alloc: Global, text: &[u8]) -> Result<Vec<u8>, AllocError>
    ensures { IfOk result (λ front. front.items ≡ take 120 text.now) }
{
    text.iter().take(WIDTH).copied().collect(alloc)
}

fn whole_line(alloc: Global, text: &[u8]) -> Result<Vec<u8>, AllocError>
    ensures { IfOk result (λ line. line.items ≡ whole_line text.now) }
{
    let mut line = shown_bytes(alloc, text)?;
    line.push(b'\n')?;
    Ok(line)
}

fn shown_bytes(alloc: Global, text: &[u8]) -> Result<Vec<u8>, AllocError>
    ensures { IfOk result (λ line. line.items ≡ map shown text.now) }
{
    text.iter().map(|byte| shown(*byte)).collect(alloc)
}

fn shown(byte: u8) -> u8
    ensures { result ≡ shown byte }
{
    match byte {
        b' '..=b'~' => byte,
        b'\t' => b' ',
        _ => b'?',
    }
}
