use pci_command::NoMemory;
use std::alloc::Global;

/// Why an event is not allowed: a sentence, and what is said besides.
#[derive(Drop)]
pub struct Reason {
    pub text: String,
    pub notes: Vec<String>,
}

impl Reason {
    /// Nothing is said yet.
    pub(crate) fn new(alloc: Global) -> Reason {
        Reason {
            text: String::new(alloc),
            notes: Vec::new(alloc),
        }
    }

    /// One more sentence besides.
    pub(crate) fn note(&mut self, note: String) -> Result<(), NoMemory> {
        self.notes.push(note)?;
        Ok(())
    }
}
