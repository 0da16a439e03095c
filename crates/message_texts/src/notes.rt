ghost use Rattle.std.specs.Prelude.{IfOk, IsTrue};
ghost use Rattle.std.specs.List.{list_all};
ghost use Rattle.program_pages.specs.shown.Shown.{is_shown};

use pci_command::NoMemory;
use program_pages::{Message, Teller};
use std::alloc::Global;

/// What is wrong with a file.
pub(crate) fn about(alloc: Global, name: &str, text: &str) -> Result<Message, NoMemory>
    ensures printing { IfOk result (λ message. IsTrue (list_all is_shown message)) }
{
    let mut teller = Teller::new(alloc, name, None);
    teller.error(text)?;
    Ok(teller.into_message())
}

/// One sentence.
pub fn note(alloc: Global, text: &str) -> Result<Message, NoMemory>
    ensures printing { IfOk result (λ message. IsTrue (list_all is_shown message)) }
{
    let mut teller = Teller::new(alloc, "", None);
    teller.note(text)?;
    Ok(teller.into_message())
}
