//! Why `adverse` shows nothing: the board has not the operation that a word names, or it is another
//! kind of operation than is wanted there.
ghost use Rattle.std.specs.Prelude.{IfOk, IsTrue};
ghost use Rattle.std.specs.List.{list_all};
ghost use Rattle.program_pages.specs.shown.Shown.{is_shown};

use crate::refused::TOO_LONG;
use board_model::{Board, Op};
use pci_command::NoMemory;
use program_input::read_protocol;
use program_pages::{Message, Teller, master_of, op_at, operations_of};
use program_status::Status;
use std::alloc::Global;

/// What is said of the words READ and WRITE, behind the first line: nothing where each of them
/// names an operation as it is wanted.
pub fn not_shown(alloc: Global, input: &[u8], read: &str, write: &str) -> Result<Message, NoMemory>
    ensures { IfOk result (λ message. IsTrue (list_all is_shown message)) }
{
    let mut teller = Teller::new(alloc, "", None);
    tell_words(&mut teller, input, read, write)?;
    Ok(teller.into_message())
}

fn tell_words(teller: &mut Teller, input: &[u8], read: &str, write: &str) -> Result<(), NoMemory> {
    if input.len() >= TOO_LONG {
        return Ok(());
    }
    match read_protocol(teller.alloc(), input) {
        Ok(tree) => tell_first(teller, tree.board(), read, write),
        Err(Status::NoMemory) => Err(NoMemory),
        Err(_) => Ok(()),
    }
}

/// The first of the two words that names no such operation.
fn tell_first(teller: &mut Teller, board: &Board, read: &str, write: &str) -> Result<(), NoMemory> {
    if tell_word(teller, board, read, "read")? {
        return Ok(());
    }
    let _told = tell_word(teller, board, write, "write")?;
    Ok(())
}

/// Whether there is something to say of a word that is to name an operation of this kind.
fn tell_word(
    teller: &mut Teller,
    board: &Board,
    word: &str,
    wanted: &str,
) -> Result<bool, NoMemory> {
    let mut parts = word.as_bytes().split(|byte| *byte == b'.');
    let name = parts.next().unwrap_or(b"");
    let index = parts.next().unwrap_or(b"");
    let Some(master) = master_of(board, name) else {
        teller.note("no master of the board has this name")?;
        return Ok(true);
    };
    match op_at(master, index) {
        None => {
            let note = operations_of(teller.alloc(), master)?;
            teller.note(note.as_str())?;
            Ok(true)
        }
        Some((_, op)) => {
            let kind = kind_of(op);
            if kind == wanted {
                return Ok(false);
            }
            let note = format!(in teller.alloc(); "{word} is a {kind}, and no {wanted}")?;
            teller.note(note.as_str())?;
            Ok(true)
        }
    }
}

fn kind_of(op: &Op) -> &'static str {
    match op {
        Op::Read { .. } | Op::CfgRead { .. } => "read",
        Op::Write { .. } | Op::CfgWrite { .. } => "write",
        Op::Poll { .. } => "poll",
    }
}
