ghost use Rattle.std.specs.Prelude.{◌≡◌, ◌++◌, [], ◌∷◌, codes, IfOk, OnOk, string_bytes};
ghost use Rattle.std.specs.Fmt.{decimal};
ghost use Rattle.board_printer.specs.Lines.{line_text};
ghost use Rattle.history_model.specs.Runs.{Run, history_of};
ghost use Rattle.law_audit.specs.Audit.{findings};
ghost use Rattle.audit_text.specs.Lines.{audit_of, findings_text};

use crate::findings::findings_of;
use crate::found::Found;
use crate::lines::print_line;
use board_model::Board;
use board_tree::Tree;
use history_model::Event;
use pci_command::{List, NoMemory};
use std::alloc::{AllocError, Global};

/// The text of the audit of a run, complete or not: a line for each read that ended with a value of
/// its target and whose master knew of a write of that dword before, in the order of the ends, and
/// then `told N`.
pub fn audit_text(alloc: Global, tree: &Tree, events: &[Event]) -> Result<List<u8>, NoMemory>
    requires { Run tree.now (history_of events.now) }
    ensures { IfOk result
        (λ text. text ≡ audit_of tree.now (findings tree.now (history_of events.now))) }
{
    let found = findings_of(alloc, tree, events)?;
    let mut text = String::new(alloc);
    print_findings(&mut text, tree.board(), found.as_slice())?;
    print_told(&mut text, found.as_slice().len())?;
    Ok(List::from_vec(text.into_bytes()))
}

fn print_told(text: &mut String, told: usize) -> Result<(), AllocError>
    ensures { OnOk result
        (string_bytes text.new ≡ string_bytes text.old ++
        line_text (codes "told" ∷ decimal told ∷ [])) }
{
    writeln!(text, "told {told}")
}

/// The lines, behind a text.
fn print_findings(text: &mut String, board: &Board, found: &[Found]) -> Result<(), AllocError>
    ensures { OnOk result
        (string_bytes text.new ≡ string_bytes text.old ++ findings_text board.now found.now) }
{
    for one in found {
        print_line(text, board, one)?;
    }
    Ok(())
}
