ghost use Rattle.std.specs.Prelude.{◌≡◌, ◌++◌, IfOk, OnOk, string_bytes};
ghost use Rattle.history_model.specs.Runs.{history_of};
ghost use Rattle.run_report.specs.Lapses.{whole_report};
ghost use Rattle.run_report.specs.Report.{report_of};

use crate::lapses::lapses_text;
use crate::lines::{print_buses, print_length, print_size};
use crate::sizes::{buses_of, masters_of, operations_of};
use crate::tallies::tallies_of;
use board_tree::Tree;
use history_model::Event;
use pci_command::{List, NoMemory};
use std::alloc::{AllocError, Global};

/// The report of a run, complete or not, from its events, the oldest first: how many buses, masters
/// and operations its board has; how many events it has, and at most may have; and for each bus, by
/// number, how many events of each kind there were. A part of a burst counts as a land. It goes
/// over the events once.
pub fn report(alloc: Global, tree: &Tree, events: &[Event]) -> Result<List<u8>, NoMemory>
    ensures { IfOk result (λ text. text ≡ report_of tree.now (history_of events.now)) }
{
    let mut text = String::new(alloc);
    print_report(&mut text, tree, events)?;
    Ok(List::from_vec(text.into_bytes()))
}

/// The same, and behind it a line for each write that no target took, and for each poll that spent
/// its tries.
pub fn whole_report(alloc: Global, tree: &Tree, events: &[Event]) -> Result<List<u8>, NoMemory>
    ensures { IfOk result (λ text. text ≡ whole_report tree.now events.now) }
{
    let mut text = report(alloc, tree, events)?.into_vec();
    let lapses = lapses_text(alloc, tree.board(), events)?;
    text.extend_from_slice(lapses.as_bytes())?;
    Ok(List::from_vec(text))
}

fn print_report(text: &mut String, tree: &Tree, events: &[Event]) -> Result<(), AllocError>
    ensures { OnOk result (string_bytes text.new ≡ string_bytes text.old ++
        report_of tree.now (history_of events.now)) }
{
    let board = tree.board();
    print_size(
        text,
        buses_of(board),
        masters_of(board),
        operations_of(board),
    )?;
    print_length(text, events.len(), tree.bound())?;
    let tallies = tallies_of(board, events);
    print_buses(text, board, &tallies)
}
