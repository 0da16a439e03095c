ghost use Rattle.std.specs.Prelude.{IfOk, OnOk};
ghost use Rattle.board_tree.specs.Decodable.{IsDecodable};
ghost use Rattle.board_writes.specs.Writes.{KeepsLists};

use crate::list::polls_of;
use crate::polls::awaited_by;
use crate::writers::stretches::{Stretches, stretches_of};
use crate::writers::words::Words;
use audit_clocks::WordTable;
use board_model::{Board, Word};
use board_tree::Tree;
use pci_command::{NoMemory, OpId};
use std::alloc::Global;

/// As stretches the writes of each dword that is polled.
pub(crate) fn lists_of(
    alloc: Global,
    tree: &Tree,
    words: &Words,
) -> Result<WordTable<Stretches>, NoMemory>
    ensures { IfOk result (KeepsLists words.now) }
{
    let polls = polls_of(alloc, tree)?;
    let mut lists = WordTable::new(alloc);
    keep_all(&mut lists, alloc, tree.board(), words, polls.as_slice())?;
    Ok(lists)
}

/// The same of these polls.
fn keep_all(
    lists: &mut WordTable<Stretches>,
    alloc: Global,
    board: &Board,
    words: &Words,
    polls: &[OpId],
) -> Result<(), NoMemory>
    requires decodable { IsDecodable board.now }
    requires kept { KeepsLists words.now lists.old }
    ensures { OnOk result (KeepsLists words.now lists.new) }
{
    for poll in polls {
        if let Some(awaited) = awaited_by(board, *poll) {
            keep(lists, alloc, words, awaited.word)?;
        }
    }
    Ok(())
}

/// The same of a dword, where it was not done yet.
fn keep(
    lists: &mut WordTable<Stretches>,
    alloc: Global,
    words: &Words,
    word: Word,
) -> Result<(), NoMemory>
    requires { KeepsLists words.now lists.old }
    ensures { OnOk result (KeepsLists words.now lists.new) }
{
    if lists.get(word).is_none() {
        let list = stretches_of(alloc, words.of_word(word))?;
        lists.put(word, list)?;
    }
    Ok(())
}
