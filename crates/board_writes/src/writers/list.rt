ghost use Rattle.std.specs.Prelude.{◌≡◌, ◌<◌, ◌≤◌, ◌^◌, IfSome, OnOk, length};
ghost use Rattle.board_model.specs.Requests.{is_posted};
ghost use Rattle.board_model.specs.Ways.{dwords_from};
ghost use Rattle.board_tree.specs.Decodable.{IsDecodable};
ghost use Rattle.audit_clocks.specs.Tables.{dword};
ghost use Rattle.safe_model.specs.Ops.{ops_by, ops_from};
ghost use Rattle.board_writes.specs.Writes.{words_from, kept_for, kept_of, kept_by, Adds};
ghost use Rattle.board_model.specs.Limits.{most_ops};

use crate::writers::named::first_named;
use crate::writers::words::Words;
use crate::writers::write::WordWrite;
use board_model::{Board, Op, Word, is_posted, request_of};
use board_tree::Tree;
use pci_command::{NoMemory, OpId, Phase, Request};
use std::alloc::Global;

/// The writes of the board are listed, by master, then by their places in the program.
pub(crate) fn list_writes(writers: &mut Words, alloc: Global, tree: &Tree) -> Result<(), NoMemory>
    ensures { OnOk result (Adds (λ q. kept_by tree.now (dword q) (ops_by 0 tree.now.masters))
        writers.old writers.new) }
{
    let board = tree.board();
    for (number, master) in board.masters.as_slice().iter().enumerate() {
        list_program(writers, alloc, board, number as u16, master.ops.as_slice())?;
    }
    Ok(())
}

/// The same of the program of one master.
fn list_program(
    writers: &mut Words,
    alloc: Global,
    board: &Board,
    master: u16,
    ops: &[Op],
) -> Result<(), NoMemory>
    requires decodable { IsDecodable board.now }
    requires few { length ops.now ≤ most_ops }
    ensures { OnOk result (Adds (λ q. kept_by board.now (dword q) (ops_from master 0 ops.now))
        writers.old writers.new) }
{
    for place in 0..ops.len() {
        let op = OpId {
            master,
            index: place as u16,
            attempt: 0,
        };
        put_write(writers, alloc, board, op)?;
    }
    Ok(())
}

/// Each dword that the operation writes gets it: none does where it reads.
fn put_write(writers: &mut Words, alloc: Global, board: &Board, op: OpId) -> Result<(), NoMemory>
    requires { IsDecodable board.now }
    ensures { OnOk result (Adds (λ q. kept_of board.now (dword q) op) writers.old writers.new) }
{
    match request_of(board, op, 0) {
        Some(request) if !request.command.is_read() => {
            put_request(writers, alloc, first_named(board, op), op, &request)
        }
        _ => Ok(()),
    }
}

/// The same of its request, from the first dword on.
fn put_request(
    writers: &mut Words,
    alloc: Global,
    first: Option<Word>,
    op: OpId,
    request: &Request,
) -> Result<(), NoMemory>
    requires { IfSome first (λ word. word.address < 2 ^ 64) }
    ensures { OnOk result (Adds (λ q. kept_for op (is_posted request.now) (dword q)
        (words_from first request.now.phases) request.now.phases) writers.old writers.new) }
{
    match first {
        Some(first) => {
            let posted = is_posted(request);
            put_phases(writers, alloc, first, op, posted, request.phases.as_slice())
        }
        None => Ok(()),
    }
}

/// The same of the data phases.
fn put_phases(
    writers: &mut Words,
    alloc: Global,
    first: Word,
    op: OpId,
    posted: bool,
    phases: &[Phase],
) -> Result<(), NoMemory>
    requires { first.address < 2 ^ 64 }
    ensures { OnOk result (Adds (λ q. kept_for op posted (dword q)
        (dwords_from first.target first.space first.address phases.now) phases.now)
        writers.old writers.new) }
{
    let mut next = first.address;
    for (place, phase) in phases.iter().enumerate() {
        let word = Word {
            address: next,
            ..first
        };
        let write = WordWrite {
            op,
            phase: *phase,
            posted,
            last: place + 1 == phases.len(),
        };
        writers.put(alloc, word, write)?;
        next += 4;
    }
    Ok(())
}
