ghost use Rattle.std.specs.Prelude.{◌≡◌, ◌<◌, length, nat_lt, slice_get};
ghost use Rattle.std.specs.Char.{is_ascii_digit};
ghost use Rattle.std.specs.List.{list_all, position};
ghost use Rattle.board_model.specs.WellFormed.{is_master_named};
ghost use Rattle.board_model.specs.Requests.{op_of};
ghost use Rattle.board_model.specs.Ways.{words_of};
ghost use Rattle.board_tree.specs.Decodable.{IsDecodable};
ghost use Rattle.history_model.specs.Knowledge.{words_named};
ghost use Rattle.safe_model.specs.Clocks.{is_poll};
ghost use Rattle.trace_reader.specs.lines.Words.{at_most, number_of, master_in, has_no_zero_before};
ghost use Rattle.judge_adverse.specs.Runs.{reads_word};
ghost use Rattle.judge_adverse.specs.Operation.{has_word_in, is_index, names_operation};
ghost use Rattle.judge_adverse.specs.Operation.{operation_of, read_of, write_of};

use board_model::{Board, Master, Name, Op, Place, Target, is_in_ranges, op_of, request_on};
use board_statements::parts;
use board_text::decimal;
use board_tree::{Tree, route_of};
use machine_steps::{is_write, reads};
use pci_command::{OpId, Request};

/// Whether a word has the form of an operation: a name, a dot, and a decimal of at most 10 digits
/// as it is printed.
pub fn names_operation(word: &[u8]) -> bool
    ensures { result ≡ names_operation word.now }
{
    match parts(word, b'.') {
        Some((name, index)) => Name::new(name).is_some() && is_index(index),
        None => false,
    }
}

fn is_index(digits: &[u8]) -> bool
    ensures { result ≡ is_index digits.now }
{
    has_no_zero_before(digits) && digits.len() <= 10 && are_digits(digits)
}

fn are_digits(digits: &[u8]) -> bool
    ensures { result ≡ list_all is_ascii_digit digits.now }
{
    digits.iter().all(|byte| byte.is_ascii_digit())
}

/// No zero stands before another digit, and there is one.
fn has_no_zero_before(digits: &[u8]) -> bool
    ensures { result ≡ has_no_zero_before digits.now }
{
    match digits {
        [] => false,
        [_] => true,
        [first, ..] => *first != b'0',
    }
}

/// The read, no poll, of a word that the word names. There is none exactly where it names no such
/// read.
pub fn read_of(tree: &Tree, word: &[u8]) -> Option<OpId>
    ensures { result ≡ read_of tree.now word.now }
{
    let board = tree.board();
    let op = operation_of(board, word)?;
    if reads_word(board, op) {
        Some(op)
    } else {
        None
    }
}

/// The write that the word names. There is none exactly where it names no write.
pub fn write_of(tree: &Tree, word: &[u8]) -> Option<OpId>
    ensures { result ≡ write_of tree.now word.now }
{
    let board = tree.board();
    let op = operation_of(board, word)?;
    if is_write(board, op) { Some(op) } else { None }
}

/// The operation of the board that the word names, by its first try.
fn operation_of(board: &Board, word: &[u8]) -> Option<OpId>
    ensures { result ≡ operation_of board.now word.now }
{
    let (name, index) = parts(word, b'.')?;
    let op = OpId {
        master: master_in(board, name)?,
        index: index_of(index)?,
        attempt: 0,
    };
    op_of(board, op)?;
    Some(op)
}

/// The place of the master of this name.
fn master_in(board: &Board, name: &[u8]) -> Option<u16>
    ensures { result ≡ master_in board.now name.now }
{
    let place = place_of(board.masters.as_slice(), name)?;
    u16::try_from(place).ok()
}

fn place_of(masters: &[Master], name: &[u8]) -> Option<usize>
    ensures { result ≡ position (is_master_named name.now) masters.now }
{
    masters.iter().position(|master| is_named(master, name))
}

fn is_named(master: &Master, name: &[u8]) -> bool
    ensures { result ≡ is_master_named name.now master.now }
{
    master.name.bytes() == name
}

fn index_of(digits: &[u8]) -> Option<u16>
    ensures { result ≡ at_most 65535 (number_of digits.now) }
{
    if !has_no_zero_before(digits) {
        return None;
    }
    let number = decimal(digits).ok()?;
    u16::try_from(number).ok()
}

/// Whether it is a read, no poll, that has a word.
fn reads_word(board: &Board, op: OpId) -> bool
    requires { IsDecodable board.now }
    ensures { result ≡ reads_word board.now op }
{
    reads(board, op) && !is_poll(board, op) && has_word(board, op)
}

fn is_poll(board: &Board, op: OpId) -> bool
    ensures { result ≡ is_poll (op_of board.now op) }
{
    match op_of(board, op) {
        Some(Op::Poll { .. }) => true,
        _ => false,
    }
}

/// Whether the operation has a word: its way ends at a target, which does not abort it.
fn has_word(board: &Board, op: OpId) -> bool
    requires { IsDecodable board.now }
    ensures { result ≡ nat_lt 0 (length (words_named board.now op)) }
{
    match (
        op_of(board, op),
        board.masters.as_slice().get(op.master as usize),
    ) {
        (Some(found), Some(master)) => has_word_from(board, found, master.bus),
        _ => false,
    }
}

/// The same from the bus on.
#[tactic(auto, using(crate::proofs::WordLemmas::words_in))]
fn has_word_from(board: &Board, op: &Op, bus: u8) -> bool
    requires { IsDecodable board.now }
    ensures { result ≡ nat_lt 0 (length (words_of board.now op.now bus)) }
{
    let route = route_of(board, op, bus);
    match route.owner {
        Place::Target(place) => has_word_at(
            board.targets.as_slice(),
            place,
            &request_on(op, route.bus),
        ),
        Place::Header(_) | Place::Lane(_) | Place::Nobody => false,
    }
}

/// The same of a request at a target: it has a data phase, and the target does not abort it.
fn has_word_at(targets: &[Target], place: u16, request: &Request) -> bool
    ensures { result ≡ has_word_in request.now (slice_get targets.now place) }
{
    let (space, address) = (request.command.space(), u128::from(request.address));
    match targets.get(place as usize) {
        Some(target) => {
            !is_in_ranges(target.aborts.as_slice(), space, address) && request.phases.len() > 0
        }
        None => false,
    }
}
