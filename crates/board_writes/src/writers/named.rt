ghost use Rattle.std.specs.Prelude.{◌≡◌, ◌<◌, ◌^◌, IfSome, slice_get};
ghost use Rattle.board_model.specs.Requests.{op_of};
ghost use Rattle.board_model.specs.Ways.{words_of, words_by, words_at};
ghost use Rattle.board_tree.specs.Decodable.{IsDecodable};
ghost use Rattle.history_model.specs.Knowledge.{words_named};
ghost use Rattle.safe_model.specs.Raisers.{phases_in};
ghost use Rattle.board_writes.specs.Writes.{words_from};

use board_model::{Board, Place, Word, is_in_ranges, op_of, request_on};
use board_tree::route_of;
use machine_steps::word_read;
use pci_command::{OpId, Request};

/// The first of the words that an operation names: there is one for each of its data phases, and
/// they stand four bytes apart.
pub fn first_named(board: &Board, op: OpId) -> Option<Word>
    requires { IsDecodable board.now }
    ensures words { words_named board.now op ≡ words_from result (phases_in (op_of board.now op)) }
    ensures low { IfSome result (λ word. word.address < 2 ^ 64) }
{
    let found = op_of(board, op)?;
    let master = board.masters.as_slice().get(usize::from(op.master))?;
    let route = route_of(board, found, master.bus);
    first_by(board, &request_on(found, route.bus), route.owner)
}

/// The same of a request by the place that claims it: there is none where it is no target.
fn first_by(board: &Board, request: &Request, owner: Place) -> Option<Word>
    ensures words { words_by board.now request.now owner ≡ words_from result request.now.phases }
    ensures low { IfSome result (λ word. word.address < 2 ^ 64) }
{
    match owner {
        Place::Target(target) => first_at(board, request, target),
        Place::Header(_) | Place::Lane(_) | Place::Nobody => None,
    }
}

/// The same of a request at a target: there is none where the target aborts it.
fn first_at(board: &Board, request: &Request, target: u16) -> Option<Word>
    ensures words { words_at target request.now (slice_get board.now.targets target) ≡
        words_from result request.now.phases }
    ensures low { IfSome result (λ word. word.address < 2 ^ 64) }
{
    let agent = board.targets.as_slice().get(usize::from(target))?;
    let space = request.command.space();
    if is_in_ranges(agent.aborts.as_slice(), space, u128::from(request.address)) {
        None
    } else {
        Some(word_read(request, target))
    }
}
