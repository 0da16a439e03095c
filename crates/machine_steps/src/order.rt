ghost use Rattle.std.specs.Prelude.{◌≡◌};
ghost use Rattle.std.specs.List.{find, list_all};
ghost use Rattle.list_facts.specs.Lists.{before};
ghost use Rattle.board_model.specs.Requests.{reads};
ghost use Rattle.history_model.specs.Lanes.{is_of};
ghost use Rattle.history_model.specs.Answers.{presents_by, presents_item_by, goes_before_by};
ghost use Rattle.history_model.specs.Answers.{kind_of, request_kind, completion_kind};
ghost use Rattle.history_model.specs.Answers.{completion_passes, asks_same, asked};

use crate::presented::{reads, same_requests};
use crate::standing::{before_request, standing_request};
use board_model::Board;
use history_model::{Carried, Rule};
use order_table::may_pass;
use pci_command::{Kind, OpId};

/// Whether what stands of the operation may go before every older item, by the rule of the bridge.
pub fn may_go(board: &Board, rule: Rule, bus: u8, op: OpId, standing: &[Carried]) -> bool
    ensures { result ≡ presents_by rule board.now bus op standing.now }
{
    match standing_request(standing, op) {
        Some(item) => goes_before_all(board, rule, bus, item, before_request(standing, op)),
        None => false,
    }
}

fn goes_before_all(board: &Board, rule: Rule, bus: u8, item: Carried, older: &[Carried]) -> bool
    ensures { result ≡ list_all (goes_before_by rule board.now bus item) older.now }
{
    older
        .iter()
        .all(|other| goes_before(board, rule, bus, item, *other))
}

/// Whether an item may go before an older one: where the ordering table lets it pass, but of two
/// delayed requests that are the same on the bus the younger waits, where the rule of the bridge
/// has it wait.
fn goes_before(board: &Board, rule: Rule, bus: u8, item: Carried, older: Carried) -> bool
    ensures { result ≡ goes_before_by rule board.now bus item older }
{
    may_pass(kind_of(board, item), kind_of(board, older))
        && !(rule.waits_for_equal() && asks_same(board, bus, item, older))
}

/// Whether the completion of a read or a write may pass an older item.
pub fn completion_passes(board: &Board, read: bool, older: Carried) -> bool
    ensures { result ≡ completion_passes board.now read older }
{
    may_pass(completion_kind(read), kind_of(board, older))
}

/// What the item is in the ordering table.
pub fn kind_of(board: &Board, item: Carried) -> Kind
    ensures { result ≡ kind_of board.now item }
{
    match item {
        Carried::Ask { op, .. } => request_kind(reads(board, op)),
        Carried::Done { op, .. } => completion_kind(reads(board, op)),
        Carried::Post { .. } | Carried::Room | Carried::Gone { .. } => Kind::Pmw,
    }
}

/// What a delayed request is there, of a read or of a write.
pub fn request_kind(reads: bool) -> Kind
    ensures { result ≡ request_kind reads }
{
    if reads { Kind::Drr } else { Kind::Dwr }
}

/// What a delayed completion is there, of a read or of a write.
pub fn completion_kind(reads: bool) -> Kind
    ensures { result ≡ completion_kind reads }
{
    if reads { Kind::Drc } else { Kind::Dwc }
}

/// Whether both are delayed requests that are the same on the bus.
fn asks_same(board: &Board, bus: u8, item: Carried, older: Carried) -> bool
    ensures { result ≡ asks_same board.now bus (asked item) (asked older) }
{
    match (item, older) {
        (Carried::Ask { op, .. }, Carried::Ask { op: other, .. }) => {
            same_requests(board, bus, op, other)
        }
        _ => false,
    }
}
