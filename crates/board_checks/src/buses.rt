ghost use Rattle.std.specs.Prelude.{◌≡◌, Option, not, find, ◌||◌};
ghost use Rattle.std.specs.List.{list_any};
ghost use Rattle.board_model.specs.WellFormed.{has_bus};
ghost use Rattle.board_model.specs.Valid.{has_bridge_to, is_bus, lacks_a_bus, is_numbered};
ghost use Rattle.board_model.specs.Valid.{is_behind, is_nested, are_beside, some_two, is_no_tree};

use board_model::{Board, Bridge, Planned, bridge_to, has_bridge_to, is_bus};

/// V1: whether the primary bus of a bridge, the bus of an agent, or the bridge of a discard or a
/// drop is not there.
pub(crate) fn lacks_a_bus(board: &Board) -> bool
    ensures { result ≡ lacks_a_bus board.now }
{
    bridge_lacks_a_bus(board)
        || target_lacks_a_bus(board)
        || master_lacks_a_bus(board)
        || plan_lacks_a_bridge(board, board.discards.as_slice())
        || plan_lacks_a_bridge(board, board.drops.as_slice())
}

fn bridge_lacks_a_bus(board: &Board) -> bool
    ensures { result ≡ list_any (λ bridge. not (is_bus board.now bridge.parent)) board.now.bridges }
{
    board
        .bridges
        .as_slice()
        .iter()
        .any(|bridge| !is_bus(board, bridge.parent))
}

fn target_lacks_a_bus(board: &Board) -> bool
    ensures { result ≡ list_any (λ target. not (is_bus board.now target.bus)) board.now.targets }
{
    board
        .targets
        .as_slice()
        .iter()
        .any(|target| !is_bus(board, target.bus))
}

fn master_lacks_a_bus(board: &Board) -> bool
    ensures { result ≡ list_any (λ master. not (is_bus board.now master.bus)) board.now.masters }
{
    board
        .masters
        .as_slice()
        .iter()
        .any(|master| !is_bus(board, master.bus))
}

fn plan_lacks_a_bridge(board: &Board, plans: &[Planned]) -> bool
    ensures { result ≡ list_any (λ planned. not (has_bridge_to board.now planned.bus)) plans.now }
{
    plans
        .iter()
        .any(|planned| !has_bridge_to(board, planned.bus))
}

/// V2: whether the bus numbers are not those of a tree: a bridge has not primary < secondary <=
/// subordinate, its buses are not behind the bridge above it, or those of two bridges of one bus
/// meet.
pub(crate) fn is_no_tree(board: &Board) -> bool
    ensures { result ≡ is_no_tree board.now }
{
    some_out_of_place(board) || some_beside(board.bridges.as_slice())
}

fn some_out_of_place(board: &Board) -> bool
    ensures { result ≡ list_any (λ bridge. not (is_numbered bridge) ||
        not (is_nested board.now bridge)) board.now.bridges }
{
    board
        .bridges
        .as_slice()
        .iter()
        .any(|bridge| !is_numbered(bridge) || !is_nested(board, bridge))
}

fn is_numbered(bridge: &Bridge) -> bool
    ensures { result ≡ is_numbered bridge.now }
{
    bridge.parent < bridge.bus && bridge.bus <= bridge.last
}

fn is_nested(board: &Board, bridge: &Bridge) -> bool
    ensures { result ≡ is_nested board.now bridge.now }
{
    match bridge_to(board, bridge.parent) {
        None => true,
        Some(above) => bridge.parent < bridge.bus && bridge.last <= above.last,
    }
}

fn some_beside(bridges: &[Bridge]) -> bool
    ensures { result ≡ some_two are_beside bridges.now }
{
    match bridges.split_first() {
        None => false,
        Some((bridge, rest)) => is_beside_one(bridge, rest) || some_beside(rest),
    }
}

fn is_beside_one(bridge: &Bridge, others: &[Bridge]) -> bool
    ensures { result ≡ list_any (are_beside bridge.now) others.now }
{
    others.iter().any(|other| are_beside(bridge, other))
}

fn are_beside(a: &Bridge, b: &Bridge) -> bool
    ensures { result ≡ are_beside a.now b.now }
{
    a.parent == b.parent && a.bus <= b.last && b.bus <= a.last
}
