//! What no function tells, and a board that is imported has not.
ghost use Rattle.std.specs.Prelude.{◌≡◌};
ghost use Rattle.std.specs.List.{list_all};
ghost use Rattle.import_board.specs.Machine.{is_plain_bridge, is_plain_target, has_nothing_else};

use board_model::{Board, Bridge, MOST_DWORDS, Target};

/// Whether the board has no more than bridges and targets as where nothing else is written.
pub(crate) fn has_nothing_else(board: &Board) -> bool
    ensures { result ≡ has_nothing_else board.now }
{
    board.masters.as_slice().is_empty()
        && board.discards.as_slice().is_empty()
        && board.drops.as_slice().is_empty()
        && bridges_are_plain(board.bridges.as_slice())
        && targets_are_plain(board.targets.as_slice())
}

fn bridges_are_plain(bridges: &[Bridge]) -> bool
    ensures { result ≡ list_all is_plain_bridge bridges.now }
{
    bridges
        .iter()
        .all(|bridge| bridge.posted == 4 && bridge.delayed == 4)
}

fn targets_are_plain(targets: &[Target]) -> bool
    ensures { result ≡ list_all is_plain_target targets.now }
{
    targets.iter().all(|target| is_plain(target))
}

fn is_plain(target: &Target) -> bool
    ensures { result ≡ is_plain_target target.now }
{
    target.stalls == 0
        && usize::from(target.burst) == MOST_DWORDS
        && target.aborts.as_slice().is_empty()
        && target.openings.as_slice().is_empty()
}
