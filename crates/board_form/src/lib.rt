//! Which boards can be written: the ranges of all numbers and the limits on how many there are of
//! each.
#![tactic(auto)]

mod agents;
mod bridges;
mod limits;
mod ops;

ghost use Rattle.std.specs.Prelude.{◌≡◌};
ghost use Rattle.board_model.specs.WellFormed.{is_well_formed};

use board_model::{Board, MOST_BRIDGES};

/// Whether a text can be of the board: every number is in its range, every address is a multiple
/// of its unit, no two bridges have one secondary bus, no two agents one name, and the limits on
/// how many there are of each are kept.
pub fn well_formed(board: &Board) -> bool
    ensures { result ≡ is_well_formed board.now }
{
    let bridges = board.bridges.as_slice();
    let targets = board.targets.as_slice();
    let masters = board.masters.as_slice();
    bridges.len() <= MOST_BRIDGES
        && bridges::are_well_formed(bridges)
        && bridges::are_numbered_apart(bridges)
        && agents::are_targets_well_formed(targets)
        && ops::are_masters_well_formed(masters)
        && limits::are_few(board)
        && agents::are_targets_named_apart(masters, targets)
        && agents::are_masters_named_apart(masters)
        && limits::operations_fit(masters)
        && limits::are_plans_well_formed(board.discards.as_slice())
        && limits::are_plans_well_formed(board.drops.as_slice())
}
