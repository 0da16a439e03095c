ghost use Rattle.std.specs.Prelude.{◌≡◌, [], map, slice_get, IfOk, IsTrue};
ghost use Rattle.std.specs.List.{AllByRecursion};
ghost use Rattle.board_model.specs.WellFormed.{is_well_formed};
ghost use Rattle.engine_segments.specs.First.{has_target};
ghost use Rattle.engine_segments.specs.Parts.{MastersAtFirst, TargetsAtFirst};

use board_model::Board;
use bus_agents::MasterState;
use bus_targets::TargetState;
use machine_steps::is_on;
use pci_command::NoMemory;
use std::alloc::Global;

/// The masters on the bus, in the order of the board.
#[tactic(auto, using(board_model::proofs::FewLemmas::few_masters_before, board_model::proofs::FewLemmas::master_more))]
pub(crate) fn masters_on(
    alloc: Global,
    board: &Board,
    bus: u8,
) -> Result<Vec<MasterState>, NoMemory>
    requires { IsTrue (is_well_formed board.now) }
    ensures { IfOk result (λ masters. MastersAtFirst board.now bus masters.items) }
{
    let mut masters = Vec::new(alloc);
    for (place, master) in board.masters.as_slice().iter().enumerate() {
        // It is one of 256 buses, with few masters on each.
        let _bus = master.bus;
        if is_on(board, bus, place as u16) {
            masters.push(MasterState::new(board, place as u16))?;
        }
    }
    Ok(masters)
}

/// The targets on the bus, in the order of the board.
#[tactic(auto, using(board_model::proofs::FewLemmas::few_targets_before, board_model::proofs::FewLemmas::target_more))]
pub(crate) fn targets_on(
    alloc: Global,
    board: &Board,
    bus: u8,
) -> Result<Vec<TargetState>, NoMemory>
    requires { IsTrue (is_well_formed board.now) }
    ensures { IfOk result (λ targets. TargetsAtFirst board.now bus targets.items) }
{
    let mut targets = Vec::new(alloc);
    for (place, target) in board.targets.as_slice().iter().enumerate() {
        // It is one of 256 buses, with few targets on each.
        let _bus = target.bus;
        if has_target(board, bus, place as u16) {
            targets.push(TargetState::new(alloc, board, place as u16)?)?;
        }
    }
    Ok(targets)
}

/// Whether the target is on the bus.
fn has_target(board: &Board, bus: u8, target: u16) -> bool
    ensures { result ≡ has_target bus (slice_get board.now.targets target) }
{
    match board.targets.as_slice().get(target as usize) {
        Some(target) => target.bus == bus,
        None => false,
    }
}
