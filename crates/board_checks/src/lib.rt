//! What a well-formed board has to be for its buses to be a tree in which each address has one
//! owner: PCI-to-PCI Bridge Architecture Specification 1.1, chapters 3 and 4 (from memory).
#![tactic(auto)]

mod buses;
mod devices;
mod ranges;
mod reach;
mod spans;
mod windows;

ghost use Rattle.std.specs.Prelude.{◌≡◌};
ghost use Rattle.board_checks.specs.Faults.{first_fault_of};

use board_model::Board;
use text_faults::TreeFault;

/// The first of the faults that the board has, in the order in which `TreeFault` names them.
pub fn first_fault(board: &Board) -> Option<TreeFault>
    ensures { result ≡ first_fault_of board.now }
{
    if buses::lacks_a_bus(board) {
        Some(TreeFault::LacksABus)
    } else if buses::is_no_tree(board) {
        Some(TreeFault::NoTree)
    } else if windows::some_meet(board.bridges.as_slice()) {
        Some(TreeFault::WindowsMeet)
    } else if reach::is_out_of_reach(board) {
        Some(TreeFault::OutOfReach)
    } else if ranges::has_range_in_window(board) {
        Some(TreeFault::RangeInWindow)
    } else if ranges::has_ranges_that_meet(board) {
        Some(TreeFault::RangesMeet)
    } else if devices::has_devices_that_meet(board) {
        Some(TreeFault::DevicesMeet)
    } else if devices::writes_a_header(board) {
        Some(TreeFault::WritesAHeader)
    } else {
        None
    }
}
