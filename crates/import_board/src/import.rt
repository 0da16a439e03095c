use crate::text::import_text;
use import_bridges::{bridge_fates, first_root, machine_of, taken_among};
use import_targets::devices_of;
use import_text::Function;
use pci_command::{List, NoMemory};
use std::alloc::Global;

/// A board text of the machine of these functions, below the least bus of its least domain. Nothing
/// is claimed of it: once it is read, `is_machine` judges its board.
pub fn import_board(alloc: Global, functions: &[Function]) -> Result<List<u8>, NoMemory> {
    let machine = machine_of(alloc, first_root(functions), functions)?;
    let fates = bridge_fates(alloc, &machine)?;
    let taken = taken_among(alloc, fates.as_slice())?;
    let devices = devices_of(alloc, &machine, taken.as_slice())?;
    import_text(alloc, &machine, fates.as_slice(), devices.as_slice())
}
