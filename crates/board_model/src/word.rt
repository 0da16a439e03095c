use pci_command::Space;

/// A dword of a target.
#[derive(Clone, Copy, Debug, PartialEq, Eq, Hash)]
pub struct Word {
    /// The number of the target on the board, from 0 on.
    pub target: u16,
    pub space: Space,
    /// Where it is in the space; in configuration space within the header of the target.
    pub address: u128,
}
