use crate::{Bridge, Master, Target};
use pci_command::List;

/// The item of its kind that comes as number `count`, from 1, on the lane of the bridge to
/// secondary bus `bus`.
#[derive(Clone, Copy, Debug, Default, PartialEq, Eq)]
pub struct Planned {
    pub bus: u8,
    pub up: bool,
    pub count: u32,
}

/// A tree of PCI buses: bus 0 is the root, and each other bus hangs below its bridge.
#[derive(Debug, Drop)]
pub struct Board {
    pub bridges: List<Bridge>,
    pub targets: List<Target>,
    pub masters: List<Master>,
    /// Which delayed completions are discarded when they arrive.
    pub discards: List<Planned>,
    /// Which delayed requests are dropped when they arrive.
    pub drops: List<Planned>,
}
