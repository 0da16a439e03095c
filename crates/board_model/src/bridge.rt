/// One direction through the bridge to bus `bus`: up to its primary bus, or down to its secondary.
#[derive(Clone, Copy, Debug, Default, PartialEq, Eq)]
pub struct Lane {
    pub bus: u8,
    pub up: bool,
}

/// A window of addresses from `base` to `limit`, both included.
#[derive(Clone, Copy, Debug, Default, PartialEq, Eq)]
pub struct Window {
    pub base: u64,
    pub limit: u64,
}

/// A PCI-to-PCI bridge (PCI-to-PCI Bridge Architecture 1.1, section 3.2, from memory).
#[derive(Clone, Copy, Debug, Default, PartialEq, Eq)]
pub struct Bridge {
    /// Its secondary bus, by which the bridge is named.
    pub bus: u8,
    /// Its primary bus.
    pub parent: u8,
    /// Its device number on the primary bus, 0 to 31.
    pub device: u8,
    /// Its subordinate bus: the last bus behind it.
    pub last: u8,
    /// The memory window, which is not prefetchable.
    pub mem: Option<Window>,
    /// The prefetchable memory window.
    pub pref: Option<Window>,
    pub io: Option<Window>,
    /// How many posted writes it holds in each direction, 1 to 8.
    pub posted: u8,
    /// How many delayed requests it holds in each direction, 1 to 8.
    pub delayed: u8,
    /// The master abort mode (PCI-to-PCI Bridge Architecture 1.1, section 3.2.5.18, bit 5;
    /// section number from memory).
    pub mode: bool,
}

/// Who claims a request: a target by its place in the board, the header of the bridge to that
/// secondary bus, a lane of a bridge, or nobody.
#[derive(Clone, Copy, Debug, Default, PartialEq, Eq)]
pub enum Place {
    Target(u16),
    Header(u8),
    Lane(Lane),
    #[default]
    Nobody,
}
