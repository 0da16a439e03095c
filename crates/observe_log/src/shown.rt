use pci_command::OpId;

/// What the acts of a line have shown of it so far.
#[derive(Clone, Copy, PartialEq, Eq)]
pub(crate) enum Shown {
    /// So many dwords, from the one on that it addressed.
    Dwords(u32),
    /// That this operation was latched.
    Latched(OpId),
    /// All that it shows.
    Whole,
}
