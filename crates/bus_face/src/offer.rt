use pci_command::OpId;

/// An item that stands at a face and may be driven on its bus now.
#[derive(Clone, Copy, Debug, Default, PartialEq, Eq)]
pub struct Offer {
    pub op: OpId,
    /// Whether it is a delayed request; else it is a posted write.
    pub ask: bool,
    /// The slot of a delayed request, 0 of a posted write.
    pub slot: u8,
}
