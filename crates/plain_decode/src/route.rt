/// Where a configuration address of type 1 goes that a bridge meets on its primary bus
/// (PCI-to-PCI Bridge Architecture 1.1, section 3.1, from memory).
#[derive(Clone, Copy, Debug, Default, PartialEq, Eq)]
pub enum CfgRoute {
    /// To a device on the secondary bus, by this address of type 0.
    ToType0(u32),
    /// To a bus further down, by this address of type 1.
    PassDown(u32),
    /// Not through this bridge.
    #[default]
    NotHere,
}
