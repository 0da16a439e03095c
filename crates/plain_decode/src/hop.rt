/// Where a request goes next from a bus: to the target with that place in the board, to the header
/// of the bridge to that secondary bus, down through that bridge, up through the bus's own bridge,
/// or to nobody.
#[derive(Clone, Copy, Debug, Default, PartialEq, Eq)]
pub enum Hop {
    Target(u16),
    Header(u8),
    Down(u8),
    Up,
    #[default]
    Nobody,
}
