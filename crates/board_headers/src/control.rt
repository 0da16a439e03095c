use bitflags::{Flag, Flags, bitflag_items};

/// Bits of the command register of a bridge (PCI-to-PCI Bridge Architecture 1.1, section 3.2, from
/// memory).
#[derive(Clone, Copy, Debug, Default, PartialEq, Eq)]
pub struct CommandBits(u16);

bitflag_items! {
    impl CommandBits: u16 {
        /// The bridge answers I/O on its primary bus.
        const IO_SPACE = 0x0001;
        /// The bridge answers memory accesses on its primary bus.
        const MEMORY_SPACE = 0x0002;
        /// The bridge is a master on its primary bus for what comes from behind it.
        const BUS_MASTER = 0x0004;
    }
}

impl Flags for CommandBits {
    ghost use Rattle.std.specs.Prelude.{⊤, [], ◌∷◌, codes};

    type Bits = u16;

    ghost exact = { ⊤ };

    ghost table = { (codes "IO_SPACE", 1) ∷ (codes "MEMORY_SPACE", 2) ∷
        (codes "BUS_MASTER", 4) ∷ [] };

    ghost set_of = { λ bits. bits.0 };

    fn flags<'a>() -> &'a [Flag<CommandBits>] {
        CommandBits::FLAGS
    }

    fn bits(&self) -> u16 {
        self.0
    }

    fn from_bits_retain(bits: u16) -> CommandBits {
        CommandBits(bits)
    }
}

/// Bits of the bridge control register (PCI-to-PCI Bridge Architecture 1.1, section 3.2.5.18, from
/// memory).
#[derive(Clone, Copy, Debug, Default, PartialEq, Eq)]
pub struct BridgeControl(u16);

bitflag_items! {
    impl BridgeControl: u16 {
        /// I/O windows are cut as ISA cards need it.
        const ISA_ENABLE = 0x0004;
        /// The addresses of VGA are decoded beside the windows.
        const VGA_ENABLE = 0x0008;
        /// A delayed request that nobody claims ends with Target-Abort.
        const MASTER_ABORT_MODE = 0x0020;
        /// The secondary bus is held in reset.
        const SECONDARY_BUS_RESET = 0x0040;
    }
}

impl Flags for BridgeControl {
    ghost use Rattle.std.specs.Prelude.{⊤, [], ◌∷◌, codes};

    type Bits = u16;

    ghost exact = { ⊤ };

    ghost table = { (codes "ISA_ENABLE", 4) ∷ (codes "VGA_ENABLE", 8) ∷
        (codes "MASTER_ABORT_MODE", 0x20) ∷ (codes "SECONDARY_BUS_RESET", 0x40) ∷ [] };

    ghost set_of = { λ bits. bits.0 };

    fn flags<'a>() -> &'a [Flag<BridgeControl>] {
        BridgeControl::FLAGS
    }

    fn bits(&self) -> u16 {
        self.0
    }

    fn from_bits_retain(bits: u16) -> BridgeControl {
        BridgeControl(bits)
    }
}
