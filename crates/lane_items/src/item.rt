ghost use Rattle.std.specs.Prelude.{◌≡◌};

use pci_command::{OpId, Outcome};

/// An item on a lane, with the stamp of the event that sent it.
#[derive(Clone, Copy, Debug, PartialEq, Eq)]
pub enum Item {
    /// A posted memory write.
    Post {
        op: OpId,
        stamp: u32,
    },
    /// A delayed request, with the slot that its completion frees.
    Ask {
        op: OpId,
        slot: u8,
        stamp: u32,
    },
    /// A delayed completion.
    Done {
        op: OpId,
        slot: u8,
        outcome: Outcome,
        stamp: u32,
    },
    /// A credit: there is room for one more posted memory write.
    Room {
        stamp: u32,
    },
    /// The delayed request of this slot was dropped.
    Gone {
        slot: u8,
        stamp: u32,
    },
}

impl Default for Item {
    ghost use Rattle.lane_items.specs.declared.item.Item.TheVariants.{Room};

    ghost is_default = { λ item. item ≡ Room 0 };

    fn default() -> Item {
        Item::Room { stamp: 0 }
    }
}
