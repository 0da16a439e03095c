//! The delayed requests of one half of a bridge: the slots of those that it latched on its own bus
//! and passed on, and those that came from the other bus and stand here (PCI Local Bus
//! Specification 2.2, section 3.3.3.3, from memory).
mod ask_table;
mod slot_table;

pub use ask_table::{Ask, AskTable};
pub use slot_table::{SlotEntry, SlotTable};
