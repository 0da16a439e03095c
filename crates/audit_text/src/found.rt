ghost use Rattle.std.specs.Prelude.{◌≡◌};

use pci_command::{List, OpId, Space};
use std::marker::Model;

/// A read that ended with a value of its target, and whose master knew of a write of that dword
/// before.
#[derive(Debug, Drop)]
pub struct Found {
    pub read: OpId,
    /// The number of the target on the board, from 0 on.
    pub target: u16,
    pub space: Space,
    /// Where the dword is in the space; in configuration space within the header of the target.
    pub address: u64,
    /// What it read.
    pub value: u32,
    /// The last such write to land.
    pub write: OpId,
    /// The operations by which the master came to know of it, from the write to the read.
    pub chain: List<OpId>,
}

impl Model for Found {
    ghost use Rattle.law_audit.specs.Audit.{Finding};

    ghost Value = { Finding };

    ghost view = { λ k. record {
      read = k.read;
      word = record {
        target = k.target;
        space = k.space;
        address = k.address;
      };
      value = k.value;
      write = k.write;
      chain = k.chain;
    } };
}
