ghost use Rattle.std.specs.Prelude.{◌≡◌};

use pci_command::{NoMemory, OpId};
use std::alloc::Global;
use std::collections::HashMap;
use std::marker::Model;

/// A value of each of some operations.
#[derive(Debug, Drop)]
pub struct OpTable<V> {
    entries: HashMap<OpId, V>,
}

impl<V> Model for OpTable<V> {
    ghost use Rattle.std.specs.Prelude.{List};
    ghost use Rattle.pci_command.specs.declared.op_id.OpId.{OpId};

    ghost Value = { List (OpId × V) };

    ghost view = { λ k. k.entries.entries };
}

impl<V: Drop> OpTable<V> {
    ghost use Rattle.std.specs.Prelude.{OnOk, []};
    ghost use Rattle.std.specs.Option.{option_copied};
    ghost use Rattle.pci_command.specs.declared.op_id.OpId.{OpId};
    ghost use Rattle.audit_clocks.specs.Tables.{value_of, Puts};

    /// No operation has one.
    pub fn new(alloc: Global) -> OpTable<V>
        ensures { result ≡ [] }
    {
        OpTable {
            entries: HashMap::new(alloc),
        }
    }

    /// That of the operation, where it has one.
    pub fn get(&self, op: OpId) -> Option<&V>
        ensures { option_copied result ≡ value_of op self.now }
    {
        self.entries.get(&op)
    }

    /// The operation has this one.
    pub fn put(&mut self, op: OpId, value: V) -> Result<(), NoMemory>
        ensures { OnOk result (Puts op value self.old self.new) }
    {
        self.entries.insert(op, value)?;
        Ok(())
    }
}
