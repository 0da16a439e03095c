//! What is written in memory, noted by its address and its value, so that a flag is looked up and
//! not looked for.

ghost use Rattle.std.specs.Prelude.{◌≡◌, ℕ, ◌+◌, ◌*◌, ◌<◌, ◌^◌, ◌==◌, ◌||◌, [], length, min, OnOk};
ghost use Rattle.std.specs.Prelude.{IfOk, bit_and, if◌then◌else◌};
ghost use Rattle.dma_agents.specs.Written.{phase_weighs, phases_weigh, op_weighs, ops_weigh};
ghost use Rattle.dma_agents.specs.Written.{masters_weigh, same_value, weight_in, is_noted};
ghost use Rattle.dma_agents.specs.Written.{weight_at, Noted, IsWritten};

use board_model::{Board, Master, Op, is_posted, request_on};
use pci_command::{NoMemory, Phase};
use std::alloc::Global;
use std::collections::{HashMap, HashSet};

/// A value that is written to a dword.
#[derive(Clone, Copy, PartialEq, Eq, Hash)]
pub(crate) struct WrittenValue {
    address: u32,
    value: u32,
}

/// What is written in memory below 2^32.
#[derive(Drop)]
pub(crate) struct Written {
    /// How often a value is written to a dword, where more than once counts as twice, and so does a
    /// write that has other data phases.
    weights: HashMap<WrittenValue, u8>,
    /// The dwords of which some write does not enable all bytes.
    parts: HashSet<u32>,
}

impl Written {
    ghost use Rattle.dma_agents.specs.declared.written.WrittenValue.{WrittenValue};

    fn new(alloc: Global) -> Written
        ensures weights { result.weights.entries ≡ [] }
        ensures parts { result.parts.keys ≡ [] }
    {
        Written {
            weights: HashMap::new(alloc),
            parts: HashSet::new(alloc),
        }
    }

    fn weight_of(&self, one: WrittenValue) -> u8
        ensures { result ≡ weight_in self.now.weights.entries one }
    {
        self.weights.get(&one).copied().unwrap_or(0)
    }

    /// Whether one write of one data phase brings the value to the address, and no write there
    /// leaves a byte out.
    pub(crate) fn is_rung_once(&self, address: u32, value: u32) -> bool
        ensures { result ≡ (weight_at self.now address value == 1) }
    {
        self.weight_at(address, value) == 1
    }

    fn weight_at(&self, address: u32, value: u32) -> u8
        ensures { result ≡ weight_at self.now address value }
    {
        if self.parts.contains(&address) {
            return 2;
        }
        self.weight_of(WrittenValue { address, value }).min(2)
    }

    /// A write at the address does not enable all bytes.
    fn note_part(&mut self, address: u32) -> Result<(), NoMemory>
        ensures weights { OnOk result (self.new.weights.entries ≡ self.old.weights.entries) }
        ensures parts { OnOk result ((q : ℕ) →
            is_noted self.new.parts.keys q ≡ (address == q || is_noted self.old.parts.keys q)) }
    {
        self.parts.insert(address)?;
        Ok(())
    }

    /// A write brings the value, once or twice.
    fn note_value(&mut self, one: WrittenValue, weight: u8) -> Result<(), NoMemory>
        ensures weights { OnOk result ((q : WrittenValue) →
            weight_in self.new.weights.entries q ≡ (if same_value one q
            then min (weight_in self.old.weights.entries q + weight) 2
            else weight_in self.old.weights.entries q)) }
        ensures parts { OnOk result (self.new.parts.keys ≡ self.old.parts.keys) }
    {
        let sum = self.weight_of(one).saturating_add(weight).min(2);
        self.weights.insert(one, sum)?;
        Ok(())
    }
}

/// What the masters of a board write.
pub(crate) fn written_on(alloc: Global, board: &Board) -> Result<Written, NoMemory>
    ensures { IfOk result (IsWritten board.now.masters) }
{
    let mut written = Written::new(alloc);
    note_masters(&mut written, board.masters.as_slice())?;
    Ok(written)
}

fn note_masters(written: &mut Written, masters: &[Master]) -> Result<(), NoMemory>
    ensures { OnOk result (Noted (masters_weigh masters.now) written.old written.new) }
{
    for master in masters {
        note_ops(written, master.ops.as_slice())?;
    }
    Ok(())
}

fn note_ops(written: &mut Written, ops: &[Op]) -> Result<(), NoMemory>
    ensures { OnOk result (Noted (ops_weigh ops.now) written.old written.new) }
{
    for op in ops {
        note_op(written, op)?;
    }
    Ok(())
}

fn note_op(written: &mut Written, op: &Op) -> Result<(), NoMemory>
    ensures { OnOk result (Noted (op_weighs op.now) written.old written.new) }
{
    let request = request_on(op, 0);
    if !is_posted(&request) {
        return Ok(());
    }
    let phases = request.phases.as_slice();
    let alone = phases.len() == 1;
    note_phases(written, u128::from(request.address), alone, phases)?;
    Ok(())
}

// The data phases of a write from an address on.
fn note_phases(
    written: &mut Written,
    first: u128,
    alone: bool,
    phases: &[Phase],
) -> Result<(), NoMemory>
    requires { first + 4 * length phases.now < 2 ^ 128 }
    ensures { OnOk result
        (Noted (phases_weigh first alone phases.now) written.old written.new) }
{
    for (place, phase) in phases.iter().enumerate() {
        note_phase(written, first + 4 * place as u128, alone, *phase)?;
    }
    Ok(())
}

// A flag has an address below 2^32.
fn note_phase(written: &mut Written, at: u128, alone: bool, phase: Phase) -> Result<(), NoMemory>
    ensures { OnOk result (Noted (phase_weighs at alone phase) written.old written.new) }
{
    if at >= 0x1_0000_0000 {
        return Ok(());
    }
    let address = at as u32;
    if phase.enables != 15 {
        written.note_part(address)?;
        return Ok(());
    }
    let one = value_written(address, phase.value);
    written.note_value(one, weight_of_write(alone))?;
    Ok(())
}

#[tactic(auto, using(crate::proofs::ClearLemmas::all_bits))]
fn value_written(address: u32, value: u32) -> WrittenValue
    ensures { result ≡ record { address = address; value = bit_and value 0xffff_ffff } }
{
    WrittenValue { address, value }
}

fn weight_of_write(alone: bool) -> u8
    ensures { result ≡ (if alone then 1 else 2) }
{
    if alone { 1 } else { 2 }
}
