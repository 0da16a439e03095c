ghost use Rattle.std.specs.Prelude.{◌≡◌, ◌↔◌, IsTrue};
ghost use Rattle.pci_command.specs.Request.{address_phases_of};
ghost use Rattle.pci_command.specs.Same.{same_op};

use crate::{Command, OpId, Phase, Phases};
use arrayvec::ArrayVec;

/// A request as it is driven on a bus: a plain command, a byte address (64 bits in memory, below
/// 2^32 elsewhere) and its data phases. A read has one phase, with value 0 and enables 15.
#[derive(Debug, Default, Drop)]
pub struct Request {
    pub command: Command,
    pub address: u64,
    pub phases: Phases,
}

impl Request {
    /// An equal request.
    pub fn copy(&self) -> Request
        ensures { result ≡ self.now }
    {
        Request {
            command: self.command,
            address: self.address,
            phases: self.phases.copy(),
        }
    }
}

/// Whether two requests are the same: by this a master that repeats its request is known again
/// (PCI Local Bus 2.2, section 3.3.3.3.1, from memory).
pub fn same_request(a: &Request, b: &Request) -> bool
    ensures { IsTrue result ↔ (a.now ≡ b.now) }
{
    let phases = same_phases(a.phases.as_slice(), b.phases.as_slice());
    phases && a.command == b.command && a.address == b.address
}

fn same_phases(a: &[Phase], b: &[Phase]) -> bool
    ensures { IsTrue result ↔ (a.now ≡ b.now) }
{
    a == b
}

/// Whether two names are of one operation.
pub fn same_op(a: OpId, b: OpId) -> bool
    ensures { result ≡ same_op a b }
{
    a.master == b.master && a.index == b.index && a.attempt == b.attempt
}

/// The code of the command Dual Address Cycle, which carries the low half of a 64-bit address.
const DUAL_ADDRESS_CYCLE: u8 = 13;

/// What is driven on C/BE[3::0]# and AD[31::00] in each address phase of a request: one phase
/// below 2^32, from there on two, the first a Dual Address Cycle (PCI Local Bus 2.2, section 3.9).
/// No word of the program calls it.
pub fn address_phases(request: &Request) -> ArrayVec<(u8, u32), 2>
    ensures { result.items ≡ address_phases_of request.now }
{
    let mut phases = ArrayVec::new();
    let address = request.address;
    let low = (address & 0xffff_ffff) as u32;
    let high = (address >> 32) as u32;
    if high == 0 {
        phases.push((request.command.code(), low));
    } else {
        phases.push((DUAL_ADDRESS_CYCLE, low));
        phases.push((request.command.code(), high));
    }
    phases
}
