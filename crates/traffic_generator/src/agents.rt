ghost use Rattle.std.specs.Prelude.{◌≡◌, IfOk, IsTrue};
ghost use Rattle.board_model.specs.Names.{is_name};
ghost use Rattle.traffic_generator.specs.Generated.{bridge_to, target_on, generated_bridges};
ghost use Rattle.traffic_generator.specs.Generated.{generated_targets};

use board_model::{Bridge, Name, Range, Target, Window};
use pci_command::{List, NoMemory, Space};
use std::alloc::Global;

/// Where the ranges of the targets on buses 0, 2 and 4 begin.
pub(crate) const ON_0: u32 = 0x1000_0000;

pub(crate) const ON_2: u32 = 0x8010_0000;

pub(crate) const ON_4: u32 = 0x9010_0000;

/// Two bridges below bus 0, and another below each.
pub(crate) fn bridges(alloc: Global) -> Result<List<Bridge>, NoMemory>
    ensures { IfOk result (λ bridges. bridges ≡ generated_bridges) }
{
    let bridges = vec![in alloc;
        bridge_to(1, 0, 1, 2, 0x8000_0000, 0x801f_ffff),
        bridge_to(2, 1, 1, 2, 0x8010_0000, 0x801f_ffff),
        bridge_to(3, 0, 2, 4, 0x9000_0000, 0x901f_ffff),
        bridge_to(4, 3, 1, 4, 0x9010_0000, 0x901f_ffff),
    ]?;
    Ok(List::from_vec(bridges))
}

fn bridge_to(bus: u8, parent: u8, device: u8, last: u8, base: u64, limit: u64) -> Bridge
    ensures { result ≡ bridge_to bus parent device last base limit }
{
    Bridge {
        bus,
        parent,
        device,
        last,
        mem: Some(Window { base, limit }),
        pref: None,
        io: None,
        posted: 4,
        delayed: 4,
        mode: false,
    }
}

/// A target on bus 0, and one behind each chain of bridges.
pub(crate) fn targets(alloc: Global) -> Result<List<Target>, NoMemory>
    ensures { IfOk result (λ targets. targets ≡ generated_targets) }
{
    let targets = vec![in alloc;
        target_on(alloc, b"t0", 0, 3, ON_0)?,
        target_on(alloc, b"t2", 2, 1, ON_2)?,
        target_on(alloc, b"t4", 4, 1, ON_4)?,
    ]?;
    Ok(List::from_vec(targets))
}

/// A target with a range of 4 KiB of memory.
fn target_on(alloc: Global, name: &[u8], bus: u8, device: u8, base: u32) -> Result<Target, NoMemory>
    requires { IsTrue (is_name name.now) }
    ensures { IfOk result (λ target. target ≡ target_on name.now bus device base) }
{
    let range = Range {
        space: Space::Mem,
        base: u64::from(base),
        size: 0x1000,
    };
    Ok(Target {
        name: Name::new(name).unwrap(),
        bus,
        device,
        vendor: 0x1234,
        model: 1,
        stalls: 0,
        burst: 8,
        ranges: List::from_vec(vec![in alloc; range]?),
        aborts: List::from_vec(Vec::new(alloc)),
        openings: List::from_vec(Vec::new(alloc)),
    })
}
