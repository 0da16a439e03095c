use crate::{Fault, Page};
use text_faults::TreeFault;

/// The pages of trees of buses, by code.
pub static TREE_PAGES: [Page; 9] = [ // not a limit
    Page {
        code: "V1",
        fault: Fault::Tree(TreeFault::LacksABus),
        rule: "Bus 0 is always there, any other is the secondary bus of a bridge. The primary bus of a\n\
            bridge, the bus of a target or a master, and the bridge of a `discard` or `drop` line\n\
            have to be there.",
        example: "pciboard 1\n\
            target ram on 1 dev 1\n",
    },
    Page {
        code: "V2",
        fault: Fault::Tree(TreeFault::NoTree),
        rule: "Each bridge has primary < secondary <= subordinate; the buses behind it, secondary to\n\
            subordinate, are among those behind the bridge above it; those behind two bridges of one\n\
            bus do not meet (PCI-to-PCI Bridge Architecture 1.1, chapter 3, from memory).",
        example: "pciboard 1\n\
            bridge 2 on 0 dev 1 last 1\n",
    },
    Page {
        code: "V3",
        fault: Fault::Tree(TreeFault::WindowsMeet),
        rule: "An address is forwarded by at most one bridge of a bus: the memory and prefetchable\n\
            windows of two bridges on one bus, and their I/O windows, share no address (PCI-to-PCI\n\
            Bridge Architecture 1.1, chapter 4, from memory).",
        example: "pciboard 1\n\
            bridge 1 on 0 dev 1 last 1 mem 80000000 800fffff\n\
            bridge 2 on 0 dev 2 last 2 mem 80000000 801fffff\n",
    },
    Page {
        code: "V4",
        fault: Fault::Tree(TreeFault::OutOfReach),
        rule: "What lies behind a bridge is reached through one of its windows: each range and each\n\
            window there lies wholly in one window of the bridge above (PCI-to-PCI Bridge\n\
            Architecture 1.1, chapter 4, from memory).",
        example: "pciboard 1\n\
            bridge 1 on 0 dev 1 last 1\n\
            target ram on 1 dev 1\n\
            range mem 80000000 00001000\n",
    },
    Page {
        code: "V5",
        fault: Fault::Tree(TreeFault::RangeInWindow),
        rule: "An address on a bus is claimed by one device: no range of a target shares one with a\n\
            window of a bridge below its bus.",
        example: "pciboard 1\n\
            bridge 1 on 0 dev 1 last 1 mem 80000000 800fffff\n\
            target ram on 0 dev 2\n\
            range mem 80000000 00001000\n",
    },
    Page {
        code: "V6",
        fault: Fault::Tree(TreeFault::RangesMeet),
        rule: "An address on a bus is claimed by one device: two ranges there of one space share none,\n\
            also two of one target.",
        example: "pciboard 1\n\
            target one on 0 dev 1\n\
            range mem 80000000 00001000\n\
            target two on 0 dev 2\n\
            range mem 80000fc0 00001000\n",
    },
    Page {
        code: "V7",
        fault: Fault::Tree(TreeFault::DevicesMeet),
        rule: "A configuration access of type 0 selects one device by its number: no two targets or\n\
            bridges on one bus have the same (PCI Local Bus 2.2, section 3.2.2.3, from memory).",
        example: "pciboard 1\n\
            target one on 0 dev 1\n\
            target two on 0 dev 1\n",
    },
    Page {
        code: "V8",
        fault: Fault::Tree(TreeFault::WritesAHeader),
        rule: "The buses and windows of a board stay as they are, so no program writes a register of a\n\
            bridge's header: no `cfw` names the bus and the device number of a bridge. Reads of\n\
            headers are served.",
        example: "pciboard 1\n\
            bridge 1 on 0 dev 1 last 1\n\
            master cpu on 0\n\
            cfw 0 1 4 00000000\n",
    },
    Page {
        code: "V9",
        fault: Fault::Bound,
        rule: "The bound of a board is the most events that a run of it can have: the sum of what its\n\
            operations cost by the length of their ways, of its stall tokens, and of its discards\n\
            and drops. It is told behind the code, and is at most 500,000.",
        example: "pciboard 1\n\
            target ram on 0 dev 1\n\
            stall 500000\n\
            range mem 00100000 00001000\n\
            master cpu on 0\n\
            mr 00100000\n",
    },
];
