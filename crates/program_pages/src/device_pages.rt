use crate::{Fault, Page};
use text_faults::DeviceFault;

/// The pages of texts of devices, by code.
pub static DEVICE_PAGES: [Page; 6] = [
    Page {
        code: "Q1",
        fault: Fault::Device(DeviceFault::Misshapen),
        rule: "A device text is the line `pcidevices 1`, a board text, the line `devices`, the lines of\n\
            devices, and `end` as the last line with words. A `put`, `get` or `send` stands behind a\n\
            `device` line, a `look` behind a `handler` line, a `wait` or `word` behind either, and each\n\
            line has just the words of its form, with numbers in their ranges.",
        example: "pcidevices 1\n\
            pciboard 1\n\
            target box on 0 dev 1\n\
            range mem 20000000 00000040\n\
            master cpu on 0\n\
            mw 20000000 00000001\n\
            devices\n\
            device eng on box bell 20000000 00000001 9\n\
            look 20000004\n\
            end\n",
    },
    Page {
        code: "Q2",
        fault: Fault::Device(DeviceFault::Misplaced),
        rule: "The address of a flag, a read, a message or a word is a multiple of 4. The bytes of a `put`\n\
            may begin anywhere, and end at ffffffff at the latest.",
        example: "pcidevices 1\n\
            pciboard 1\n\
            target box on 0 dev 1\n\
            range mem 20000000 00000040\n\
            master cpu on 0\n\
            mw 20000000 00000001\n\
            devices\n\
            device eng on box bell 20000002 00000001 9\n\
            end\n",
    },
    Page {
        code: "Q3",
        fault: Fault::Device(DeviceFault::NameUsed),
        rule: "A device or handler is a master: its name has 1 to 16 letters, digits, `_` and `-`, a\n\
            letter first, and no target or master has it already.",
        example: "pcidevices 1\n\
            pciboard 1\n\
            target box on 0 dev 1\n\
            range mem 20000000 00000040\n\
            master cpu on 0\n\
            mw 20000000 00000001\n\
            devices\n\
            device cpu on box bell 20000000 00000001 9\n\
            end\n",
    },
    Page {
        code: "Q4",
        fault: Fault::Device(DeviceFault::NotThere),
        rule: "A device sits on the bus of the target that it names, a handler on a bus: bus 0, or the\n\
            bus behind a bridge of the board.",
        example: "pcidevices 1\n\
            pciboard 1\n\
            target box on 0 dev 1\n\
            range mem 20000000 00000040\n\
            master cpu on 0\n\
            mw 20000000 00000001\n\
            devices\n\
            device eng on disk bell 20000000 00000001 9\n\
            end\n",
    },
    Page {
        code: "Q5",
        fault: Fault::Device(DeviceFault::OverLimit),
        rule: "A line stands for a master or for operations, of which a board has at most: 8 agents on a\n\
            bus, 1,024 operations of a master, 65,536 in all (a poll counts its tries).",
        example: "pcidevices 1\n\
            pciboard 1\n\
            target box on 0 dev 1\n\
            range mem 20000000 00000040\n\
            master cpu on 0\n\
            mw 20000000 00000001\n\
            devices\n\
            device e1 on box bell 20000000 00000001 40000\n\
            handler h1 on 0 wait 20000000 00000001 40000\n\
            end\n",
    },
    Page {
        code: "Q6",
        fault: Fault::Device(DeviceFault::NotClear),
        rule: "Each `bell` and `wait` names a flag. It is clear where a poll for it can be met only by the\n\
            one write that raises it: its address lies in a memory range of just one target, which does\n\
            not abort there and does not open with the value; every data phase written there has all\n\
            bytes enabled; and just one has the value, the only one of its write.",
        example: "pcidevices 1\n\
            pciboard 1\n\
            target box on 0 dev 1\n\
            range mem 20000000 00000040\n\
            master cpu on 0\n\
            mw 20000000 00000001\n\
            devices\n\
            device eng on box bell 20000000 00000002 9\n\
            end\n",
    },
];
