use crate::{Fault, Page};
use text_faults::LspciFault;

/// The pages of what `lspci` wrote, by code.
pub static MACHINE_PAGES: [Page; 5] = [
    Page {
        code: "I1",
        fault: Fault::Machine(LspciFault::NoSlot),
        rule: "What `lspci -vvxxx` wrote has a slot line for each function: bus, device and function as\n\
            `bb:dd.f`, maybe behind a domain, and its name.",
        example: "this is no slot line\n",
    },
    Page {
        code: "I2",
        fault: Fault::Machine(LspciFault::Repeated),
        rule: "Each function is told of once.",
        example: "00:01.0 VGA compatible controller\n\
            00: 34 12 11 11 00 00 00 00 00 00 00 03 00 00 00 00\n\
            10: 00 00 00 00 00 00 00 00 00 00 00 00 00 00 00 00\n\
            20: 00 00 00 00 00 00 00 00 00 00 00 00 00 00 00 00\n\
            30: 00 00 00 00 00 00 00 00 00 00 00 00 00 00 00 00\n\
            \n\
            00:01.0 VGA compatible controller\n",
    },
    Page {
        code: "I3",
        fault: Fault::Machine(LspciFault::NoRow),
        rule: "Each function has the rows 00, 10, 20 and 30 of its configuration header, as `lspci` writes\n\
            them with `-x`: as root also where the header is not open to others.",
        example: "00:01.0 VGA compatible controller\n\
            00: 34 12 11 11 00 00 00 00 00 00 00 03 00 00 00 00\n",
    },
    Page {
        code: "I4",
        fault: Fault::Machine(LspciFault::HighDevice),
        rule: "A device number, `dd` of the slot line `bb:dd.f`, is from 00 to 1f: a bus has\n\
            no more devices.",
        example: "00:20.0 Memory controller\n\
            00: 34 12 01 00 07 00 00 00 00 00 80 05 00 00 00 00\n\
            10: 00 00 00 10 00 00 00 00 00 00 00 00 00 00 00 00\n\
            20: 00 00 00 00 00 00 00 00 00 00 00 00 00 00 00 00\n\
            30: 00 00 00 00 00 00 00 00 00 00 00 00 00 00 00 00\n",
    },
    Page {
        code: "I5",
        fault: Fault::Machine(LspciFault::NoBoard),
        rule: "What `import` is about to write is read before it is written: it has to be\n\
            the text of a valid board, of at most 1 MiB, since no other text is read. The\n\
            comments on thousands of functions can be longer than that. No example of a few\n\
            lines is known.",
        example: "",
    },
];
