use crate::{Fault, Page};
use text_faults::LineFault;

/// The pages of lines of boards, by code.
pub static LINE_PAGES: [Page; 19] = [
    Page {
        code: "L1",
        fault: Fault::Line(LineFault::BadByte),
        rule: "A line of a board text has tabs and the bytes from 20 to 7e, the printing characters of\n\
            ASCII. Its comment may have bytes from 80 to ff too, as those of UTF-8.",
        example: "pciboard 1\n\
            master caf\u{e9} on 0\n",
    },
    Page {
        code: "L2",
        fault: Fault::Line(LineFault::TooWide),
        rule: "An address, a size, a mask or a value has at most 8 hexadecimal digits (each half of one\n\
            of 64 bits too), a vendor or device identification at most 4, any other number at most\n\
            10 decimal digits. A word of digits alone that has more of them is told as this, and not\n\
            as no number (P5).",
        example: "pciboard 1\n\
            master cpu on 0\n\
            mr 123456789\n",
    },
    Page {
        code: "L3",
        fault: Fault::Line(LineFault::TooLong),
        rule: "A line of a board text has at most 256 bytes, its newline not counted. A comment counts\n\
            too.",
        example: "pciboard 1\n\
            # ------------------------------------------------------------------------------\
            --------------------------------------------------------------------------------\
            --------------------------------------------------------------------------------\
            -----------------\n",
    },
    Page {
        code: "P1",
        fault: Fault::Line(LineFault::NoFirstLine),
        rule: "The first line that has words says what the text is: `pciboard 1`, or `pciboard 2` where\n\
            addresses may have 64 bits. Blank lines and comments may stand before it.",
        example: "pciboard 3\n\
            master cpu on 0\n",
    },
    Page {
        code: "P2",
        fault: Fault::Line(LineFault::WrongWord),
        rule: "Each line begins with a word of the table of lines in docs/formats.md, and has the fixed\n\
            words of its form, such as `on` and `dev`, at their places.",
        example: "pciboard 1\n\
            target ram at 0 dev 1\n",
    },
    Page {
        code: "P3",
        fault: Fault::Line(LineFault::Missing),
        rule: "Each line has all words of its form; only the options at the end of a `bridge` or\n\
            `header` line may be left out.",
        example: "pciboard 1\n\
            master cpu on\n",
    },
    Page {
        code: "P4",
        fault: Fault::Line(LineFault::TooMany),
        rule: "A line has no word behind those of its form; behind a read `is VALUE` or `any` may\n\
            stand. The options of a `bridge` or `header` line stand in one order, each at most once,\n\
            so one that comes too late is too many as well.",
        example: "pciboard 1\n\
            master cpu on 0 now\n",
    },
    Page {
        code: "P5",
        fault: Fault::Line(LineFault::IllFormed),
        rule: "A bus is from 0 to 255 (a secondary bus from 1), a device from 0 to 31, a register from\n\
            0 to 63; a name has 1 to 16 letters, digits, `_` and `-`, a letter first; an address of\n\
            64 bits, UPPER:LOWER, is read in a `pciboard 2` text alone.",
        example: "pciboard 1\n\
            master cpu on 256\n",
    },
    Page {
        code: "P6",
        fault: Fault::Line(LineFault::Unaligned),
        rule: "The address of an operation or an opening word is a multiple of 4. Base and size of a\n\
            memory range are multiples of 64, of an I/O range of 4, and the size is not 0. A memory\n\
            window begins at a multiple of 1 MiB and ends before one, an I/O window of 4 KiB\n\
            (PCI-to-PCI Bridge Architecture 1.1, section 3.2.5, from memory).",
        example: "pciboard 1\n\
            master cpu on 0\n\
            mr 2\n",
    },
    Page {
        code: "P7",
        fault: Fault::Line(LineFault::NameUsed),
        rule: "Targets and masters have one name each, and no two of them the same.",
        example: "pciboard 1\n\
            target cpu on 0 dev 1\n\
            master cpu on 0\n",
    },
    Page {
        code: "P8",
        fault: Fault::Line(LineFault::NoOwner),
        rule: "Lines that say more of a target (`id`, `stall`, `burst`, `range`, `abort`, `word`) stand\n\
            behind its `target` line, operations behind a `master` line, with no line of another\n\
            kind between.",
        example: "pciboard 1\n\
            mr 00000000\n",
    },
    Page {
        code: "P9",
        fault: Fault::Line(LineFault::PastItsBlock),
        rule: "A write in memory has one to eight words, all in one aligned block of 64 bytes. This is\n\
            a choice of this machine, so that a burst fits the buffers of a bridge.",
        example: "pciboard 1\n\
            master cpu on 0\n\
            mw 0000003c 00000001 00000002\n",
    },
    Page {
        code: "P10",
        fault: Fault::Line(LineFault::BusUsed),
        rule: "A bridge is known by its secondary bus, and no two bridges have the same (PCI-to-PCI\n\
            Bridge Architecture 1.1, section 3.2.5.3, from memory).",
        example: "pciboard 1\n\
            bridge 1 on 0 dev 1 last 1\n\
            bridge 1 on 0 dev 2 last 1\n",
    },
    Page {
        code: "P11",
        fault: Fault::Line(LineFault::OverLimit),
        rule: "A board has at most 31 bridges, 8 of them on a bus, 8 agents on a bus; a target 6 ranges\n\
            or base address registers, 6 abort ranges, 256 opening words; a master 1,024 operations,\n\
            all together 65,536 (a poll counts its tries); 1,024 discards and 1,024 drops.",
        example: "pciboard 1\n\
            master m1 on 0\n\
            master m2 on 0\n\
            master m3 on 0\n\
            master m4 on 0\n\
            master m5 on 0\n\
            master m6 on 0\n\
            master m7 on 0\n\
            master m8 on 0\n\
            master m9 on 0\n",
    },
    Page {
        code: "P12",
        fault: Fault::Line(LineFault::PastItsSpace),
        rule: "A range ends at ffffffff at the latest (a memory range of a `pciboard 2` text at the\n\
            last address of 64 bits), and the base of a window is at most its limit. A window is\n\
            closed by `none`.",
        example: "pciboard 1\n\
            target ram on 0 dev 1\n\
            range mem ffffffc0 00000080\n",
    },
    Page {
        code: "H1",
        fault: Fault::Line(LineFault::NotTypeOne),
        rule: "The header of a bridge is of type 1: the byte at 0e, without its bit 7, is 01\n\
            (PCI-to-PCI Bridge Architecture 1.1, section 3.2, from memory).",
        example: "pciboard 1\n\
            header 1 34120001070000000000040600000000000000000000000000010200f101000000801080f0ff0000000000000000000000000000000000000000000000000000\n",
    },
    Page {
        code: "H2",
        fault: Fault::Line(LineFault::NotServed),
        rule: "The command register has its bits 0 to 2 set, and of bridge control no bit but 5, the\n\
            master abort mode, since no other is modelled: ISA enable, VGA enable and secondary\n\
            reset are not (PCI-to-PCI Bridge Architecture 1.1, section 3.2.5.18, from memory).",
        example: "pciboard 1\n\
            header 1 34120001070000000000040600000100000000000000000000010200f101000000801080f0ff0000000000000000000000000000000000000000000000000800\n",
    },
    Page {
        code: "H3",
        fault: Fault::Line(LineFault::NoBridgeNumbers),
        rule: "The bus numbers of a header are primary < secondary <= subordinate (PCI-to-PCI Bridge\n\
            Architecture 1.1, section 3.2.5, from memory).",
        example: "pciboard 1\n\
            header 1 34120001070000000000040600000100000000000000000001010200f101000000801080f0ff0000000000000000000000000000000000000000000000000000\n",
    },
    Page {
        code: "H4",
        fault: Fault::Line(LineFault::WideWindow),
        rule: "A prefetchable window that reaches 2^32 or above stands in a `pciboard 2` text alone.",
        example: "pciboard 1\n\
            header 1 34120001070000000000040600000100000000000000000000010200f1010000f0ff000001000100010000000100000000000000000000000000000000000000\n",
    },
];
