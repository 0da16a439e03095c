use crate::{Fault, Page};
use history_model::Why;
use text_faults::TraceLineFault;

/// The pages of traces, by code.
pub static TRACE_PAGES: [Page; 13] = [
    Page {
        code: "X1",
        fault: Fault::Trace(TraceLineFault::NoFirstLine),
        rule: "A trace text begins with the line `pcitrace 1`, of exactly these bytes. The board\n\
            follows it.",
        example: "pciboard 1\n\
            target ram on 0 dev 1\n\
            range mem 00100000 00001000\n",
    },
    Page {
        code: "X2",
        fault: Fault::Trace(TraceLineFault::NoEventsLine),
        rule: "Behind its board a trace has the line `events`, of exactly these bytes. The line that is\n\
            told is one past the last.",
        example: "pcitrace 1\n\
            pciboard 1\n\
            end 0\n",
    },
    Page {
        code: "X3",
        fault: Fault::Trace(TraceLineFault::Unreadable),
        rule: "A line behind `events` has at most 256 bytes, each from 20 to 7e: no tabs stand there.",
        example: "pcitrace 1\n\
            pciboard 1\n\
            target ram on 0 dev 1\n\
            range mem 00100000 00001000\n\
            master cpu on 0\n\
            mw 00100040 0000002a\n\
            mr 00100040\n\
            events\n\
            0 land m\tcpu.0 ram\n\
            end 1\n",
    },
    Page {
        code: "X4",
        fault: Fault::Trace(TraceLineFault::NoKind),
        rule: "The second word of a line behind `events` is `arrive`, `land`, `part`, `read`, `accept`,\n\
            `latch`, `take`, `stall`, `tabort` or `nobody`, or the line is `end` and the number of\n\
            events.",
        example: "pcitrace 1\n\
            pciboard 1\n\
            target ram on 0 dev 1\n\
            range mem 00100000 00001000\n\
            master cpu on 0\n\
            mw 00100040 0000002a\n\
            mr 00100040\n\
            events\n\
            0 write m cpu.0 ram\n\
            end 1\n",
    },
    Page {
        code: "X5",
        fault: Fault::Trace(TraceLineFault::Misshapen),
        rule: "The lines behind `events` are read only as they are printed: each word of the form, none\n\
            more, single spaces between them and none before or behind.",
        example: "pcitrace 1\n\
            pciboard 1\n\
            target ram on 0 dev 1\n\
            range mem 00100000 00001000\n\
            master cpu on 0\n\
            mw 00100040 0000002a\n\
            mr 00100040\n\
            events\n\
            0 land  m cpu.0 ram\n\
            end 1\n",
    },
    Page {
        code: "X6",
        fault: Fault::Trace(TraceLineFault::Unknown),
        rule: "A bus, a lane, a target and an operation of an event line are those of the board,\n\
            numbers are decimal without leading zeros, values have eight lower-case digits, and the\n\
            bus of an arrival is the one at the end of its lane.",
        example: "pcitrace 1\n\
            pciboard 1\n\
            target ram on 0 dev 1\n\
            range mem 00100000 00001000\n\
            master cpu on 0\n\
            mw 00100040 0000002a\n\
            mr 00100040\n\
            events\n\
            0 land m cpu.0 rom\n\
            end 1\n",
    },
    Page {
        code: "X7",
        fault: Fault::Trace(TraceLineFault::WrongCount),
        rule: "The last line is `end` and the number of the event lines. Where it is missing, the line\n\
            that is told is one past the last.",
        example: "pcitrace 1\n\
            pciboard 1\n\
            target ram on 0 dev 1\n\
            range mem 00100000 00001000\n\
            master cpu on 0\n\
            mw 00100040 0000002a\n\
            mr 00100040\n\
            events\n\
            0 land m cpu.0 ram\n\
            end 2\n",
    },
    Page {
        code: "X8",
        fault: Fault::Trace(TraceLineFault::BehindEnd),
        rule: "Nothing stands behind the `end` line, not even an empty line.",
        example: "pcitrace 1\n\
            pciboard 1\n\
            target ram on 0 dev 1\n\
            range mem 00100000 00001000\n\
            master cpu on 0\n\
            mw 00100040 0000002a\n\
            mr 00100040\n\
            events\n\
            0 land m cpu.0 ram\n\
            end 1\n\
            \n",
    },
    Page {
        code: "N1",
        fault: Fault::Cause(Why::NotPresented),
        rule: "A master presents its turn: the first operation of its program that has not ended, on\n\
            its own bus. A lane presents on the bus at its end what stands there and may go before\n\
            all that is older (the ordering table; PCI Local Bus 2.2, appendix E, from memory).",
        example: "pcitrace 1\n\
            pciboard 1\n\
            target ram on 0 dev 1\n\
            range mem 00100000 00001000\n\
            master cpu on 0\n\
            mw 00100040 0000002a\n\
            mr 00100040\n\
            events\n\
            0 read m cpu.1 ram 00000000\n\
            end 1\n",
    },
    Page {
        code: "N2",
        fault: Fault::Cause(Why::AnsweredOtherwise),
        rule: "What a transaction comes to is decided by who claims it and by what happened before:\n\
            another step, another value or another place than the event says.",
        example: "pcitrace 1\n\
            pciboard 1\n\
            target ram on 0 dev 1\n\
            range mem 00100000 00001000\n\
            master cpu on 0\n\
            mw 00100040 0000002a\n\
            mr 00100040\n\
            events\n\
            0 land m cpu.0 ram\n\
            0 read m cpu.1 ram 0000002b\n\
            end 2\n",
    },
    Page {
        code: "N3",
        fault: Fault::Cause(Why::GetsRetry),
        rule: "A bridge answers with Retry, which is no event, while it has no credit for a posted\n\
            write, no slot for a delayed request, or no completion that may be given yet (PCI Local\n\
            Bus 2.2, section 3.3.3.3, from memory).",
        example: "pcitrace 1\n\
            pciboard 1\n\
            bridge 1 on 0 dev 1 last 1 mem 80000000 800fffff posted 1\n\
            target ram on 1 dev 1\n\
            range mem 80000000 00001000\n\
            master a on 0\n\
            mw 80000000 00000001\n\
            master b on 0\n\
            mw 80000000 00000002\n\
            events\n\
            0 accept m a.0 1d\n\
            0 accept m b.0 1d\n\
            end 2\n",
    },
    Page {
        code: "N4",
        fault: Fault::Cause(Why::NothingInFlight),
        rule: "An arrival is that of the oldest item in flight on its lane: something went into the\n\
            lane before and has not arrived.",
        example: "pcitrace 1\n\
            pciboard 1\n\
            bridge 1 on 0 dev 1 last 1\n\
            events\n\
            1 arrive 1d\n\
            end 1\n",
    },
    Page {
        code: "N5",
        fault: Fault::Cause(Why::MarkedOtherwise),
        rule: "The completions that are discarded and the requests that are dropped are those that the\n\
            `discard` and `drop` lines of the board count, and no others. Each such arrival is\n\
            marked.",
        example: "pcitrace 1\n\
            pciboard 1\n\
            bridge 1 on 0 dev 1 last 1 mem 80000000 800fffff\n\
            master cpu on 0\n\
            mr 80000000\n\
            drop 1 down 1\n\
            events\n\
            0 latch m cpu.0 1d\n\
            1 arrive 1d\n\
            end 2\n",
    },
];
