use crate::{Fault, Page};
use program_status::LogExcess;
use text_faults::LogLineFault;

/// The pages of logs, by code.
pub static LOG_PAGES: [Page; 10] = [
    Page {
        code: "G1",
        fault: Fault::Log(LogLineFault::NoFirstLine),
        rule: "A log is the line `pcilog 1`, a board text, the line `log`, the lines of what was \
            seen, and `end`\n\
            as the last line with words, so that a log that was cut off is not taken for a whole \
            one. Where\n\
            `log` or `end` is missing, the line that is told is one past the last. Look whether \
            the test bench\n\
            printed `end` before it ended the simulation.",
        example: "pciboard 1\n\
            master cpu on 0\n\
            log\n\
            30-90 0 cpu mr 00000040 nobody\n\
            end\n",
    },
    Page {
        code: "G2",
        fault: Fault::Log(LogLineFault::Misread),
        rule: "A line of a log is START-END BUS WHO COMMAND ADDRESS WORD.. RESULT, in at most \
            256 bytes.\n\
            START is not above END, COMMAND is one of mr, mrl, mrm, ior, cfr, mw, mwi, iow and \
            cfw, ADDRESS is\n\
            a multiple of 4, and RESULT is done, retry, tabort or nobody. A WORD stands where \
            data was\n\
            transferred, and of a write where it was offered. A monitor that finds no end of a \
            transaction, or\n\
            an x on the bus, prints a word that is none of these: look at that time in the \
            simulation. A burst\n\
            of more than some 20 dwords is printed as several lines, as monitors/pci_log.v does.",
        example: "pcilog 1\n\
            pciboard 1\n\
            master cpu on 0\n\
            log\n\
            30-90 0 cpu mr 00000042 nobody\n\
            end\n",
    },
    Page {
        code: "G3",
        fault: Fault::Log(LogLineFault::NotThere),
        rule: "A bus is driven by the masters that the board has on it, and by its bridges: on \
            the primary bus of\n\
            bridge 1 by the lane 1u, which goes up and ends there, on its secondary bus by 1d. A \
            monitor\n\
            prints ? where not just one had GNT# when the transaction began. Look at the names \
            that the\n\
            monitor of this bus was given (WHO), which stand in the order of GNT#, and at the \
            board.",
        example: "pcilog 1\n\
            pciboard 1\n\
            bridge 1 on 0 dev 1 last 1\n\
            master cpu on 0\n\
            log\n\
            30-90 0 1d mr 00000040 nobody\n\
            end\n",
    },
    Page {
        code: "G4",
        fault: Fault::Log(LogLineFault::TooEarly),
        rule: "One bus carries one transaction at a time, and its lines stand in the order in \
            which it carried\n\
            them. Lines of several buses may stand in any order, so that logs may be put one \
            behind the\n\
            other. Look whether two monitors print the same number of a bus, or whether the \
            lines were sorted.",
        example: "pcilog 1\n\
            pciboard 1\n\
            master cpu on 0\n\
            log\n\
            30-90 0 cpu mr 00000040 nobody\n\
            60-120 0 cpu mr 00000044 nobody\n\
            end\n",
    },
    Page {
        code: "G5",
        fault: Fault::Log(LogLineFault::NoSuchData),
        rule: "Where the result is done, each data phase has its word, and there is one at \
            least. A write of I/O\n\
            or configuration has its word however it ended, since it is known by what is \
            written; nothing of\n\
            I/O or configuration has two. A burst ends at the last address of its \
            space, which has 64\n\
            bits.",
        example: "pcilog 1\n\
            pciboard 1\n\
            master cpu on 0\n\
            log\n\
            30-90 0 cpu mr 00000040 done\n\
            end\n",
    },
    Page {
        code: "O1",
        fault: Fault::NoAct,
        rule: "A bridge drives memory writes that were posted into it, data phase by data phase \
            with the address,\n\
            the word and the enables that came, and requests that a master, or the bridge before \
            it, is asking\n\
            of it at that time (PCI Local Bus 2.2, section 3.3.3.3, from memory). Of this line \
            no data phase or\n\
            request like it is there. It was changed in the bridge, or invented, sent twice, or \
            asked for\n\
            before anybody wanted it; or a bus, a master or a transaction is missing in the log. \
            A bridge that\n\
            merges bytes or leaves out data phases without enables gets this too: that is not \
            told here.",
        example: "pcilog 1\n\
            pciboard 1\n\
            bridge 1 on 0 dev 1 last 1\n\
            target ram on 0 dev 2\n\
            range mem 00100000 00001000\n\
            master nic on 1\n\
            log\n\
            30-90 1 nic mw 00100000 0000002a done\n\
            120-180 0 1u mw 00100000 0000002b done\n\
            end\n",
    },
    Page {
        code: "O2",
        fault: Fault::Excess(LogExcess::Operations),
        rule: "What was seen is written as the programs of a board, and a board has limits \
            (P11): 8 agents on a\n\
            bus, where each thread of a master counts as one, 1,024 operations of a master, \
            65,536 in all, 256\n\
            dwords of a target that are read before they are written. This says nothing about \
            the bridge. Cut\n\
            the log where all bridges are empty: each part is a log of its own, and memory may \
            hold anything at\n\
            its beginning.",
        example: "pcilog 1\n\
            pciboard 1\n\
            bridge 1 on 0 dev 1 last 1 mem 80000000 800fffff delayed 8\n\
            bridge 2 on 0 dev 2 last 2 mem 90000000 900fffff\n\
            master cpu on 0\n\
            log\n\
            0 0 cpu mr 80000000 retry\n\
            0 0 cpu mr 80000004 retry\n\
            0 0 cpu mr 80000008 retry\n\
            0 0 cpu mr 8000000c retry\n\
            0 0 cpu mr 80000010 retry\n\
            0 0 cpu mr 90000000 retry\n\
            0 0 cpu mr 90000004 retry\n\
            0 0 cpu mr 90000008 retry\n\
            0 0 cpu mr 9000000c retry\n\
            1 1 1d mr 80000000 nobody\n\
            1 1 1d mr 80000004 nobody\n\
            1 1 1d mr 80000008 nobody\n\
            1 1 1d mr 8000000c nobody\n\
            1 1 1d mr 80000010 nobody\n\
            1 2 2d mr 90000000 nobody\n\
            1 2 2d mr 90000004 nobody\n\
            1 2 2d mr 90000008 nobody\n\
            1 2 2d mr 9000000c nobody\n\
            end\n",
    },
    Page {
        code: "O3",
        fault: Fault::Excess(LogExcess::Pieces),
        rule: "A bridge of this machine holds at most 8 posted writes in each direction, of at \
            most 8 dwords in\n\
            one block of 64 bytes, and 8 delayed requests. A burst counts as several writes \
            where it passes\n\
            such a block, goes on behind eight dwords, or was cut by a Disconnect somewhere on \
            its way. So\n\
            `posted 8` and `delayed 8` say at least 8: a bridge with larger buffers can hold \
            more, and is\n\
            right; this machine cannot follow it. A bridge whose line says less is refused (N3). \
            Try shorter\n\
            bursts, targets that disconnect less often, or fewer masters at once.",
        example: "pcilog 1\n\
            pciboard 1\n\
            bridge 1 on 0 dev 1 last 1 posted 8\n\
            master nic on 1\n\
            log\n\
            0 1 nic mw 0000003c 00000001 00000002 done\n\
            1 1 nic mw 0000003c 00000001 00000002 done\n\
            2 1 nic mw 0000003c 00000001 00000002 done\n\
            3 1 nic mw 0000003c 00000001 00000002 done\n\
            4 1 nic mw 0000003c 00000001 00000002 done\n\
            end\n",
    },
    Page {
        code: "O4",
        fault: Fault::Excess(LogExcess::Events),
        rule: "A run has at most 500,000 events (V9). This says nothing about the bridge. Cut \
            the log where all\n\
            bridges are empty: each part is a log of its own, and memory may hold anything at \
            its beginning. No\n\
            example of a few lines is known.",
        example: "",
    },
    Page {
        code: "O5",
        fault: Fault::Excess(LogExcess::Pairings),
        rule: "Where several masters ask a bridge for the same word at one time, no line says \
            whose request it\n\
            carried out. All pairings are tried in turn, the likely ones first, and after 20,000 \
            steps it is\n\
            given up: it was not found out whether this is a run. Mostly something is wrong with \
            what was\n\
            seen, since of a run one of the first fits. Let the masters of the test ask for \
            different words, or\n\
            cut the log where nothing is open. No example of a few lines is known.",
        example: "",
    },
];
