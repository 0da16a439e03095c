/// What there is to say of something that is no word of the program.
#[derive(Clone, Copy, Debug)]
pub struct Topic {
    pub word: &'static str,
    pub text: &'static str,
    /// The word of the program whose help ends with it.
    pub behind: Option<&'static str>,
}

/// These topics.
pub static TOPICS: [Topic; 5] = [
    Topic {
        word: "board",
        text: BOARD,
        behind: None,
    },
    Topic {
        word: "trace",
        text: TRACE,
        behind: None,
    },
    Topic {
        word: "device",
        text: DEVICE,
        behind: Some("devices"),
    },
    Topic {
        word: "log",
        text: LOG,
        behind: Some("observe"),
    },
    Topic {
        word: "status",
        text: STATUS,
        behind: None,
    },
];

const BOARD: &str = "pcitree help board: the lines of a board file\n\
    \n\
    \x20 pciboard 1                   the first line (pciboard 2: 64-bit addresses,\n\
    \x20                              written UPPER:LOWER)\n\
    \x20 bridge B on Q dev D last S   a bridge from bus Q down to bus B; S is the last\n\
    \x20                              bus below it. Then, in this order:\n\
    \x20     mem BASE LIMIT, pref BASE LIMIT, io BASE LIMIT, posted 1..8,\n\
    \x20     delayed 1..8, abort 0|1\n\
    \x20 header D BYTES               a bridge, by the 64 bytes of its header; then\n\
    \x20                              posted, delayed\n\
    \x20 target NAME on B dev D       a device that answers; then its lines:\n\
    \x20     range mem|io BASE SIZE   what it claims\n\
    \x20     abort mem|io BASE SIZE   where it answers with Target-Abort\n\
    \x20     word mem|io ADDR VALUE   the initial value of a dword\n\
    \x20     id VENDOR DEVICE, stall COUNT, burst 1..8\n\
    \x20 master NAME on B             a program; then its operations, in order:\n\
    \x20     mr ADDR, mrl ADDR, mrm ADDR, ior ADDR              read\n\
    \x20     mw ADDR WORD .., mwi ADDR WORD .., iow ADDR WORD   write (WORD/E: only\n\
    \x20                              the bytes that E enables)\n\
    \x20     poll ADDR MASK VALUE TRIES, iopoll ..              read until it is VALUE\n\
    \x20     pollnot ADDR MASK VALUE TRIES, iopollnot ..        until it is another\n\
    \x20     cfr B D REG, cfw B D REG WORD                      configuration\n\
    \x20     behind a read: is VALUE (what it should return), or any; neither is\n\
    \x20                              part of the board\n\
    \x20 discard B down|up K          the K-th completion there is lost\n\
    \x20 drop B down|up K             the K-th request there is lost\n\
    \n\
    Addresses, sizes, masks and values: hexadecimal, 1 to 8 digits, without 0x.\n\
    Other numbers: decimal. A range has a base and a size, a window a base and a\n\
    limit. NAME: 1 to 16 letters, digits, _ and -, beginning with a letter. A\n\
    comment begins with #, and only it may have bytes outside ASCII. A line has\n\
    at most 256 bytes and ends with a newline.\n\
    \n\
    Example:\n\
    \n\
    pciboard 1\n\
    bridge 1 on 0 dev 1 last 1\n\
    target ram on 0 dev 2\n\
    range mem 00100000 00001000\n\
    master nic on 1\n\
    mw 00100000 0000002a\n\
    mw 00100040 00000001\n\
    master cpu on 0\n\
    poll 00100040 ffffffff 00000001 100\n\
    mr 00100000\n";

const TRACE: &str = "pcitree help trace: the lines of a trace\n\
    \n\
    pcitrace 1, a board, events, one line per event, end N (the number of events).\n\
    After events: no comments, single spaces. L is a lane: 1d down through bridge 1,\n\
    1u up. BY is m for a master, or the lane that presents the item. OP is\n\
    NAME.INDEX, of a poll NAME.INDEX.TRY, each from 0. HEX has 8 lower-case digits.\n\
    \n\
    \x20 BUS arrive L               the oldest item in L arrives (then discard or drop,\n\
    \x20                            if the board says so)\n\
    \x20 BUS land BY OP TARGET      the target takes a write\n\
    \x20 BUS part BY OP TARGET N    the target takes N dwords of it\n\
    \x20 BUS read BY OP TARGET HEX  the target returns a value; =B: header of bridge B\n\
    \x20 BUS accept BY OP L         the bridge posts a write\n\
    \x20 BUS latch BY OP L          the bridge keeps a delayed request\n\
    \x20 BUS take BY OP L OUTCOME   the bridge gives the completion: HEX, ok or abort\n\
    \x20 BUS stall BY OP TARGET     Retry by a target\n\
    \x20 BUS tabort BY OP TARGET    Target-Abort\n\
    \x20 BUS nobody BY OP           Master-Abort: no device claims the address\n\
    \n\
    A Retry by a bridge is not an event. A trace has at most 500,000 events and\n\
    64 MiB.\n\
    \n\
    Example:\n\
    \n\
    pcitrace 1\n\
    pciboard 1\n\
    target ram on 0 dev 1\n\
    range mem 00100000 00001000\n\
    master cpu on 0\n\
    mw 00100040 0000002a\n\
    mr 00100040\n\
    events\n\
    0 land m cpu.0 ram\n\
    0 read m cpu.1 ram 0000002a\n\
    end 2\n";

const DEVICE: &str = "pcitree help device: the lines of a device file\n\
    \n\
    pcidevices 1, a board, devices, these lines, end. Each device and each handler\n\
    is one more master; its lines are its operations.\n\
    \n\
    \x20 device NAME on TARGET bell ADDR VALUE TRIES\n\
    \x20                              on the bus of TARGET; first waits for its bell:\n\
    \x20                              until the dword at ADDR is VALUE\n\
    \x20     put ADDR LENGTH SEED     DMA: LENGTH bytes (decimal) SEED, SEED + 1, ..\n\
    \x20                              in blocks of 32\n\
    \x20     send ADDR DATA VECTORS V a message: one dword, vector V of VECTORS in the\n\
    \x20                              low bits of DATA\n\
    \x20     get ADDR                 reads a dword (then is VALUE or any, as a read\n\
    \x20                              of a board)\n\
    \x20 handler NAME on BUS wait ADDR VALUE TRIES\n\
    \x20                              on that bus; first waits for the message\n\
    \x20     look ADDR                reads a dword (the same)\n\
    \x20 wait ADDR VALUE TRIES        in either: waits again\n\
    \x20 word ADDR VALUE              in either: writes a dword\n\
    \n\
    What is waited for must not be the initial value, and exactly one write must\n\
    store it: of the full dword, in a write of its own. LENGTH is 1 to 4096, TRIES 1\n\
    to 65536, VECTORS 1, 2, 4, 8, 16 or 32, V below VECTORS. Each ADDR except that\n\
    of put is a multiple of 4.\n\
    \n\
    Example:\n\
    \n\
    pcidevices 1\n\
    pciboard 1\n\
    bridge 1 on 0 dev 1 last 1 mem 80000000 800fffff\n\
    bridge 2 on 0 dev 4 last 2\n\
    target ram on 0 dev 2\n\
    stall 1\n\
    range mem 00100000 00100000\n\
    target apic on 0 dev 3\n\
    range mem fee00000 00000040\n\
    target nic on 1 dev 0\n\
    range mem 80000000 00000040\n\
    master cpu on 0\n\
    mw 00100000 00120001 00000028\n\
    mw 80000000 00000001\n\
    devices\n\
    device eng on nic bell 80000000 00000001 9\n\
    get 00100000\n\
    put 00120001 40 c0\n\
    send fee00000 4040 4 2\n\
    handler irq on 2 wait fee00000 00004042 40\n\
    look 00120000\n\
    look 00120028\n\
    end\n";

const LOG: &str = "pcitree help log: the lines of a log\n\
    \n\
    pcilog 1, a board without operations, log, one line per transaction that was\n\
    seen on a bus, end. A monitor on each bus of a simulation prints them\n\
    (monitors/pci_log.v, docs/rtl.md).\n\
    \n\
    \x20 START-END BUS WHO COMMAND ADDRESS WORD.. RESULT\n\
    \n\
    \x20 START-END  when the address phase began and when the transaction ended:\n\
    \x20            decimals of 1 to 18 digits, in any unit; START alone means\n\
    \x20            START-START\n\
    \x20 BUS WHO    the bus; a master on it, or the lane that ends there: 1d down\n\
    \x20            through bridge 1, 1u up\n\
    \x20 COMMAND    read: mr mrl mrm ior cfr; write: mw mwi iow cfw\n\
    \x20 ADDRESS    a multiple of 4; of cfr and cfw DEVICE.REG (type 0; - for DEVICE if\n\
    \x20            no IDSEL was active) or BUS.DEVICE.REG\n\
    \x20 WORD..     what was transferred, one word per data phase, WORD/E with its\n\
    \x20            enables. If nothing was: of iow and cfw what was offered; of mw and\n\
    \x20            mwi with retry what was offered first, or none; otherwise none\n\
    \x20 RESULT     done: data was transferred, whoever ended it; retry;\n\
    \x20            tabort: Target-Abort; nobody: Master-Abort\n\
    \n\
    The lines of one bus are in order, and none begins before the previous one\n\
    ended. Lines of different buses may be in any order. At the beginning bridges\n\
    are empty, and memory may hold anything; a log may end anywhere. Omit interrupt\n\
    acknowledge, special cycles and reserved commands.\n\
    \n\
    The board has no stall and burst lines: the log shows both. If you do not know\n\
    how much a bridge holds, write posted 8 delayed 8. Comments, spaces and line\n\
    lengths are as in a board. A log has at most 64 MiB.\n\
    \n\
    Example:\n\
    \n\
    pcilog 1\n\
    pciboard 1\n\
    bridge 1 on 0 dev 1 last 1 mem 80000000 800fffff\n\
    target card on 1 dev 1\n\
    range mem 80000000 00001000\n\
    master cpu on 0\n\
    log\n\
    30-90 0 cpu mr 80000040 retry\n\
    60-120 1 1d mr 80000040 0000002a done\n\
    150-210 0 cpu mr 80000040 0000002a done\n\
    end\n";

const STATUS: &str = "pcitree help status: exit statuses\n\
    \n\
    0   done\n\
    1   out of memory\n\
    2   usage error\n\
    3   the input could not be read\n\
    4   the output could not be written\n\
    5   too long, too much to draw, or more in a log than a board may have\n\
    6   an error in a board, a device file or an lspci text\n\
    7   an error in a trace or a log\n\
    8   an event, or what a line of a log shows, is not allowed\n\
    9   the run has not ended\n\
    10  not safe\n\
    11  no adverse run was found\n";
