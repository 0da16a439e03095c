//! The table of words: each form in which the program is called, as what its input is read, how
//! long that may be, and what the help says of it.
#![tactic(auto)]

ghost use Rattle.std.specs.Prelude.{◌≡◌, ◌≤◌, ◌<◌, ◌^◌, map, length};
ghost use Rattle.program_words.specs.Shapes.{shape_of, shown_as, parts_of, input_limit, lets_go};

mod called;
mod files;
mod help;

pub use called::Called;
pub use files::{FileName, OneCall, Several, files_of, name_input};
pub use help::{Help, OWN_WORDS, UsageHelp, VERSION, WordHelp, usage_help, word_help};
use history_model::Rule;

/// What a word has to be.
#[derive(Clone, Copy, Debug, PartialEq, Eq)]
pub enum Part {
    /// Just this word.
    Word(&'static str),
    /// A word that is not empty and does not begin with `-`: it names the file.
    File,
    /// The same, of a log.
    Log,
    /// A number of rounds: a decimal of 1 to 10 digits, from 1 to 300. No file is read.
    Rounds,
    /// The number of an event: a decimal of 1 to 10 digits, from 1 on.
    First,
    /// The same, and not below the word before it.
    Last,
    /// An operation, such as `cpu.1`: a master's name and an index. What it is called is shown.
    Operation(&'static str),
}

/// What the words ask for.
#[derive(Clone, Copy, Debug, PartialEq, Eq)]
pub enum Form {
    Safe,
    Adverse,
    Run,
    RunSteady,
    Headers,
    Check,
    Finish,
    Fill,
    Observe,
    ObserveActs,
    Audit,
    Report,
    Waves,
    Draw,
    DrawRows,
    DrawOperation,
    Untagged,
    Combine,
    Generate,
    Devices,
    Import,
    Tree,
}

/// As what the input is read.
#[derive(Clone, Copy, Debug, PartialEq, Eq)]
pub enum Reads {
    /// As a board text.
    Board,
    /// As a board text or, by its first line, the text of devices on a board.
    Protocol,
    /// As a trace, whose events are judged by this rule of the bridge.
    Trace(Rule),
    /// As a trace, whose arrivals are put anew.
    Filled,
    /// As a log.
    Log,
    /// As what `lspci` wrote of a machine.
    Lspci,
    /// As the number among the words: no file is read.
    Number,
}

/// What a form is for: under which heading the help has it.
#[derive(Clone, Copy, Debug, PartialEq, Eq)]
pub enum Group {
    EveryRun,
    MakeRun,
    JudgeRun,
    LookAtRun,
    Boards,
}

/// A row of the table of words.
#[derive(Clone, Copy, Debug)]
pub struct FormRow {
    /// The words, one by one.
    pub parts: &'static [Part],
    /// What it is for.
    pub group: Group,
    /// Whether the program answers several files, one by one.
    pub each: bool,
    /// As what the input is read.
    pub reads: Reads,
    /// How many bytes the input may have.
    pub limit: usize,
    /// Whether the bytes of the input are let go as soon as it is read.
    pub lets_go: bool,
    /// What is done, in one line.
    pub line: &'static str,
    /// What there is more to say of it.
    pub more: &'static str,
}

/// A board text may have 1 MiB.
const BOARD: usize = 0x10_0000;

/// A trace text or a log may have 64 MiB.
const TRACE: usize = 0x400_0000;

/// A number may have 10 digits.
const NUMBER: usize = 10;

/// All forms, in the order in which they are told.
pub const FORMS: [Form; 22] = [
    Form::Safe,
    Form::Adverse,
    Form::Run,
    Form::RunSteady,
    Form::Devices,
    Form::Check,
    Form::Fill,
    Form::Observe,
    Form::ObserveActs,
    Form::Finish,
    Form::Audit,
    Form::Report,
    Form::Draw,
    Form::DrawRows,
    Form::DrawOperation,
    Form::Waves,
    Form::Untagged,
    Form::Tree,
    Form::Headers,
    Form::Combine,
    Form::Import,
    Form::Generate,
];

const SAFE: FormRow = FormRow {
    parts: &[Part::Word("safe"), Part::File],
    group: Group::EveryRun,
    each: true,
    reads: Reads::Protocol,
    limit: BOARD,
    lets_go: false,
    line: "what each read returns, and what may go wrong",
    more: "For each read of a dword that a run can reach: `OP safe TARGET SPACE ADDR\n\
        VALUE`, it returns VALUE in every run in which it completes; or `OP unsafe\n\
        TARGET SPACE ADDR beside OP`, nothing orders the two. Writes that no target\n\
        takes are `lost`, reads and polls that no target takes `nobody` or `abort`,\n\
        polls that nothing can satisfy `vain`, polls that can be satisfied without the\n\
        write that is meant `loose`. The last line counts (`nowhere`: reads and polls\n\
        that no target takes); if a count is not 0 the status is 10. Whether the\n\
        programs end is not said. `adverse FILE OP OP` writes a run of an unsafe line.\n\
        Several files are judged one by one, each after a line FILE: the status is the\n\
        lowest that is not 0.",
};

const ADVERSE: FormRow = FormRow {
    parts: &[
        Part::Word("adverse"),
        Part::File,
        Part::Operation("READ"),
        Part::Operation("WRITE"),
    ],
    group: Group::EveryRun,
    each: false,
    reads: Reads::Protocol,
    limit: BOARD,
    lets_go: false,
    line: "writes a run in which READ comes before WRITE",
    more: "READ and WRITE are operations such as cpu.1, usually those of an `unsafe` line\n\
        of `safe`. Writes the trace of a complete run in which READ is read before WRITE\n\
        has landed. If the schedule that is tried has no such run the status is 11, and\n\
        nothing is written: that shows nothing about other runs.",
};

const RUN: FormRow = FormRow {
    parts: &[Part::Word("run"), Part::File],
    group: Group::MakeRun,
    each: false,
    reads: Reads::Board,
    limit: BOARD,
    lets_go: false,
    line: "runs a board to its end and writes the trace",
    more: "Each bus of a valid board is run by a worker of its own, on threads: two calls\n\
        may write different runs of one board. What is written is a complete run, which\n\
        `check` accepts.",
};

const RUN_STEADY: FormRow = FormRow {
    parts: &[Part::Word("run"), Part::Word("--steady"), Part::File],
    group: Group::MakeRun,
    each: false,
    reads: Reads::Board,
    limit: BOARD,
    lets_go: false,
    line: "the same, always by the same schedule",
    more: "The buses work in phases: in a phase each bus takes what came to it, and then\n\
        serves each of its initiators once. What it sends comes to the next bus in the\n\
        next phase.",
};

const HEADERS: FormRow = FormRow {
    parts: &[Part::Word("headers"), Part::File],
    group: Group::Boards,
    each: false,
    reads: Reads::Board,
    limit: BOARD,
    lets_go: false,
    line: "writes the configuration headers of the bridges",
    more: "For each bridge, in the order of the board, a line `bridge B` and the 64 bytes\n\
        of its header (PCI-to-PCI Bridge Architecture 1.1, section 3.2, from memory).",
};

const CHECK: FormRow = FormRow {
    parts: &[Part::Word("check"), Part::File],
    group: Group::JudgeRun,
    each: true,
    reads: Reads::Trace(Rule::Tagged),
    limit: TRACE,
    lets_go: false,
    line: "whether a trace is a complete run of its board",
    more: "Writes the number of events and the bound of the board, or refuses the trace: an\n\
        error in the file (6, 7), the first event that is not allowed (8), or a run that\n\
        has not ended (9). Several files are judged one by one, as by `safe`.",
};

const FINISH: FormRow = FormRow {
    parts: &[Part::Word("finish"), Part::File],
    group: Group::MakeRun,
    each: false,
    reads: Reads::Trace(Rule::Tagged),
    limit: TRACE,
    lets_go: false,
    line: "continues a trace to the end of all programs",
    more: "The trace may have no events: then its board is run. What is written is a\n\
        complete run, which `check` accepts.",
};

const FILL: FormRow = FormRow {
    parts: &[Part::Word("fill"), Part::File],
    group: Group::JudgeRun,
    each: false,
    reads: Reads::Filled,
    limit: TRACE,
    lets_go: false,
    line: "adds the arrivals to a trace that has none",
    more: "Existing arrivals are dropped and recomputed, each as early as possible after\n\
        the event that allows it. What is written is a run; if that is refused, no other\n\
        placement of arrivals makes the trace one.",
};

const OBSERVE: FormRow = FormRow {
    parts: &[Part::Word("observe"), Part::Log],
    group: Group::JudgeRun,
    each: false,
    reads: Reads::Log,
    limit: TRACE,
    lets_go: true,
    line: "judges what was seen on the buses; writes the run",
    more: "LOG has a line for each transaction on each bus, as a monitor in a simulation\n\
        prints it (`help log`). Finds which Retry took a request into a bridge, whose\n\
        request each transaction of a bridge is, and the programs of the masters. What\n\
        is written is a run that the log shows, complete or not; if there is none the\n\
        status is 8 and the line is named.",
};

const OBSERVE_ACTS: FormRow = FormRow {
    parts: &[Part::Word("observe"), Part::Word("--acts"), Part::Log],
    group: Group::JudgeRun,
    each: false,
    reads: Reads::Log,
    limit: TRACE,
    lets_go: false,
    line: "writes what was seen without arrivals",
    more: "Writes all transactions of the log, also if one is not allowed: then the status\n\
        is 8, after the text.",
};

const AUDIT: FormRow = FormRow {
    parts: &[Part::Word("audit"), Part::File],
    group: Group::LookAtRun,
    each: false,
    reads: Reads::Trace(Rule::Tagged),
    limit: TRACE,
    lets_go: false,
    line: "which write each read knew of, and how",
    more: "The trace is of a run, complete or not. For each read that ended and whose\n\
        master knew of a write of its dword before it there is a line: the last such\n\
        write to land, and how the master knew.",
};

const REPORT: FormRow = FormRow {
    parts: &[Part::Word("report"), Part::File],
    group: Group::LookAtRun,
    each: false,
    reads: Reads::Trace(Rule::Tagged),
    limit: TRACE,
    lets_go: false,
    line: "counts events; lists lost writes, failed polls",
    more: "The trace is of a run, complete or not. Writes how many buses, masters,\n\
        operations and events there are, the bound of the board, and for each bus its\n\
        events by kind; a part of a burst is a land. After these `OP lost nobody` or `OP\n\
        lost abort` is a write that no target took, `OP spent TRIES` a poll whose last\n\
        try ended without its value.",
};

const WAVES: FormRow = FormRow {
    parts: &[Part::Word("waves"), Part::File],
    group: Group::LookAtRun,
    each: false,
    reads: Reads::Trace(Rule::Tagged),
    limit: TRACE,
    lets_go: false,
    line: "writes a waveform (VCD), for GTKWave",
    more: "The trace is of a run, complete or not. Writes a value change dump: what happens\n\
        on each bus, what is in each lane, how far each master is and which stalls are\n\
        left. Time is the number of the event. `gtkwave -S docs/gtkwave.tcl FILE` opens\n\
        it bus by bus.",
};

const DRAW: FormRow = FormRow {
    parts: &[Part::Word("draw"), Part::File],
    group: Group::LookAtRun,
    each: false,
    reads: Reads::Trace(Rule::Tagged),
    limit: TRACE,
    lets_go: false,
    line: "draws a trace as a page for a browser",
    more: "The trace is of a run, complete or not, of at most 4,096 events. Writes one page\n\
        of HTML: a row for each event, the buses side by side, what travels and what\n\
        waits, and the lines of `audit` as brackets. If the trace is not a run it draws\n\
        the events up to the first that is not allowed, and ends with 8.",
};

const DRAW_ROWS: FormRow = FormRow {
    parts: &[Part::Word("draw"), Part::File, Part::First, Part::Last],
    group: Group::LookAtRun,
    each: false,
    reads: Reads::Trace(Rule::Tagged),
    limit: TRACE,
    lets_go: false,
    line: "draws the events FIRST to LAST",
    more: "At most 4,096 of them, by number from 1 on; a LAST above the number of events is\n\
        lowered to it.",
};

const DRAW_OPERATION: FormRow = FormRow {
    parts: &[Part::Word("draw"), Part::File, Part::Operation("OPERATION")],
    group: Group::LookAtRun,
    each: false,
    reads: Reads::Trace(Rule::Tagged),
    limit: TRACE,
    lets_go: false,
    line: "draws the events of one operation",
    more: "From its first event to its last; of a poll over all its tries.",
};

const UNTAGGED: FormRow = FormRow {
    parts: &[Part::Word("untagged"), Part::File],
    group: Group::JudgeRun,
    each: false,
    reads: Reads::Trace(Rule::Untagged),
    limit: TRACE,
    lets_go: false,
    line: "judges bridges that do not record who asked",
    more: "Such a bridge knows a delayed request only by its command and address, so that\n\
        another master may take its completion. Writes how many events the run has, each\n\
        read that came out stale although its master knew of the write, and whether\n\
        masters are apart, so that it makes no difference on this board.",
};

const COMBINE: FormRow = FormRow {
    parts: &[Part::Word("combine"), Part::File],
    group: Group::Boards,
    each: false,
    reads: Reads::Board,
    limit: BOARD,
    lets_go: false,
    line: "joins memory writes as a host bridge may",
    more: "Writes the board with neighbouring memory writes joined as a bridge in front of\n\
        the bus may join them: combined, or merged in prefetchable memory (PCI Local Bus\n\
        2.2, section 3.2.6, from memory).",
};

const GENERATE: FormRow = FormRow {
    parts: &[Part::Word("generate"), Part::Rounds],
    group: Group::MakeRun,
    each: false,
    reads: Reads::Number,
    limit: NUMBER,
    lets_go: false,
    line: "runs a board made from a number, 1 to 300",
    more: "Three masters write and read across four bridges, in N rounds of three\n\
        operations each, at addresses and with values drawn from N; each round adds 97\n\
        events. What is written is the report of the run.",
};

const DEVICES: FormRow = FormRow {
    parts: &[Part::Word("devices"), Part::File],
    group: Group::MakeRun,
    each: false,
    reads: Reads::Protocol,
    limit: BOARD,
    lets_go: false,
    line: "runs devices with doorbells and message interrupts",
    more: "Each device is a master that waits for its doorbell and then puts bytes, reads\n\
        and sends messages (PCI Local Bus 2.2, section 6.8, from memory); each handler\n\
        waits for a message. Both may wait again (`wait ADDR VALUE TRIES`) and write a\n\
        dword (`word ADDR VALUE`). What is written is the trace of the run, as `run`\n\
        writes it.",
};

const IMPORT: FormRow = FormRow {
    parts: &[Part::Word("import"), Part::File],
    group: Group::Boards,
    each: false,
    reads: Reads::Lspci,
    limit: BOARD,
    lets_go: false,
    line: "makes a board of what `lspci -vvxxx` wrote",
    more: "Bridges, windows and the ranges of devices as the machine has them, below the\n\
        lowest bus of its lowest domain; comments say what is left out and why, and what\n\
        the text does not show: main memory, masters, depths of bridges. What is written\n\
        is a board without masters.",
};

const TREE: FormRow = FormRow {
    parts: &[Part::Word("tree"), Part::File],
    group: Group::Boards,
    each: true,
    reads: Reads::Protocol,
    limit: BOARD,
    lets_go: false,
    line: "lists buses, bridges, windows and ranges",
    more: "What is below a bridge is on the bus of its number: masters, targets, bridges.\n\
        Ranges and windows are shown from the first to the last address. Several files\n\
        are listed one by one, each after a line FILE:",
};

impl Form {
    /// The table of words: the row of each form.
    pub fn row(self) -> FormRow
        ensures parts { map shape_of result.parts.now ≡ parts_of self }
        ensures few { length result.parts.now ≤ 4 }
        ensures limit { result.limit ≡ input_limit self }
        ensures small { result.limit < 2 ^ 31 }
        ensures lets_go { result.lets_go ≡ lets_go self }

        // Each form has a help line, and more that is told of it.
        ensures line { 0 < length result.line.now }
        ensures more { 0 < length result.more.now }
    {
        match self {
            Form::Safe => SAFE,
            Form::Adverse => ADVERSE,
            Form::Run => RUN,
            Form::RunSteady => RUN_STEADY,
            Form::Headers => HEADERS,
            Form::Check => CHECK,
            Form::Finish => FINISH,
            Form::Fill => FILL,
            Form::Observe => OBSERVE,
            Form::ObserveActs => OBSERVE_ACTS,
            Form::Audit => AUDIT,
            Form::Report => REPORT,
            Form::Waves => WAVES,
            Form::Draw => DRAW,
            Form::DrawRows => DRAW_ROWS,
            Form::DrawOperation => DRAW_OPERATION,
            Form::Untagged => UNTAGGED,
            Form::Combine => COMBINE,
            Form::Generate => GENERATE,
            Form::Devices => DEVICES,
            Form::Import => IMPORT,
            Form::Tree => TREE,
        }
    }
}

impl Part {
    /// How a word that has to be so is shown: as it is, or by what it names.
    pub fn shown(self) -> &'static str
        ensures { result.now ≡ shown_as (shape_of self) }
    {
        match self {
            Part::Word(text) => text,
            Part::File => "FILE",
            Part::Log => "LOG",
            Part::Rounds => "N",
            Part::First => "FIRST",
            Part::Last => "LAST",
            Part::Operation(name) => name,
        }
    }
}
