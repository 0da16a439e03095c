/// A word with which the program says something of itself, and reads no file.
#[derive(Clone, Copy, Debug)]
pub struct OwnWord {
    pub word: &'static str,
    /// What stands behind it.
    pub operand: &'static str,
    /// What is done, in one line, or more below its beginning.
    pub line: &'static str,
    /// What there is more to say of it.
    pub more: &'static str,
}

/// These words.
pub static OWN_WORDS: [OwnWord; 3] = [
    OwnWord {
        word: "help",
        operand: " [WORD]",
        line: "this page, or a command, board, trace, device, log,\n                           status, codes",
        more: "`help board`, `help trace`, `help device` and `help log` have the lines of the\n\
            files, `help status` the exit statuses, `help codes` what `explain` without a\n\
            code prints. `-h` and `--help` do the same as `help`; after a command they are\n\
            the help of it.",
    },
    OwnWord {
        word: "explain",
        operand: " CODE",
        line: "explains a code such as P6, with an example",
        more: "The codes are those of the first line on standard error: L1 to L3, P1 to P12,\n\
            H1 to H4, V1 to V9, Q1 to Q6, X1 to X8, N1 to N5, I1 to I5, G1 to G5 and O1 to\n\
            O5, in upper or lower case. `explain` without a code lists them.",
    },
    OwnWord {
        word: "--version",
        operand: "",
        line: "the version, and the logic of the proofs",
        more: "The version of the program, and of the toolkit by which it is proved.",
    },
];
