use program_words::Reads;

/// What is said of an input that is longer than one that is read so may be.
pub fn limit_text(reads: Reads) -> &'static str {
    match reads {
        Reads::Log => "a log has at most 64 MiB",
        Reads::Trace(_) | Reads::Filled => "a trace has at most 64 MiB",
        Reads::Lspci => "an lspci text has at most 1 MiB",
        Reads::Board | Reads::Protocol | Reads::Number => "a board has at most 1 MiB",
    }
}

/// What is said of a page of too many events.
pub const MOST_DRAWN: &str = "at most 4,096 events are drawn: pcitree draw FILE FIRST LAST, or \
    pcitree draw FILE OPERATION";
