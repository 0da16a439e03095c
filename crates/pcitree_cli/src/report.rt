use command_retelling::retell;
use message_texts::{
    MOST_DRAWN, limit_text, message_of_bad_log, not_shown, note, unread, unwritten,
};
use observe_log::faulty_word;
use pci_command::NoMemory;
use pcitree::{Called, Status, form_of};
use program_messages::{message, message_of_log};
use program_pages::Message;
use program_words::{FileName, OneCall, Reads, usage_help};
use std::io::ErrorKind;

/// The first line on standard error: of several files behind the name of the one that it is about.
pub(crate) fn status_only(rt: &HostRuntime, file: Option<&str>, status: Status) -> Status {
    let _ = match file {
        Some(file) => eprintln!(rt; "{}: {status}", FileName(file)),
        None => eprintln!(rt; "{status}"),
    };
    status
}

/// The lines on standard error. Where there is no memory for those behind the first there are none.
pub(crate) fn report(
    rt: &HostRuntime,
    call: OneCall<'_>,
    name: &str,
    input: &[u8],
    status: Status,
    reason: Option<ErrorKind>,
) -> Status {
    let words = call.words;
    if let (Status::NotShown, [_adverse, _file, read, write]) = (status, words) {
        let _ = eprintln!(rt; "pcitree: {read} did not read before {write} landed");
    } else {
        status_only(rt, call.file, status);
    }
    if let Status::Usage { word } = status {
        let _ = eprint!(rt; "{}", usage_help(words, word));
    } else if let Ok(message) = message_of(rt, words, name, input, status, reason)
        && let Ok(text) = str::from_utf8(message.as_bytes())
    {
        let _ = eprint!(rt; "{text}");
    }
    status
}

fn message_of(
    rt: &HostRuntime,
    words: &[String],
    name: &str,
    input: &[u8],
    status: Status,
    reason: Option<ErrorKind>,
) -> Result<Message, NoMemory> {
    match (status, words) {
        (Status::ReadFault, _) => unread(rt.alloc(), name, reason),
        (Status::WriteFault, _) => unwritten(rt.alloc(), reason),
        (Status::TooLong, _) => note(rt.alloc(), limit_text(reads_of(words))),
        (Status::TooManyEvents { .. }, _) => note(rt.alloc(), MOST_DRAWN),
        (Status::NotShown, [_adverse, _file, read, write]) => {
            not_shown(rt.alloc(), input, read.as_str(), write.as_str())
        }
        (Status::BadLog { .. }, _) => {
            let word = faulty_word(rt.alloc(), input)?;
            message_of_bad_log(rt.alloc(), name, input, &status, word)
        }
        (Status::NotTold { .. } | Status::ToldTo { .. }, _) => {
            let read = retell(rt.alloc(), input)?;
            let refused = read.as_ref().map(|read| read.refused());
            message_of_log(rt.alloc(), name, input, &status, refused)
        }
        _ => message(rt.alloc(), name, input, &status, reads_of(words)),
    }
}

/// As what the words have their input read.
fn reads_of(words: &[String]) -> Reads {
    form_of(&Called::new(words)).map_or(Reads::Protocol, |form| form.row().reads)
}
