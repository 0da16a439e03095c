//! `pcitree WORDS..`: reads the file that the words name, if they name one, and writes to standard
//! output. A line on standard error and the number that it ends with say what went wrong; the lines
//! behind it say where and why.
#![tactic(auto)]

mod report;

use io_ports::{HeldSource, ReadPort, WritePort};
use pcitree::{Called, NoGate, Status, file_word, form_of, input_limit, pcitree};
use program_messages::{Asked, asked_for};
use program_words::{FileName, OneCall, Several, files_of, name_input};
use report::{report, status_only};
use std::env;
use std::fs::File;
use std::io::ErrorKind;
use std::process::ExitCode;
use std::thread::Threads;

fn main(rt: HostRuntime) -> ExitCode {
    let status = match words(&rt) {
        Ok(words) => serve(&rt, &rt, words.as_slice()),
        Err(status) => status_only(&rt, None, status),
    };
    ExitCode::from(status.number())
}

/// The words behind the program's own name. Where one of them is no text, they are of no form.
fn words(rt: &HostRuntime) -> Result<Vec<String>, Status> {
    match env::args(rt) {
        Ok(all) => {
            let mut words: Vec<String> = all.skip(1).collect(rt.alloc())?;
            name_input(rt.alloc(), words.as_mut_slice())?;
            Ok(words)
        }
        Err(error) if error.kind() == ErrorKind::OutOfMemory => Err(Status::NoMemory),
        Err(_) => Err(Status::Usage { word: 0 }),
    }
}

/// Says what the program says of itself, or does what the words ask for. (Words of a form are one call.)
fn serve<R: Threads + Sync>(rt: &HostRuntime, threads: &R, words: &[String]) -> Status {
    let call = OneCall { words, file: None };
    match asked_for(words) {
        Asked::Work => match files_of(words) {
            Some(files) if form_of(&Called::new(words)).is_none() => run_all(rt, threads, files),
            _ => run(rt, threads, call),
        },
        Asked::Misfit(word) => report(rt, call, "", b"", Status::Usage { word }, None),
        asked => tell(rt, call, asked),
    }
}

/// Writes what the program says of itself.
#[inline(never)]
fn tell(rt: &HostRuntime, call: OneCall<'_>, asked: Asked) -> Status {
    match print!(rt; "{asked}") {
        Ok(()) => Status::Done,
        Err(error) => report(rt, call, "", b"", Status::WriteFault, Some(error.kind())),
    }
}

/// Answers each file by a call of its own. It ends with the lowest of their statuses that is not 0,
/// so that a file that could not be judged is not hidden by one that is not safe; where memory or the
/// output fails, no further file is read.
fn run_all<R: Threads + Sync>(rt: &HostRuntime, threads: &R, all: Several<'_>) -> Status {
    let mut lowest = Status::Done;
    for file in all.files {
        let status = each(rt, threads, all, file.as_str());
        if lowest == Status::Done || (1..lowest.number()).contains(&status.number()) {
            lowest = status;
        }
        if status == Status::NoMemory || status == Status::WriteFault {
            break;
        }
    }
    lowest
}

/// Answers one of several files, after a line with its name.
fn each<R: Threads + Sync>(rt: &HostRuntime, threads: &R, all: Several<'_>, file: &str) -> Status {
    let Ok(words) = all.call(rt.alloc(), file) else {
        return status_only(rt, Some(file), Status::NoMemory);
    };
    let (words, name) = (words.as_slice(), Some(file));
    let call = OneCall { words, file: name };
    match println!(rt; "{}:", FileName(file)) {
        Ok(()) => run(rt, threads, call),
        Err(error) => report(rt, call, "", b"", Status::WriteFault, Some(error.kind())),
    }
}

/// Reads the file whole, if the words name one, so far as an input may go, and hands it to the call
/// that answers it. What it starts threads by is the runtime too.
fn run<R: Threads + Sync>(rt: &HostRuntime, threads: &R, asked: OneCall<'_>) -> Status {
    let words = asked.words;
    let name = file_name(words);
    let call = Called::new(words);
    let (file, reason) = open(rt, name);
    // an input is let go once it is read, where it can be read again
    let lets_go = form_of(&call).is_some_and(|form| form.row().lets_go);
    let can_let_go = lets_go && file.as_ref().is_some_and(is_file);
    let mut port = ReadPort::new(file);
    let Ok(mut source) = HeldSource::read_ahead(rt.alloc(), &mut port, input_limit(&call) + 1)
    else {
        return status_only(rt, asked.file, Status::NoMemory);
    };
    if can_let_go {
        source.let_go();
    }
    let reason = reason.or(port.reason());
    let mut sink = WritePort::new(rt.stdout());
    let status = pcitree(threads, rt.alloc(), &call, &mut source, &mut sink, &NoGate);
    if status == Status::Done {
        return status;
    }
    let source = again(rt, words, name, source);
    report(
        rt,
        asked,
        name,
        source.bytes(),
        status,
        reason.or(sink.reason()),
    )
}

/// Whether it can be read again, as no pipe can.
/// (Not inlined, like `tell`: what it has on the stack is not there during the call.)
#[inline(never)]
fn is_file(file: &File) -> bool {
    file.metadata().is_ok_and(|data| data.is_file())
}

/// The source with its bytes: where the call let them go, with those that the file has now.
fn again(rt: &HostRuntime, words: &[String], name: &str, source: HeldSource) -> HeldSource {
    if !source.bytes().is_empty() {
        return source;
    }
    let mut port = ReadPort::new(open(rt, name).0);
    let most = input_limit(&Called::new(words)) + 1;
    HeldSource::read_ahead(rt.alloc(), &mut port, most).unwrap_or(source)
}

/// The name of the file to be read, if the words are of a form that reads one.
fn file_name(words: &[String]) -> &str {
    file_word(&Called::new(words))
        .and_then(|place| words.get(place as usize))
        .map_or("", |name| name.as_str())
}

/// The file, or why it was not opened.
fn open(rt: &HostRuntime, name: &str) -> (Option<File>, Option<ErrorKind>) {
    if name.is_empty() {
        return (None, None);
    }
    match File::open(rt, name) {
        Ok(file) => (Some(file), None),
        Err(error) => (None, Some(error.kind())),
    }
}
