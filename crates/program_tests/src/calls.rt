//! A call of the program, by a line of words, and its ports.
use io_ports::{MemorySink, MemorySource};
use pci_command::List;
use pcitree::{Called, Gate, Status, pcitree};
use std::alloc::Global;
use std::test::Fail;
use std::thread::Threads;

/// A call of a port gives or takes at most so many bytes.
const MOST: usize = 16;

/// A source of the text, of which one call fails, from 1 on; none does at 0.
pub(crate) fn source(alloc: Global, text: &str, failing: u32) -> Result<MemorySource, Fail> {
    let bytes = List::from_vec(text.as_bytes().to_vec(alloc)?);
    let failing = List::from_vec(vec![in alloc; failing]?);
    Ok(MemorySource::new(bytes, MOST, failing))
}

/// A sink with room for so many bytes, of which one call fails in the same way.
pub(crate) fn sink(alloc: Global, size: usize, failing: u32) -> Result<MemorySink, Fail> {
    let failing = List::from_vec(vec![in alloc; failing]?);
    Ok(MemorySink::new(alloc, MOST, failing, size)?)
}

/// What the program answers to a line of words. The one place at which a test calls it: its
/// contract is long, and what a test compares rests on none of it.
pub(crate) fn answer<R: Threads + Sync, G: Gate + Sync>(
    rt: &R,
    alloc: Global,
    line: &str,
    source: &mut MemorySource,
    sink: &mut MemorySink,
    gate: &G,
) -> Result<Status, Fail> {
    let words = words(alloc, line)?;
    let words = Called::new(words.as_slice());
    Ok(pcitree(rt, alloc, &words, source, sink, gate))
}

/// The words of a line.
pub(crate) fn words(alloc: Global, line: &str) -> Result<Vec<String>, Fail> {
    let mut words = Vec::new(alloc);
    for word in line.split_whitespace() {
        words.push(String::from_str(alloc, word)?)?;
    }
    Ok(words)
}
