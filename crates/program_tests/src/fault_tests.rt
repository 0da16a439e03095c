//! Each call of a port fails in turn, and a sink fills up. What is wanted stands in the tables, and
//! was worked out by hand.
use crate::calls::{answer, sink, source, words};
use crate::surely::pcitree_surely;
use io_ports::{MemorySink, MemorySource, SureSink, SureSource};
use pci_command::List;
use pcitree::{Called, NoGate, Status};
use std::alloc::Global;
use std::process::Abort;
use std::test::Fail;
use std::thread::Threads;

const RUN: &str = "run --steady f";

/// 110 bytes.
const BOARD: &str = "\
pciboard 1
target ram on 0 dev 1
range mem 00100000 00001000
master cpu on 0
mw 00100040 0000002a
mr 00100040
";

/// 181 bytes.
const TRACE: &str = "\
pcitrace 1
pciboard 1
target ram on 0 dev 1
range mem 00100000 00001000
master cpu on 0
mw 00100040 0000002a
mr 00100040
events
0 land m cpu.0 ram
0 read m cpu.1 ram 0000002a
end 2
";

/// Seven calls give the board, and the eighth is its end.
#[test]
fn each_call_of_the_source_fails_in_turn(rt: HostRuntime) -> Result<(), Fail> {
    for call in 1..=9u32 {
        let mut source = source(rt.alloc(), BOARD, call)?;
        let mut sink = sink(rt.alloc(), 1024, 0)?;
        let (status, taken) = if call < 9 {
            (Status::ReadFault, 0)
        } else {
            (Status::Done, 181)
        };
        ends_so(&rt, rt.alloc(), &mut source, &mut sink, status, taken)?;
    }
    Ok(())
}

/// Eleven calls take 16 bytes each, and the twelfth the other five.
#[test]
fn each_call_of_the_sink_fails_in_turn(rt: HostRuntime) -> Result<(), Fail> {
    for call in 1..=13u32 {
        let mut source = source(rt.alloc(), BOARD, 0)?;
        let mut sink = sink(rt.alloc(), 1024, call)?;
        let (status, taken) = if call < 13 {
            (Status::WriteFault, 16 * call.saturating_sub(1) as usize)
        } else {
            (Status::Done, 181)
        };
        ends_so(&rt, rt.alloc(), &mut source, &mut sink, status, taken)?;
    }
    Ok(())
}

/// The trace has 181 bytes.
#[test]
fn a_sink_fills_up(rt: HostRuntime) -> Result<(), Fail> {
    for (size, status) in [
        (100, Status::WriteFault),
        (180, Status::WriteFault),
        (181, Status::Done),
    ] {
        let mut source = source(rt.alloc(), BOARD, 0)?;
        let mut sink = sink(rt.alloc(), size, 0)?;
        ends_so(&rt, rt.alloc(), &mut source, &mut sink, status, size)?;
    }
    Ok(())
}

/// The call ends with this status, and the sink took so many bytes of the trace.
fn ends_so<R: Threads + Sync + Abort>(
    rt: &R,
    alloc: Global,
    source: &mut MemorySource,
    sink: &mut MemorySink,
    status: Status,
    taken: usize,
) -> Result<(), Fail> {
    let found = answer(rt, alloc, RUN, source, sink, &NoGate)?;
    assert_eq!(rt; found, status, "where {taken} bytes are taken");
    let front = TRACE.as_bytes().get(..taken).ok_or("no front")?;
    assert_eq!(rt; sink.bytes(), front, "where {taken} bytes are taken");
    Ok(())
}

#[test]
fn ports_that_never_fail(rt: HostRuntime) -> Result<(), Fail> {
    let words = words(rt.alloc(), RUN)?;
    let mut source = SureSource::new(List::from_vec(BOARD.as_bytes().to_vec(rt.alloc())?));
    let mut sink = SureSink::new();
    let answer = pcitree_surely(
        &rt,
        rt.alloc(),
        &Called::new(words.as_slice()),
        &mut source,
        &mut sink,
        &NoGate,
    );
    assert_eq!(rt; answer, Status::Done);
    assert_eq!(rt; sink.count(), 181);
    Ok(())
}
