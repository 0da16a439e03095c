use io_ports::{Failed, MemorySink, MemorySource, Sink, Source, SureSink, SureSource};
use pci_command::List;
use std::alloc::Global;
use std::process::Abort;
use std::test::Fail;

/// Five bytes, two in a call; the second call fails.
fn source(alloc: Global) -> Result<MemorySource, Fail> {
    let bytes = List::from_vec(b"abcde".as_slice().to_vec(alloc)?);
    Ok(MemorySource::new(bytes, 2, failing(alloc)?))
}

fn failing(alloc: Global) -> Result<List<u32>, Fail> {
    Ok(List::from_vec(vec![in alloc; 2]?))
}

#[test]
fn a_source_gives_its_bytes_and_fails_by_number(rt: HostRuntime) -> Result<(), Fail> {
    let mut source = source(rt.alloc())?;
    gives_its_bytes(&rt, &mut source);
    Ok(())
}

fn gives_its_bytes(rt: &impl Abort, source: &mut MemorySource) {
    let mut buf = [0u8; 3];
    for (answer, filled) in [
        (Ok(2), b"ab\0"),
        (Err(Failed), b"ab\0"),
        (Ok(2), b"cd\0"),
        (Ok(1), b"ed\0"),
        (Ok(0), b"ed\0"),
    ] {
        assert_eq!(rt; source.read(&mut buf), answer);
        assert_eq!(rt; buf, *filled);
    }
}

#[test]
fn a_sink_takes_what_it_can_and_fails_by_number(rt: HostRuntime) -> Result<(), Fail> {
    let mut sink = MemorySink::new(rt.alloc(), 8, failing(rt.alloc())?, 12)?;
    takes_what_it_can(&rt, &mut sink);
    Ok(())
}

fn takes_what_it_can(rt: &impl Abort, sink: &mut MemorySink) {
    for (piece, answer, taken) in [
        ("pcitrace 1", Ok(8), "pcitrace"),
        (" 1", Err(Failed), "pcitrace"),
        ("", Ok(0), "pcitrace"),
        (" 1, 2, 3", Ok(4), "pcitrace 1, "),
        ("2", Err(Failed), "pcitrace 1, "),
        ("", Ok(0), "pcitrace 1, "),
    ] {
        assert_eq!(rt; sink.write(piece.as_bytes()), answer);
        assert_eq!(rt; sink.bytes(), taken.as_bytes());
    }
}

#[test]
fn ports_that_never_fail(rt: HostRuntime) -> Result<(), Fail> {
    let mut source = SureSource::new(List::from_vec(b"abcde".as_slice().to_vec(rt.alloc())?));
    read_and_write(&rt, &mut source, &mut SureSink::new());
    Ok(())
}

fn read_and_write(rt: &impl Abort, source: &mut SureSource, sink: &mut SureSink) {
    let mut buf = [0u8; 3];
    for (count, filled, taken) in [(3, b"abc", 3), (2, b"dec", 5), (0, b"dec", 5)] {
        assert_eq!(rt; source.read(&mut buf), Ok(count));
        assert_eq!(rt; buf, *filled);
        assert_eq!(rt; sink.write(&buf[..count]), Ok(count));
        assert_eq!(rt; sink.count(), taken);
    }
}
