//! As many threads run as there are buses, and what is read depends on which bus was held: the
//! texts were worked out by hand.
use crate::calls::{answer, sink, source};
use pcitree::{Gate, NoGate, Status};
use std::alloc::Global;
use std::process::Abort;
use std::sync::atomic::{AtomicU64, Ordering};
use std::test::Fail;
use std::thread;
use std::thread::Threads;

/// Three writers on one bus, behind a bridge that holds one posted write.
const DEPTH_ONE: &str = "\
pciboard 1
bridge 1 on 0 dev 1 last 1 mem 80000000 800fffff posted 1
target ram on 1 dev 1
range mem 80000000 00001000
master a on 0
mw 80000000 00000001
master b on 0
mw 80000000 00000002
master c on 0
mw 80000000 00000003
";

/// The data is written on bus 0 and read on bus 1.
const TWO_BUSES: &str = "\
pciboard 1
bridge 1 on 0 dev 1 last 1 mem 80000000 800fffff
target ram on 1 dev 1
range mem 80000000 00001000
master a on 0
mw 80000000 00000001
master b on 1
mr 80000000
";

/// Bus 1 works when bus 0 has written: the write arrives in the same phase, and lands before the
/// read.
const WRITTEN_FIRST: &str = "\
pcitrace 1
pciboard 1
bridge 1 on 0 dev 1 last 1 mem 80000000 800fffff
target ram on 1 dev 1
range mem 80000000 00001000
master a on 0
mw 80000000 00000001
master b on 1
mr 80000000
events
0 accept m a.0 1d
1 arrive 1d
1 land 1d a.0 ram
1 read m b.0 ram 00000001
0 arrive 1u
end 5
";

/// The same board, where bus 0 works when bus 1 has read.
const READ_FIRST: &str = "\
pcitrace 1
pciboard 1
bridge 1 on 0 dev 1 last 1 mem 80000000 800fffff
target ram on 1 dev 1
range mem 80000000 00001000
master a on 0
mw 80000000 00000001
master b on 1
mr 80000000
events
0 accept m a.0 1d
1 read m b.0 ram 00000000
1 arrive 1d
1 land 1d a.0 ram
0 arrive 1u
end 5
";

/// How often a bus that is held looks whether it may go on. A gate that waits longer fails its
/// test.
const MOST_LOOKS: u64 = 100_000_000;

/// Waits until the number is as high: whether it came to that.
fn wait_for(number: &AtomicU64, least: u64) -> bool {
    for _ in 0..MOST_LOOKS {
        if number.load(Ordering::SeqCst) >= least {
            return true;
        }
        thread::yield_now();
    }
    false
}

/// Holds the first turn of each of two buses until both are at it.
#[derive(Drop)]
struct BothMeet {
    met: AtomicU64,
    alone: AtomicU64,
}

impl Gate for BothMeet {
    fn meet(&self, bus: u8) {
        let _ = bus;
        self.met.fetch_add(1, Ordering::SeqCst);
        if !wait_for(&self.met, 2) {
            self.alone.store(1, Ordering::SeqCst);
        }
    }

    fn did(&self, bus: u8, events: u32) {
        let _ = (bus, events);
    }
}

/// Holds the first turn of one of two buses until the other has done one.
#[derive(Drop)]
struct Hold {
    held: u8,
    /// One more than the events of the first turn of bus 0 and of bus 1.
    first: [AtomicU64; 2],
    alone: AtomicU64,
}

impl Hold {
    fn new(held: u8) -> Hold {
        Hold {
            held,
            first: [AtomicU64::new(0), AtomicU64::new(0)],
            alone: AtomicU64::new(0),
        }
    }

    fn of(&self, bus: u8) -> &AtomicU64 {
        if bus == 0 {
            &self.first[0]
        } else {
            &self.first[1]
        }
    }

    /// How many events the first turn of the bus made.
    fn first_turn(&self, bus: u8) -> Option<u64> {
        self.of(bus).load(Ordering::SeqCst).checked_sub(1)
    }
}

impl Gate for Hold {
    fn meet(&self, bus: u8) {
        if bus == self.held && !wait_for(self.of(1 - self.held.min(1)), 1) {
            self.alone.store(1, Ordering::SeqCst);
        }
    }

    fn did(&self, bus: u8, events: u32) {
        let first = self.of(bus);
        if first.load(Ordering::SeqCst) == 0 {
            first.store(u64::from(events) + 1, Ordering::SeqCst);
        }
    }
}

/// What the program answers to these words, and what its sink took.
fn call<R: Threads + Sync, G: Gate + Sync>(
    rt: &R,
    alloc: Global,
    line: &str,
    text: &str,
    gate: &G,
) -> Result<(Status, Vec<u8>), Fail> {
    let mut source = source(alloc, text, 0)?;
    let mut sink = sink(alloc, 4096, 0)?;
    let status = answer(rt, alloc, line, &mut source, &mut sink, gate)?;
    Ok((status, sink.bytes().to_vec(alloc)?))
}

#[test]
fn as_many_threads_run_as_there_are_buses(rt: HostRuntime) -> Result<(), Fail> {
    let gate = BothMeet {
        met: AtomicU64::new(0),
        alone: AtomicU64::new(0),
    };
    let (status, trace) = call(&rt, rt.alloc(), "run f", DEPTH_ONE, &gate)?;
    assert_eq!(rt; status, Status::Done);
    assert_eq!(rt; gate.alone.load(Ordering::SeqCst), 0);
    is_complete(&rt, rt.alloc(), &trace)
}

fn is_complete<R: Threads + Sync + Abort>(rt: &R, alloc: Global, trace: &[u8]) -> Result<(), Fail> {
    let trace = str::from_utf8(trace).map_err(|_| "no text")?;
    let (status, verdict) = call(rt, alloc, "check f", trace, &NoGate)?;
    assert_eq!(rt; status, Status::Done);
    assert_eq!(rt;
        verdict.as_slice(),
        b"complete run of 12 events, bound 12\n".as_slice()
    );
    Ok(())
}

#[test]
fn what_is_read_depends_on_which_bus_was_held(rt: HostRuntime) -> Result<(), Fail> {
    for (held, text, turns) in [
        (1, WRITTEN_FIRST, [Some(1), Some(3)]),
        (0, READ_FIRST, [Some(1), Some(1)]),
    ] {
        let gate = Hold::new(held);
        let (status, trace) = call(&rt, rt.alloc(), "run f", TWO_BUSES, &gate)?;
        assert_eq!(rt; status, Status::Done, "with bus {held} held");
        was_held(&rt, &gate, turns);
        assert_eq!(rt; trace.as_slice(), text.as_bytes(), "with bus {held} held");
    }
    Ok(())
}

fn was_held(rt: &impl Abort, gate: &Hold, turns: [Option<u64>; 2]) {
    assert_eq!(rt;
        gate.alone.load(Ordering::SeqCst),
        0,
        "with bus {} held",
        gate.held
    );
    assert_eq!(rt;
        [gate.first_turn(0), gate.first_turn(1)],
        turns,
        "with bus {} held",
        gate.held
    );
}
