ghost use Rattle.std.specs.Prelude.{IsTrue};
ghost use Rattle.board_model.specs.WellFormed.{is_well_formed};

use board_model::Board;
use history_model::Event;
use observe_log::{is_told, read_log};
use observe_told::Log;
use std::alloc::Global;
use std::process::Abort;
use std::test::Fail;
use trace_reader::read_trace;

/// A write through a bridge, and a read of its word, which gets one Retry.
const LOG: &[u8] = b"\
pcilog 1
pciboard 1
bridge 1 on 0 dev 1 last 1 mem 80000000 800fffff
target t on 1 dev 1
range mem 80000000 00001000
master a on 0
log
0-1 0 a mw 80000000 00000001 done
4-5 1 1d mw 80000000 00000001 done
8-9 0 a mr 80000000 retry
12-13 1 1d mr 80000000 00000001 done
16-17 0 a mr 80000000 00000001 done
end
";

/// The acts that it shows.
const TRACE: &[u8] = b"\
pcitrace 1
pciboard 1
bridge 1 on 0 dev 1 last 1 mem 80000000 800fffff
target t on 1 dev 1
range mem 80000000 00001000
master a on 0
mw 80000000 00000001
mr 80000000
events
0 accept m a.0 1d
1 land 1d a.0 t
0 latch m a.1 1d
1 read 1d a.1 t 00000001
0 take m a.1 1d 00000001
end 5
";

/// The line of each act, from 0; and the same with the last ones the wrong way round.
const LINES: [u32; 5] = [0, 1, 2, 3, 4];

const CROSSED: [u32; 5] = [0, 1, 4, 3, 2];

#[test]
fn a_run_is_told_by_its_log(rt: HostRuntime) -> Result<(), Fail> {
    let log = read_log(rt.alloc(), LOG)?;
    let (board, acts) = read_trace(rt.alloc(), TRACE)?;
    told_in_order(&rt, rt.alloc(), &log, &board, acts.as_slice())
}

/// By the lines in this order, and not by others, nor for another board.
fn told_in_order(
    rt: &impl Abort,
    alloc: Global,
    log: &Log,
    board: &Board,
    acts: &[Event],
) -> Result<(), Fail>
    requires { IsTrue (is_well_formed log.now.board) }
{
    let told = is_told(alloc, log, board, acts, LINES.as_slice())?;
    assert!(rt; told);
    let told = is_told(alloc, log, board, acts, CROSSED.as_slice())?;
    assert!(rt; !told);
    let told = is_told(alloc, log, &log.board, acts, LINES.as_slice())?;
    assert!(rt; !told);
    Ok(())
}
