ghost use Rattle.history_model.specs.Runs.{Run, history_of};

use crate::worked_boards::complete_run;
use board_tree::Tree;
use history_model::{Event, Why};
use plain_replay::{allowed, complete, left, next_event};
use std::process::Abort;
use std::test::Fail;

/// One bus, and a master that writes a word and reads it.
const ONE_BUS: &[u8] = b"\
pcitrace 1
pciboard 1
target ram on 0 dev 2
range mem 00100000 00001000
master cpu on 0
mw 00100040 0000002a
mr 00100040
events
0 land m cpu.0 ram
0 read m cpu.1 ram 0000002a
end 2
";

#[test]
fn a_write_and_a_read_on_one_bus(rt: HostRuntime) -> Result<(), Fail> {
    let (tree, events) = complete_run(rt.alloc(), ONE_BUS)?;
    nothing_is_left(&rt, &tree, events.as_slice());
    let [written, seen] = events.as_slice() else {
        return Err("two events".into());
    };
    the_write_is_next(&rt, &tree, written, seen);
    Ok(())
}

fn nothing_is_left(rt: &impl Abort, tree: &Tree, events: &[Event])
    requires { Run tree.now (history_of events.now) }
{
    assert!(rt; complete(tree.board(), events));
    assert_eq!(rt; next_event(tree, events), None);
    assert_eq!(rt; left(tree, events), 0);
}

fn the_write_is_next(rt: &impl Abort, tree: &Tree, written: &Event, seen: &Event) {
    let board = tree.board();
    assert!(rt; !complete(board, &[]));
    assert_eq!(rt; next_event(tree, &[]), Some(*written));
    assert_eq!(rt; left(tree, &[]), 2);
    assert_eq!(rt; allowed(board, &[], written), Ok(()));
    assert_eq!(rt; allowed(board, &[], seen), Err(Why::NotPresented));
}
