ghost use Rattle.history_model.specs.Runs.{Run, history_of};

use crate::worked_boards::complete_run;
use board_tree::Tree;
use history_model::Event;
use pci_command::OpId;
use plain_audit::{chain, fresh, told};
use std::alloc::Global;
use std::process::Abort;
use std::test::Fail;

/// A flag is passed on: the first master writes data and a flag, the second waits for the flag and
/// raises another, and the third waits for that one and reads the data.
const RELAY: &[u8] = b"\
pcitrace 1
pciboard 1
target ram on 0 dev 1
range mem 10000000 00001000
master a on 0
mw 10000000 00000005
mw 10000040 00000001
master b on 0
poll 10000040 ffffffff 00000001 9
mw 10000080 00000001
master c on 0
poll 10000080 ffffffff 00000001 9
mr 10000000
events
0 land m a.0 ram
0 read m b.0.0 ram 00000000
0 read m c.0.0 ram 00000000
0 land m a.1 ram
0 read m b.0.1 ram 00000001
0 read m c.0.1 ram 00000000
0 land m b.1 ram
0 read m c.0.2 ram 00000001
0 read m c.1 ram 00000005
end 9
";

/// An operation by its master, its number and its try.
fn op(master: u16, index: u16, attempt: u32) -> OpId {
    OpId {
        master,
        index,
        attempt,
    }
}

#[test]
fn a_flag_that_is_passed_on_tells_of_the_data(rt: HostRuntime) -> Result<(), Fail> {
    let (tree, events) = complete_run(rt.alloc(), RELAY)?;
    chains_are_found(&rt, rt.alloc(), &tree, events.as_slice())?;
    telling_is_found(&rt, &tree, events.as_slice());
    Ok(())
}

fn chains_are_found(
    rt: &impl Abort,
    alloc: Global,
    tree: &Tree,
    events: &[Event],
) -> Result<(), Fail>
    requires { Run tree.now (history_of events.now) }
{
    let (data, last) = (op(0, 0, 0), op(2, 1, 0));
    let found = chain(alloc, tree, events, data, last)?;
    let wanted = [
        data,
        op(0, 1, 0),
        op(1, 0, 1),
        op(1, 1, 0),
        op(2, 0, 2),
        last,
    ];
    assert_eq!(rt; found.ok_or("not told")?.as_slice(), wanted.as_slice());
    let back = chain(alloc, tree, events, last, data)?;
    assert!(rt; back.is_none());
    Ok(())
}

fn telling_is_found(rt: &impl Abort, tree: &Tree, events: &[Event])
    requires { Run tree.now (history_of events.now) }
{
    let (data, last) = (op(0, 0, 0), op(2, 1, 0));
    tells(rt, tree, events, (data, last), true);
    tells(rt, tree, events, (op(1, 1, 0), last), true);
    tells(rt, tree, events, (data, op(1, 0, 1)), true);
    tells(rt, tree, events, (data, op(1, 0, 0)), false);
    tells(rt, tree, events, (data, op(2, 0, 1)), false);
    tells(rt, tree, events, (last, data), false);
    assert!(rt; fresh(tree, events));
}

/// The read knows of the write, or does not.
fn tells(rt: &impl Abort, tree: &Tree, events: &[Event], asked: (OpId, OpId), is_told: bool)
    requires { Run tree.now (history_of events.now) }
{
    let (write, read) = asked;
    assert_eq!(rt; told(tree, events, write, read), is_told);
}
