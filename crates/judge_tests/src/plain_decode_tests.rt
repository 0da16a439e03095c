ghost use Rattle.std.specs.Prelude.{◌≡◌, ℕ, IsTrue};
ghost use Rattle.board_model.specs.WellFormed.{is_well_formed_bridge};
ghost use Rattle.board_model.specs.Valid.{is_numbered};
ghost use Rattle.board_model.specs.declared.op.Op.{Op as Operation};
ghost use Rattle.board_model.specs.form_laws.Claimants.{OneClaimant, claimants, one_of};
ghost use Rattle.board_model.specs.form_laws.WayEnds.{WayEnds};
ghost use Rattle.plain_decode.specs.Hops.{hop_of};

use crate::worked_boards::worked;
use board_model::{Bridge, Window, one_claimant, op_of, ways_end};
use board_tree::Tree;
use pci_command::{Command, OpId, Request, Space};
use plain_decode::{CfgRoute, Hop, claim_down, claim_up, convert_cfg, next_hop, way_length};
use std::process::Abort;
use std::test::Fail;

/// Two bridges in a row, with one window, and a master on bus 0 that reads behind them.
const TWO_BRIDGES: &[u8] = b"\
pcitrace 1
pciboard 1
bridge 1 on 0 dev 1 last 2 mem 80000000 800fffff
bridge 2 on 1 dev 1 last 2 mem 80000000 800fffff
target ram on 2 dev 2
range mem 80000000 00001000
master cpu on 0
mr 80000000
events
end 0
";

/// What a caller knows by a tree alone: its board is valid, so that at most one claims a request
/// on a bus, who is the one that decodes it, and every way ends.
fn next_of(tree: &Tree, bus: u8, request: &Request) -> Hop
    ensures hop { result ≡ hop_of (one_of (claimants tree.now bus request.now)) }
    ensures one { OneClaimant tree.now bus request.now }
    ensures ends { (op : Operation) (on : ℕ) → WayEnds tree.now op on }
{
    one_claimant();
    ways_end();
    let _board = tree.board();
    next_hop(tree, bus, request)
}

#[test]
fn requests_go_on(rt: HostRuntime) -> Result<(), Fail> {
    let (tree, _events) = worked(rt.alloc(), TWO_BRIDGES)?;
    goes_on(&rt, &tree);
    Ok(())
}

fn goes_on(rt: &impl Abort, tree: &Tree) {
    let op = OpId::default();
    let there = op_of(tree.board(), op).is_some();
    assert!(rt; there);
    assert_eq!(rt; way_length(tree, op), 2);
    let read = Command::MemRead;
    hop_is(rt, tree, 0, (read, 0x8000_0020), Hop::Down(1));
    hop_is(rt, tree, 1, (read, 0x8000_0020), Hop::Down(2));
    hop_is(rt, tree, 2, (read, 0x8000_0020), Hop::Target(0));
    hop_is(rt, tree, 2, (read, 0x1000_0000), Hop::Up);
    hop_is(rt, tree, 0, (read, 0x1000_0000), Hop::Nobody);
    hop_is(rt, tree, 0, (Command::CfgRead, 0x0000_0800), Hop::Header(1));
    hop_is(rt, tree, 1, (Command::CfgRead, 0x0002_0801), Hop::Down(2));
}

/// A command at an address, presented on the bus, goes on so.
fn hop_is(rt: &impl Abort, tree: &Tree, bus: u8, asked: (Command, u64), hop: Hop) {
    let (command, address) = asked;
    let request = Request {
        command,
        address,
        ..Request::default()
    };
    assert_eq!(rt; next_of(tree, bus, &request), hop, "{address:08x} on {bus}");
}

/// The bridge to bus 1 on bus 0, with bus 2 behind it and a memory window of 1 MiB.
fn bridge() -> Bridge
    ensures well_formed { IsTrue (is_well_formed_bridge result) }
    ensures numbered { IsTrue (is_numbered result) }
{
    Bridge {
        bus: 1,
        parent: 0,
        device: 1,
        last: 2,
        mem: Some(Window {
            base: 0x8000_0000,
            limit: 0x800f_ffff,
        }),
        pref: None,
        io: None,
        posted: 4,
        delayed: 4,
        mode: false,
    }
}

#[test]
fn a_bridge_decodes(rt: HostRuntime) {
    let bridge = bridge();
    goes_by(&rt, &bridge, 0x0001_0819, CfgRoute::ToType0(0x0000_0818));
    goes_by(&rt, &bridge, 0x0002_0819, CfgRoute::PassDown(0x0002_0819));
    goes_by(&rt, &bridge, 0x0003_0819, CfgRoute::NotHere);
    claims(&rt, &bridge, (Space::Mem, 0x8000_0020), true, false);
    claims(&rt, &bridge, (Space::Mem, 0x1000_0000), false, true);
    claims(&rt, &bridge, (Space::Io, 0), false, true);
    claims(&rt, &bridge, (Space::Cfg, 0x8000_0020), false, false);
}

/// A configuration address of type 1 at the bridge goes on so.
fn goes_by(rt: &impl Abort, bridge: &Bridge, address: u32, route: CfgRoute)
    requires well_formed { IsTrue (is_well_formed_bridge bridge.now) }
    requires numbered { IsTrue (is_numbered bridge.now) }
{
    assert_eq!(rt; convert_cfg(bridge, address), route, "{address:08x}");
}

/// The bridge claims an address on the bus above, and on the bus below.
fn claims(rt: &impl Abort, bridge: &Bridge, at: (Space, u64), down: bool, up: bool)
    requires well_formed { IsTrue (is_well_formed_bridge bridge.now) }
    requires numbered { IsTrue (is_numbered bridge.now) }
{
    let (space, address) = at;
    assert_eq!(rt; claim_down(bridge, space, address), down, "{address:08x}");
    assert_eq!(rt; claim_up(bridge, space, address), up, "{address:08x}");
}
