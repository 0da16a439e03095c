ghost use Rattle.std.specs.Prelude.{◌≡◌, ◌&&◌, ◌==◌};
ghost use Rattle.std.specs.List.{list_any};
ghost use Rattle.board_model.specs.Valid.{targets_share_a_device, bridges_share_a_device};
ghost use Rattle.board_model.specs.Valid.{is_device_of, some_two, has_devices_that_meet};
ghost use Rattle.board_model.specs.Valid.{is_header_write, writes_a_header};

use board_model::{Board, Bridge, Op, Target};

/// V7: whether two targets, two bridges, or a target and a bridge on one bus have one device
/// number.
pub(crate) fn has_devices_that_meet(board: &Board) -> bool
    ensures { result ≡ has_devices_that_meet board.now }
{
    let bridges = board.bridges.as_slice();
    let targets = board.targets.as_slice();
    some_targets_share(targets) || some_bridges_share(bridges) || some_share(targets, bridges)
}

fn some_targets_share(targets: &[Target]) -> bool
    ensures { result ≡ some_two targets_share_a_device targets.now }
{
    match targets.split_first() {
        None => false,
        Some((target, rest)) => target_shares_with_one(target, rest) || some_targets_share(rest),
    }
}

fn target_shares_with_one(target: &Target, others: &[Target]) -> bool
    ensures { result ≡ list_any (targets_share_a_device target.now) others.now }
{
    others.iter().any(|other| target.bus == other.bus && target.device == other.device)
}

fn some_bridges_share(bridges: &[Bridge]) -> bool
    ensures { result ≡ some_two bridges_share_a_device bridges.now }
{
    match bridges.split_first() {
        None => false,
        Some((bridge, rest)) => bridge_shares_with_one(bridge, rest) || some_bridges_share(rest),
    }
}

fn bridge_shares_with_one(bridge: &Bridge, others: &[Bridge]) -> bool
    ensures { result ≡ list_any (bridges_share_a_device bridge.now) others.now }
{
    others.iter().any(|other| bridge.parent == other.parent && bridge.device == other.device)
}

fn some_share(targets: &[Target], bridges: &[Bridge]) -> bool
    ensures { result ≡ list_any (λ target. list_any (is_device_of target) bridges.now) targets.now }
{
    targets
        .iter()
        .any(|target| is_device_of_one(target, bridges))
}

fn is_device_of_one(target: &Target, bridges: &[Bridge]) -> bool
    ensures { result ≡ list_any (is_device_of target.now) bridges.now }
{
    bridges.iter().any(|bridge| bridge.parent == target.bus && bridge.device == target.device)
}

/// V8: whether a configuration write of a program names the bus and the device of a bridge.
pub(crate) fn writes_a_header(board: &Board) -> bool
    ensures { result ≡ writes_a_header board.now }
{
    board.masters.as_slice().iter().any(|master| some_writes_a_header(board, master.ops.as_slice()))
}

fn some_writes_a_header(board: &Board, ops: &[Op]) -> bool
    ensures { result ≡ list_any (is_header_write board.now) ops.now }
{
    ops.iter().any(|op| is_header_write(board, op))
}

fn is_header_write(board: &Board, op: &Op) -> bool
    ensures { result ≡ is_header_write board.now op.now }
{
    match op {
        Op::CfgWrite { bus, device, .. } => is_bridge_at(board, *bus, *device),
        _ => false,
    }
}

fn is_bridge_at(board: &Board, bus: u8, device: u8) -> bool
    ensures { result ≡
        list_any (λ bridge. bridge.parent == bus && bridge.device == device) board.now.bridges }
{
    board
        .bridges
        .as_slice()
        .iter()
        .any(|bridge| bridge.parent == bus && bridge.device == device)
}
