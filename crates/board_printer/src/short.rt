ghost use Rattle.std.specs.Prelude.{◌≡◌};
ghost use Rattle.std.specs.List.{list_all};
ghost use Rattle.board_printer.specs.Boards.{is_short, is_short_window, is_short_bridge};
ghost use Rattle.board_printer.specs.Boards.{is_short_range, is_short_target};
ghost use Rattle.board_printer.specs.Boards.{is_short_op, is_short_board};

use board_model::{Board, Bridge, Master, Op, Opening, Range, Target, Window};

/// The first number that has an upper half.
const LONG: u64 = 0x1_0000_0000;

fn is_short(number: u64) -> bool
    ensures { result ≡ is_short number }
{
    number < LONG
}

fn is_short_window(window: Option<Window>) -> bool
    ensures { result ≡ is_short_window window }
{
    match window {
        None => true,
        Some(window) => is_short(window.base) && is_short(window.limit),
    }
}

fn is_short_bridge(bridge: &Bridge) -> bool
    ensures { result ≡ is_short_bridge bridge.now }
{
    is_short_window(bridge.mem) && is_short_window(bridge.pref) && is_short_window(bridge.io)
}

fn is_short_range(range: &Range) -> bool
    ensures { result ≡ is_short_range range.now }
{
    is_short(range.base) && is_short(range.size) && range.base + range.size <= LONG
}

fn are_short_ranges(ranges: &[Range]) -> bool
    ensures { result ≡ list_all is_short_range ranges.now }
{
    ranges.iter().all(is_short_range)
}

fn are_short_openings(openings: &[Opening]) -> bool
    ensures { result ≡ list_all (λ opening. is_short opening.address) openings.now }
{
    openings.iter().all(|opening| is_short(opening.address))
}

fn is_short_target(target: &Target) -> bool
    ensures { result ≡ is_short_target target.now }
{
    are_short_ranges(target.ranges.as_slice())
        && are_short_ranges(target.aborts.as_slice())
        && are_short_openings(target.openings.as_slice())
}

fn is_short_op(op: &Op) -> bool
    ensures { result ≡ is_short_op op.now }
{
    match op {
        Op::Read { address, .. } | Op::Write { address, .. } | Op::Poll { address, .. } => is_short(
            *address,
        ),
        Op::CfgRead { .. } | Op::CfgWrite { .. } => true,
    }
}

fn is_short_master(master: &Master) -> bool
    ensures { result ≡ list_all is_short_op master.now.ops }
{
    let ops = master.ops.as_slice();
    ops.iter().all(is_short_op)
}

fn are_short_bridges(bridges: &[Bridge]) -> bool
    ensures { result ≡ list_all is_short_bridge bridges.now }
{
    bridges.iter().all(is_short_bridge)
}

fn are_short_targets(targets: &[Target]) -> bool
    ensures { result ≡ list_all is_short_target targets.now }
{
    targets.iter().all(is_short_target)
}

fn are_short_masters(masters: &[Master]) -> bool
    ensures { result ≡ list_all (λ master. list_all is_short_op master.ops) masters.now }
{
    masters.iter().all(is_short_master)
}

/// Whether every address, size and limit, and the last address of every range, is below 2^32.
pub(crate) fn is_short_board(board: &Board) -> bool
    ensures { result ≡ is_short_board board.now }
{
    are_short_bridges(board.bridges.as_slice())
        && are_short_targets(board.targets.as_slice())
        && are_short_masters(board.masters.as_slice())
}
