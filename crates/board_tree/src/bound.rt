ghost use Rattle.std.specs.Prelude.{◌≡◌, ◌+◌, ◌*◌, ◌^◌, ◌<◌, ◌≤◌, All, length, slice_get};
ghost use Rattle.list_facts.specs.Lists.{total, greatest};
ghost use Rattle.board_model.specs.Ways.{way, aborts_at, pieces_in, pieces_at, pieces_by, cost_of_try, cost_of, longest_way, bound_of};
ghost use Rattle.board_tree.specs.Decodable.{IsDecodable};
ghost use Rattle.board_tree.specs.Sites.{AreKnown};

use crate::Sites;
use crate::ways::route_by;
use board_model::{
    Board, Master, Op, Place, Target, is_in_ranges, is_posted, request_on, tries_of,
};
use pci_command::Request;

/// How many events a run of the board has at most.
pub(crate) fn bound_of(board: &Board, sites: Option<&Sites>) -> u64
    requires decodable { IsDecodable board.now }
    requires sites { AreKnown board.now sites }
    requires fits { bound_of board.now < 2 ^ 64 }
    ensures { result ≡ bound_of board.now }
{
    sum_of(
        cost_of_programs(board, sites, board.masters.as_slice()),
        stalls_of(board.targets.as_slice()),
        longest_way(board, sites, board.masters.as_slice()),
        board.discards.as_slice().len() as u64,
        board.drops.as_slice().len() as u64,
    )
}

/// Costs and stall tokens, and what discards and drops cost: after a discard an operation goes
/// its way once more.
fn sum_of(costs: u64, stalls: u64, longest: u8, discards: u64, drops: u64) -> u64
    requires { costs + stalls + 4 * longest * discards + 3 * drops < 2 ^ 64 }
    ensures { result ≡ costs + stalls + 4 * longest * discards + 3 * drops }
{
    costs + stalls + 4 * u64::from(longest) * discards + 3 * drops
}

fn cost_of_programs(board: &Board, sites: Option<&Sites>, masters: &[Master]) -> u64
    requires decodable { IsDecodable board.now }
    requires sites { AreKnown board.now sites }
    requires fits { total (λ master. total (cost_of board.now master.bus) master.ops) masters.now < 2 ^ 64 }
    ensures { result ≡ total (λ master. total (cost_of board.now master.bus) master.ops) masters.now }
{
    let mut costs = 0;
    for master in masters {
        costs += cost_of_program(board, sites, master.bus, master.ops.as_slice());
    }
    costs
}

/// What operations of a master on the bus cost.
pub(crate) fn cost_of_program(board: &Board, sites: Option<&Sites>, bus: u8, ops: &[Op]) -> u64
    requires decodable { IsDecodable board.now }
    requires sites { AreKnown board.now sites }
    requires fits { total (cost_of board.now bus) ops.now < 2 ^ 64 }
    ensures { result ≡ total (cost_of board.now bus) ops.now }
{
    let mut costs = 0;
    for op in ops {
        costs += cost_of(board, sites, bus, op);
    }
    costs
}

/// The cost of an operation of a master on the bus: of a poll that of its tries.
fn cost_of(board: &Board, sites: Option<&Sites>, bus: u8, op: &Op) -> u64
    requires decodable { IsDecodable board.now }
    requires sites { AreKnown board.now sites }
    ensures { result ≡ cost_of board.now bus op.now }
{
    let tries = u64::from(tries_of(op));
    let cost = u64::from(cost_of_try(board, sites, bus, op));
    tries * cost
}

/// How many events one try of an operation costs at most, from the bus on.
pub(crate) fn cost_of_try(board: &Board, sites: Option<&Sites>, bus: u8, op: &Op) -> u32
    requires decodable { IsDecodable board.now }
    requires sites { AreKnown board.now sites }
    ensures value { result ≡ cost_of_try board.now bus op.now }
    ensures fits { result ≤ 66300 }
{
    let request = request_on(op, bus);
    let route = route_by(board, sites, op, bus);
    let lanes = u32::from(route.lanes);
    if is_posted(&request) {
        let phases = request.phases.len() as u8;
        let last = request_on(op, route.bus);
        3 * lanes + u32::from(pieces_by(board, &last, phases, route.owner))
    } else {
        4 * lanes + 1
    }
}

/// In how many pieces a write of so many data phases reaches the end of its way.
pub fn pieces_by(board: &Board, request: &Request, phases: u8, owner: Place) -> u16
    requires { All (λ target. 0 < target.burst) board.now.targets }
    ensures { result ≡ pieces_by board.now request.now phases owner }
{
    match owner {
        Place::Target(target) => pieces_at(board.targets.as_slice(), target, request, phases),
        Place::Header(_) => 1,
        Place::Lane(_) => 1,
        Place::Nobody => 1,
    }
}

fn pieces_at(targets: &[Target], place: u16, request: &Request, phases: u8) -> u16
    requires { All (λ target. 0 < target.burst) targets.now }
    ensures { result ≡ pieces_at request.now phases (slice_get targets.now place) }
{
    match targets.get(place as usize) {
        None => 1,
        Some(target) if aborts_at(target, request) => 1,
        Some(target) => pieces_in(target.burst, phases),
    }
}

fn aborts_at(target: &Target, request: &Request) -> bool
    ensures { result ≡ aborts_at target.now request.now }
{
    is_in_ranges(
        target.aborts.as_slice(),
        request.command.space(),
        u128::from(request.address),
    )
}

fn pieces_in(burst: u8, phases: u8) -> u16
    requires { 0 < burst }
    ensures { result ≡ pieces_in burst phases }
{
    (u16::from(phases) + u16::from(burst - 1)) / u16::from(burst)
}

/// All stall tokens.
fn stalls_of(targets: &[Target]) -> u64
    requires { total (λ target. target.stalls) targets.now < 2 ^ 64 }
    ensures { result ≡ total (λ target. target.stalls) targets.now }
{
    let mut stalls = 0;
    for target in targets {
        stalls += u64::from(target.stalls);
    }
    stalls
}

/// The greatest length of the way of an operation.
pub(crate) fn longest_way(board: &Board, sites: Option<&Sites>, masters: &[Master]) -> u8
    requires decodable { IsDecodable board.now }
    requires sites { AreKnown board.now sites }
    ensures { result ≡ greatest (λ master. greatest (λ op. length (way board.now op master.bus)) master.ops) masters.now }
{
    let mut longest = 0u8;
    for master in masters {
        longest = longest.max(longest_way_of(board, sites, master.bus, master.ops.as_slice()));
    }
    longest
}

fn longest_way_of(board: &Board, sites: Option<&Sites>, bus: u8, ops: &[Op]) -> u8
    requires decodable { IsDecodable board.now }
    requires sites { AreKnown board.now sites }
    ensures { result ≡ greatest (λ op. length (way board.now op bus)) ops.now }
{
    let mut longest = 0u8;
    for op in ops {
        longest = longest.max(route_by(board, sites, op, bus).lanes);
    }
    longest
}
