ghost use Rattle.std.specs.Prelude.{◌≡◌, IsTrue, take, drop, length};
ghost use Rattle.std.specs.Option.{option_copied};
ghost use Rattle.std.specs.List.{list_all, list_any};
ghost use Rattle.observe_log.specs.SeenBoards.{Paired, IsRaised, IsOpened, HasProgram, is_digit};
ghost use Rattle.observe_log.specs.SeenBoards.{are_digits, is_number_behind, is_thread_name};
ghost use Rattle.observe_log.specs.SeenBoards.{is_thread_of, AreMasters, IsSeenBoard, are_threads};
ghost use Rattle.observe_log.specs.SeenBoards.{is_master, is_no_poll, polls_nothing};
ghost use Rattle.observe_log.specs.SeenBoards.{SameNumbers, SameWindows};

use board_model::{
    Board, Bridge, MOST_DWORDS, MOST_POSTED, Master, Op, Opening, Range, Target, Window,
};
use pci_command::Space;

/// Whether it is the board of what was seen on the board of a log.
pub(crate) fn is_seen_board(seen: &Board, board: &Board) -> bool
    ensures { IsTrue result → IsSeenBoard seen.now board.now }
{
    are_raised(seen.bridges.as_slice(), board.bridges.as_slice())
        && are_opened(seen.targets.as_slice(), board.targets.as_slice())
        && are_masters(seen.masters.as_slice(), board.masters.as_slice())
        && board.drops.as_slice().is_empty()
}

fn are_raised(seen: &[Bridge], raised: &[Bridge]) -> bool
    ensures { IsTrue result → Paired IsRaised seen.now raised.now }
{
    match (seen, raised) {
        ([], []) => true,
        ([first, rest @ ..], [other, others @ ..]) => {
            is_raised(first, other) && are_raised(rest, others)
        }
        _ => false,
    }
}

#[tactic(auto, using(crate::proofs::SameLemmas::raised_from))]
fn is_raised(seen: &Bridge, raised: &Bridge) -> bool
    ensures { IsTrue result → IsRaised seen.now raised.now }
{
    same_numbers(seen, raised)
        && same_windows(seen, raised)
        && seen.posted <= raised.posted
        && raised.posted <= MOST_POSTED
}

fn same_numbers(seen: &Bridge, raised: &Bridge) -> bool
    ensures { IsTrue result → SameNumbers seen.now raised.now }
{
    raised.bus == seen.bus
        && raised.parent == seen.parent
        && raised.device == seen.device
        && raised.last == seen.last
        && raised.delayed == seen.delayed
        && raised.mode == seen.mode
}

fn same_windows(seen: &Bridge, raised: &Bridge) -> bool
    ensures { IsTrue result → SameWindows seen.now raised.now }
{
    same_window(raised.mem, seen.mem)
        && same_window(raised.pref, seen.pref)
        && same_window(raised.io, seen.io)
}

#[tactic(auto, using(crate::proofs::SameLemmas::window_from))]
fn same_window(one: Option<Window>, other: Option<Window>) -> bool
    ensures { IsTrue result → one ≡ other }
{
    match (one, other) {
        (None, None) => true,
        (Some(one), Some(other)) => one.base == other.base && one.limit == other.limit,
        _ => false,
    }
}

fn are_opened(seen: &[Target], opened: &[Target]) -> bool
    ensures { IsTrue result → Paired IsOpened seen.now opened.now }
{
    match (seen, opened) {
        ([], []) => true,
        ([first, rest @ ..], [other, others @ ..]) => {
            is_opened(first, other) && are_opened(rest, others)
        }
        _ => false,
    }
}

fn is_opened(seen: &Target, opened: &Target) -> bool
    ensures { IsTrue result → IsOpened seen.now opened.now }
{
    opened.name.bytes() == seen.name.bytes()
        && opened.bus == seen.bus
        && opened.device == seen.device
        && opened.vendor == seen.vendor
        && opened.model == seen.model
        && opened.stalls == 0
        && usize::from(opened.burst) == MOST_DWORDS
        && has_ranges(seen, opened)
        && has_openings(seen, opened)
}

fn has_ranges(seen: &Target, opened: &Target) -> bool
    ensures { IsTrue result →
        (opened.now.ranges ≡ seen.now.ranges) × (opened.now.aborts ≡ seen.now.aborts) }
{
    same_ranges(opened.ranges.as_slice(), seen.ranges.as_slice())
        && same_ranges(opened.aborts.as_slice(), seen.aborts.as_slice())
}

fn same_ranges(one: &[Range], other: &[Range]) -> bool
    ensures { IsTrue result → one.now ≡ other.now }
{
    match (one, other) {
        ([], []) => true,
        ([first, rest @ ..], [next, others @ ..]) => {
            same_range(first, next) && same_ranges(rest, others)
        }
        _ => false,
    }
}

#[tactic(auto, using(crate::proofs::SameLemmas::range_from))]
fn same_range(one: &Range, other: &Range) -> bool
    ensures { IsTrue result → one.now ≡ other.now }
{
    same_space(one.space, other.space) && one.base == other.base && one.size == other.size
}

fn same_space(one: Space, other: Space) -> bool
    ensures { IsTrue result → one ≡ other }
{
    match (one, other) {
        (Space::Mem, Space::Mem) => true,
        (Space::Io, Space::Io) => true,
        (Space::Cfg, Space::Cfg) => true,
        _ => false,
    }
}

fn has_openings(seen: &Target, opened: &Target) -> bool
    ensures { IsTrue result →
        take (length seen.now.openings) opened.now.openings ≡ seen.now.openings }
{
    open_so(seen.openings.as_slice(), opened.openings.as_slice())
}

/// Whether the opening words of one list are the first ones of the other.
fn open_so(seen: &[Opening], opened: &[Opening]) -> bool
    ensures { IsTrue result → take (length seen.now) opened.now ≡ seen.now }
{
    match (seen, opened) {
        ([], _) => true,
        ([first, rest @ ..], [next, others @ ..]) => {
            same_opening(next, first) && open_so(rest, others)
        }
        _ => false,
    }
}

#[tactic(auto, using(crate::proofs::SameLemmas::opening_from))]
fn same_opening(one: &Opening, other: &Opening) -> bool
    ensures { IsTrue result → one.now ≡ other.now }
{
    same_space(one.space, other.space) && one.address == other.address && one.value == other.value
}

fn are_masters(seen: &[Master], masters: &[Master]) -> bool
    ensures { IsTrue result → AreMasters seen.now masters.now }
{
    if masters.len() < seen.len() {
        return false;
    }
    let (same, threads) = masters.split_at(seen.len());
    have_programs(seen, same) && are_threads_of(seen, threads) && poll_nothing(masters)
}

fn poll_nothing(masters: &[Master]) -> bool
    ensures { result ≡ list_all polls_nothing masters.now }
{
    masters.iter().all(polls_nothing)
}

fn polls_nothing(master: &Master) -> bool
    ensures { result ≡ polls_nothing master.now }
{
    master.ops.as_slice().iter().all(is_no_poll)
}

fn is_no_poll(op: &Op) -> bool
    ensures { result ≡ is_no_poll op.now }
{
    !matches!(op, Op::Poll { .. })
}

fn have_programs(seen: &[Master], masters: &[Master]) -> bool
    ensures { IsTrue result → Paired HasProgram seen.now masters.now }
{
    match (seen, masters) {
        ([], []) => true,
        ([first, rest @ ..], [other, others @ ..]) => {
            has_program(first, other) && have_programs(rest, others)
        }
        _ => false,
    }
}

fn has_program(seen: &Master, master: &Master) -> bool
    ensures { IsTrue result → HasProgram seen.now master.now }
{
    master.bus == seen.bus && master.name.bytes() == seen.name.bytes()
}

fn are_threads_of(seen: &[Master], threads: &[Master]) -> bool
    ensures { result ≡ list_all (λ thread. list_any (is_thread_of thread) seen.now) threads.now }
{
    threads.iter().all(|thread| is_thread_of_any(thread, seen))
}

fn is_thread_of_any(thread: &Master, seen: &[Master]) -> bool
    ensures { result ≡ list_any (is_thread_of thread.now) seen.now }
{
    seen.iter().any(|master| is_thread_of(thread, master))
}

/// Whether it is a further thread of a master, on its bus.
fn is_thread_of(thread: &Master, master: &Master) -> bool
    ensures { result ≡ is_thread_of thread.now master.now }
{
    thread.bus == master.bus && is_thread_name(master.name.bytes(), thread.name.bytes())
}

/// Whether a name is another one, `-` and a number.
fn is_thread_name(name: &[u8], thread: &[u8]) -> bool
    ensures { result ≡ is_thread_name name.now thread.now }
{
    if thread.len() < name.len() {
        return false;
    }
    let (front, behind) = thread.split_at(name.len());
    front == name && is_number_behind(behind)
}

fn is_number_behind(bytes: &[u8]) -> bool
    ensures { result ≡ is_number_behind bytes.now }
{
    match bytes {
        [] => false,
        [first, digits @ ..] => *first == b'-' && are_digits(digits),
    }
}

fn are_digits(bytes: &[u8]) -> bool
    ensures { result ≡ are_digits bytes.now }
{
    0 < bytes.len() && all_digits(bytes)
}

fn all_digits(bytes: &[u8]) -> bool
    ensures { result ≡ list_all is_digit bytes.now }
{
    bytes.iter().all(is_digit)
}

fn is_digit(byte: &u8) -> bool
    ensures { result ≡ is_digit byte.now }
{
    b'0' <= *byte && *byte <= b'9'
}

/// Whether a master of the board is the one of the log, or a further thread of it.
pub(crate) fn is_master(seen: &Board, board: &Board, own: u16, master: u16) -> bool
    ensures { result ≡ is_master seen.now board.now own master }
{
    if master == own {
        return true;
    }
    let all = seen.masters.as_slice();
    let threads = board.masters.as_slice();
    all.len() <= usize::from(master)
        && are_threads(threads.get(usize::from(master)), all.get(usize::from(own)))
}

fn are_threads(thread: Option<&Master>, master: Option<&Master>) -> bool
    ensures { result ≡ are_threads (option_copied thread.entry) (option_copied master.entry) }
{
    match (thread, master) {
        (Some(thread), Some(master)) => is_thread_of(thread, master),
        _ => false,
    }
}
