ghost use Rattle.std.specs.Prelude.{◌≡◌, ◌+◌, ◌%◌, ◌<◌, ◌≤◌, ◌↔◌, ℕ, List, length, count_ones};
ghost use Rattle.std.specs.Prelude.{IsNone, IfSome, OnSome, IfNone};
ghost use Rattle.board_model.specs.Limits.{request_lines};
ghost use Rattle.bus_agents.specs.arbiter.Grant.{Asks, IsGranted, Grants, EachOnce, line_behind};

use board_model::REQUEST_LINES;
use std::marker::Model;

/// How many request lines there are.
const LINES: u8 = REQUEST_LINES;

/// An arbiter of request lines, each a bit of a word. A contract sees it as the line with which its next search
/// begins: line 0 at first, and then the one behind the last granted line, in a circle.
#[derive(Clone, Copy, Debug, PartialEq, Eq)]
pub struct Arbiter {
    next: u8,
}

impl Model for Arbiter {
    ghost use Rattle.std.specs.Prelude.{ℕ, ◌<◌};
    ghost use Rattle.board_model.specs.Limits.{request_lines};

    ghost Value = { ℕ };

    ghost view = { λ arbiter. arbiter.next };

    ghost invariant = { λ arbiter. arbiter.next < request_lines };

    ghost inverse = { λ line. record { next = line } };
}

impl Arbiter {
    /// An arbiter that has granted no line yet.
    pub fn new() -> Arbiter
        ensures { result ≡ 0 }
    {
        Arbiter { next: 0 }
    }

    /// Grants the bus to one of the lines that ask, where bit i of `lines` says that line i asks.
    /// None where no line asks.
    pub fn grant(&mut self, lines: u32) -> Option<u8>
        ensures none { IsNone result ↔ (lines ≡ 0) }
        ensures granted { IfSome result (λ line. IsGranted self.old lines line) }
        ensures next { IfSome result (λ line. self.new ≡ line_behind line) }
        ensures unchanged { IfNone result (self.new ≡ self.old) }
    {
        if lines == 0 {
            return None;
        }
        let line = first_from(self.next, lines);
        self.next = (line + 1) % LINES;
        Some(line)
    }

    /// No line waits for longer than one round: in any n grants to n lines that ask every time, and
    /// no others, each of them is granted once. A law about `grant`, which does nothing by itself.
    pub fn round_is_fair(&self, lines: u32)
        ensures { (granted : List ℕ) → Grants self.now lines granted →
            length granted ≡ count_ones lines → EachOnce lines granted }
    {
        let _next = self.next;
    }
}

impl Default for Arbiter {
    ghost is_default = { λ arbiter. arbiter ≡ 0 };

    fn default() -> Arbiter {
        Arbiter::new()
    }
}

/// The first line that asks, where the search begins with `from` and goes round the circle.
fn first_from(from: u8, lines: u32) -> u8
    requires line { from < request_lines }
    requires asked { 0 < lines }
    ensures { IsGranted from lines result }
{
    let ahead = lines & (u32::MAX << from);
    if ahead == 0 {
        lowest(lines)
    } else {
        lowest(ahead)
    }
}

/// The lowest line that asks.
fn lowest(lines: u32) -> u8
    requires { 0 < lines }
    ensures line { result < request_lines }
    ensures asks { Asks lines result }
    ensures least { (other : ℕ) → other < result → ¬ Asks lines other }
{
    lines.trailing_zeros() as u8
}
