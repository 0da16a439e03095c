ghost use Rattle.std.specs.Prelude.{◌≡◌};
ghost use Rattle.safe_model.specs.Clocks.{greater};
ghost use Rattle.board_writes.specs.Looks.{before_in, any_before, known_to, FirstKnows};

use crate::known::{ClockTable, greater, lesser, past};
use crate::row::number_at;
use crate::writers::WordWrite;
use pci_command::OpId;

/// Whether one operation comes before another in every run.
pub fn is_before(table: &ClockTable, first: OpId, second: OpId) -> bool
    ensures { result ≡ before_in table.now first second }
{
    usize::from(first.index) < table.look(second, first.master)
}

/// Whether one of these writes comes before the poll.
pub(crate) fn is_any_before(table: &ClockTable, poll: OpId, writes: &[WordWrite]) -> bool
    ensures { result ≡ any_before table.now poll writes.now }
{
    writes.iter().any(|write| is_before(table, write.op, poll))
}

/// What is known of each master behind the last poll before the first of these writes.
pub(crate) fn known_to_first<'a>(table: &'a ClockTable, writes: &[WordWrite]) -> &'a [u16]
    ensures { FirstKnows table.now writes.now result.now }
{
    match writes {
        [first, ..] => table.numbers(first.op),
        [] => &[],
    }
}

/// What may be known of a master behind a poll at most, where so much is known before it and these
/// tell of it, the first of whom knows these numbers.
pub(crate) fn most_of(
    table: &ClockTable,
    raisers: &[WordWrite],
    firsts: &[u16],
    known: usize,
    most: usize,
    other: u16,
) -> usize
    requires { FirstKnows table.now raisers.now firsts.now }
    ensures { result ≡ greater known (known_to table.now raisers.now most other) }
{
    match raisers {
        [first, others @ ..] => {
            let master = usize::from(other);
            let told = past(number_at(firsts, master), first.op, master);
            known_over(table, others, known, lesser(most, told), other)
        }
        [] => greater(known, most),
    }
}

/// What all of these writes know of a master, and at most this, or what is known anyway: once they
/// know no more than that the others are passed over.
#[tactic(auto, using(crate::proofs::KeptLemmas::least_next))]
fn known_over(
    table: &ClockTable,
    raisers: &[WordWrite],
    known: usize,
    most: usize,
    other: u16,
) -> usize
    ensures { result ≡ greater known (known_to table.now raisers.now most other) }
{
    let mut least = most;
    for raiser in raisers {
        if least <= known {
            return known;
        }
        least = lesser(least, table.look_past(raiser.op, other));
    }
    greater(known, least)
}
