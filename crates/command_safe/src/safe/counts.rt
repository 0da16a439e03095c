ghost use Rattle.std.specs.Prelude.{◌≡◌, ◌<◌, ◌≤◌, ◌^◌, length, map, count_by};
ghost use Rattle.safe_said.specs.AllSaid.{line};
ghost use Rattle.command_safe.specs.safe.Counts.{counts_of, ending_of, is_unsafe, is_lost, is_vain};
ghost use Rattle.command_safe.specs.safe.Counts.{is_nowhere};

use program_status::{SafeCounts, Status};
use safe_said::{OpSaid, Said};

/// How many faults there are in all that is said.
pub(crate) fn counts_of(said: &[OpSaid]) -> SafeCounts
    requires { length said.now < 2 ^ 32 }
    ensures { result ≡ counts_of (map line said.now) }
{
    SafeCounts {
        unsafe_reads: unsafe_in(said) as u32,
        lost: lost_in(said) as u32,
        vain: vain_in(said) as u32,
        nowhere: nowhere_in(said) as u32,
    }
}

/// How many unsafe reads there are.
#[tactic(auto, using(crate::proofs::safe::CountLemmas::count_by_map))]
fn unsafe_in(said: &[OpSaid]) -> usize
    ensures value { result ≡ count_by is_unsafe (map line said.now) }
    ensures most { result ≤ length said.now }
{
    said.iter().filter(|one| is_unsafe(one)).count()
}

/// How many lost writes there are.
#[tactic(auto, using(crate::proofs::safe::CountLemmas::count_by_map))]
fn lost_in(said: &[OpSaid]) -> usize
    ensures value { result ≡ count_by is_lost (map line said.now) }
    ensures most { result ≤ length said.now }
{
    said.iter().filter(|one| is_lost(one)).count()
}

/// How many vain polls there are.
#[tactic(auto, using(crate::proofs::safe::CountLemmas::count_by_map))]
fn vain_in(said: &[OpSaid]) -> usize
    ensures value { result ≡ count_by is_vain (map line said.now) }
    ensures most { result ≤ length said.now }
{
    said.iter().filter(|one| is_vain(one)).count()
}

/// How many reads and polls there are that read no word.
#[tactic(auto, using(crate::proofs::safe::CountLemmas::count_by_map))]
fn nowhere_in(said: &[OpSaid]) -> usize
    ensures value { result ≡ count_by is_nowhere (map line said.now) }
    ensures most { result ≤ length said.now }
{
    said.iter().filter(|one| is_nowhere(one)).count()
}

fn is_unsafe(one: &OpSaid) -> bool
    ensures { result ≡ is_unsafe (line one.now) }
{
    matches!(one.said, Said::Unsafe { .. })
}

fn is_lost(one: &OpSaid) -> bool
    ensures { result ≡ is_lost (line one.now) }
{
    matches!(one.said, Said::Lost { .. })
}

fn is_vain(one: &OpSaid) -> bool
    ensures { result ≡ is_vain (line one.now) }
{
    matches!(one.said, Said::Vain)
}

fn is_nowhere(one: &OpSaid) -> bool
    ensures { result ≡ is_nowhere (line one.now) }
{
    matches!(one.said, Said::Nowhere { .. })
}

/// The status of a text with these counts.
pub(crate) fn ending_of(counts: SafeCounts) -> Status
    ensures { result ≡ ending_of counts }
{
    let SafeCounts {
        unsafe_reads,
        lost,
        vain,
        nowhere,
    } = counts;
    if unsafe_reads == 0 && lost == 0 && vain == 0 && nowhere == 0 {
        Status::Done
    } else {
        Status::NotSafe { counts }
    }
}
