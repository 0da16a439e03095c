ghost use Rattle.std.specs.Prelude.{◌≡◌, length, not, slice_get};
ghost use Rattle.history_model.specs.Knowledge.{stands_after};
ghost use Rattle.audit_clocks.specs.Tracks.{op_on};
ghost use Rattle.audit_text.specs.Notes.{Notes};
ghost use Rattle.audit_text.specs.Found.{knows_by, landed_before, last_known, first_shown};
ghost use Rattle.audit_text.specs.Search.{writes_at, is_known, tells_of, is_whole, shows_at};
ghost use Rattle.audit_text.specs.Search.{KnowsAlways, TellsAlways, AreRising, FallsAlong, LastOn};
ghost use Rattle.audit_text.specs.Search.{FirstOn, later, earlier};

use crate::ledger::Ledger;
use crate::readings::Reading;
use machine_steps::stands_after;
use pci_command::{OpId, same_op};

/// The last write that landed in the dword of the reading before it, and of which the read's master
/// knew before. A binary search for each author whose writes landed there.
pub(crate) fn last_known(ledger: &Ledger, reading: &Reading, read: OpId) -> Option<OpId>
    requires { KnowsAlways ledger.now read }
    ensures { result ≡ last_known ledger.now read None (landed_before ledger.now reading.now) }
{
    let writes = ledger.landed_before(reading);
    let mut last = None;
    for track in ledger.tracks(reading) {
        last = later(last, last_on(ledger, writes, track.places(), read));
    }
    op_on(writes, last)
}

/// The last place of the track whose write the read knows.
fn last_on(ledger: &Ledger, writes: &[OpId], places: &[usize], read: OpId) -> Option<usize>
    requires rises { AreRising places.now }
    requires falls { FallsAlong (λ at. is_known ledger.now read (slice_get writes.now at))
        places.now }
    ensures { LastOn (λ at. is_known ledger.now read (slice_get writes.now at)) places.now result }
{
    let count = places.partition_point(|at| knows_at(ledger, writes, *at, read));
    if count == 0 {
        None
    } else {
        Some(places[count - 1])
    }
}

/// Whether a write is at the place, and the read knows of it.
fn knows_at(ledger: &Ledger, writes: &[OpId], place: usize, read: OpId) -> bool
    ensures { result ≡ is_known ledger.now read (slice_get writes.now place) }
{
    match writes.get(place) {
        Some(write) => knows(ledger, *write, read),
        None => false,
    }
}

/// Whether the operation stands behind one with which its master came to know of the write.
pub(crate) fn knows(ledger: &Ledger, write: OpId, op: OpId) -> bool
    ensures { result ≡ knows_by ledger.now write op }
{
    match ledger.since(write, op.master) {
        Some(first) => stands_after(first, op),
        None => false,
    }
}

/// The first write that landed in the dword of the reading before it, landed whole before it, and
/// is the write or knows of it. A binary search for each author whose writes landed there, and a
/// step for each write of the author of which a part landed.
pub(crate) fn first_shown(ledger: &Ledger, reading: &Reading, write: OpId) -> Option<OpId>
    requires { TellsAlways ledger.now write }
    ensures { result ≡
        first_shown ledger.now reading.now write (landed_before ledger.now reading.now) }
{
    let writes = ledger.landed_before(reading);
    let mut first = None;
    for track in ledger.tracks(reading) {
        first = earlier(
            first,
            first_on(ledger, reading, writes, track.places(), write),
        );
    }
    op_on(writes, first)
}

/// The first place of the track whose operation landed whole before the reading, and is the write
/// or knows of it.
fn first_on(
    ledger: &Ledger,
    reading: &Reading,
    writes: &[OpId],
    places: &[usize],
    write: OpId,
) -> Option<usize>
    requires rises { AreRising places.now }
    requires falls { FallsAlong (λ at. not (tells_of ledger.now write (slice_get writes.now at)))
        places.now }
    ensures { FirstOn (λ at. shows_at ledger.now reading.now write (slice_get writes.now at))
        places.now result }
{
    let start = places.partition_point(|at| !tells_at(ledger, writes, *at, write));
    let (_, rest) = places.split_at(start);
    first_whole(ledger, reading, writes, rest)
}

/// Whether the operation at the place is the write or knows of it, or none is there.
fn tells_at(ledger: &Ledger, writes: &[OpId], place: usize, write: OpId) -> bool
    ensures { result ≡ tells_of ledger.now write (slice_get writes.now place) }
{
    match writes.get(place) {
        Some(op) => same_op(*op, write) || knows(ledger, write, *op),
        None => true,
    }
}

/// The first of these places whose operation landed whole before the reading.
fn first_whole(
    ledger: &Ledger,
    reading: &Reading,
    writes: &[OpId],
    places: &[usize],
) -> Option<usize>
    requires { AreRising places.now }
    ensures { FirstOn (λ at. is_whole ledger.now reading.now (slice_get writes.now at)) places.now
        result }
{
    for place in places {
        match writes.get(*place) {
            None => return None,
            Some(op) => {
                if ledger.landed_whole(reading, *op) {
                    return Some(*place);
                }
            }
        }
    }
    None
}

/// The operation at the place, where there is one.
fn op_on(writes: &[OpId], place: Option<usize>) -> Option<OpId>
    ensures { result ≡ op_on writes.now place }
{
    match place {
        Some(place) => writes.get(place).copied(),
        None => None,
    }
}

fn later(place: Option<usize>, other: Option<usize>) -> Option<usize>
    ensures { result ≡ later place other }
{
    match (place, other) {
        (None, _) => other,
        (Some(a), Some(b)) => Some(a.max(b)),
        (Some(a), None) => Some(a),
    }
}

fn earlier(place: Option<usize>, other: Option<usize>) -> Option<usize>
    ensures { result ≡ earlier place other }
{
    match (place, other) {
        (None, _) => other,
        (Some(a), Some(b)) => Some(a.min(b)),
        (Some(a), None) => Some(a),
    }
}
