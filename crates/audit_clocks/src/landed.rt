ghost use Rattle.std.specs.Prelude.{◌≡◌, ◌++◌, ◌∷◌, [], length, IfOk, OnOk, IfSome};
ghost use Rattle.audit_clocks.specs.Tracks.{in_order, goes_on, last_on, Tracked, GoesOn};

use pci_command::{NoMemory, OpId};
use std::alloc::Global;
use std::marker::Model;

/// Rising places in the list of what landed in a dword, at which operations of one master stand in
/// the order of its program.
#[derive(Debug, Drop)]
pub struct Track {
    places: Vec<usize>,
}

impl Model for Track {
    ghost use Rattle.std.specs.Prelude.{List, ℕ};

    ghost Value = { List ℕ };

    ghost view = { λ k. k.places.items };
}

impl Track {
    /// The places, from 0 on.
    pub fn places(&self) -> &[usize]
        ensures { result.now ≡ self.now }
    {
        self.places.as_slice()
    }

    fn begin(alloc: Global, place: usize) -> Result<Track, NoMemory>
        ensures { IfOk result (λ track. track ≡ place ∷ []) }
    {
        let mut places = Vec::new(alloc);
        places.push(place)?;
        Ok(Track { places })
    }

    fn push(&mut self, place: usize) -> Result<(), NoMemory>
        ensures { OnOk result (self.new ≡ self.old ++ place ∷ []) }
    {
        self.places.push(place)?;
        Ok(())
    }
}

/// The writes of the data phases that landed in one dword, in their order, and the same along the
/// programs of their authors: as long as the writes of each author land in the order of its program
/// there is one track for each author.
#[derive(Debug, Drop)]
pub struct Landed {
    ops: Vec<OpId>,
    tracks: Vec<Track>,
}

impl Model for Landed {
    ghost use Rattle.std.specs.Prelude.{List};
    ghost use Rattle.pci_command.specs.declared.op_id.OpId.{OpId};
    ghost use Rattle.audit_clocks.specs.Tracks.{Tracked};

    ghost Value = { List OpId };

    ghost view = { λ k. k.ops.items };

    ghost invariant = { λ k. Tracked k.ops.items k.tracks.items };
}

impl Landed {
    /// Nothing.
    #[tactic(auto, using(crate::proofs::TrackLemmas::nothing_tracked))]
    pub fn new(alloc: Global) -> Landed
        ensures { result ≡ [] }
    {
        Landed {
            ops: Vec::new(alloc),
            tracks: Vec::new(alloc),
        }
    }

    /// All of them.
    pub fn as_slice(&self) -> &[OpId]
        ensures { result.now ≡ self.now }
    {
        self.ops.as_slice()
    }

    /// Their places, along the programs of their authors.
    pub fn tracks(&self) -> &[Track]
        ensures { Tracked self.now result.now }
    {
        let _ = &self.ops;
        self.tracks.as_slice()
    }

    /// One more at the end.
    pub fn with(self, alloc: Global, op: OpId) -> Result<Landed, NoMemory>
        ensures { IfOk result (λ landed. landed ≡ self ++ op ∷ []) }
    {
        let Landed {
            mut ops,
            mut tracks,
        } = self;
        keep_track(alloc, &mut tracks, ops.as_slice(), op)?;
        ops.push(op)?;
        Ok(Landed { ops, tracks })
    }
}

/// The operation that lands behind these is put on a track.
#[tactic(auto, using(crate::proofs::TrackLemmas::tracked_along, crate::proofs::TrackLemmas::tracked_apart))]
fn keep_track(
    alloc: Global,
    tracks: &mut Vec<Track>,
    ops: &[OpId],
    op: OpId,
) -> Result<(), NoMemory>
    requires { Tracked ops.now tracks.old.items }
    ensures { OnOk result (Tracked (ops.now ++ op ∷ []) tracks.new.items) }
{
    match track_of(tracks.as_slice(), ops, op) {
        Some(number) => tracks[number].push(ops.len()),
        None => {
            tracks.push(Track::begin(alloc, ops.len())?)?;
            Ok(())
        }
    }
}

/// The first track that the operation goes on with.
fn track_of(tracks: &[Track], ops: &[OpId], op: OpId) -> Option<usize>
    ensures { IfSome result (GoesOn ops.now tracks.now op) }
{
    for number in 0..tracks.len() {
        if goes_on(ops, tracks[number].places(), op) {
            return Some(number);
        }
    }
    None
}

/// Whether the operation does not stand before the last of a track.
fn goes_on(ops: &[OpId], places: &[usize], op: OpId) -> bool
    ensures { result ≡ goes_on ops.now places.now op }
{
    match last_on(ops, places) {
        Some(last) => in_order(last, op),
        None => false,
    }
}

fn last_on(ops: &[OpId], places: &[usize]) -> Option<OpId>
    ensures { result ≡ last_on ops.now places.now }
{
    match places.last() {
        Some(place) => ops.get(*place).copied(),
        None => None,
    }
}

/// Whether of two operations of one program the second does not stand before the first.
fn in_order(first: OpId, second: OpId) -> bool
    ensures { result ≡ in_order first second }
{
    first.master == second.master && !(second.index < first.index)
}
