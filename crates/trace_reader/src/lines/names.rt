ghost use Rattle.std.specs.Prelude.{◌≡◌, ◌<◌, ℕ, List, None, slice_index_or, OnOk, IfOk};
ghost use Rattle.std.specs.Str.{bytes_eq};
ghost use Rattle.std.specs.List.{position};
ghost use Rattle.board_model.specs.WellFormed.{is_master_named, is_target_named};
ghost use Rattle.trace_reader.specs.lines.Names.{place_of, also_at, above, AreRight};

use board_model::{Board, Lane, bridge_to};
use pci_command::NoMemory;
use std::alloc::Global;
use std::collections::BTreeMap;
use std::marker::Model;

/// Of each sum of bytes a name that has it, with its place: a guess for words of that sum.
type Guess<'a> = Option<(&'a [u8], usize)>;

/// A board whose names and bridges were looked up once for all lines of a trace. Clauses see the
/// board.
#[derive(Debug, Drop)]
pub struct Names<'a> {
    board: &'a Board,
    masters: BTreeMap<&'a [u8], usize>,
    targets: BTreeMap<&'a [u8], usize>,
    // What the two tables are asked before, as it takes one step.
    likely_masters: Vec<Guess<'a>>,
    likely_targets: Vec<Guess<'a>>,
    // By secondary bus: the bus above the bridge to it.
    above: [Option<u8>; 256],
}

impl<'a> Model for Names<'a> {
    ghost use Rattle.board_model.specs.declared.board.Board.{Board};
    ghost use Rattle.trace_reader.specs.lines.Names.{Knows};

    ghost Value = { Board };

    ghost view = { λ names. names.board.now };

    ghost invariant = { λ names.
        Knows names.board.now names.masters names.targets
        names.likely_masters.items names.likely_targets.items names.above };
}

impl<'a> Names<'a> {
    ghost use Rattle.std.specs.Prelude.{◌≡◌, IfOk};
    ghost use Rattle.std.specs.List.{position};
    ghost use Rattle.board_model.specs.WellFormed.{is_master_named, is_target_named};
    ghost use Rattle.board_model.specs.Valid.{has_bridge_to};
    ghost use Rattle.board_model.specs.Ways.{end_of};

    /// The names of the board.
    pub fn new(alloc: Global, board: &'a Board) -> Result<Names<'a>, NoMemory>
        ensures { IfOk result (λ names. names ≡ board.now) }
    {
        let masters = masters_of(alloc, board)?;
        let targets = targets_of(alloc, board)?;
        let likely_masters = guesses_of(alloc, &masters)?;
        let likely_targets = guesses_of(alloc, &targets)?;
        let above = bridges_of(board);
        Ok(Names {
            board,
            masters,
            targets,
            likely_masters,
            likely_targets,
            above,
        })
    }

    /// The board.
    pub(crate) fn board(&self) -> &Board
        ensures { result.now ≡ self.now }
    {
        self.board
    }

    /// The place of the master of this name.
    pub(crate) fn master(&self, word: &[u8]) -> Option<usize>
        ensures { result ≡ position (is_master_named word.now) self.now.masters }
    {
        place_in(&self.masters, self.likely_masters.as_slice(), word)
    }

    /// The place of the target of this name.
    pub(crate) fn target(&self, word: &[u8]) -> Option<usize>
        ensures { result ≡ position (is_target_named word.now) self.now.targets }
    {
        place_in(&self.targets, self.likely_targets.as_slice(), word)
    }

    /// Whether there is a bridge to this secondary bus.
    pub(crate) fn has_bridge_to(&self, bus: u8) -> bool
        ensures { result ≡ has_bridge_to self.now bus }
    {
        self.above[usize::from(bus)].is_some()
    }

    /// The bus on which what the lane carries arrives.
    pub(crate) fn end_of(&self, lane: Lane) -> u8
        ensures { result ≡ end_of self.now lane }
    {
        if lane.up {
            self.above[usize::from(lane.bus)].unwrap_or(0)
        } else {
            lane.bus
        }
    }
}

/// The place of a name: that of the guess, if it has this name, and else as the table has it.
fn place_in(places: &BTreeMap<&[u8], usize>, likely: &[Guess<'_>], word: &[u8]) -> Option<usize>
    requires { AreRight places.now likely.now }
    ensures { result ≡ place_of places.now word.now }
{
    if let Some(Some((name, place))) = likely.get(usize::from(sum_of(word))) {
        if *name == word {
            return Some(*place);
        }
    }
    place_of(places, word)
}

/// A number by which names differ as a rule: nothing rests on it.
fn sum_of(word: &[u8]) -> u8 {
    let mut sum = 0u8;
    for byte in word {
        sum = sum.wrapping_mul(31).wrapping_add(*byte);
    }
    sum
}

/// The guesses for the names of a table.
fn guesses_of<'a>(
    alloc: Global,
    places: &BTreeMap<&'a [u8], usize>,
) -> Result<Vec<Guess<'a>>, NoMemory>
    ensures { IfOk result (λ guesses. AreRight places.now guesses.items) }
{
    let mut guesses = Vec::new(alloc);
    guesses.resize(256, None)?;
    for name in places.keys() {
        if let Some(place) = place_of(places, *name) {
            guesses.as_mut_slice()[usize::from(sum_of(*name))] = Some((*name, place));
        }
    }
    Ok(guesses)
}

fn place_of(places: &BTreeMap<&[u8], usize>, word: &[u8]) -> Option<usize>
    ensures { result ≡ place_of places.now word.now }
{
    places.get(word).copied()
}

/// The name has this place, unless it has one.
fn note<'a>(
    places: &mut BTreeMap<&'a [u8], usize>,
    name: &'a [u8],
    place: usize,
) -> Result<(), NoMemory>
    ensures { OnOk result ((word : List ℕ) →
        place_of places.new word ≡
        also_at (place_of places.old word) (bytes_eq name.now word) place) }
{
    if place_of(places, name).is_some() {
        return Ok(());
    }
    places.insert(name, place)?;
    Ok(())
}

fn masters_of<'a>(alloc: Global, board: &'a Board) -> Result<BTreeMap<&'a [u8], usize>, NoMemory>
    ensures { IfOk result (λ places. (word : List ℕ) →
        place_of places word ≡ position (is_master_named word) board.now.masters) }
{
    let mut places = BTreeMap::new(alloc);
    let masters = board.masters.as_slice();
    for (place, master) in masters.iter().enumerate() {
        note(&mut places, master.name.bytes(), place)?;
    }
    Ok(places)
}

fn targets_of<'a>(alloc: Global, board: &'a Board) -> Result<BTreeMap<&'a [u8], usize>, NoMemory>
    ensures { IfOk result (λ places. (word : List ℕ) →
        place_of places word ≡ position (is_target_named word) board.now.targets) }
{
    let mut places = BTreeMap::new(alloc);
    let targets = board.targets.as_slice();
    for (place, target) in targets.iter().enumerate() {
        note(&mut places, target.name.bytes(), place)?;
    }
    Ok(places)
}

fn bridges_of(board: &Board) -> [Option<u8>; 256]
    ensures { (bus : ℕ) → bus < 256 → slice_index_or result bus None ≡ above board.now bus }
{
    let mut all = [None; 256];
    for bus in 0..256 {
        all[bus] = above(board, bus as u8);
    }
    all
}

/// The bus above the bridge to a bus, where there is a bridge.
fn above(board: &Board, bus: u8) -> Option<u8>
    ensures { result ≡ above board.now bus }
{
    let bridge = bridge_to(board, bus)?;
    Some(bridge.parent)
}
