ghost use Rattle.std.specs.Prelude.{◌≡◌, ◌≤◌, ◌+◌, ◌*◌, ◌^◌, Some};
ghost use Rattle.history_model.specs.Words.{mask_in};
ghost use Rattle.board_model.specs.device.Registers.{merge_of};
ghost use Rattle.std.specs.Prelude.{slice_get};
ghost use Rattle.machine_steps.specs.Counts.{or_zero};
ghost use Rattle.list_facts.specs.Lists.{changed_at};

use crate::table::KeptPlaces;
use board_model::{Board, Op, Place, Word, request_on};
use board_tree::{Sites, route_by};
use history_model::Step;
use machine_steps::{
    brought_by, dword_address, left_of, mask_of, merge_at, opens_as, value_at, word_read,
};
use pci_command::{NoMemory, Phase, Request, Space};
use std::alloc::Global;
use std::marker::Model;

/// What each word that the programs touch holds.
#[derive(Debug, Drop)]
pub(crate) struct KeptWords {
    /// Where each word is among the values.
    places: KeptPlaces,
    values: Vec<u32>,
}

impl Model for KeptWords {
    ghost use Rattle.judge_state.specs.Words.{WordState};

    ghost Value = { WordState };

    ghost view = { λ k. record { places = k.places; values = k.values.items } };
}

impl KeptWords {
    ghost use Rattle.history_model.specs.Words.{brings};
    ghost use Rattle.judge_state.specs.Words.{place_at, value_at, merged_at, landed_in};
    ghost use Rattle.judge_state.specs.Words.{landed_by, WordsKnown, StillThere, KnowsRead};
    ghost use Rattle.std.specs.List.{AllByRecursion};
    ghost use Rattle.board_tree.specs.Decodable.{IsDecodable};
    ghost use Rattle.board_tree.specs.Sites.{AreSites};
    ghost use Rattle.std.specs.Prelude.{OnOk, IfOk, is_some, true, None};
    ghost use Rattle.judge_state.specs.First.{WordsAtFirst};

    /// Each word that a program reads, as it opens.
    pub(crate) fn new(alloc: Global, board: &Board, sites: &Sites) -> Result<KeptWords, NoMemory>
        requires decodable { IsDecodable board.now }
        requires sites { AreSites board.now sites.now }
        ensures { IfOk result (WordsAtFirst board.now) }
    {
        let mut words = KeptWords {
            places: KeptPlaces::new(alloc),
            values: Vec::new(alloc),
        };
        for master in board.masters.as_slice() {
            words.know_reads(board, sites, master.bus, master.ops.as_slice())?;
        }
        Ok(words)
    }

    /// The words of these reads, from the bus on, are kept.
    fn know_reads(
        &mut self,
        board: &Board,
        sites: &Sites,
        bus: u8,
        ops: &[Op],
    ) -> Result<(), NoMemory>
        requires decodable { IsDecodable board.now }
        requires sites { AreSites board.now sites.now }
        requires known { WordsKnown board.now self.old }
        ensures known { OnOk result (WordsKnown board.now self.new) }
        ensures stays { OnOk result (StillThere self.old.places self.new.places) }
        ensures reads { OnOk result
            (AllByRecursion (KnowsRead board.now bus self.new.places) ops.now) }
    {
        for op in ops {
            self.know_read(board, sites, bus, op)?;
        }
        Ok(())
    }

    #[tactic(auto, using(crate::proofs::KnownLemmas::still_there))]
    fn know_read(&mut self, board: &Board, sites: &Sites, bus: u8, op: &Op) -> Result<(), NoMemory>
        requires decodable { IsDecodable board.now }
        requires sites { AreSites board.now sites.now }
        requires known { WordsKnown board.now self.old }
        ensures known { OnOk result (WordsKnown board.now self.new) }
        ensures stays { OnOk result (StillThere self.old.places self.new.places) }
        ensures reads { OnOk result (KnowsRead board.now bus self.new.places op.now) }
    {
        let route = route_by(board, Some(sites), op, bus);
        let request = request_on(op, route.bus);
        match route.owner {
            Place::Target(target) if request.command.is_read() => {
                self.know(board, word_read(&request, target))
            }
            Place::Target(_) => Ok(()),
            Place::Header(_) => Ok(()),
            Place::Lane(_) => Ok(()),
            Place::Nobody => Ok(()),
        }
    }

    /// The word is kept, as it opens.
    #[tactic(auto, using(crate::proofs::KnownLemmas::still_there))]
    fn know(&mut self, board: &Board, word: Word) -> Result<(), NoMemory>
        requires { WordsKnown board.now self.old }
        ensures known { OnOk result (WordsKnown board.now self.new) }
        ensures there { OnOk result (is_some (place_at self.new.places word) ≡ true) }
        ensures stays { OnOk result (StillThere self.old.places self.new.places) }
    {
        match self.places.get(word) {
            Some(_) => Ok(()),
            None => self.add(board, word),
        }
    }

    fn add(&mut self, board: &Board, word: Word) -> Result<(), NoMemory>
        requires known { WordsKnown board.now self.old }
        requires absent { place_at self.old.places word ≡ None }
        ensures known { OnOk result (WordsKnown board.now self.new) }
        ensures there { OnOk result (is_some (place_at self.new.places word) ≡ true) }
        ensures stays { OnOk result (StillThere self.old.places self.new.places) }
    {
        let place = self.values.len();
        let value = opens_as(board, word.target, word.space, word.address);
        self.values.push(value)?;
        self.places.put(word, place)?;
        Ok(())
    }

    /// What the word holds; 0 where it is not kept.
    pub(crate) fn value(&self, word: Word) -> u32
        ensures { result ≡ value_at self.now.places self.now.values word }
    {
        match self.places.get(word) {
            Some(place) => value_at(self.values.as_slice(), place),
            None => 0,
        }
    }

    /// A data phase lands in the word.
    fn merge_at(&mut self, word: Word, phase: &Phase)
        ensures places { self.new.places ≡ self.old.places }
        ensures values { self.new.values ≡
            merged_at self.old.places word phase.now self.old.values }
    {
        let mask = mask_of(word.space, word.address);
        if let Some(place) = self.places.get(word) {
            merge_at(self.values.as_mut_slice(), place, phase, mask);
        }
    }

    /// Data phases from an address on land in a target.
    fn land_from(&mut self, target: u16, space: Space, at: u128, phases: &[Phase])
        requires { at ≤ 2 ^ 120 }
        ensures places { self.new.places ≡ self.old.places }
        ensures values { self.new.values ≡
            landed_in self.old.places target space at phases.now self.old.values }
    {
        let mut next = at;
        for phase in phases {
            let address = next;
            self.merge_at(
                Word {
                    target,
                    space,
                    address,
                },
                phase,
            );
            next += 4;
        }
    }

    /// What a step of a write, of which so many data phases went through before, brings into a
    /// target.
    pub(crate) fn land(&mut self, target: u16, request: &Request, gone: u128, step: Step)
        requires { gone ≤ 2 ^ 100 }
        ensures places { self.new.places ≡ self.old.places }
        ensures values { self.new.values ≡
            landed_by self.old.places target step gone request.now self.old.values }
    {
        let space = request.command.space();
        let at = dword_address(space, u128::from(request.address) + 4 * gone);
        let phases = brought_by(step, left_of(request.phases.as_slice(), gone));
        self.land_from(target, space, at, phases);
    }
}
