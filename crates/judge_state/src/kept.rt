ghost use Rattle.std.specs.Prelude.{◌≡◌, ◌≤◌, ◌+◌, ◌^◌, IsTrue, slice_get};
ghost use Rattle.board_model.specs.WellFormed.{is_well_formed};
ghost use Rattle.board_model.specs.Claims.{claim};
ghost use Rattle.board_tree.specs.Sites.{AreKnown, AreSites};
ghost use Rattle.history_model.specs.Words.{without};
ghost use Rattle.history_model.specs.Answers.{bridge_to};
ghost use Rattle.machine_steps.specs.Verdicts.{HoldsOfAct, cause_in};
ghost use Rattle.judge_state.specs.State.{KeptState, GoneFits};

use crate::gone::KeptGone;
use crate::lanes::KeptLanes;
use crate::tokens::KeptTokens;
use crate::turns::KeptTurns;
use crate::words::KeptWords;
use board_model::{Board, Lane, Place, Target, Word, bridge_to, end_of, is_in_ranges, request_of};
use board_tree::{Sites, Tree, claim_with};
use history_model::{Answer, By, Event, Mark, Moved, Rule, Step, Why};
use judge_lanes::BridgeLanes;
use law_bound::runs_end;
use machine_steps::{
    Presented, address_left, answer_allows, arrival_allowed, dword_address, header_answer, is_on,
    left_of, nobody, write_step,
};
use pci_command::{NoMemory, OpId, Request};
use std::alloc::Global;
use std::marker::Model;

/// What is kept of a run.
#[derive(Debug, Drop)]
pub struct Kept {
    rule: Rule,
    turns: KeptTurns,
    lanes: KeptLanes,
    tokens: KeptTokens,
    gone: KeptGone,
    words: KeptWords,
}

impl Model for Kept {
    ghost use Rattle.judge_state.specs.State.{KeptState};

    ghost Value = { KeptState };

    ghost view = { λ k. record {
      rule = k.rule;
      turns = k.turns;
      lanes = k.lanes;
      tokens = k.tokens;
      gone = k.gone;
      places = k.words.places;
      values = k.words.values;
    } };
}

impl Kept {
    ghost use Rattle.std.specs.Prelude.{List, [], ◌∷◌, IfOk, OnOk, OnErr};
    ghost use Rattle.board_model.specs.Valid.{IsValid};
    ghost use Rattle.history_model.specs.declared.event.Event.{Event};
    ghost use Rattle.history_model.specs.declared.rule.Rule.{Rule};
    ghost use Rattle.history_model.specs.declared.rule.Rule.TheVariants.{Tagged};
    ghost use Rattle.history_model.specs.World.{world_of, world_by};
    ghost use Rattle.history_model.specs.Moves.{moved_by};
    ghost use Rattle.judge_state.specs.Found.{found_next};
    ghost use Rattle.judge_state.specs.Stands.{StandsForBy, StandsFor, Stands, StandsFew};
    ghost use Rattle.judge_state.specs.State.{wants_now, lanes_in, turn_in};
    ghost use Rattle.judge_state.specs.State.{gone_in, tokens_in, mark_in};
    ghost use Rattle.std.specs.Option.{option_copied};
    ghost use Rattle.judge_state.specs.Rooms.{HaveRooms};
    ghost use Rattle.machine_steps.specs.Verdicts.{HoldsBy, Holds};
    ghost use Rattle.judge_state.specs.Answer.{answer_now, answer_by, target_answer, target_step};
    ghost use Rattle.judge_state.specs.Answer.{face_in, HoldsNow, next_state, values_next};

    /// What is kept before the first event, on bridges that keep the local master.
    pub fn new(alloc: Global, tree: &Tree) -> Result<Kept, NoMemory>
        ensures { IfOk result (StandsFor tree.now []) }
    {
        Kept::by_rule(alloc, tree, Rule::Tagged)
    }

    /// What is kept before the first event, by the rule of the bridge.
    pub fn by_rule(alloc: Global, tree: &Tree, rule: Rule) -> Result<Kept, NoMemory>
        ensures { IfOk result (StandsForBy rule tree.now []) }
    {
        Kept::before_all(alloc, tree.board(), tree.sites(), rule)
    }

    fn before_all(alloc: Global, board: &Board, sites: &Sites, rule: Rule) -> Result<Kept, NoMemory>
        requires valid { IsValid board.now }
        requires sites { AreSites board.now sites.now }
        ensures { IfOk result (StandsForBy rule board.now []) }
    {
        Ok(Kept {
            rule,
            turns: KeptTurns::new(alloc, board)?,
            lanes: KeptLanes::new(alloc, board)?,
            tokens: KeptTokens::new(alloc, board)?,
            gone: KeptGone::new(alloc, board)?,
            words: KeptWords::new(alloc, board, sites)?,
        })
    }

    /// One more event, where it is allowed after those for which this stands: then this stands for
    /// it too, and what it found on the lanes is told. If it is not, the cause, and this is as it
    /// was.
    pub fn step(&mut self, tree: &Tree, event: &Event) -> Result<Moved, Why>
        requires { Stands tree.now self.old }
        ensures verdict { (h : List Event) → StandsFor tree.now h self.old →
            Holds tree.now h event.now (cause_in result) }
        ensures moved { (h : List Event) → StandsFor tree.now h self.old → IfOk result
            (λ found. found ≡ moved_by Tagged tree.now (world_of tree.now h) event.now) }
        ensures goes_on { (h : List Event) → StandsFor tree.now h self.old →
            OnOk result (StandsFor tree.now (event.now ∷ h) self.new) }
        ensures refused { OnErr result (self.new ≡ self.old) }
    {
        self.step_kept(tree.board(), tree.sites(), event)
    }

    fn step_kept(&mut self, board: &Board, sites: &Sites, event: &Event) -> Result<Moved, Why>
        requires valid { IsValid board.now }
        requires sites { AreSites board.now sites.now }
        requires stands { Stands board.now self.old }
        ensures verdict { (h : List Event) → StandsFor board.now h self.old →
            Holds board.now h event.now (cause_in result) }
        ensures moved { (h : List Event) → StandsFor board.now h self.old → IfOk result
            (λ found. found ≡ moved_by Tagged board.now (world_of board.now h) event.now) }
        ensures goes_on { (h : List Event) → StandsFor board.now h self.old →
            OnOk result (StandsFor board.now (event.now ∷ h) self.new) }
        ensures refused { OnErr result (self.new ≡ self.old) }
    {
        // A run on bridges that keep the local master has few events.
        runs_end();
        self.step_on(board, sites, event)
    }

    /// One more event, by the rule of the bridge, where it is allowed after those for which this
    /// stands, of which there are few: then this stands for it too, and what it found on the lanes
    /// is told. If it is not, the cause, and this is as it was.
    pub fn step_by_rule(&mut self, tree: &Tree, event: &Event) -> Result<Moved, Why>
        requires { StandsFew tree.now self.old }
        ensures verdict { (rule : Rule) (h : List Event) → StandsForBy rule tree.now h self.old →
            HoldsBy rule tree.now h event.now (cause_in result) }
        ensures moved { (rule : Rule) (h : List Event) → StandsForBy rule tree.now h self.old →
            IfOk result
            (λ found. found ≡ moved_by rule tree.now (world_by rule tree.now h) event.now) }
        ensures goes_on { (rule : Rule) (h : List Event) → StandsForBy rule tree.now h self.old →
            OnOk result (StandsForBy rule tree.now (event.now ∷ h) self.new) }
        ensures refused { OnErr result (self.new ≡ self.old) }
    {
        self.step_on(tree.board(), tree.sites(), event)
    }

    fn step_on(&mut self, board: &Board, sites: &Sites, event: &Event) -> Result<Moved, Why>
        requires valid { IsValid board.now }
        requires sites { AreSites board.now sites.now }
        requires stands { StandsFew board.now self.old }
        ensures verdict { (rule : Rule) (h : List Event) → StandsForBy rule board.now h self.old →
            HoldsBy rule board.now h event.now (cause_in result) }
        ensures moved { (rule : Rule) (h : List Event) → StandsForBy rule board.now h self.old →
            IfOk result
            (λ found. found ≡ moved_by rule board.now (world_by rule board.now h) event.now) }
        ensures goes_on { (rule : Rule) (h : List Event) → StandsForBy rule board.now h self.old →
            OnOk result (StandsForBy rule board.now (event.now ∷ h) self.new) }
        ensures refused { OnErr result (self.new ≡ self.old) }
    {
        match self.allows(board, sites, event) {
            Ok(()) => Ok(self.happen(board, event)),
            Err(why) => Err(why),
        }
    }

    /// The turn of the master.
    pub fn turn(&self, master: u16) -> Option<OpId>
        ensures { result ≡ turn_in self.now.turns master }
    {
        self.turns.of(master)
    }

    /// How many data phases of the operation went through.
    pub fn through(&self, op: OpId) -> u32
        ensures { result ≡ gone_in self.now.gone op }
    {
        self.gone.of(op)
    }

    /// The stall tokens that are left of the target.
    pub fn tokens(&self, target: u16) -> u32
        ensures { result ≡ tokens_in self.now.tokens target }
    {
        self.tokens.of(target)
    }

    /// The lanes of the bridge to the bus.
    pub fn lanes_to(&self, board: &Board, bus: u8) -> Option<&BridgeLanes>
        ensures { option_copied result ≡ lanes_in board.now self.now.lanes bus }
    {
        self.lanes.to(board, bus)
    }

    /// The mark of the next arrival on the lane, where something is in flight.
    pub fn next_mark(&self, board: &Board, lane: Lane) -> Option<Mark>
        ensures { result ≡ mark_in board.now self.now.lanes lane }
    {
        self.lanes.next_mark(board, lane)
    }

    /// Whether the initiator presents the operation on the bus.
    pub fn wants(&self, board: &Board, presented: Presented) -> bool
        ensures { result ≡ wants_now board.now self.now presented.bus presented.by presented.op }
    {
        let Presented { bus, by, op } = presented;
        match by {
            By::Master => is_on(board, bus, op.master) && self.turns.is_turn(op),
            By::Lane(lane) => {
                end_of(board, lane) == bus && self.lanes.presents(board, self.rule, lane, bus, op)
            }
        }
    }

    /// What the operation is answered, presented on the bus by the initiator.
    pub fn answer(&self, board: &Board, presented: Presented) -> Answer
        requires { IsTrue (is_well_formed board.now) }
        ensures { result ≡ answer_now board.now self.now presented.bus presented.by presented.op }
    {
        self.answer_with(board, None, presented)
    }

    /// The same, where the sites of the board may be known.
    pub fn answer_with(&self, board: &Board, sites: Option<&Sites>, presented: Presented) -> Answer
        requires formed { IsTrue (is_well_formed board.now) }
        requires sites { AreKnown board.now sites }
        ensures { result ≡ answer_now board.now self.now presented.bus presented.by presented.op }
    {
        match request_of(board, presented.op, presented.bus) {
            Some(request) => {
                let gone = u128::from(self.gone.of(presented.op));
                let noted = Presented {
                    bus: presented.bus,
                    by: self.rule.noted(presented.by),
                    op: presented.op,
                };
                self.answer_to(board, sites, noted, &request, gone)
            }
            None => nobody(),
        }
    }

    /// The answer of who claims what is left of the request, of which so many data phases went
    /// through.
    fn answer_to(
        &self,
        board: &Board,
        sites: Option<&Sites>,
        presented: Presented,
        request: &Request,
        gone: u128,
    ) -> Answer
        requires formed { IsTrue (is_well_formed board.now) }
        requires sites { AreKnown board.now sites }
        requires fits { gone ≤ 2 ^ 100 }
        ensures { let rest = without gone request.now in
            result ≡ answer_by board.now self.now presented.bus presented.by presented.op rest
            (claim board.now presented.bus rest) }
    {
        let space = request.command.space();
        let address = address_left(request, gone);
        match claim_with(board, sites, presented.bus, space, address) {
            Place::Target(target) => self.target_answer(board, target, request, gone),
            Place::Header(header) => header_answer(board, header, address),
            Place::Lane(lane) => self.lane_answer(board, presented, lane, request),
            Place::Nobody => nobody(),
        }
    }

    fn target_answer(&self, board: &Board, place: u16, request: &Request, gone: u128) -> Answer
        requires { gone ≤ 2 ^ 100 }
        ensures { result ≡ target_answer self.now place (without gone request.now)
            (slice_get board.now.targets place) }
    {
        match board.targets.as_slice().get(place as usize) {
            Some(target) => Answer::Gives {
                step: self.target_step(place, request, gone, target),
                place: Place::Target(place),
            },
            None => nobody(),
        }
    }

    /// A target that claims: a stall while tokens are left, an abort in an abort range, and else
    /// the access.
    fn target_step(&self, place: u16, request: &Request, gone: u128, target: &Target) -> Step
        requires { gone ≤ 2 ^ 100 }
        ensures { result ≡ target_step self.now place (without gone request.now) target.now }
    {
        let space = request.command.space();
        let address = address_left(request, gone);
        if 0 < self.tokens.of(place) {
            Step::Stall
        } else if is_in_ranges(target.aborts.as_slice(), space, address) {
            Step::TargetAbort
        } else if request.command.is_read() {
            let address = dword_address(space, address);
            Step::Read(
                self.words.value(Word {
                    target: place,
                    space,
                    address,
                }),
            )
        } else {
            write_step(target.burst, left_of(request.phases.as_slice(), gone).len())
        }
    }

    /// The face of a bridge where the lane begins.
    fn lane_answer(
        &self,
        board: &Board,
        presented: Presented,
        lane: Lane,
        request: &Request,
    ) -> Answer
        ensures { result ≡
            face_in board.now self.now presented.bus presented.by presented.op request.now lane
            (bridge_to board.now lane.bus) (lanes_in board.now self.now.lanes lane.bus) }
    {
        match (bridge_to(board, lane.bus), self.lanes.to(board, lane.bus)) {
            (Some(bridge), Some(lanes)) => lanes.answer(board, bridge, presented, request, lane),
            _ => nobody(),
        }
    }

    /// Whether the event is allowed.
    fn allows(&self, board: &Board, sites: &Sites, event: &Event) -> Result<(), Why>
        requires formed { IsTrue (is_well_formed board.now) }
        requires sites { AreSites board.now sites.now }
        ensures { HoldsNow board.now self.now event.now (cause_in result) }
    {
        match *event {
            Event::Act {
                bus,
                by,
                op,
                step,
                place,
            } => self.act_allowed(board, sites, Presented { bus, by, op }, step, place),
            Event::Arrive { lane, mark } => { arrival_allowed(self.next_mark(board, lane), mark) }
        }
    }

    fn act_allowed(
        &self,
        board: &Board,
        sites: &Sites,
        presented: Presented,
        step: Step,
        place: Place,
    ) -> Result<(), Why>
        requires formed { IsTrue (is_well_formed board.now) }
        requires sites { AreSites board.now sites.now }
        ensures { HoldsOfAct (wants_now board.now self.now presented.bus presented.by presented.op)
            (answer_now board.now self.now presented.bus presented.by presented.op) step place
            (cause_in result) }
    {
        if self.wants(board, presented) {
            let answer = self.answer_with(board, Some(sites), presented);
            answer_allows(answer, step, place)
        } else {
            Err(Why::NotPresented)
        }
    }

    /// One more event happens; and what it found on the lanes.
    fn happen(&mut self, board: &Board, event: &Event) -> Moved
        requires formed { IsTrue (is_well_formed board.now) }
        requires rooms { HaveRooms board.now self.old.lanes }
        requires gone { GoneFits event.now self.old.gone }
        ensures state { self.new ≡ next_state board.now event.now self.old }
        ensures found { result ≡ found_next self.old.rule board.now event.now self.old.lanes }
    {
        self.land(board, event);
        self.turns.happen(board, event);
        let found = self.lanes.happen(board, self.rule, event);
        self.tokens.happen(event);
        self.gone.happen(event);
        found
    }

    /// What the event brings to words.
    fn land(&mut self, board: &Board, event: &Event)
        ensures { self.new ≡ record self.old {
          values = values_next board.now self.old.places self.old.gone event.now self.old.values;
        } }
    {
        match *event {
            Event::Act {
                bus,
                op,
                step,
                place: Place::Target(target),
                ..
            } => {
                if let Some(request) = request_of(board, op, bus) {
                    let gone = u128::from(self.gone.of(op));
                    self.words.land(target, &request, gone, step);
                }
            }
            Event::Act { .. } | Event::Arrive { .. } => {}
        }
    }
}
