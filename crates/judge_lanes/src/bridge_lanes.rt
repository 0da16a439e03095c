ghost use Rattle.std.specs.Prelude.{◌≡◌, ◌∷◌, ◌≤◌, ◌^◌, ◌+◌, ◌<◌, ◌==◌, length, IfSome};
ghost use Rattle.std.specs.Prelude.{Some, None, true, false, if◌then◌else◌, nat_lt};
ghost use Rattle.std.specs.List.{find};
ghost use Rattle.history_model.specs.Lanes.{Both, item_ends, slot_taken};
ghost use Rattle.history_model.specs.Lanes.{reply_to, arrives, takes_effect, effect_of};
ghost use Rattle.history_model.specs.Lanes.{is_of};
ghost use Rattle.history_model.specs.World.{enters, is_own, slot_found, lane_outcome};
ghost use Rattle.history_model.specs.Moves.{slot_moved, oldest};
ghost use Rattle.history_model.specs.declared.item.Slot.{Slot};
ghost use Rattle.std.specs.Option.{option_map};
ghost use Rattle.pci_command.specs.Command.{is_read};
ghost use Rattle.board_model.specs.Requests.{is_posted};
ghost use Rattle.history_model.specs.Answers.{posted_answer, delayed_answer, completion_answer};
ghost use Rattle.judge_lanes.specs.Room.{HasRoom};
ghost use Rattle.board_model.specs.Limits.{most_in_flight, most_standing};

use crate::lane_tables::LaneTables;
use board_model::{Board, Bridge, Lane, Place, is_posted};
use history_model::{Answer, By, Carried, Event, Mark, Moved, Rule, Step};
use machine_steps::{
    Presented, completion_answer, lane_outcome, latch_answer, own_slot, posted_answer,
};
use pci_command::{OpId, Outcome, Request};
use std::marker::Model;

/// The two lanes of a bridge.
#[derive(Debug, Drop)]
pub struct BridgeLanes {
    down: LaneTables,
    up: LaneTables,
}

impl Model for BridgeLanes {
    ghost use Rattle.history_model.specs.Lanes.{Both};

    ghost Value = { Both };

    ghost view = { λ lanes. record { here = lanes.down; back = lanes.up } };
}

impl BridgeLanes {
    ghost use Rattle.history_model.specs.Lanes.{Both, empty_lane, item_ends, arrives};
    ghost use Rattle.history_model.specs.World.{enters};
    ghost use Rattle.judge_lanes.specs.Faces.{face_answer};
    ghost use Rattle.judge_lanes.specs.Bridge.{turned, moved_on, place_on};
    ghost use Rattle.judge_lanes.specs.Bridge.{leaves_on, initiator_on, lanes_after};
    ghost use Rattle.judge_lanes.specs.Bridge.{slot_on, item_on, found_on};
    ghost use Rattle.judge_lanes.specs.Room.{HaveRoom};

    /// Lanes with nothing on them.
    pub fn new() -> BridgeLanes
        ensures { result ≡ record { here = empty_lane; back = empty_lane } }
    {
        BridgeLanes {
            down: LaneTables::new(),
            up: LaneTables::new(),
        }
    }

    /// The lane in this direction.
    pub fn lane(&self, up: bool) -> &LaneTables
        ensures { result.now ≡ (turned up self.now).here }
    {
        if up { &self.up } else { &self.down }
    }

    /// The lane back from this direction.
    fn lane_back(&self, up: bool) -> &LaneTables
        ensures { result.now ≡ (turned up self.now).back }
    {
        if up { &self.down } else { &self.up }
    }

    /// What the face of the bridge where the lane begins answers to the request that is presented
    /// there.
    pub fn answer(
        &self,
        board: &Board,
        bridge: &Bridge,
        presented: Presented,
        request: &Request,
        lane: Lane,
    ) -> Answer
        ensures { result ≡ face_answer board.now presented.bus presented.by presented.op
            request.now lane bridge.now
            (turned lane.up self.now).here (turned lane.up self.now).back }
    {
        if is_posted(request) {
            posted_answer(self.lane(lane.up).owed(), bridge.posted, lane)
        } else {
            self.delayed_answer(board, bridge, presented, request, lane)
        }
    }

    /// A delayed request: the completion of the own slot, or a new slot while there is one.
    fn delayed_answer(
        &self,
        board: &Board,
        bridge: &Bridge,
        presented: Presented,
        request: &Request,
        lane: Lane,
    ) -> Answer
        ensures { let here = (turned lane.up self.now).here in
            result ≡ delayed_answer board.now (is_read request.now.command)
            bridge.now.delayed lane here.held (turned lane.up self.now).back.standing
            (find (is_own board.now presented.bus presented.by presented.op) here.held) }
    {
        let held = self.lane(lane.up).held();
        let coming = self.lane_back(lane.up).standing();
        match own_slot(board, presented, held) {
            Some(slot) => {
                completion_answer(board, request.command.is_read(), lane, coming, slot.number)
            }
            None => latch_answer(held.len(), bridge.delayed, lane),
        }
    }

    /// One more event happens by the rule of the bridge, to the lanes of the bridge to this bus;
    /// and what it found on them.
    #[tactic(auto, using(crate::proofs::FoundLemmas::item_then_on))]
    pub fn happen(&mut self, board: &Board, rule: Rule, event: &Event, bus: u8) -> Moved
        requires { HaveRoom 2 self.old }
        ensures lanes { self.new ≡ lanes_after rule board.now event.now bus self.old }
        ensures found { result ≡ found_on rule board.now event.now bus self.old }
    {
        match *event {
            Event::Act {
                bus: on,
                by,
                op,
                step,
                place,
            } => {
                let noted = Presented {
                    bus: on,
                    by: rule.noted(by),
                    op,
                };
                let slot = self.at_place(board, noted, step, place, bus);
                let item = self.at_initiator(board, by, op, step, bus);
                Moved { slot, item }
            }
            Event::Arrive { lane, mark } => Moved {
                slot: None,
                item: self.arrive_on(lane, mark, bus),
            },
        }
    }

    fn at_place(
        &mut self,
        board: &Board,
        presented: Presented,
        step: Step,
        place: Place,
        bus: u8,
    ) -> Option<u8>
        requires { HaveRoom 2 self.old }
        ensures value { self.new ≡
            place_on board.now presented.bus presented.by presented.op step place bus self.old }
        ensures slot { result ≡
            slot_on board.now presented.bus presented.by presented.op step place bus self.old }
        ensures room { HaveRoom 1 self.new }
    {
        match place {
            Place::Lane(lane) if lane.bus == bus => self.enter(board, presented, step, lane.up),
            Place::Lane(_) | Place::Target(_) | Place::Header(_) | Place::Nobody => None,
        }
    }

    fn enter(&mut self, board: &Board, presented: Presented, step: Step, up: bool) -> Option<u8>
        requires { HaveRoom 2 self.old }
        ensures value { self.new ≡ turned up
            (enters board.now presented.bus presented.by presented.op step (turned up self.old)) }
        ensures slot { result ≡ slot_moved board.now presented.bus presented.by presented.op step
            (turned up self.old).here.held }
        ensures room { HaveRoom 1 self.new }
    {
        if up {
            enter(board, presented, step, &mut self.up, &mut self.down)
        } else {
            enter(board, presented, step, &mut self.down, &mut self.up)
        }
    }

    fn at_initiator(
        &mut self,
        board: &Board,
        by: By,
        op: OpId,
        step: Step,
        bus: u8,
    ) -> Option<Carried>
        requires { HaveRoom 1 self.old }
        ensures value { self.new ≡ initiator_on board.now by op step bus self.old }
        ensures item { result ≡ item_on board.now by op step bus self.old }
    {
        match by {
            By::Lane(lane) if lane.bus == bus => match lane_outcome(board, lane, op, step) {
                Some(outcome) => self.end(op, outcome, lane.up),
                None => None,
            },
            By::Lane(_) | By::Master => None,
        }
    }

    fn end(&mut self, op: OpId, outcome: Outcome, up: bool) -> Option<Carried>
        requires { HaveRoom 1 self.old }
        ensures value { self.new ≡ turned up (item_ends op outcome (turned up self.old)) }
        ensures item { result ≡ find (is_of op) (turned up self.old).here.standing }
    {
        if up {
            end(op, outcome, &mut self.up, &mut self.down)
        } else {
            end(op, outcome, &mut self.down, &mut self.up)
        }
    }

    fn arrive_on(&mut self, lane: Lane, mark: Mark, bus: u8) -> Option<Carried>
        requires { HaveRoom 1 self.old }
        ensures value { self.new ≡ moved_on (arrives mark) lane bus self.old }
        ensures item { result ≡
            (if lane.bus == bus then oldest (turned lane.up self.old).here.flight else None) }
    {
        if lane.bus == bus {
            self.arrive(mark, lane.up)
        } else {
            None
        }
    }

    fn arrive(&mut self, mark: Mark, up: bool) -> Option<Carried>
        requires { HaveRoom 1 self.old }
        ensures value { self.new ≡ turned up (arrives mark (turned up self.old)) }
        ensures item { result ≡ oldest (turned up self.old).here.flight }
    {
        if up {
            arrive(mark, &mut self.up, &mut self.down)
        } else {
            arrive(mark, &mut self.down, &mut self.up)
        }
    }
}

/// What a step does at the lane that claimed: a posted write is in flight and owed, a delayed
/// request has the lowest free slot and is in flight, a completion is taken; and the number of the
/// slot that it took, or that is held from now on.
fn enter(
    board: &Board,
    presented: Presented,
    step: Step,
    here: &mut LaneTables,
    back: &mut LaneTables,
) -> Option<u8>
    requires here { HasRoom 2 here.old }
    requires back { HasRoom 2 back.old }
    ensures value { let before : Both = record { here = here.old; back = back.old } in
        let after : Both = record { here = here.new; back = back.new } in
        after ≡ enters board.now presented.bus presented.by presented.op step before }
    ensures slot { result ≡
        slot_moved board.now presented.bus presented.by presented.op step here.old.held }
    ensures room_here { HasRoom 1 here.new }
    ensures room_back { HasRoom 1 back.new }
{
    let Presented { by, op, .. } = presented;
    match step {
        Step::Accept => {
            here.send(Carried::Post { op });
            here.owe();
            None
        }
        Step::Latch => {
            let slot = here.hold(by, op);
            here.send(Carried::Ask { op, slot });
            Some(slot)
        }
        Step::Take(_) => take(board, presented, here, back),
        Step::Land
        | Step::Part(_)
        | Step::Read(_)
        | Step::Stall
        | Step::MasterAbort
        | Step::TargetAbort => None,
    }
}

/// The completion for the own slot leaves, and the slot is free.
fn take(
    board: &Board,
    presented: Presented,
    here: &mut LaneTables,
    back: &mut LaneTables,
) -> Option<u8>
    requires here { HasRoom 2 here.old }
    requires back { HasRoom 2 back.old }
    ensures value { let before : Both = record { here = here.old; back = back.old } in
        let after : Both = record { here = here.new; back = back.new } in
        after ≡ slot_found (find (is_own board.now presented.bus presented.by presented.op)
        here.old.held) before }
    ensures slot { result ≡ option_map (λ (slot : Slot). slot.number)
        (find (is_own board.now presented.bus presented.by presented.op) here.old.held) }
    ensures room_here { HasRoom 1 here.new }
    ensures room_back { HasRoom 1 back.new }
{
    match own_slot(board, presented, here.held()) {
        Some(slot) => {
            here.free(slot.number);
            back.leave_done(slot.number);
            Some(slot.number)
        }
        None => None,
    }
}

/// The oldest standing item of the operation ends: it leaves, and its answer goes back.
fn end(op: OpId, outcome: Outcome, here: &mut LaneTables, back: &mut LaneTables) -> Option<Carried>
    requires { length back.old.flight < most_in_flight + 2 }
    ensures value { let before : Both = record { here = here.old; back = back.old } in
        let after : Both = record { here = here.new; back = back.new } in
        after ≡ item_ends op outcome before }
    ensures item { result ≡ find (is_of op) here.old.standing }
{
    let item = here.leave(op);
    match item {
        Some(Carried::Post { .. }) => back.send(Carried::Room),
        Some(Carried::Ask { op, slot }) => back.send(Carried::Done { op, slot, outcome }),
        Some(Carried::Done { .. } | Carried::Room | Carried::Gone { .. }) | None => {}
    }
    item
}

/// The oldest item in flight arrives.
fn arrive(mark: Mark, here: &mut LaneTables, back: &mut LaneTables) -> Option<Carried>
    requires here { HasRoom 1 here.old }
    requires back { HasRoom 1 back.old }
    ensures value { let before : Both = record { here = here.old; back = back.old } in
        let after : Both = record { here = here.new; back = back.new } in
        after ≡ arrives mark before }
    ensures item { result ≡ oldest here.old.flight }
{
    let item = here.come_off();
    if let Some(item) = item {
        take_effect(mark, item, here, back);
    }
    item
}

/// What the arrival of the item does.
fn take_effect(mark: Mark, item: Carried, here: &mut LaneTables, back: &mut LaneTables)
    requires standing { length here.old.standing < most_standing + 2 }
    requires flight { length back.old.flight < most_in_flight + 2 }
    ensures { let before : Both = record { here = here.old; back = back.old } in
        let after : Both = record { here = here.new; back = back.new } in
        after ≡ takes_effect (effect_of mark item) item before }
{
    match (mark, item) {
        (_, Carried::Room) => back.credit(),
        (_, Carried::Gone { slot }) | (Mark::Discard, Carried::Done { slot, .. }) => back.free(
            slot,
        ),
        (Mark::Drop, Carried::Ask { slot, .. }) => back.send(Carried::Gone { slot }),
        _ => here.stand(item),
    }
}
