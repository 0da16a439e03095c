ghost use Rattle.std.specs.Prelude.{IsTrue};
ghost use Rattle.board_model.specs.WellFormed.{is_well_formed};

use board_model::{Board, Lane, MOST_DELAYED, Place, bridge_to, end_of, request_of};
use history_model::{Answer, By, Carried, Cause, Event, Step, Why};
use judge_state::Kept;
use machine_steps::Presented;
use observe_told::{Brought, Candidate, Ending, Heads, Seen, SeenAct, Who, WhyNot};
use pci_command::{OpId, Outcome, same_request};

/// What the reasons are told by: what is kept of the run, the acts that were taken, and those that
/// are left.
#[derive(Clone, Copy)]
pub(crate) struct Past<'a> {
    pub(crate) kept: &'a Kept,
    pub(crate) board: &'a Board,
    pub(crate) taken: &'a [SeenAct],
    pub(crate) heads: &'a Heads<'a>,
}

impl<'a> Past<'a> {
    /// Why the candidate is refused.
    pub(crate) fn why(&self, candidate: &Candidate) -> (Why, WhyNot)
        requires { IsTrue (is_well_formed self.now.board.now) }
    {
        let event = self.heads.event(candidate);
        let Some((presented, step, place)) = event.and_then(parts) else {
            return (Why::NotPresented, WhyNot::NotItsTurn);
        };
        if !self.kept.wants(self.board, presented) {
            return (Why::NotPresented, self.not_presented(presented));
        }
        match self.kept.answer(self.board, presented) {
            Answer::Retry { cause } => (
                Why::GetsRetry,
                self.retried(presented, step, place, cause),
            ),
            Answer::Gives { step: given, .. } => {
                let reason = self.otherwise(presented, step, place, given);
                (Why::AnsweredOtherwise, reason)
            }
        }
    }

    fn not_presented(&self, presented: Presented) -> WhyNot {
        let By::Lane(lane) = presented.by else {
            return WhyNot::NotItsTurn;
        };
        let bridge = lane.bus;
        let mut equal = None;
        for item in self.standing(lane) {
            match *item {
                Carried::Post { op } | Carried::Ask { op, .. } if op == presented.op => {
                    return self.before_equal(bridge, equal);
                }
                Carried::Post { op } => {
                    let item = self.item(lane, op);
                    return self.behind_or_gone(lane, presented.op, item);
                }
                Carried::Ask { op, .. } => {
                    let is_equal = self.are_equal(presented.bus, op, presented.op);
                    if is_equal && equal.is_none() {
                        equal = Some(self.item(lane, op));
                    }
                }
                Carried::Done { .. } | Carried::Room | Carried::Gone { .. } => {}
            }
        }
        self.not_there(lane, presented.op)
    }

    fn before_equal(&self, bridge: u8, equal: Option<Brought>) -> WhyNot {
        match equal {
            Some(item) => WhyNot::BehindEqual { bridge, item },
            None => WhyNot::NotAsked {
                bridge,
                first: None,
            },
        }
    }

    /// Where it stands behind the posted write; else it is not there.
    fn behind_or_gone(&self, lane: Lane, op: OpId, item: Brought) -> WhyNot {
        let is_there = self.standing(lane).iter().any(|item| match *item {
            Carried::Post { op: found } | Carried::Ask { op: found, .. } => found == op,
            Carried::Done { .. } | Carried::Room | Carried::Gone { .. } => false,
        });
        if is_there {
            WhyNot::BehindWrite {
                bridge: lane.bus,
                item,
            }
        } else {
            self.not_there(lane, op)
        }
    }

    /// It has left the lane, or it has not come there.
    fn not_there(&self, lane: Lane, op: OpId) -> WhyNot {
        let bridge = lane.bus;
        match self.ended_at(lane, op) {
            Some(line) => WhyNot::Left { bridge, line },
            None => WhyNot::NotAsked {
                bridge,
                first: self
                    .heads
                    .first_left(self.near_bus(lane), op, Place::Lane(lane)),
            },
        }
    }

    /// The bus on which the lane begins, which is that on which the other lane of its bridge ends.
    pub(crate) fn near_bus(&self, lane: Lane) -> u8 {
        end_of(self.board, back_of(lane))
    }

    fn retried(&self, presented: Presented, step: Step, place: Place, cause: Cause) -> WhyNot {
        let Place::Lane(lane) = place else {
            return WhyNot::AnsweredBy { step };
        };
        let bridge = lane.bus;
        let (posted, delayed) = self.depths(bridge);
        match cause {
            Cause::Full => WhyNot::FullOfWrites { bridge, posted },
            // Of the greatest number it may hold more: nothing is known of their completions.
            Cause::NoSlot if step == Step::Latch || delayed == MOST_DELAYED => {
                WhyNot::FullOfRequests { bridge, delayed }
            }
            Cause::NoSlot => self.no_completion(lane, presented),
            Cause::Waiting => WhyNot::NotCome { bridge },
            Cause::Behind => self.completion_behind(lane),
        }
    }

    fn depths(&self, bus: u8) -> (u8, u8) {
        bridge_to(self.board, bus).map_or((0, 0), |bridge| (bridge.posted, bridge.delayed))
    }

    /// The oldest posted write that goes the way of the lane's completions.
    fn completion_behind(&self, lane: Lane) -> WhyNot {
        let back = back_of(lane);
        let bridge = lane.bus;
        for item in self.standing(back) {
            if let Carried::Post { op } = *item {
                let item = self.item(back, op);
                return WhyNot::CompletionBehind { bridge, item };
            }
        }
        WhyNot::NotCome { bridge }
    }

    fn otherwise(&self, presented: Presented, step: Step, place: Place, given: Step) -> WhyNot {
        match (step, place, given) {
            (Step::Take(_), Place::Lane(lane), Step::Latch) => self.no_completion(lane, presented),
            (Step::Take(_), Place::Lane(lane), Step::Take(outcome)) => WhyNot::CompletionIs {
                outcome,
                line: self.ended_at(lane, presented.op).unwrap_or(0),
            },
            (Step::Read(_), Place::Target(target), Step::Read(value)) => WhyNot::TargetHolds {
                target,
                value,
                written: self.written_at(presented),
            },
            _ => WhyNot::AnsweredBy { step: given },
        }
    }

    /// No completion is there that was made for it: the last that was made for an equal request of
    /// who still asks, where there is one. It may have been discarded.
    fn no_completion(&self, lane: Lane, presented: Presented) -> WhyNot {
        let bridge = lane.bus;
        let mut acts = self.taken.iter().rev();
        match acts.find(|act| self.is_made_for_other(act, lane, presented)) {
            Some(made) => WhyNot::MadeFor {
                bridge,
                read: made.line,
                item: self.asking(lane, made.op),
            },
            None => WhyNot::NoCompletion { bridge },
        }
    }

    /// Whether by the act the lane made a completion for an equal request, which did not take one.
    fn is_made_for_other(&self, act: &SeenAct, lane: Lane, presented: Presented) -> bool {
        act.op != presented.op
            && ends(act)
            && self.is_by(act, lane)
            && self.are_equal(presented.bus, act.op, presented.op)
            && !self.has_taken(lane, act.op)
    }

    fn has_taken(&self, lane: Lane, op: OpId) -> bool {
        self.taken
            .iter()
            .any(|act| act.op == op && takes(act, lane))
    }

    /// The operation with the first line at which its initiator asked for it: behind what ended of
    /// the same before.
    fn asking(&self, lane: Lane, op: OpId) -> Brought {
        let Brought { line: latched, .. } = self.item(lane, op);
        let Some(seen) = self.heads.seen(latched) else {
            return Brought { op, line: latched };
        };
        let mut first = latched;
        for (line, other) in self.heads.before(latched).iter().enumerate() {
            if !asks_for_the_same(seen, other) {
                continue;
            }
            let is_first = first == latched;
            first = match other.ending {
                Ending::Retry if is_first => u32::try_from(line).unwrap_or(latched),
                Ending::Retry => first,
                _ => latched,
            };
        }
        Brought { op, line: first }
    }

    /// The line at which the lane ended the operation, where it did.
    fn ended_at(&self, lane: Lane, op: OpId) -> Option<u32> {
        let mut acts = self.taken.iter().rev();
        let found = acts.find(|act| act.op == op && ends(act) && self.is_by(act, lane));
        found.map(|act| act.line)
    }

    /// Whether the lane drove the line of the act.
    fn is_by(&self, act: &SeenAct, lane: Lane) -> bool {
        let seen = self.heads.seen(act.line);
        seen.is_some_and(|seen| seen.who == Who::Lane(lane))
    }

    /// The last line that wrote the dword that the operation reads.
    fn written_at(&self, presented: Presented) -> Option<u32> {
        let bus = presented.bus;
        let address = request_of(self.board, presented.op, bus)?.address;
        let mut acts = self.taken.iter().rev();
        let found = acts.find(|act| self.lands_on(act, bus) && self.writes(act.op, bus, address));
        found.map(|act| act.line)
    }

    /// Whether the act is a write that landed on the bus.
    fn lands_on(&self, act: &SeenAct, bus: u8) -> bool {
        let seen = self.heads.seen(act.line);
        act.step == Step::Land && seen.is_some_and(|seen| seen.bus == bus)
    }

    fn writes(&self, op: OpId, bus: u8, address: u64) -> bool {
        match request_of(self.board, op, bus) {
            Some(request) => {
                let bytes = 4 * request.phases.len() as u64;
                request.address <= address && address - request.address < bytes
            }
            None => false,
        }
    }

    /// Whether the two have one request on the bus.
    fn are_equal(&self, bus: u8, a: OpId, b: OpId) -> bool {
        match (
            request_of(self.board, a, bus),
            request_of(self.board, b, bus),
        ) {
            (Some(a), Some(b)) => same_request(&a, &b),
            _ => false,
        }
    }

    /// The operation with the last line at which the lane took it.
    fn item(&self, lane: Lane, op: OpId) -> Brought {
        let mut acts = self.taken.iter().rev();
        let found = acts.find(|act| act.op == op && enters(act, lane));
        Brought {
            op,
            line: found.map_or(0, |act| act.line),
        }
    }

    /// What stands on the lane, the oldest first.
    fn standing(&self, lane: Lane) -> &'a [Carried] {
        match self.kept.lanes_to(self.board, lane.bus) {
            Some(lanes) => lanes.lane(lane.up).standing(),
            None => &[],
        }
    }
}

/// Whether the lane took its operation by the act.
fn enters(act: &SeenAct, lane: Lane) -> bool {
    act.place == Place::Lane(lane) && matches!(act.step, Step::Accept | Step::Latch)
}

/// Whether the operation took its completion from the lane by the act.
fn takes(act: &SeenAct, lane: Lane) -> bool {
    act.place == Place::Lane(lane) && matches!(act.step, Step::Take(_))
}

/// Whether two lines ask for the same, as far as their addresses tell.
fn asks_for_the_same(a: &Seen, b: &Seen) -> bool {
    let is_same_command = a.command.plain().code() == b.command.plain().code();
    a.bus == b.bus && a.who == b.who && is_same_command && a.address == b.address
}

/// Whether an act ends its operation on the bus.
fn ends(act: &SeenAct) -> bool {
    !matches!(act.step, Step::Latch | Step::Stall | Step::Part(_))
}

/// The lane on which the completions of a lane's requests come back.
fn back_of(lane: Lane) -> Lane {
    Lane {
        up: !lane.up,
        ..lane
    }
}

fn parts(event: Event) -> Option<(Presented, Step, Place)> {
    match event {
        Event::Act {
            bus,
            by,
            op,
            step,
            place,
        } => Some((Presented { bus, by, op }, step, place)),
        Event::Arrive { .. } => None,
    }
}
