use crate::past::Past;
use crate::words::{put_item, put_line, put_op, put_since};
use board_model::{Board, Lane, end_of};
use history_model::{Answer, Carried, Event, Rule};
use judge_state::Kept;
use machine_steps::{completion_answer, may_go, reads};
use pci_command::{NoMemory, OpId};
use std::alloc::Global;

/// What is so after the events before the one that is told of.
#[derive(Drop)]
pub(crate) struct Scene<'a> {
    pub(crate) alloc: Global,
    pub(crate) board: &'a Board,
    pub(crate) kept: &'a Kept,
    pub(crate) past: &'a Past,
    /// The rule of the bridge by which events are judged.
    pub(crate) rule: Rule,
}

impl<'a> Scene<'a> {
    /// An item as it stands on a lane: what it is, and since when.
    pub(crate) fn put_standing(
        &self,
        text: &mut String,
        lane: Lane,
        item: Carried,
    ) -> Result<(), NoMemory> {
        put_item(text, self.board, item)?;
        self.put_since(text, lane, item)
    }

    /// Since when an item stands on a lane.
    pub(crate) fn put_since(
        &self,
        text: &mut String,
        lane: Lane,
        item: Carried,
    ) -> Result<(), NoMemory> {
        put_since(text, self.past.since(lane, item))
    }

    /// Behind what an item stands on a lane that it has to wait for, if it has to.
    pub(crate) fn put_behind(
        &self,
        text: &mut String,
        lane: Lane,
        item: Carried,
        older: &[Carried],
    ) -> Result<(), NoMemory> {
        if let Some(other) = self.first_before(end_of(self.board, lane), item, older) {
            text.push_str(", behind ")?;
            self.put_standing(text, lane, other)?;
        }
        Ok(())
    }

    /// The first of what is older that the item waits for.
    fn first_before(&self, bus: u8, item: Carried, older: &[Carried]) -> Option<Carried> {
        match self.equal_before(bus, item, older) {
            Some(other) => Some(other),
            None => self.not_passed(bus, item, older),
        }
    }

    /// The first of what is older that the item may not pass, by the ordering table.
    pub(crate) fn not_passed(&self, bus: u8, item: Carried, older: &[Carried]) -> Option<Carried> {
        for other in older {
            if !self.passes(bus, item, *other) {
                return Some(*other);
            }
        }
        None
    }

    /// The first of what is older that is an equal request on the bus, for which the item waits.
    pub(crate) fn equal_before(
        &self,
        bus: u8,
        item: Carried,
        older: &[Carried],
    ) -> Option<Carried> {
        for other in older {
            if self.passes(bus, item, *other) && !self.goes(self.rule, bus, item, *other) {
                return Some(*other);
            }
        }
        None
    }

    /// Whether the ordering table lets the item pass an older one.
    fn passes(&self, bus: u8, item: Carried, older: Carried) -> bool {
        match item {
            Carried::Done { op, slot, .. } => {
                let lane = Lane { bus, up: false };
                let reads = reads(self.board, op);
                let answer = completion_answer(self.board, reads, lane, &[older, item], slot);
                matches!(answer, Answer::Gives { .. })
            }
            _ => self.goes(Rule::Untagged, bus, item, older),
        }
    }

    /// Whether a request may go before an older item, by the rule of the bridge.
    fn goes(&self, rule: Rule, bus: u8, item: Carried, older: Carried) -> bool {
        match item {
            Carried::Post { op } | Carried::Ask { op, .. } => {
                may_go(self.board, rule, bus, op, &[older, item])
            }
            Carried::Done { .. } | Carried::Room | Carried::Gone { .. } => true,
        }
    }

    /// An operation as a trace names it.
    pub(crate) fn put_op(&self, text: &mut String, op: OpId) -> Result<(), NoMemory> {
        put_op(text, self.board, op)
    }

    /// The line of an event, as a trace has it.
    pub(crate) fn put_line(&self, text: &mut String, event: &Event) -> Result<(), NoMemory> {
        put_line(text, self.board, event)
    }
}
