ghost use Rattle.std.specs.Prelude.{◌≡◌, ◌<◌, ◌+◌, ◌^◌, ◌∷◌, ◌++◌, []};
ghost use Rattle.std.specs.Prelude.{List, IfOk, IfNone, OnOk, length, Some};
ghost use Rattle.history_model.specs.declared.event.Event.{Event};
ghost use Rattle.history_model.specs.declared.rule.Rule.TheVariants.{Untagged};
ghost use Rattle.machine_steps.specs.Verdicts.{HoldsBy};
ghost use Rattle.untagged_run.specs.Course.{Follows};
ghost use Rattle.untagged_run.specs.Gots.{read_at, given_now, answered_now};

use crate::got::{Followed, Got};
use crate::made::EventMade;
use crate::origins::{Key, OriginTable, key_of};
use board_model::{Board, Place, request_of};
use board_tree::Tree;
use history_model::{By, Carried, Event, Moved, Rule, Step, Why};
use judge_state::Kept;
use machine_steps::{reads, word_read};
use pci_command::{NoMemory, OpId};
use std::alloc::Global;
use std::marker::Model;
use std::mem;

/// What these events of a valid board are on bridges that keep no local master, the first event
/// first. There are fewer than 2^32. Each is looked at once.
pub fn follow(alloc: Global, tree: &Tree, events: &[Event]) -> Result<Followed, NoMemory>
    requires { length events.now < 2 ^ 32 }
    ensures { IfOk result (Follows tree.now events.now) }
{
    let mut course = UntaggedCourse::new(alloc, tree)?;
    course.follow(alloc, tree, events)
}

/// What is kept of a run, and of what its reads got.
#[derive(Drop)]
struct UntaggedCourse {
    kept: Kept,
    origins: OriginTable,
    gots: Vec<Option<Got>>,
}

impl Model for UntaggedCourse {
    ghost use Rattle.untagged_run.specs.Course.{CourseState};

    ghost Value = { CourseState };

    ghost view = { λ c. record { kept = c.kept; origins = c.origins; gots = c.gots.items } };
}

impl UntaggedCourse {
    ghost use Rattle.untagged_run.specs.Course.{IsCourse, Courses, GoesOn, Noted};
    ghost use Rattle.untagged_run.specs.Gots.{taken_at, made_now};

    /// Before the first event.
    fn new(alloc: Global, tree: &Tree) -> Result<UntaggedCourse, NoMemory>
        ensures { IfOk result (IsCourse tree.now []) }
    {
        Ok(UntaggedCourse {
            kept: Kept::by_rule(alloc, tree, Rule::Untagged)?,
            origins: OriginTable::new(alloc),
            gots: Vec::new(alloc),
        })
    }

    /// What these events are, which happen one after another. What their reads got is given away.
    fn follow(&mut self, alloc: Global, tree: &Tree, events: &[Event]) -> Result<Followed, NoMemory>
        requires course { IsCourse tree.now [] self.old }
        requires few { length events.now < 2 ^ 32 }
        ensures { IfOk result (Follows tree.now events.now) }
    {
        for (index, event) in events.iter().enumerate() {
            if let Some(why) = self.step(tree, event)? {
                return Ok(Followed::NotRun {
                    event: index as u32 + 1,
                    why,
                });
            }
        }
        let gots = mem::replace(&mut self.gots, Vec::new(alloc));
        Ok(Followed::Run { gots })
    }

    /// One more event, where it is allowed; if it is not, the cause.
    fn step(&mut self, tree: &Tree, event: &Event) -> Result<Option<Why>, NoMemory>
        requires course { Courses tree.now self.old }
        requires few { length self.old.gots + 1 < 2 ^ 32 }
        ensures verdict { IfOk result (λ verdict. (h : List Event) → IsCourse tree.now h self.old →
            HoldsBy Untagged tree.now h event.now verdict) }
        ensures goes_on { IfOk result (λ verdict. (h : List Event) → IsCourse tree.now h self.old →
            IfNone verdict (GoesOn tree.now h event.now self.old self.new)) }
    {
        match self.kept.step_by_rule(tree, event) {
            Ok(found) => {
                let made = self.made(tree.board(), event, found);
                self.note(made)?;
                Ok(None)
            }
            Err(why) => Ok(Some(why)),
        }
    }

    /// What an event made is noted down.
    fn note(&mut self, made: EventMade) -> Result<(), NoMemory>
        ensures kept { self.new.kept ≡ self.old.kept }
        ensures origins { OnOk result (Noted made self.old.origins self.new.origins) }
        ensures gots { OnOk result (self.new.gots ≡ self.old.gots ++ made.given ∷ []) }
    {
        if let Some(slot) = made.slot {
            self.origins.note(slot, made.source)?;
        }
        self.gots.push(made.given)?;
        Ok(())
    }

    /// What the event makes, which found this on the lanes.
    fn made(&self, board: &Board, event: &Event, found: Moved) -> EventMade
        requires { length self.now.gots + 1 < 2 ^ 32 }
        ensures { result ≡ made_now board.now self.now.origins (length self.now.gots + 1)
            event.now found }
    {
        match *event {
            Event::Act {
                bus,
                by,
                op,
                step,
                place,
            } => {
                let source = match step {
                    Step::Read(_) => self.read(board, bus, op, place),
                    Step::Take(_) => self.taken(place, found.slot),
                    _ => None,
                };
                EventMade {
                    slot: answered(by, found.item),
                    source,
                    given: given(board, by, op, source),
                }
            }
            Event::Arrive { .. } => EventMade {
                slot: None,
                source: None,
                given: None,
            },
        }
    }

    /// A read at a target, by the next event.
    fn read(&self, board: &Board, bus: u8, op: OpId, place: Place) -> Option<Got>
        requires { length self.now.gots + 1 < 2 ^ 32 }
        ensures { result ≡ read_at board.now (length self.now.gots + 1) bus op place }
    {
        let event = self.gots.len() as u32 + 1;
        read_at(board, event, bus, op, place)
    }

    /// The origin of the completion that is taken at the place, by its slot.
    fn taken(&self, place: Place, slot: Option<u8>) -> Option<Got>
        ensures { result ≡ taken_at self.now.origins place slot }
    {
        match (place, slot) {
            (Place::Lane(lane), Some(number)) => self.origins.of(key_of(lane, number)),
            _ => None,
        }
    }
}

/// The slot whose delayed request the act answers, by what it ended.
fn answered(by: By, item: Option<Carried>) -> Option<Key>
    ensures { result ≡ answered_now by item }
{
    match (by, item) {
        (By::Lane(lane), Some(Carried::Ask { slot, .. })) => Some(key_of(lane, slot)),
        _ => None,
    }
}

/// A read at a target, by the event of that number.
fn read_at(board: &Board, event: u32, bus: u8, op: OpId, place: Place) -> Option<Got>
    ensures { result ≡ read_at board.now event bus op place }
{
    match place {
        Place::Target(target) => match request_of(board, op, bus) {
            Some(request) => Some(Got {
                event,
                word: word_read(&request, target),
            }),
            None => None,
        },
        Place::Header(_) | Place::Lane(_) | Place::Nobody => None,
    }
}

/// What the read got that the act ends at its master, by where the value is from.
fn given(board: &Board, by: By, op: OpId, source: Option<Got>) -> Option<Got>
    ensures { result ≡ given_now board.now by op source }
{
    match by {
        By::Master if reads(board, op) => source,
        By::Master | By::Lane(_) => None,
    }
}
