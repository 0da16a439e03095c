use crate::reason::Reason;
use crate::seen::held::put_held;
use crate::words::put_op;
use board_model::{Board, Place};
use history_model::{Event, Step};
use observe_told::{ActsTold, Brought, LineWord, Log, Refused, Seen, WhyNot};
use pci_command::{NoMemory, Outcome};
use std::alloc::Global;
use trace_text::{step_word, target_name};

/// What a refused act is told by.
#[derive(Clone, Copy)]
pub(crate) struct Refusal<'a> {
    pub(crate) alloc: Global,
    pub(crate) log: &'a Log,
    pub(crate) board: &'a Board,
    pub(crate) told: &'a ActsTold,
}

/// Why an act is refused, if one is: its operation and the reason, and what of the ordering table
/// forbids it.
pub(crate) fn reason_of_act(refusal: &Refusal) -> Result<Option<Reason>, NoMemory> {
    match refusal.told.refused {
        Some(refused) => Ok(Some(reason_of(refusal, refused)?)),
        None => Ok(None),
    }
}

fn reason_of(refusal: &Refusal, refused: Refused) -> Result<Reason, NoMemory> {
    let mut reason = Reason::new(refusal.alloc);
    refusal.put_reason(&mut reason, refused)?;
    Ok(reason)
}

impl<'a> Refusal<'a> {
    fn seen(&self, line: u32) -> Option<&'a Seen> {
        self.log.lines.as_slice().get(line as usize)
    }

    fn line(&self, line: u32) -> LineWord {
        self.log.word_of(line)
    }

    fn put_reason(&self, reason: &mut Reason, refused: Refused) -> Result<(), NoMemory> {
        if let Some(Event::Act { op, .. }) = self.told.acts.as_slice().get(self.told.taken) {
            put_op(&mut reason.text, self.board, *op)?;
            reason.text.push_str(": ")?;
        }
        self.put_words(&mut reason.text, refused)?;
        match self.row(refused) {
            Some(row) => reason.note(format!(in self.alloc;
                "row {row}, column posted memory write: No"
            )?),
            None => Ok(()),
        }
    }

    /// The row of the ordering table that forbids it, if one does.
    fn row(&self, refused: Refused) -> Option<&'static str> {
        let seen = self.seen(refused.line)?;
        match refused.reason {
            WhyNot::BehindWrite { .. } => Some(row_of(seen)),
            WhyNot::CompletionBehind { .. } => Some(completion_row_of(seen)),
            _ => None,
        }
    }

    fn put_words(&self, text: &mut String, refused: Refused) -> Result<(), NoMemory> {
        match refused.reason {
            WhyNot::BehindWrite { bridge, item } => {
                text.push_str("it went before ")?;
                put_op(text, self.board, item.op)?;
                text.push_str(" (posted memory write)")?;
                self.put_not_left(text, bridge, item)
            }
            WhyNot::CompletionBehind { bridge, item } => {
                text.push_str("its completion went before ")?;
                put_op(text, self.board, item.op)?;
                self.put_not_left(text, bridge, item)
            }
            WhyNot::BehindEqual { item, .. } => {
                text.push_str("it went before ")?;
                put_op(text, self.board, item.op)?;
                let latched = self.line(item.line);
                write!(text, ", the same request, latched at {latched}")?;
                Ok(())
            }
            WhyNot::NotAsked { bridge, first } => self.put_not_asked(text, bridge, first),
            WhyNot::Left { bridge, line } => {
                write!(text, "it left bridge {bridge} at {}", self.line(line))?;
                Ok(())
            }
            WhyNot::NotItsTurn => {
                text.push_str("another operation of its master is open")?;
                Ok(())
            }
            reason => self.put_answer(text, refused, reason),
        }
    }

    /// Where and when a posted write came to the bridge that holds it.
    fn put_not_left(&self, text: &mut String, bridge: u8, item: Brought) -> Result<(), NoMemory> {
        let line = self.line(item.line);
        let bus = self.seen(item.line).map_or(0, |seen| seen.bus);
        write!(
            text,
            ", posted on bus {bus} at {line}, which has not left bridge {bridge}"
        )?;
        Ok(())
    }

    fn put_not_asked(
        &self,
        text: &mut String,
        bridge: u8,
        first: Option<u32>,
    ) -> Result<(), NoMemory> {
        write!(text, "bridge {bridge} had not been asked for it")?;
        if let Some(line) = first {
            write!(
                text,
                " when it began: the first Retry is {}",
                self.line(line)
            )?;
        }
        Ok(())
    }

    /// The reasons that lie in how the act is answered.
    fn put_answer(
        &self,
        text: &mut String,
        refused: Refused,
        reason: WhyNot,
    ) -> Result<(), NoMemory> {
        match reason {
            WhyNot::MadeFor { read, item, .. } => {
                write!(text, "the completion of {}, was made for ", self.line(read))?;
                put_op(text, self.board, item.op)?;
                write!(text, ", which asked at {}", self.line(item.line))?;
            }
            WhyNot::CompletionIs { outcome, line } => self.put_completion(text, outcome, line)?,
            WhyNot::FullOfWrites { bridge, posted } => {
                write!(text, "bridge {bridge} holds {posted} posted writes: ")?;
                self.put_held(text, Step::Accept)?;
            }
            WhyNot::FullOfRequests { bridge, delayed } => {
                write!(text, "bridge {bridge} holds {delayed} delayed requests: ")?;
                self.put_held(text, Step::Latch)?;
            }
            WhyNot::TargetHolds {
                target,
                value,
                written,
            } => self.put_target(text, target, value, written)?,
            WhyNot::AnsweredBy { step } => {
                write!(text, "it comes to another act: {}", step_word(step))?;
            }
            WhyNot::NotCome { bridge } | WhyNot::NoCompletion { bridge } => {
                write!(text, "there is no completion for it in bridge {bridge}")?;
            }
            _ => write!(text, "{}", self.line(refused.line))?,
        }
        Ok(())
    }

    fn put_completion(
        &self,
        text: &mut String,
        outcome: Outcome,
        line: u32,
    ) -> Result<(), NoMemory> {
        let line = self.line(line);
        match outcome {
            Outcome::Value(value) => {
                write!(text, "its completion is {value:08x}, read at {line}")?;
            }
            Outcome::Written => write!(text, "its completion is ok, made at {line}")?,
            Outcome::Aborted | Outcome::Nobody => {
                write!(text, "its completion is abort, made at {line}")?;
            }
        }
        Ok(())
    }

    /// What the bridge holds that was to take the refused act.
    fn put_held(&self, text: &mut String, step: Step) -> Result<(), NoMemory> {
        match self.told.acts.as_slice().get(self.told.taken) {
            Some(
                Event::Act {
                    place: Place::Lane(lane),
                    ..
                },
            ) => put_held(text, self, *lane, step),
            _ => Ok(()),
        }
    }

    fn put_target(
        &self,
        text: &mut String,
        target: u16,
        value: u32,
        written: Option<u32>,
    ) -> Result<(), NoMemory> {
        let name = target_name(self.board, target);
        write!(text, "{name} holds {value:08x} there")?;
        if let Some(line) = written {
            write!(text, ", written at line {}", self.line(line).line)?;
        }
        Ok(())
    }
}

/// What the line is in the ordering table, while it goes on.
fn row_of(seen: &Seen) -> &'static str {
    if seen.is_posted() {
        "posted memory write"
    } else if seen.command.is_read() {
        "delayed read request"
    } else {
        "delayed write request"
    }
}

/// What its completion is in the ordering table.
fn completion_row_of(seen: &Seen) -> &'static str {
    if seen.command.is_read() {
        "delayed read completion"
    } else {
        "delayed write completion"
    }
}
