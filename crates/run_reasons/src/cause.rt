ghost use Rattle.std.specs.Prelude.{IsTrue};
ghost use Rattle.board_model.specs.WellFormed.{is_well_formed};

use crate::lane::put_lane_reason;
use crate::reason::Reason;
use crate::retry::put_retry;
use crate::scene::Scene;
use board_model::{Lane, Master};
use history_model::{Answer, By, Event, Mark, Why};
use machine_steps::{Presented, act_given, is_on};
use pci_command::NoMemory;
use trace_text::LaneWord;

/// Why an event is not allowed, and what is so in its place.
pub(crate) fn reason_of(scene: &Scene, event: &Event, why: Why) -> Result<Reason, NoMemory>
    requires { IsTrue (is_well_formed scene.now.board.now) }
{
    let mut reason = Reason::new(scene.alloc);
    put_reason(&mut reason, scene, event, why)?;
    Ok(reason)
}

fn put_reason(reason: &mut Reason, scene: &Scene, event: &Event, why: Why) -> Result<(), NoMemory>
    requires { IsTrue (is_well_formed scene.now.board.now) }
{
    match *event {
        Event::Arrive { lane, .. } => put_arrival(&mut reason.text, scene, lane),
        Event::Act { bus, by, op, .. } => {
            let presented = Presented { bus, by, op };
            match (why, by) {
                (Why::NotPresented, By::Lane(lane)) => {
                    put_lane_reason(reason, scene, presented, lane)
                }
                (Why::NotPresented, By::Master) => put_master(&mut reason.text, scene, presented),
                _ => put_answer(reason, scene, presented),
            }
        }
    }
}

/// What the lane carries next.
fn put_arrival(text: &mut String, scene: &Scene, lane: Lane) -> Result<(), NoMemory> {
    let word = LaneWord(lane);
    match scene.kept.next_mark(scene.board, lane) {
        None => write!(text, "nothing went into {word} that has not arrived")?,
        Some(mark) => write!(text, "this arrival on {word} {}", marked_words(mark))?,
    }
    Ok(())
}

fn marked_words(mark: Mark) -> &'static str {
    match mark {
        Mark::Plain => "has no mark",
        Mark::Discard => "is a `discard`",
        Mark::Drop => "is a `drop`",
    }
}

/// Whose turn it is of a master's program, or on which bus the master is.
fn put_master(text: &mut String, scene: &Scene, presented: Presented) -> Result<(), NoMemory> {
    match scene
        .board
        .masters
        .as_slice()
        .get(usize::from(presented.op.master))
    {
        Some(master) => put_turn(text, scene, presented, master),
        None => scene.put_op(text, presented.op),
    }
}

fn put_turn(
    text: &mut String,
    scene: &Scene,
    presented: Presented,
    master: &Master,
) -> Result<(), NoMemory> {
    let number = presented.op.master;
    write!(text, "{} does not present ", master.name.as_str())?;
    scene.put_op(text, presented.op)?;
    if !is_on(scene.board, presented.bus, number) {
        write!(text, " here: it is on bus {}", master.bus)?;
    } else if let Some(turn) = scene.kept.turn(number) {
        text.push_str(": its turn is ")?;
        scene.put_op(text, turn)?;
    } else {
        text.push_str(": its program has ended")?;
    }
    Ok(())
}

/// How the operation is answered in place of the event: by another, or with Retry.
fn put_answer(reason: &mut Reason, scene: &Scene, presented: Presented) -> Result<(), NoMemory>
    requires { IsTrue (is_well_formed scene.now.board.now) }
{
    let answer = scene.kept.answer(scene.board, presented);
    match answer {
        Answer::Retry { cause } => put_retry(reason, scene, presented, cause),
        Answer::Gives { .. } => {
            reason.text.push_str("it comes to another event")?;
            match act_given(presented, answer) {
                Some(event) => reason.note(event_note(scene, &event)?),
                None => Ok(()),
            }
        }
    }
}

fn event_note(scene: &Scene, event: &Event) -> Result<String, NoMemory> {
    let mut note = String::from_str(scene.alloc, "here it comes to: ")?;
    scene.put_line(&mut note, event)?;
    Ok(note)
}
