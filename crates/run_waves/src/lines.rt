ghost use Rattle.std.specs.Prelude.{◌≡◌, ◌++◌, [], OnOk, string_bytes};
ghost use Rattle.std.specs.List.{concat};
ghost use Rattle.board_model.specs.declared.board.Board.{Board};
ghost use Rattle.board_printer.specs.Lines.{line_text};
ghost use Rattle.trace_text.specs.Words.{place_words};
ghost use Rattle.run_waves.specs.Shown.Shown.{Text};
ghost use Rattle.run_waves.specs.Shown.{idle_part, kind_word, initiator_word, op_shown, to_shown};
ghost use Rattle.run_waves.specs.Shown.{value_shown, item_word};
ghost use Rattle.run_waves.specs.Scenes.{scene_part, shown_of, value_in};
ghost use Rattle.run_waves.specs.Dump.{value_line, same_shown};

use crate::code::Code;
use crate::reading::SignalReading;
use crate::scene::Scene;
use crate::signal::BusPart;
use board_model::{Board, Place};
use history_model::{Carried, Event, Mark, Step};
use pci_command::Outcome;
use std::alloc::AllocError;
use trace_text::{ByWord, LaneWord, print_operation, step_word, target_name};

/// What the signal of this number reads.
pub(crate) fn print_reading(
    text: &mut String,
    number: usize,
    reading: SignalReading,
) -> Result<(), AllocError>
    ensures { OnOk result (string_bytes text.new
        ≡ string_bytes text.old ++ line_text (value_line number (shown_of reading))) }
{
    match reading {
        SignalReading::Level(true) => writeln!(text, "1{}", Code(number)),
        SignalReading::Level(false) => writeln!(text, "0{}", Code(number)),
        SignalReading::Number(value) => writeln!(text, "b{value:b} {}", Code(number)),
    }
}

/// That nothing happens on its bus.
pub(crate) fn print_idle(text: &mut String, number: usize, part: BusPart) -> Result<(), AllocError>
    ensures { OnOk result (string_bytes text.new
        ≡ string_bytes text.old ++ line_text (value_line number (idle_part part))) }
{
    match part {
        BusPart::Event | BusPart::By | BusPart::Op | BusPart::To => {
            writeln!(text, "s {}", Code(number))
        }
        BusPart::Value => writeln!(text, "bz {}", Code(number)),
    }
}

/// What happens on its bus.
pub(crate) fn print_part(
    text: &mut String,
    board: &Board,
    number: usize,
    part: BusPart,
    scene: &Scene,
) -> Result<(), AllocError>
    ensures { OnOk result (string_bytes text.new
        ≡ string_bytes text.old ++ line_text (value_line number
        (scene_part board.now part scene.now))) }
{
    match part {
        BusPart::Event => writeln!(text, "s{} {}", kind_of(&scene.event), Code(number)),
        BusPart::By => print_by_line(text, number, &scene.event),
        BusPart::Op => print_op_line(text, board, number, scene),
        BusPart::To => print_to_line(text, board, number, scene),
        BusPart::Value => print_value_line(text, number, &scene.event),
    }
}

/// Who presents it, or the lane of an arrival.
fn print_by_line(text: &mut String, number: usize, event: &Event) -> Result<(), AllocError>
    ensures { OnOk result (string_bytes text.new
        ≡ string_bytes text.old ++ line_text (value_line number (Text
        (initiator_word event.now)))) }
{
    match *event {
        Event::Act { by, .. } => writeln!(text, "s{} {}", ByWord(by), Code(number)),
        Event::Arrive { lane, .. } => writeln!(text, "s{} {}", LaneWord(lane), Code(number)),
    }
}

/// The operation.
fn print_op_line(
    text: &mut String,
    board: &Board,
    number: usize,
    scene: &Scene,
) -> Result<(), AllocError>
    ensures { OnOk result (string_bytes text.new
        ≡ string_bytes text.old ++ line_text (value_line number (Text
        (op_shown board.now scene.now.event scene.now.item)))) }
{
    text.push_str("s")?;
    print_op(text, board, scene)?;
    writeln!(text, " {}", Code(number))
}

/// Who claims it, or what arrives.
fn print_to_line(
    text: &mut String,
    board: &Board,
    number: usize,
    scene: &Scene,
) -> Result<(), AllocError>
    ensures { OnOk result (string_bytes text.new
        ≡ string_bytes text.old ++ line_text (value_line number (Text
        (to_shown board.now scene.now.event scene.now.item)))) }
{
    text.push_str("s")?;
    print_to(text, board, scene)?;
    writeln!(text, " {}", Code(number))
}

/// The value that is read.
fn print_value_line(text: &mut String, number: usize, event: &Event) -> Result<(), AllocError>
    ensures { OnOk result (string_bytes text.new
        ≡ string_bytes text.old ++ line_text (value_line number (value_shown event.now))) }
{
    match value_of(event) {
        Some(value) => writeln!(text, "b{value:b} {}", Code(number)),
        None => writeln!(text, "bz {}", Code(number)),
    }
}

fn kind_of(event: &Event) -> &'static str
    ensures { result.now ≡ kind_word event.now }
{
    match event {
        Event::Act { step, .. } => step_word(*step),
        Event::Arrive { mark, .. } => match mark {
            Mark::Plain => "arrive",
            Mark::Discard => "discard",
            Mark::Drop => "drop",
        },
    }
}

fn print_op(text: &mut String, board: &Board, scene: &Scene) -> Result<(), AllocError>
    ensures { OnOk result (string_bytes text.new
        ≡ string_bytes text.old ++ op_shown board.now scene.now.event scene.now.item) }
{
    match scene.event {
        Event::Act { op, .. } => print_operation(text, board, &op),
        Event::Arrive { .. } => match scene.item {
            Some(Carried::Post { op })
            | Some(Carried::Ask { op, .. })
            | Some(Carried::Done { op, .. }) => print_operation(text, board, &op),
            Some(Carried::Room) | Some(Carried::Gone { .. }) | None => Ok(()),
        },
    }
}

fn print_to(text: &mut String, board: &Board, scene: &Scene) -> Result<(), AllocError>
    ensures { OnOk result (string_bytes text.new
        ≡ string_bytes text.old ++ to_shown board.now scene.now.event scene.now.item) }
{
    match scene.event {
        Event::Act { place, .. } => print_place(text, board, place),
        Event::Arrive { .. } => match scene.item {
            Some(item) => text.push_str(item_word(item)),
            None => Ok(()),
        },
    }
}

fn print_place(text: &mut String, board: &Board, place: Place) -> Result<(), AllocError>
    ensures { OnOk result (string_bytes text.new
        ≡ string_bytes text.old ++ concat (place_words board.now place)) }
{
    match place {
        Place::Target(target) => text.push_str(target_name(board, target)),
        Place::Header(bus) => write!(text, "={bus}"),
        Place::Lane(lane) => write!(text, "{}", LaneWord(lane)),
        Place::Nobody => Ok(()),
    }
}

fn item_word(item: Carried) -> &'static str
    ensures { result.now ≡ item_word item }
{
    match item {
        Carried::Post { .. } => "post",
        Carried::Ask { .. } => "request",
        Carried::Done { .. } => "completion",
        Carried::Room => "credit",
        Carried::Gone { .. } => "gone",
    }
}

fn value_of(event: &Event) -> Option<u32>
    ensures { value_shown event.now ≡ value_in result }
{
    match event {
        Event::Act { step, .. } => match step {
            Step::Read(value) => Some(*value),
            Step::Take(Outcome::Value(value)) => Some(*value),
            _ => None,
        },
        Event::Arrive { .. } => None,
    }
}

/// Whether nothing is shown in that part of what happens.
pub(crate) fn is_idle(board: &Board, part: BusPart, scene: &Scene) -> bool
    ensures { result ≡ same_shown (scene_part board.now part scene.now) (idle_part part) }
{
    match part {
        BusPart::Event | BusPart::By => false,
        BusPart::Op => has_no_op(scene),
        BusPart::To => goes_nowhere(board, scene),
        BusPart::Value => value_of(&scene.event).is_none(),
    }
}

fn has_no_op(scene: &Scene) -> bool
    ensures { (board : Board) →
        result ≡ same_shown (Text (op_shown board scene.now.event scene.now.item)) (Text []) }
{
    match scene.event {
        Event::Act { .. } => false,
        Event::Arrive { .. } => {
            matches!(
                scene.item,
                Some(Carried::Room) | Some(Carried::Gone { .. }) | None
            )
        }
    }
}

fn goes_nowhere(board: &Board, scene: &Scene) -> bool
    ensures { result ≡ same_shown (Text (to_shown board.now scene.now.event scene.now.item))
        (Text []) }
{
    match scene.event {
        Event::Act { place, .. } => match place {
            Place::Target(target) => target_name(board, target).is_empty(),
            Place::Nobody => true,
            Place::Header(_) | Place::Lane(_) => false,
        },
        Event::Arrive { .. } => scene.item.is_none(),
    }
}
