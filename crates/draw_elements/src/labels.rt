use crate::acts::ActLine;
use crate::words::kind_word;
use board_model::{Board, Lane, Place, end_of, request_of};
use board_printer::{Address, DataWord, HexWord};
use draw_items::Journey;
use history_model::{By, Carried, Event, Mark, Step};
use pci_command::{OpId, Outcome, Phase, Request, Space};
use std::alloc::AllocError;
use trace_text::{ByWord, LaneWord, print_operation, step_word, target_name};

/// The line of the event, without its newline.
pub fn print_event(text: &mut String, board: &Board, event: &Event) -> Result<(), AllocError> {
    match *event {
        Event::Act {
            bus,
            by,
            op,
            step,
            place,
        } => {
            let line = ActLine {
                bus,
                by,
                op,
                step,
                place,
            };
            print_act_line(text, board, line)
        }
        Event::Arrive { lane, mark } => print_arrival(text, board, lane, mark),
    }
}

fn print_act_line(text: &mut String, board: &Board, line: ActLine) -> Result<(), AllocError> {
    let by = ByWord(line.by);
    write!(text, "{} {} {by} ", line.bus, step_word(line.step))?;
    print_operation(text, board, &line.op)?;
    print_place(text, board, line.place)?;
    print_result(text, line.step)
}

fn print_arrival(
    text: &mut String,
    board: &Board,
    lane: Lane,
    mark: Mark,
) -> Result<(), AllocError> {
    write!(text, "{} arrive {}", end_of(board, lane), LaneWord(lane))?;
    print_mark(text, mark)
}

fn print_place(text: &mut String, board: &Board, place: Place) -> Result<(), AllocError> {
    match place {
        Place::Target(index) => write!(text, " {}", target_name(board, index)),
        Place::Header(bus) => write!(text, " ={bus}"),
        Place::Lane(lane) => write!(text, " {}", LaneWord(lane)),
        Place::Nobody => Ok(()),
    }
}

fn print_result(text: &mut String, step: Step) -> Result<(), AllocError> {
    match step {
        Step::Part(phases) => write!(text, " {phases}"),
        Step::Read(value) => write!(text, " {}", HexWord(value)),
        Step::Take(outcome) => match outcome {
            Outcome::Value(value) => write!(text, " {}", HexWord(value)),
            Outcome::Written => text.push_str(" ok"),
            Outcome::Aborted => text.push_str(" abort"),
            Outcome::Nobody => text.push_str(" nobody"),
        },
        Step::Land
        | Step::Accept
        | Step::Latch
        | Step::Stall
        | Step::MasterAbort
        | Step::TargetAbort => Ok(()),
    }
}

fn print_mark(text: &mut String, mark: Mark) -> Result<(), AllocError> {
    match mark {
        Mark::Plain => Ok(()),
        Mark::Discard => text.push_str(" discard"),
        Mark::Drop => text.push_str(" drop"),
    }
}

/// What is noted behind an event: what arrives, or what is written and the address.
pub fn print_note(
    text: &mut String,
    board: &Board,
    item: Option<Journey>,
    event: &Event,
) -> Result<(), AllocError> {
    match *event {
        Event::Act {
            bus,
            by,
            op,
            step,
            place,
        } => {
            if tells_request(by, step, place) {
                print_request_of(text, board, bus, op)
            } else {
                Ok(())
            }
        }
        Event::Arrive { .. } => print_arriving(text, board, item),
    }
}

fn print_arriving(
    text: &mut String,
    board: &Board,
    item: Option<Journey>,
) -> Result<(), AllocError> {
    match item {
        Some(item) => print_item_note(text, board, item.carried, item.op),
        None => Ok(()),
    }
}

fn print_item_note(
    text: &mut String,
    board: &Board,
    item: Carried,
    op: OpId,
) -> Result<(), AllocError> {
    match item {
        Carried::Post { .. } | Carried::Ask { .. } | Carried::Done { .. } | Carried::Gone { .. } =>
            {
                write!(text, "{} ", kind_word(item))?;
                print_operation(text, board, &op)
            }
        Carried::Room => text.push_str("credit"),
    }
}

/// Whether the act has a note of its request: a landing or a read at a target, and what a bridge
/// accepts or latches of a master.
fn tells_request(by: By, step: Step, place: Place) -> bool {
    match place {
        Place::Target(_) => reaches(step),
        Place::Lane(_) => is_new(by, step),
        Place::Header(_) | Place::Nobody => false,
    }
}

fn reaches(step: Step) -> bool {
    matches!(step, Step::Land | Step::Part(_) | Step::Read(_))
}

fn is_new(by: By, step: Step) -> bool {
    match by {
        By::Master => enters(step),
        By::Lane(_) => false,
    }
}

fn enters(step: Step) -> bool {
    matches!(step, Step::Accept | Step::Latch)
}

fn print_request_of(text: &mut String, board: &Board, bus: u8, op: OpId) -> Result<(), AllocError> {
    match request_of(board, op, bus) {
        Some(request) => {
            print_data(text, &request)?;
            text.push_str("at ")?;
            print_address(text, request.command.space(), request.address)
        }
        None => Ok(()),
    }
}

/// Of a write the first word.
fn print_data(text: &mut String, request: &Request) -> Result<(), AllocError> {
    if request.command.is_read() {
        Ok(())
    } else {
        print_phases(text, request.phases.as_slice())
    }
}

fn print_address(text: &mut String, space: Space, address: u64) -> Result<(), AllocError> {
    match space {
        Space::Mem => write!(text, "{}", Address(address)),
        Space::Io => write!(text, "io {}", Address(address)),
        Space::Cfg => write!(text, "cfg {}", Address(address % 0x100)),
    }
}

fn print_phases(text: &mut String, phases: &[Phase]) -> Result<(), AllocError> {
    match phases {
        [] => Ok(()),
        [phase] => write!(text, "{} ", DataWord(*phase)),
        [phase, ..] => write!(text, "{} .. ", DataWord(*phase)),
    }
}
