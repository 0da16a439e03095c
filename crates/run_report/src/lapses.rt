ghost use Rattle.std.specs.Prelude.{◌≡◌, ◌++◌, IfOk, OnOk, length, slice_get, string_bytes};
ghost use Rattle.std.specs.List.{find, filter_map, filter};
ghost use Rattle.std.specs.Option.{option_map, option_copied};
ghost use Rattle.run_report.specs.Lapses.{lost_by, spent_by, lapse_of, lapse_told, is_by, is_of};
ghost use Rattle.run_report.specs.Lapses.{lapse_line, program_lapses, lapses_text};

use board_model::{Board, Master, Op, Want, op_of};
use history_model::{By, Event, Step};
use pci_command::{OpId, Outcome};
use std::alloc::{AllocError, Global};

/// How an operation came to nothing.
#[derive(Clone, Copy, Debug, PartialEq, Eq)]
pub enum Lapse {
    /// A write that nobody claimed.
    Nobody,
    /// A write that its target aborted.
    Abort,
    /// A poll that spent so many tries.
    Spent(u32),
}

/// An operation that came to nothing.
#[derive(Clone, Copy, Debug, PartialEq, Eq)]
pub struct Lapsed {
    pub op: OpId,
    pub lapse: Lapse,
}

/// A line for each operation that came to nothing, by master and index.
pub(crate) fn lapses_text(
    alloc: Global,
    board: &Board,
    events: &[Event],
) -> Result<String, AllocError>
    ensures { IfOk result (λ text. string_bytes text
        ≡ lapses_text board.now (filter_map (lapse_told board.now) events.now)) }
{
    let lapses = lapses_in(alloc, board, events)?;
    let mut text = String::new(alloc);
    print_programs(alloc, &mut text, board, lapses.as_slice())?;
    Ok(text)
}

fn lapses_in(alloc: Global, board: &Board, events: &[Event]) -> Result<Vec<Lapsed>, AllocError>
    ensures { IfOk result (λ found. found.items ≡ filter_map (lapse_told board.now) events.now) }
{
    events
        .iter()
        .filter_map(|event| lapse_told(board, event))
        .collect(alloc)
}

fn lapse_told(board: &Board, event: &Event) -> Option<Lapsed>
    ensures { result ≡ lapse_told board.now event.now }
{
    match *event {
        Event::Arrive { .. } => None,
        Event::Act { by, op, step, .. } => match lapse_of(op, by, step, op_of(board, op)) {
            None => None,
            Some(lapse) => Some(Lapsed { op, lapse }),
        },
    }
}

fn lapse_of(op: OpId, by: By, step: Step, told: Option<&Op>) -> Option<Lapse>
    ensures { result ≡ lapse_of op by step (option_map (λ o. o.now) told.entry) }
{
    match told {
        None => None,
        Some(told) => match told {
            Op::Read { .. } | Op::CfgRead { .. } => None,
            Op::Write { .. } | Op::CfgWrite { .. } => lost_by(step),
            Op::Poll { want, tries, .. } => {
                if by == By::Master && op.attempt == tries.saturating_sub(1) {
                    spent_by(*want, *tries, step)
                } else {
                    None
                }
            }
        },
    }
}

fn lost_by(step: Step) -> Option<Lapse>
    ensures { result ≡ lost_by step }
{
    match step {
        Step::MasterAbort => Some(Lapse::Nobody),
        Step::TargetAbort => Some(Lapse::Abort),
        Step::Land
        | Step::Part(_)
        | Step::Read(_)
        | Step::Accept
        | Step::Latch
        | Step::Take(_)
        | Step::Stall => None,
    }
}

fn spent_by(want: Want, tries: u32, step: Step) -> Option<Lapse>
    ensures { result ≡ spent_by want tries step }
{
    match step {
        Step::Part(_) | Step::Latch | Step::Stall => None,
        Step::Read(value) | Step::Take(Outcome::Value(value)) if want.is_met_by(value) => None,
        Step::Land
        | Step::Read(_)
        | Step::Accept
        | Step::Take(_)
        | Step::MasterAbort
        | Step::TargetAbort => Some(Lapse::Spent(tries)),
    }
}

fn print_programs(
    alloc: Global,
    text: &mut String,
    board: &Board,
    lapses: &[Lapsed],
) -> Result<(), AllocError>
    ensures { OnOk result (string_bytes text.new
        ≡ string_bytes text.old ++ lapses_text board.now lapses.now) }
{
    let masters = board.masters.as_slice();
    for place in 0..masters.len() {
        print_program(alloc, text, lapses, place, master_at(masters, place))?;
    }
    Ok(())
}

fn master_at(masters: &[Master], place: usize) -> Option<&Master>
    ensures { option_map (λ m. m.now) result ≡ slice_get masters.now place }
{
    masters.get(place)
}

#[tactic(auto, using(crate::proofs::OwnLemmas::program_own))]
fn print_program(
    alloc: Global,
    text: &mut String,
    lapses: &[Lapsed],
    place: usize,
    master: Option<&Master>,
) -> Result<(), AllocError>
    ensures { OnOk result (string_bytes text.new
        ≡ string_bytes text.old ++
        program_lapses lapses.now place (option_map (λ m. m.now) master.entry)) }
{
    match master {
        None => Ok(()),
        Some(master) => {
            // Few of all are its own, and each of its operations looks at these alone.
            let own = own_of(alloc, lapses, place)?;
            print_ops(text, own.as_slice(), place, master)
        }
    }
}

fn own_of(alloc: Global, lapses: &[Lapsed], place: usize) -> Result<Vec<Lapsed>, AllocError>
    ensures { IfOk result (λ own. own.items ≡ filter (is_by place) lapses.now) }
{
    lapses
        .iter()
        .copied()
        .filter(|lapsed| is_by(*lapsed, place))
        .collect(alloc)
}

fn is_by(lapsed: Lapsed, place: usize) -> bool
    ensures { result ≡ is_by place lapsed }
{
    usize::from(lapsed.op.master) == place
}

fn print_ops(
    text: &mut String,
    lapses: &[Lapsed],
    place: usize,
    master: &Master,
) -> Result<(), AllocError>
    ensures { OnOk result (string_bytes text.new
        ≡ string_bytes text.old ++ program_lapses lapses.now place (Some master.now)) }
{
    for index in 0..master.ops.as_slice().len() {
        print_lapse(
            text,
            master.name.as_str(),
            index,
            lapse_at(lapses, place, index),
        )?;
    }
    Ok(())
}

/// The first that tells of this operation.
fn lapse_at(lapses: &[Lapsed], place: usize, index: usize) -> Option<Lapsed>
    ensures { result ≡ find (is_of place index) lapses.now }
{
    lapses
        .iter()
        .copied()
        .find(|lapsed| is_of(*lapsed, place, index))
}

fn is_of(lapsed: Lapsed, place: usize, index: usize) -> bool
    ensures { result ≡ is_of place index lapsed }
{
    usize::from(lapsed.op.master) == place && usize::from(lapsed.op.index) == index
}

fn print_lapse(
    text: &mut String,
    name: &str,
    index: usize,
    lapsed: Option<Lapsed>,
) -> Result<(), AllocError>
    ensures { OnOk result (string_bytes text.new
        ≡ string_bytes text.old ++ lapse_line name.now index lapsed) }
{
    let Some(Lapsed { lapse, .. }) = lapsed else {
        return Ok(());
    };
    match lapse {
        Lapse::Nobody => writeln!(text, "{name}.{index} lost nobody"),
        Lapse::Abort => writeln!(text, "{name}.{index} lost abort"),
        Lapse::Spent(tries) => writeln!(text, "{name}.{index} spent {tries}"),
    }
}
