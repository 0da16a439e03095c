ghost use Rattle.std.specs.Prelude.{◌≡◌, ◌+◌, ◌*◌, ◌/◌, ◌%◌, ◌^◌, ◌≤◌, ◌<◌, length};
ghost use Rattle.std.specs.Prelude.{slice_get, slice_index, if◌then◌else◌, nat_lt, true};
ghost use Rattle.std.specs.Option.{option_copied};
ghost use Rattle.std.specs.List.{find, list_all};
ghost use Rattle.list_facts.specs.Lists.{before};
ghost use Rattle.pci_command.specs.declared.request.Request.{Request};
ghost use Rattle.board_model.specs.HeaderBytes.{header_word, header_bytes};
ghost use Rattle.board_model.specs.HeaderBytes.{register_2, register_4};
ghost use Rattle.history_model.specs.Lanes.{is_done_for};
ghost use Rattle.history_model.specs.Words.{without};
ghost use Rattle.history_model.specs.Answers.{header_answer, posted_answer, completion_answer};
ghost use Rattle.history_model.specs.Answers.{completion_passes, bridge_to};
ghost use Rattle.machine_steps.specs.Verdicts.{cause_in, HoldsOfAct, HoldsOfArrival};

use crate::order::completion_passes;
use crate::standing::{before_completion, standing_completion};
use board_model::{Board, Bridge, Lane, Place, bridge_to, encode};
use history_model::{Answer, Carried, Cause, Mark, Step, Why};
use pci_command::Request;

/// What the initiator of a transaction that nobody claims is answered.
pub fn nobody() -> Answer
    ensures { result ≡ Answer.Gives Step.MasterAbort Place.Nobody }
{
    Answer::Gives {
        step: Step::MasterAbort,
        place: Place::Nobody,
    }
}

/// The address of the first data phase that is left.
pub fn address_left(request: &Request, gone: u128) -> u128
    requires { gone ≤ 2 ^ 100 }
    ensures { result ≡ (without gone request.now).address }
{
    u128::from(request.address) + 4 * gone
}

/// A target takes what is left of a write where that is not more than it takes at a time.
pub fn write_step(burst: u8, phases: usize) -> Step
    ensures { result ≡ (if nat_lt burst phases then Step.Part burst else Step.Land) }
{
    if (burst as usize) < phases {
        Step::Part(burst)
    } else {
        Step::Land
    }
}

/// A bridge whose header is read answers with the register.
pub fn header_answer(board: &Board, bus: u8, address: u128) -> Answer
    ensures { (request : Request) → request.address ≡ address →
        result ≡ header_answer bus request (bridge_to board.now bus) }
{
    match bridge_to(board, bus) {
        Some(bridge) => Answer::Gives {
            step: Step::Read(header_word(bridge, (address % 0x100 / 4) as u8)),
            place: Place::Header(bus),
        },
        None => nobody(),
    }
}

/// The register of the header with that number; 0 above register 15.
fn header_word(bridge: &Bridge, register: u8) -> u32
    ensures { result ≡ header_word bridge.now register }
{
    let bytes = encode(bridge);
    let offset = 4 * register as usize;
    half_word(&bytes, offset) + 0x1_0000 * half_word(&bytes, offset + 2)
}

fn half_word(bytes: &[u8], offset: usize) -> u32
    requires { offset < 2 ^ 32 }
    ensures value { result ≡ register_2 bytes.now offset }
    ensures fits { result < 2 ^ 16 }
{
    u32::from(byte_at(bytes, offset)) + 0x100 * u32::from(byte_at(bytes, offset + 1))
}

/// The byte at the offset; 0 behind the last.
fn byte_at(bytes: &[u8], offset: usize) -> u8
    ensures { result ≡ slice_index bytes.now offset }
{
    match bytes.get(offset) {
        Some(byte) => *byte,
        None => 0,
    }
}

/// A posted write is accepted while fewer are owed than the bridge holds.
pub fn posted_answer(owed: u8, depth: u8, lane: Lane) -> Answer
    ensures { result ≡ posted_answer owed depth lane }
{
    if owed < depth {
        Answer::Gives {
            step: Step::Accept,
            place: Place::Lane(lane),
        }
    } else {
        Answer::Retry { cause: Cause::Full }
    }
}

/// A delayed request is latched while a slot is free.
pub fn latch_answer(held: usize, depth: u8, lane: Lane) -> Answer
    ensures { result ≡ (if nat_lt held depth then Answer.Gives Step.Latch (Place.Lane lane)
        else Answer.Retry Cause.NoSlot) }
{
    if held < depth as usize {
        Answer::Gives {
            step: Step::Latch,
            place: Place::Lane(lane),
        }
    } else {
        Answer::Retry {
            cause: Cause::NoSlot,
        }
    }
}

/// The completion for the slot, where it stands: it is given if it may pass all that stands before
/// it.
pub fn completion_answer(
    board: &Board,
    read: bool,
    lane: Lane,
    coming: &[Carried],
    slot: u8,
) -> Answer
    ensures { result ≡ completion_answer board.now read lane (before (is_done_for slot) coming.now)
        (find (is_done_for slot) coming.now) }
{
    match standing_completion(coming, slot) {
        Some(Carried::Done { outcome, .. }) => {
            if passes_all(board, read, before_completion(coming, slot)) {
                Answer::Gives {
                    step: Step::Take(outcome),
                    place: Place::Lane(lane),
                }
            } else {
                Answer::Retry {
                    cause: Cause::Behind,
                }
            }
        }
        _ => Answer::Retry {
            cause: Cause::Waiting,
        },
    }
}

/// Whether the completion of a read or a write may pass each of the items.
fn passes_all(board: &Board, read: bool, older: &[Carried]) -> bool
    ensures { result ≡ list_all (completion_passes board.now read) older.now }
{
    older
        .iter()
        .all(|item| completion_passes(board, read, *item))
}

/// Whether the answer is this event.
pub fn answer_allows(answer: Answer, step: Step, place: Place) -> Result<(), Why>
    ensures { HoldsOfAct true answer step place (cause_in result) }
{
    match answer {
        Answer::Gives {
            step: given,
            place: from,
        } if given == step && from == place => Ok(()),
        Answer::Gives { .. } => Err(Why::AnsweredOtherwise),
        Answer::Retry { .. } => Err(Why::GetsRetry),
    }
}

/// Whether an arrival with this mark is the next one.
pub fn arrival_allowed(next: Option<Mark>, mark: Mark) -> Result<(), Why>
    ensures { HoldsOfArrival next mark (cause_in result) }
{
    match next {
        Some(given) if given == mark => Ok(()),
        Some(_) => Err(Why::MarkedOtherwise),
        None => Err(Why::NothingInFlight),
    }
}
