ghost use Rattle.std.specs.Prelude.{◌≡◌, ◌≤◌, ◌+◌, ◌^◌, [], length, IfOk, OnOk};
ghost use Rattle.board_model.specs.declared.bridge.Place.TheVariants.{Target};
ghost use Rattle.history_model.specs.Knowledge.{is_land_step};
ghost use Rattle.history_model.specs.Runs.{history_of};
ghost use Rattle.pci_command.specs.declared.op_id.OpId.{OpId};
ghost use Rattle.audit_clocks.specs.Tables.{value_of, Lands, Puts};
ghost use Rattle.audit_landings.specs.Hits.{few_of, hits, request_hits, place_hits};
ghost use Rattle.audit_landings.specs.Hits.{event_hits, lands, whole_at, Landed, Parted};

use audit_clocks::{Landings, OpTable};
use board_model::{Board, Place, Word, request_of};
use history_model::{Event, Step};
use machine_steps::{brought_by, dword_address, left_of};
use pci_command::{NoMemory, OpId, Phase, Request};
use std::alloc::Global;

/// The data phases that the event brings to its target, behind those before it; so many of each
/// write went through before.
pub(crate) fn record_landed(
    alloc: Global,
    landed: &mut Landings,
    board: &Board,
    gone: &OpTable<u128>,
    event: &Event,
) -> Result<(), NoMemory>
    ensures { OnOk result (Lands landed.old landed.new (event_hits board.now gone.now event.now)) }
{
    match *event {
        Event::Act {
            bus,
            op,
            step,
            place: Place::Target(target),
            ..
        } => {
            let gone = gone_of(gone, op);
            let at = TargetStep {
                gone,
                op,
                step,
                target,
            };
            record_step(alloc, landed, board, bus, at)
        }
        Event::Act { .. } | Event::Arrive { .. } => Ok(()),
    }
}

/// A step of an operation at a target, before which so many of its data phases went through.
#[derive(Clone, Copy)]
struct TargetStep {
    gone: u128,
    op: OpId,
    step: Step,
    target: u16,
}

fn record_step(
    alloc: Global,
    landed: &mut Landings,
    board: &Board,
    bus: u8,
    at: TargetStep,
) -> Result<(), NoMemory>
    requires { at.gone ≤ 2 ^ 100 }
    ensures { OnOk result (Lands landed.old landed.new
        (place_hits board.now at.gone bus at.op at.step (Target at.target))) }
{
    if !lands(at.step) {
        return Ok(());
    }
    match request_of(board, at.op, bus) {
        None => Ok(()),
        Some(request) => record_request(alloc, landed, &request, at),
    }
}

/// How many data phases of the write went through; never as many as 2^100.
pub fn gone_of(gone: &OpTable<u128>, op: OpId) -> u128
    ensures few { result ≡ few_of op gone.now }
    ensures fits { result ≤ 2 ^ 100 }
{
    match gone.get(op) {
        Some(count) => (*count).min(1 << 100),
        None => 0,
    }
}

/// Whether a step may bring data phases to its target.
pub fn lands(step: Step) -> bool
    ensures { result ≡ lands step }
{
    match step {
        Step::Land | Step::Part(_) => true,
        Step::Read(_)
        | Step::Accept
        | Step::Latch
        | Step::Take(_)
        | Step::Stall
        | Step::MasterAbort
        | Step::TargetAbort => false,
    }
}

fn record_request(
    alloc: Global,
    landed: &mut Landings,
    request: &Request,
    at: TargetStep,
) -> Result<(), NoMemory>
    requires { at.gone ≤ 2 ^ 100 }
    ensures { OnOk result (Lands landed.old landed.new
        (request_hits at.gone at.op at.step at.target request.now)) }
{
    let space = request.command.space();
    let first = Word {
        target: at.target,
        space,
        address: dword_address(space, u128::from(request.address) + 4 * at.gone),
    };
    let left = left_of(request.phases.as_slice(), at.gone);
    record_phases(alloc, landed, first, at.op, brought_by(at.step, left))
}

#[tactic(auto, using(crate::proofs::HitLemmas::hits_none, crate::proofs::HitLemmas::hits_more))]
fn record_phases(
    alloc: Global,
    landed: &mut Landings,
    first: Word,
    op: OpId,
    phases: &[Phase],
) -> Result<(), NoMemory>
    requires { first.address ≤ 2 ^ 120 }
    ensures { OnOk result (Lands landed.old landed.new (λ word.
        hits word op first.target first.space first.address (length phases.now))) }
{
    let mut address = first.address;
    for phase in phases {
        let _value = phase.value;
        landed.land(alloc, Word { address, ..first }, op)?;
        address += 4;
    }
    Ok(())
}

/// The data phases of a write that the event is a part of went through too.
#[tactic(auto, using(crate::proofs::HitLemmas::parted_puts))]
pub fn record_parted(gone: &mut OpTable<u128>, event: &Event) -> Result<(), NoMemory>
    ensures { OnOk result (Parted event.now gone.old gone.new) }
{
    match *event {
        Event::Act {
            op,
            step: Step::Part(phases),
            ..
        } => add_part(gone, op, phases),
        Event::Act { .. } | Event::Arrive { .. } => Ok(()),
    }
}

fn add_part(gone: &mut OpTable<u128>, op: OpId, phases: u8) -> Result<(), NoMemory>
    ensures puts { OnOk result (Puts op (few_of op gone.old + phases) gone.old gone.new) }
    ensures small { phases ≤ 255 }
{
    let count = with_more(gone_of(gone, op), phases);
    gone.put(op, count)
}

fn with_more(count: u128, more: u8) -> u128
    requires { count ≤ 2 ^ 100 }
    ensures { result ≡ count + more }
{
    count + u128::from(more)
}

/// The event, after so many, may land all that was left of a write.
pub(crate) fn record_whole(
    whole: &mut OpTable<usize>,
    index: usize,
    event: &Event,
) -> Result<(), NoMemory>
    ensures { OnOk result (Landed event.now index whole.old whole.new) }
{
    match *event {
        Event::Act { op, step, .. } if is_land(step) && whole.get(op).is_none() => {
            whole.put(op, index)
        }
        Event::Act { .. } | Event::Arrive { .. } => Ok(()),
    }
}

/// Of each write that landed whole in these events, the first event first, how many there were
/// before.
pub fn whole_landings(alloc: Global, events: &[Event]) -> Result<OpTable<usize>, NoMemory>
    ensures { IfOk result (λ whole. (op : OpId) →
        value_of op whole ≡ whole_at (history_of events.now) op) }
{
    let mut whole = OpTable::new(alloc);
    record_each(&mut whole, events)?;
    Ok(whole)
}

#[tactic(auto, using(crate::proofs::StandLemmas::whole_more))]
fn record_each(whole: &mut OpTable<usize>, events: &[Event]) -> Result<(), NoMemory>
    requires { whole.old ≡ [] }
    ensures { OnOk result ((op : OpId) →
        value_of op whole.new ≡ whole_at (history_of events.now) op) }
{
    for (index, event) in events.iter().enumerate() {
        record_whole(whole, index, event)?;
    }
    Ok(())
}

/// Whether all that is left of a write lands in the step.
fn is_land(step: Step) -> bool
    ensures { result ≡ is_land_step step }
{
    match step {
        Step::Land => true,
        Step::Part(_)
        | Step::Read(_)
        | Step::Accept
        | Step::Latch
        | Step::Take(_)
        | Step::Stall
        | Step::MasterAbort
        | Step::TargetAbort => false,
    }
}
