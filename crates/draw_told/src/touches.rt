ghost use Rattle.std.specs.Prelude.{◌≡◌, ◌≤◌, ◌^◌, [], ◌++◌, ◌∷◌, if◌then◌else◌, ◌&&◌, nat_lt};
ghost use Rattle.std.specs.Prelude.{length, IfOk, OnOk};
ghost use Rattle.pci_command.specs.Same.{same_op, same_space};
ghost use Rattle.audit_clocks.specs.Tables.{same_word};
ghost use Rattle.draw_told.specs.Kept.{touches_in, touches_from, request_touches, place_touches};
ghost use Rattle.draw_told.specs.Kept.{event_touches, last_before, Adds, Touches};

use audit_clocks::OpTable;
use audit_landings::{gone_of, lands, record_parted};
use board_model::{Board, Place, Word, request_of};
use history_model::{Event, Step};
use machine_steps::{brought_by, dword_address, left_of};
use pci_command::{NoMemory, OpId, Request, Space};
use std::alloc::Global;
use std::marker::Model;

/// A data phase that landed in a dword, by an event.
#[derive(Clone, Copy)]
pub(crate) struct Touch {
    pub(crate) word: Word,
    pub(crate) event: u32,
}

/// Data phases that landed, in their order.
#[derive(Drop)]
pub(crate) struct TouchList {
    touches: Vec<Touch>,
}

impl Model for TouchList {
    ghost use Rattle.std.specs.Prelude.{List};
    ghost use Rattle.draw_told.specs.declared.touches.Touch.{Touch};

    ghost Value = { List Touch };

    ghost view = { λ k. k.touches.items };
}

/// The data phases that landed of each write.
#[derive(Drop)]
pub(crate) struct TouchTable {
    lists: OpTable<TouchList>,
}

impl Model for TouchTable {
    ghost use Rattle.std.specs.Prelude.{List};
    ghost use Rattle.pci_command.specs.declared.op_id.OpId.{OpId};
    ghost use Rattle.draw_told.specs.declared.touches.Touch.{Touch};

    ghost Value = { List (OpId × List Touch) };

    ghost view = { λ k. k.lists };
}

/// What landed, and how much of each write went through.
#[derive(Drop)]
pub(crate) struct Landed {
    gone: OpTable<u128>,
    writes: TouchTable,
}

impl Model for Landed {
    ghost use Rattle.draw_told.specs.Kept.{TouchTables};

    ghost Value = { TouchTables };

    ghost view = { λ k. record { gone = k.gone; writes = k.writes } };
}

impl TouchTable {
    /// Nothing landed.
    fn new(alloc: Global) -> TouchTable
        ensures { result ≡ [] }
    {
        TouchTable {
            lists: OpTable::new(alloc),
        }
    }

    /// What landed of a write.
    fn of(&self, op: OpId) -> &[Touch]
        ensures { result.now ≡ touches_in op self.now }
    {
        match self.lists.get(op) {
            Some(list) => list.as_slice(),
            None => &[],
        }
    }

    /// A data phase of the write landed.
    #[tactic(auto, using(crate::proofs::TouchLemmas::adds_put))]
    fn add(&mut self, alloc: Global, op: OpId, touch: Touch) -> Result<(), NoMemory>
        ensures { OnOk result
            (Adds self.old self.new (λ o. if same_op op o then touch ∷ [] else [])) }
    {
        let list = longer(alloc, self.of(op), touch)?;
        self.lists.put(op, list)
    }
}

impl TouchList {
    fn as_slice(&self) -> &[Touch]
        ensures { result.now ≡ self.now }
    {
        self.touches.as_slice()
    }
}

/// These and one more. A write has eight at most.
fn longer(alloc: Global, touches: &[Touch], touch: Touch) -> Result<TouchList, NoMemory>
    ensures { IfOk result (λ list. list ≡ touches.now ++ touch ∷ []) }
{
    let mut touches = touches.to_vec(alloc)?;
    touches.push(touch)?;
    Ok(TouchList { touches })
}

impl Landed {
    ghost use Rattle.draw_told.specs.Kept.{TouchTables};

    pub(crate) fn new(alloc: Global) -> Landed
        ensures { result ≡ record { gone = []; writes = [] } }
    {
        Landed {
            gone: OpTable::new(alloc),
            writes: TouchTable::new(alloc),
        }
    }

    /// Event number n happens.
    pub(crate) fn happen(
        &mut self,
        alloc: Global,
        board: &Board,
        n: u32,
        event: &Event,
    ) -> Result<(), NoMemory>
        ensures { OnOk result (Touches board.now n event.now self.old self.new) }
    {
        record_landed(alloc, &mut self.writes, board, &self.gone, n, event)?;
        record_parted(&mut self.gone, event)
    }

    /// The last event before number n in which a data phase of the write landed in the dword, or 0.
    pub(crate) fn last_before(&self, write: OpId, word: Word, n: u32) -> u32
        ensures { result ≡ last_before word n (touches_in write self.now.writes) 0 }
    {
        let touches = self.writes.of(write);
        let mut last = 0;
        for touch in touches {
            last = later(*touch, word, n, last);
        }
        last
    }
}

/// The event of a touch, if it is of this dword and before number n, or else the other.
fn later(touch: Touch, word: Word, n: u32, found: u32) -> u32
    ensures { result ≡
        (if same_word touch.word word && nat_lt touch.event n then touch.event else found) }
{
    if is_same_word(touch.word, word) && touch.event < n {
        touch.event
    } else {
        found
    }
}

fn is_same_word(a: Word, b: Word) -> bool
    ensures { result ≡ same_word a b }
{
    a.target == b.target && is_same_space(a.space, b.space) && a.address == b.address
}

fn is_same_space(a: Space, b: Space) -> bool
    ensures { result ≡ same_space a b }
{
    match (a, b) {
        (Space::Mem, Space::Mem) | (Space::Io, Space::Io) | (Space::Cfg, Space::Cfg) => true,
        _ => false,
    }
}

fn record_landed(
    alloc: Global,
    writes: &mut TouchTable,
    board: &Board,
    gone: &OpTable<u128>,
    n: u32,
    event: &Event,
) -> Result<(), NoMemory>
    ensures { OnOk result
        (Adds writes.old writes.new (event_touches board.now n gone.now event.now)) }
{
    match *event {
        Event::Act {
            bus,
            op,
            step,
            place,
            ..
        } => {
            let gone = gone_of(gone, op);
            let brought = PhasesBrought { n, gone, op, step };
            record_place(alloc, writes, board, brought, bus, place)
        }
        Event::Arrive { .. } => Ok(()),
    }
}

/// What an event brings: its number, how much of the operation went through before, and its step.
#[derive(Clone, Copy)]
struct PhasesBrought {
    n: u32,
    gone: u128,
    op: OpId,
    step: Step,
}

fn record_place(
    alloc: Global,
    writes: &mut TouchTable,
    board: &Board,
    brought: PhasesBrought,
    bus: u8,
    place: Place,
) -> Result<(), NoMemory>
    requires { brought.gone ≤ 2 ^ 100 }
    ensures { OnOk result (Adds writes.old writes.new (λ o. if same_op brought.op o then
        place_touches board.now brought.n brought.gone bus brought.op brought.step place else [])) }
{
    match place {
        Place::Target(target) => {
            if !lands(brought.step) {
                return Ok(());
            }
            match request_of(board, brought.op, bus) {
                None => Ok(()),
                Some(request) => record_request(alloc, writes, &request, brought, target),
            }
        }
        Place::Header(_) | Place::Lane(_) | Place::Nobody => Ok(()),
    }
}

fn record_request(
    alloc: Global,
    writes: &mut TouchTable,
    request: &Request,
    brought: PhasesBrought,
    target: u16,
) -> Result<(), NoMemory>
    requires { brought.gone ≤ 2 ^ 100 }
    ensures { OnOk result (Adds writes.old writes.new (λ o. if same_op brought.op o then
        request_touches brought.n brought.gone brought.step target request.now else [])) }
{
    let space = request.command.space();
    let first = Word {
        target,
        space,
        address: dword_address(space, u128::from(request.address) + 4 * brought.gone),
    };
    let left = left_of(request.phases.as_slice(), brought.gone);
    let phases = brought_by(brought.step, left);
    record_phases(alloc, writes, brought.n, first, brought.op, phases.len())
}

#[tactic(auto, using(crate::proofs::TouchLemmas::adds_none, crate::proofs::TouchLemmas::adds_more))]
fn record_phases(
    alloc: Global,
    writes: &mut TouchTable,
    n: u32,
    first: Word,
    op: OpId,
    count: usize,
) -> Result<(), NoMemory>
    requires { first.address ≤ 2 ^ 120 }
    ensures { OnOk result (Adds writes.old writes.new (λ o.
        if same_op op o then touches_from n first.target first.space first.address count else [])) }
{
    for phase in 0..count {
        let address = first.address + 4 * phase as u128;
        let touch = Touch {
            word: Word { address, ..first },
            event: n,
        };
        writes.add(alloc, op, touch)?;
    }
    Ok(())
}
