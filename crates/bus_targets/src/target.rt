ghost use Rattle.std.specs.Prelude.{◌≡◌, ◌-◌, ◌<◌, ℕ, List, [], ◌∷◌, length, Option, Some, IfOk};
ghost use Rattle.std.specs.Prelude.{IsSome, if◌then◌else◌, nat_lt, slice_get, take};
ghost use Rattle.board_model.specs.declared.board.Board.{Board as BoardTree};
ghost use Rattle.board_model.specs.declared.agents.Target.{Target as TargetAgent};
ghost use Rattle.board_model.specs.Ways.{aborts_at, address_in};
ghost use Rattle.history_model.specs.declared.event.Event.{Event};
ghost use Rattle.pci_command.specs.Command.{is_read};
ghost use Rattle.bus_targets.specs.State.{TargetView, HappensElsewhere};
ghost use Rattle.bus_targets.specs.Stands.{TargetStands, TableAtFirst};

use crate::reads::addresses_read;
use crate::{Access, TargetWords};
use board_model::{Board, Target, is_in_ranges};
use history_model::Step;
use machine_steps::{brought_by, dword_address};
use pci_command::{NoMemory, Request, Space};
use std::alloc::Global;
use std::marker::Model;

/// A target: the stall tokens that are left, and each word that operations read of it.
#[derive(Debug, Drop)]
pub struct TargetState {
    target: u16,
    stalls: u32,
    memory: TargetWords,
    ports: TargetWords,
    registers: TargetWords,
}

impl Model for TargetState {
    ghost use Rattle.bus_targets.specs.State.{TargetView};

    ghost Value = { TargetView };

    ghost view = { λ t. record {
      target = t.target;
      stalls = t.stalls;
      memory = t.memory;
      ports = t.ports;
      registers = t.registers;
    } };
}

impl TargetState {
    ghost use Rattle.bus_targets.specs.State.{words_in, access_by, accessed_in, landed};
    ghost use Rattle.bus_targets.specs.State.{after_access};
    ghost use Rattle.bus_targets.specs.Words.{value_at};
    ghost use Rattle.bus_targets.specs.Stands.{StandsAtFirst, AnswersAsTarget};

    /// The target at this place of the board, before the first event: all its tokens are left, and
    /// each word that an operation reads of it holds what it opens as.
    pub fn new(alloc: Global, board: &Board, target: u16) -> Result<TargetState, NoMemory>
        requires { IsSome (slice_get board.now.targets target) }
        ensures { IfOk result (StandsAtFirst board.now target) }
    {
        let agent = &board.targets.as_slice()[target as usize];
        Ok(TargetState {
            target,
            stalls: agent.stalls,
            memory: table_of(alloc, board, agent, target, Space::Mem)?,
            ports: table_of(alloc, board, agent, target, Space::Io)?,
            registers: table_of(alloc, board, agent, target, Space::Cfg)?,
        })
    }

    /// Its place on the board.
    pub fn target(&self) -> u16
        ensures { result ≡ self.now.target }
    {
        self.target
    }

    /// What the target answers to the request that it claims, and what that changes. A Retry while
    /// it has stall tokens; Target-Abort in an abort range; the word of a read; of a write it takes
    /// at most its burst of data phases, and disconnects where more are left (PCI Local Bus 2.2,
    /// section 3.3.3.2, from memory). It takes no memory.
    pub fn access(&mut self, board: &Board, request: &Request) -> Access
        ensures answer { result ≡
            access_by self.old request.now (slice_get board.now.targets self.old.target) }
        ensures changed { self.new ≡ after_access self.old request.now result }
        ensures stands { AnswersAsTarget board.now self.old request.now result self.new }
    {
        let answer = self.answer(board, request);
        self.change(request, answer);
        answer
    }

    /// The answer alone.
    fn answer(&self, board: &Board, request: &Request) -> Access
        ensures { result ≡
            access_by self.now request.now (slice_get board.now.targets self.now.target) }
    {
        match board.targets.as_slice().get(self.target as usize) {
            Some(agent) => self.answer_of(agent, request),
            None => Access::Abort,
        }
    }

    fn answer_of(&self, agent: &Target, request: &Request) -> Access
        ensures { result ≡ accessed_in self.now request.now agent.now }
    {
        let space = request.command.space();
        let address = u128::from(request.address);
        if self.stalls > 0 {
            Access::Stall
        } else if is_in_ranges(agent.aborts.as_slice(), space, address) {
            Access::Abort
        } else if request.command.is_read() {
            Access::Value(self.value(space, address))
        } else if (agent.burst as usize) < request.phases.len() {
            Access::Part(agent.burst)
        } else {
            Access::Landed
        }
    }

    /// What the dword holds that the address is in.
    fn value(&self, space: Space, address: u128) -> u32
        ensures { result ≡ value_at (words_in space self.now) (address_in space address) }
    {
        let address = dword_address(space, address);
        match space {
            Space::Mem => self.memory.value(address),
            Space::Io => self.ports.value(address),
            Space::Cfg => self.registers.value(address),
        }
    }

    /// What the answer changes.
    fn change(&mut self, request: &Request, answer: Access)
        ensures { self.new ≡ after_access self.old request.now answer }
    {
        match answer {
            Access::Stall => self.stalls = self.stalls.saturating_sub(1),
            Access::Abort | Access::Value(_) => {}
            Access::Part(phases) => self.land(request, Step::Part(phases)),
            Access::Landed => self.land(request, Step::Land),
        }
    }

    /// The data phases of the request that the step brings land.
    fn land(&mut self, request: &Request, step: Step)
        ensures { self.new ≡ landed self.old request.now step }
    {
        let space = request.command.space();
        let at = dword_address(space, u128::from(request.address));
        let phases = brought_by(step, request.phases.as_slice());
        match space {
            Space::Mem => self.memory.land(space, at, phases),
            Space::Io => self.ports.land(space, at, phases),
            Space::Cfg => self.registers.land(space, at, phases),
        }
    }
}

/// What happens at no target, or at another one, leaves a target as it was.
pub fn others_leave_targets()
    ensures { (board : BoardTree) (p : List Event) (t : TargetView) (e : Event) →
        HappensElsewhere t.target e → TargetStands board p t → TargetStands board (e ∷ p) t }
{}

/// The words of one space of the target that operations read, as they open.
fn table_of(
    alloc: Global,
    board: &Board,
    agent: &Target,
    target: u16,
    space: Space,
) -> Result<TargetWords, NoMemory>
    ensures { IfOk result (TableAtFirst board.now agent.now target space) }
{
    let addresses = addresses_read(alloc, board, agent, space)?;
    let table = TargetWords::new(alloc, board, target, space, addresses)?;
    Ok(table)
}
