ghost use Rattle.board_model.specs.Limits.{most_agents, most_tries};

use board_model::{MOST_AGENTS, Name};
use board_statements::Statement;
use indexmap::IndexSet;
use pci_command::NoMemory;
use std::alloc::{AllocError, Global};
use text_faults::LineFault;

/// A target or master by its name and its bus.
#[derive(Drop)]
pub(crate) struct Agent {
    name: String,
    bus: u8,
}

/// What a draft has, counted as it grows, so that no line looks through all of it again.
#[derive(Drop)]
pub(crate) struct Counts {
    /// The names of its targets and masters.
    names: IndexSet<String>,
    /// How many of these are on each bus.
    agents: [u8; 256],
    /// Its operations, each poll counted by its tries.
    pub(crate) operations: u32,
}

impl Agent {
    ghost use Rattle.std.specs.Prelude.{◌≡◌, Some, IfOk};
    ghost use Rattle.board_parser.specs.draft.Counts.{agent_in, name_and_bus};

    /// The target or master that a statement adds.
    pub(crate) fn of(alloc: Global, statement: &Statement) -> Result<Option<Agent>, NoMemory>
        ensures { IfOk result (λ agent. name_and_bus agent ≡ agent_in statement.now) }
    {
        match statement {
            Statement::NewTarget { name, bus, .. } | Statement::NewMaster { name, bus } => {
                Ok(Some(Agent::named(alloc, name, *bus)?))
            }
            _ => Ok(None),
        }
    }

    fn named(alloc: Global, name: &Name, bus: u8) -> Result<Agent, AllocError>
        ensures { IfOk result (λ agent. name_and_bus (Some agent) ≡ Some (name.now, bus)) }
    {
        let name = String::from_str(alloc, name.as_str())?;
        Ok(Agent { name, bus })
    }
}

impl Counts {
    ghost use Rattle.std.specs.Prelude.{◌≡◌, ℕ, ◌+◌, ◌<◌, ◌≤◌, OnOk, Some, slice_index};
    ghost use Rattle.std.specs.Prelude.{string_bytes};
    ghost use Rattle.std.specs.HashSet.{contains_text};
    ghost use Rattle.board_parser.specs.draft.Drafts.{empty_board};
    ghost use Rattle.board_parser.specs.draft.Counts.{IsCountOf, IsGrown, fault_in, name_and_bus};

    /// Those of a board that has nothing.
    pub(crate) fn new(alloc: Global) -> Counts
        ensures { IsCountOf result empty_board }
    {
        Counts {
            names: IndexSet::new(alloc),
            agents: [0; 256],
            operations: 0,
        }
    }

    /// Whether a target or master has the name.
    pub(crate) fn has_name(&self, name: &Name) -> bool
        ensures { result ≡ contains_text self.now.names name.now }
    {
        self.names.contains(name.as_str())
    }

    /// Why no target or master of this name may be added on that bus.
    pub(crate) fn agent_fault(&self, name: &Name, bus: u8) -> Option<LineFault>
        ensures { result ≡ fault_in self.now name.now bus }
    {
        if self.names.contains(name.as_str()) {
            return Some(LineFault::NameUsed);
        }
        if usize::from(self.agents[usize::from(bus)]) >= MOST_AGENTS {
            return Some(LineFault::OverLimit);
        }
        None
    }

    /// Adds that target or master, and so many operations.
    pub(crate) fn grow(&mut self, agent: Option<Agent>, tries: u32) -> Result<(), NoMemory>
        requires agents { (bus : ℕ) → bus < 256 → slice_index self.old.agents bus ≤ most_agents }
        requires operations { self.old.operations + tries ≤ most_tries }
        ensures { OnOk result (IsGrown self.old self.new (name_and_bus agent) tries) }
    {
        if let Some(agent) = agent {
            self.add_agent(agent)?;
        }
        self.operations += tries;
        Ok(())
    }

    fn add_agent(&mut self, agent: Agent) -> Result<(), NoMemory>
        requires { slice_index self.old.agents agent.bus ≤ most_agents }
        ensures { OnOk result (IsGrown self.old self.new (name_and_bus (Some agent)) 0) }
    {
        let Agent { name, bus } = agent;
        self.agents[usize::from(bus)] += 1;
        self.names.insert(name)?;
        Ok(())
    }
}
