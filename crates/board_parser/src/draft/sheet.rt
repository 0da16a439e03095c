ghost use Rattle.std.specs.Prelude.{◌≡◌, [], ◌∷◌, OnOk};
ghost use Rattle.std.specs.List.{find};
ghost use Rattle.board_model.specs.declared.agents.Target.{Target};
ghost use Rattle.board_model.specs.WellFormed.{is_target_named};
ghost use Rattle.board_parser.specs.draft.Steps.{Changes};
ghost use Rattle.board_parser.specs.draft.Drafts.{board_of};
ghost use Rattle.board_parser.specs.draft.Counts.{IsCountOf};
ghost use Rattle.board_parser.specs.draft.Add.{add};
ghost use Rattle.board_parser.specs.draft.Targets.{bus_in, owned};

use crate::draft::add::{add, board_of, tries_in};
use crate::draft::counts::{Agent, Counts};
use crate::draft::lists::empty;
use crate::draft::{AddFault, AgentPlace, Draft};
use board_model::{Board, Name, Target, is_bus};
use board_statements::Statement;
use pci_command::NoMemory;
use std::alloc::Global;
use std::marker::Model;

/// A draft with counts of what it has, so that no line looks through all of it again. Contracts see
/// the draft.
#[derive(Drop)]
pub struct Sheet {
    draft: Draft,
    counts: Counts,
}

impl Model for Sheet {
    ghost use Rattle.board_parser.specs.declared.draft.draft.Draft.{Draft};
    ghost use Rattle.board_parser.specs.draft.Drafts.{board_of};
    ghost use Rattle.board_parser.specs.draft.Counts.{IsCountOf};

    ghost Value = { Draft };

    ghost view = { λ sheet. sheet.draft };

    ghost invariant = { λ sheet. IsCountOf sheet.counts (board_of sheet.draft) };
}

impl Sheet {
    ghost use Rattle.std.specs.Prelude.{◌≡◌, ◌≤◌, IfOk, length};
    ghost use Rattle.board_parser.specs.draft.Steps.{Answers};
    ghost use Rattle.board_parser.specs.draft.Drafts.{board_of, first_draft};
    ghost use Rattle.board_parser.specs.draft.Targets.{is_name_used, bus_of_target};
    ghost use Rattle.board_model.specs.Valid.{is_bus};
    ghost use Rattle.board_parser.specs.draft.Add.{add};

    /// The draft of a text of which the first line was read, where `wide` is whether that line is
    /// `pciboard 2`.
    pub fn new(alloc: Global, wide: bool) -> Sheet
        ensures { result ≡ first_draft wide }
    {
        let board = Board {
            bridges: empty(alloc),
            targets: empty(alloc),
            masters: empty(alloc),
            discards: empty(alloc),
            drops: empty(alloc),
        };
        Sheet {
            draft: Draft {
                wide,
                board,
                owner: AgentPlace::Nobody,
            },
            counts: Counts::new(alloc),
        }
    }

    /// Whether the text may have addresses from 2^32 on.
    pub fn is_wide(&self) -> bool
        ensures { result ≡ self.now.wide }
    {
        self.draft.wide
    }

    /// The draft with one more statement, or the first fault of that statement.
    pub fn add(self, alloc: Global, statement: Statement) -> Result<Sheet, AddFault>
        ensures { Answers result (add self statement) }
    {
        let Sheet {
            mut draft,
            mut counts,
        } = self;
        add_counted(alloc, &mut draft, &mut counts, statement)?;
        Ok(Sheet { draft, counts })
    }

    /// Whether a target or a master has the name.
    pub fn has_name(&self, name: &Name) -> bool
        ensures { result ≡ is_name_used (board_of self.now) name.now }
    {
        self.counts.has_name(name)
    }

    /// Whether the bus is there: the first one, or one behind a bridge.
    #[tactic(auto, using(crate::proofs::draft::OwnerLemmas::owner_bus))]
    pub fn has_bus(&self, bus: u8) -> bool
        ensures { result ≡ is_bus (board_of self.now) bus }
    {
        is_bus(&self.draft.board, bus)
    }

    /// The bus of the target of this name.
    #[tactic(auto, using(crate::proofs::draft::OwnerLemmas::bus_before, crate::proofs::draft::OwnerLemmas::bus_behind))]
    pub fn bus_of_target(&self, name: &Name) -> Option<u8>
        ensures { result ≡ bus_of_target (board_of self.now) name.now }
    {
        match bus_of_named(self.draft.board.targets.as_slice(), name) {
            Some(bus) => Some(bus),
            None => bus_of_owner(&self.draft.owner, name),
        }
    }

    /// How many masters there are.
    pub fn master_count(&self) -> usize
        ensures { result ≡ length (board_of self.now).masters }
    {
        let before = self.draft.board.masters.as_slice().len();
        match &self.draft.owner {
            AgentPlace::OfMaster(_) => before + 1,
            AgentPlace::Nobody | AgentPlace::OfTarget(_) => before,
        }
    }

    /// The board of the draft.
    pub fn into_board(self, alloc: Global) -> Result<Board, NoMemory>
        ensures { IfOk result (λ board. board ≡ board_of self) }
    {
        let Sheet { draft, counts: _ } = self;
        board_of(alloc, draft)
    }
}

/// One more statement of a draft, and of its counts.
fn add_counted(
    alloc: Global,
    draft: &mut Draft,
    counts: &mut Counts,
    statement: Statement,
) -> Result<(), AddFault>
    requires { IsCountOf counts.old (board_of draft.old) }
    ensures draft { Changes result draft.new (add draft.old statement) }
    ensures counts { OnOk result (IsCountOf counts.new (board_of draft.new)) }
{
    let tries = tries_in(&statement);
    let agent = Agent::of(alloc, &statement)?;
    add(alloc, draft, counts, statement)?;
    counts.grow(agent, tries)?;
    Ok(())
}

fn bus_of_named(targets: &[Target], name: &Name) -> Option<u8>
    ensures { result ≡ bus_in (find (is_target_named name.now) targets.now) }
{
    let target = targets
        .iter()
        .find(|target| target.name.bytes() == name.bytes())?;
    Some(target.bus)
}

fn bus_of_owner(owner: &AgentPlace, name: &Name) -> Option<u8>
    ensures { result ≡ bus_in (find (is_target_named name.now) (owned owner.now)) }
{
    match owner {
        AgentPlace::OfTarget(target) if target.name.bytes() == name.bytes() => Some(target.bus),
        _ => None,
    }
}
