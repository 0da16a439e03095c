ghost use Rattle.std.specs.Prelude.{◌≡◌, ◌+◌, ◌-◌, ◌<◌, ◌≤◌, Some, None, length, nat_le, count_by};
ghost use Rattle.std.specs.Prelude.{◌==◌, ◌&&◌, if◌then◌else◌};
ghost use Rattle.std.specs.List.{list_all};
ghost use Rattle.list_facts.specs.Lists.{total};
ghost use Rattle.board_model.specs.Requests.{tries_of};
ghost use Rattle.board_model.specs.WellFormed.{is_within, is_well_formed_plan, children_on};
ghost use Rattle.board_model.specs.WellFormed.{agents_on, are_few, operations_in};

use board_model::{
    Board, MOST_AGENTS, MOST_CHILDREN, MOST_PLANS, MOST_TRIES, Master, Op, Planned, tries_of,
};

pub(crate) fn are_few(board: &Board) -> bool
    ensures { result ≡ are_few board.now }
{
    few_children(board) && few_agents_by_targets(board) && few_agents_by_masters(board)
}

fn few_children(board: &Board) -> bool
    ensures { result ≡
        list_all (λ bridge. nat_le (children_on board.now bridge.parent) MOST_CHILDREN) board.now.bridges }
{
    board.bridges.as_slice().iter().all(|bridge| children_on(board, bridge.parent) <= MOST_CHILDREN)
}

fn few_agents_by_targets(board: &Board) -> bool
    ensures { result ≡
        list_all (λ target. nat_le (agents_on board.now target.bus) MOST_AGENTS) board.now.targets }
{
    board
        .targets
        .as_slice()
        .iter()
        .all(|target| has_few_agents(board, target.bus))
}

fn few_agents_by_masters(board: &Board) -> bool
    ensures { result ≡
        list_all (λ master. nat_le (agents_on board.now master.bus) MOST_AGENTS) board.now.masters }
{
    board
        .masters
        .as_slice()
        .iter()
        .all(|master| has_few_agents(board, master.bus))
}

fn children_on(board: &Board, bus: u8) -> usize
    ensures { result ≡ children_on board.now bus }
{
    board
        .bridges
        .as_slice()
        .iter()
        .filter(|bridge| bridge.parent == bus)
        .count()
}

fn has_few_agents(board: &Board, bus: u8) -> bool
    ensures { result ≡ nat_le (agents_on board.now bus) MOST_AGENTS }
{
    let targets = targets_on(board, bus);
    let masters = masters_on(board, bus);
    targets.saturating_add(masters) <= MOST_AGENTS
}

fn targets_on(board: &Board, bus: u8) -> usize
    ensures { result ≡ count_by (λ target. target.bus == bus) board.now.targets }
{
    board
        .targets
        .as_slice()
        .iter()
        .filter(|target| target.bus == bus)
        .count()
}

fn masters_on(board: &Board, bus: u8) -> usize
    ensures { result ≡ count_by (λ master. master.bus == bus) board.now.masters }
{
    board
        .masters
        .as_slice()
        .iter()
        .filter(|master| master.bus == bus)
        .count()
}

/// Whether there are few enough operations in all, each poll counted by its tries.
pub(crate) fn operations_fit(masters: &[Master]) -> bool
    ensures { result ≡ nat_le (operations_in masters.now) MOST_TRIES }
{
    let mut left = MOST_TRIES;
    for master in masters {
        match operations_left(master.ops.as_slice(), left) {
            None => return false,
            Some(fewer) => left = fewer,
        }
    }
    true
}

/// How many more operations there may be behind these, where `most` may be with them.
fn operations_left(ops: &[Op], most: u32) -> Option<u32>
    ensures { result ≡ (if nat_le
        (total tries_of ops.now) most then Some (most - total tries_of ops.now) else None) }
{
    let mut left = most;
    for op in ops {
        let tries = tries_of(op);
        if left < tries {
            return None;
        }
        left -= tries;
    }
    Some(left)
}

pub(crate) fn are_plans_well_formed(plans: &[Planned]) -> bool
    ensures { result ≡ (nat_le (length plans.now) MOST_PLANS && list_all is_well_formed_plan plans.now) }
{
    plans.len() <= MOST_PLANS && all_plans_well_formed(plans)
}

fn all_plans_well_formed(plans: &[Planned]) -> bool
    ensures { result ≡ list_all is_well_formed_plan plans.now }
{
    plans
        .iter()
        .all(|planned| 1 <= planned.count && planned.count <= 1_000_000)
}
