ghost use Rattle.board_writes.specs.Looks.{IsOrdered};

use board_writes::{ClockTable, Gathered, WordWrite};
use pci_command::{NoMemory, OpId};
use std::alloc::Global;

/// What is to be done with the poll at a place.
#[derive(Clone, Copy)]
enum Step {
    Enter(usize),
    Leave(usize),
}

/// A walk over the polls, by their places, from each to those that it depends on before it goes on:
/// what is still to be done, the last of it first; which polls were entered; and those that were
/// left, one behind another.
#[derive(Drop)]
struct Walk {
    steps: Vec<Step>,
    entered: Vec<bool>,
    left: Vec<usize>,
}

/// The places of the polls, each behind those that it depends on by the table, unless they depend on
/// it too: the poll before it in its program, and the last one before each of its raisers. Nothing is
/// claimed of the order.
pub(crate) fn order_of(
    alloc: Global,
    gathered: &Gathered,
    table: &ClockTable,
    ops: &[OpId],
) -> Result<Vec<usize>, NoMemory>
    requires { IsOrdered table.now }
{
    let Gathered { polls, writers } = gathered;
    let mut walk = Walk::over(alloc, ops.len())?;
    for _ in ops {
        let place = walk.next_place()?;
        if let Some(op) = ops.get(place) {
            let raisers = polls.raisers(alloc, table, writers, *op)?;
            walk.enter(ops, place, *op, raisers.as_slice())?;
        }
    }
    walk.next_place()?;
    Ok(walk.left)
}

impl Walk {
    /// So many polls are to be entered, the first one first.
    fn over(alloc: Global, count: usize) -> Result<Walk, NoMemory> {
        let mut walk = Walk {
            steps: Vec::new(alloc),
            entered: Vec::new(alloc),
            left: Vec::new(alloc),
        };
        for place in (0..count).rev() {
            walk.steps.push(Step::Enter(place))?;
            walk.entered.push(false)?;
        }
        Ok(walk)
    }

    /// The next poll that was not entered yet: those that come before it are left. A place behind all
    /// polls, if there is none.
    fn next_place(&mut self) -> Result<usize, NoMemory> {
        while let Some(step) = self.steps.pop() {
            match step {
                Step::Leave(place) => self.left.push(place)?,
                Step::Enter(place) if place < self.entered.len() && !self.entered[place] => {
                    self.entered[place] = true;
                    return Ok(place);
                }
                Step::Enter(_) => {}
            }
        }
        Ok(self.entered.len())
    }

    /// The poll is left behind those that it depends on.
    fn enter(
        &mut self,
        ops: &[OpId],
        place: usize,
        poll: OpId,
        raisers: &[WordWrite],
    ) -> Result<(), NoMemory> {
        self.steps.push(Step::Leave(place))?;
        for raiser in raisers {
            self.put_before(ops, raiser.op)?;
        }
        self.put_before(ops, poll)
    }

    /// The last poll before an operation in its program, if there is one, as the polls stand by
    /// master, then by index.
    fn put_before(&mut self, ops: &[OpId], op: OpId) -> Result<(), NoMemory> {
        let count = ops.partition_point(|poll| is_listed_before(*poll, op));
        let place = count.saturating_sub(1);
        if let Some(poll) = ops.get(place) {
            if poll.master == op.master && poll.index < op.index {
                self.steps.push(Step::Enter(place))?;
            }
        }
        Ok(())
    }
}

fn is_listed_before(poll: OpId, op: OpId) -> bool {
    poll.master < op.master || (poll.master == op.master && poll.index < op.index)
}
