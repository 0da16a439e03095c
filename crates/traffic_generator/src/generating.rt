ghost use Rattle.std.specs.Prelude.{◌≡◌, ◌≤◌, IfOk, OnOk, IsTrue};
ghost use Rattle.board_model.specs.Names.{is_name};
ghost use Rattle.traffic_generator.specs.Generated.{program, program_drawn, generated_masters};
ghost use Rattle.traffic_generator.specs.Generated.{generated};

use crate::agents::{ON_0, ON_2, ON_4, bridges, targets};
use crate::draws::Draws;
use crate::programs::{Aims, program};
use crate::{Rounds, generated_boards_are_valid};
use board_model::{Board, Master, Name};
use board_tree::{Tree, validate};
use pci_command::{List, NoMemory};
use std::alloc::Global;

/// The board of so many rounds: three masters on buses 0, 2 and 4 of a tree of four bridges, each
/// with three operations a round, at addresses and of values that are drawn from the number of
/// rounds. The same number always gives the same board.
pub fn generate(alloc: Global, rounds: &Rounds) -> Result<Tree, NoMemory>
    ensures { IfOk result (λ tree. tree ≡ generated rounds.now) }
{
    generated_boards_are_valid();
    let board = board_of(alloc, rounds.count())?;
    Ok(validate(board).unwrap())
}

#[tactic(auto, unfolding(crate::specs::Generated::generated))]
fn board_of(alloc: Global, rounds: u16) -> Result<Board, NoMemory>
    ensures { IfOk result (λ board. board ≡ generated rounds) }
{
    Ok(Board {
        bridges: bridges(alloc)?,
        targets: targets(alloc)?,
        masters: masters(alloc, rounds)?,
        discards: List::from_vec(Vec::new(alloc)),
        drops: List::from_vec(Vec::new(alloc)),
    })
}

/// The masters, which draw one behind the other.
fn masters(alloc: Global, rounds: u16) -> Result<List<Master>, NoMemory>
    ensures { IfOk result (λ masters. masters ≡ generated_masters rounds rounds) }
{
    let mut draws = Draws {
        state: u32::from(rounds),
    };
    let first = master(alloc, b"m0", 0, &mut draws, rounds, aims(ON_2, ON_4))?;
    let second = master(alloc, b"m2", 2, &mut draws, rounds, aims(ON_4, ON_0))?;
    let third = master(alloc, b"m4", 4, &mut draws, rounds, aims(ON_0, ON_2))?;
    Ok(List::from_vec(vec![in alloc; first, second, third]?))
}

fn aims(first: u32, second: u32) -> Aims
    ensures first { result.first ≡ first }
    ensures second { result.second ≡ second }
{
    Aims { first, second }
}

fn master(
    alloc: Global,
    name: &[u8],
    bus: u8,
    draws: &mut Draws,
    rounds: u16,
    aims: Aims,
) -> Result<Master, NoMemory>
    requires { IsTrue (is_name name.now) }
    ensures value { IfOk result (λ master. master ≡ record {
      name = name.now;
      bus = bus;
      ops = program aims.first aims.second rounds draws.old.state;
    }) }
    ensures state { OnOk result (draws.new.state ≡ program_drawn rounds draws.old.state) }
{
    Ok(Master {
        name: Name::new(name).unwrap(),
        bus,
        ops: program(alloc, draws, rounds, aims)?,
    })
}
