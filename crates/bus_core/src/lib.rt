//! One bus: the bridges, masters and targets on it, and what each thing that the bus does is in the
//! model. A bus stands for what is on the lanes of its bridges and for what it did so far.
#![tactic(auto)]

ghost use Rattle.std.specs.Prelude.{◌≤◌, ℕ, length};
ghost use Rattle.pci_command.specs.declared.op_id.OpId.{OpId};
ghost use Rattle.board_model.specs.declared.board.Board.{Board};
ghost use Rattle.history_model.specs.declared.event.By.{By};
ghost use Rattle.bus_core.specs.Bus.{Shape, IsOf, AreLines};
ghost use Rattle.board_model.specs.Limits.{most_agents, most_ports};

mod arrive;
mod bus;
mod given;
mod places;
pub mod port;
mod serve;
mod steps;

pub use bus::Bus;
pub use given::{Acted, Given, Sent, Served};
pub use port::{Arrival, Port, other_bridges_leave_ports};

/// The places of bridges and masters on a bus are lines that tell all its initiators apart, where
/// there are few bridges and few masters on it.
pub fn lines_tell_apart()
    ensures { (board : Board) (shape : Shape) → IsOf board shape → length shape.lanes ≤ most_ports →
        length shape.masters ≤ most_agents → (tags : By → OpId → ℕ) × AreLines board tags shape }
{}
