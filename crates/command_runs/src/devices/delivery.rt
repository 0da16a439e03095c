ghost use Rattle.std.specs.Prelude.{◌≡◌, ℕ, List, Contains, Some, Ok, IsTrue, true};
ghost use Rattle.pci_command.specs.declared.op_id.OpId.{OpId};
ghost use Rattle.board_model.specs.Valid.{IsValid};
ghost use Rattle.history_model.specs.declared.event.Event.{Event};
ghost use Rattle.history_model.specs.Clear.{is_clear};
ghost use Rattle.history_model.specs.Runs.{Run, history_of};
ghost use Rattle.law_delivered.specs.Delivered.{Awaits, Delivers};
ghost use Rattle.dma_agents.specs.declared.line.Flag.{Flag};
ghost use Rattle.dma_agents.specs.declared.line.DeviceLine.{DeviceLine};
ghost use Rattle.dma_agents.specs.declared.line.DeviceLine.TheVariants.{Puts};
ghost use Rattle.dma_agents.specs.declared.put.Put.{Put};
ghost use Rattle.dma_agents.specs.Made.{IsMade, flag_of, made_read};
ghost use Rattle.dma_agents.specs.Said.{IsPut, device_lines};

use board_tree::Tree;
use dma_agents::{puts_stand_on_the_board, waited_flags_are_clear};
use history_model::Event;
use law_delivered::clear_flags_deliver;

/// True: every run of the valid board of a device text delivers, each flag that a line waits for
/// is clear, and the writes of each `put` stand on the board.
pub(crate) fn delivered(bytes: &[u8], tree: &Tree, events: &[Event]) -> bool
    requires made { IsMade tree.now (made_read bytes.now) }
    requires run { Run tree.now (history_of events.now) }
    ensures always { IsTrue result }
    ensures delivers { (p : OpId) (address value : ℕ) → is_clear tree.now address value ≡ true →
        Awaits tree.now p address value →
        Delivers tree.now (history_of events.now) p address value }
    ensures clear { (line : DeviceLine) (flag : Flag) → Contains (device_lines bytes.now) line →
        flag_of line ≡ Some flag → is_clear tree.now flag.address flag.value ≡ true }
    ensures puts { (put : Put) → Contains (device_lines bytes.now) (Puts put) →
        IsPut tree.now put }
{
    clear_flags_deliver();
    waited_flags_are_clear();
    puts_stand_on_the_board();
    let _valid = tree.board();
    let _bytes = bytes;
    let _events = events;
    true
}
