ghost use Rattle.std.specs.Prelude.{◌≡◌, ◌≤◌, ◌<◌, ◌+◌, ◌^◌, ℕ, [], ◌∷◌, flat_map, List, true, Contains};
ghost use Rattle.std.specs.List.{list_all};
ghost use Rattle.pci_command.specs.declared.command.Command.TheVariants.{MemWrite};
ghost use Rattle.pci_command.specs.declared.phases.Phase.{Phase};
ghost use Rattle.pci_command.specs.declared.command.Space.TheVariants.{Mem};
ghost use Rattle.pci_command.specs.declared.op_id.OpId.{OpId};
ghost use Rattle.board_model.specs.Wants.{exactly};
ghost use Rattle.board_model.specs.declared.op.Op.TheVariants.{Write, Poll};
ghost use Rattle.board_model.specs.Requests.{op_of};
ghost use Rattle.board_model.specs.declared.board.Board.{Board};
ghost use Rattle.board_model.specs.WellFormed.{is_well_formed, is_well_formed_op};
ghost use Rattle.std.specs.Prelude.{Some, Ok, Err};
ghost use Rattle.history_model.specs.declared.event.Event.{Event};
ghost use Rattle.history_model.specs.Clear.{is_clear};
ghost use Rattle.history_model.specs.Runs.{Run, Complete, history_of};
ghost use Rattle.dma_agents.specs.Worked.{worked_text, twice_text, twice_fault, worked_made};
ghost use Rattle.dma_agents.specs.Worked.{worked_board, worked_events};
ghost use Rattle.dma_agents.specs.Made.{Made, board_in, made_read, flag_of};
ghost use Rattle.dma_agents.specs.Said.{IsPut, device_lines};
ghost use Rattle.dma_agents.specs.declared.line.Flag.{Flag};
ghost use Rattle.dma_agents.specs.declared.line.DeviceLine.{DeviceLine};
ghost use Rattle.dma_agents.specs.declared.line.DeviceLine.TheVariants.{Puts};
ghost use Rattle.dma_agents.specs.declared.put.Put.{Put};
ghost use Rattle.dma_agents.specs.Put.{cut, bytes_of, bytes_put};

/// The enabled bytes of the writes of a put are its bytes, each once and in order; and each of the
/// writes can stand in a program.
pub fn put_is_written_once()
    ensures bytes { (p : Put) → 1 ≤ p.length → flat_map bytes_of (cut p) ≡ bytes_put p }
    ensures formed { (p : Put) → 1 ≤ p.length → list_all is_well_formed_op (cut p) ≡ true }
{}

/// Six bytes from 10000003 on.
pub fn worked()
    ensures { cut (record { address = 0x1000_0003; length = 6; seed = 0xa0 }) ≡
        Write MemWrite 0x1000_0000 (record { value = 0xa000_0000; enables = 8 } ∷
        record { value = 0xa4a3_a2a1; enables = 15 } ∷ record { value = 0xa5; enables = 1 } ∷ []) ∷
        [] }
{}

/// The board of a device text is well formed.
pub fn made_boards_are_well_formed()
    ensures { (text : List ℕ) (board : Board) → board_in (made_read text) ≡ Ok board →
        is_well_formed board ≡ true }
{}

/// Each flag of the board of a device text is clear: what a poll of the masters of its devices
/// waits for, in all bits, is brought by one write.
pub fn made_flags_are_clear()
    ensures { (text : List ℕ) (made : Made) (p : OpId) (address value tries : ℕ) →
        made_read text ≡ Ok made → made.first ≤ p.master →
        op_of made.board p ≡ Some (Poll Mem address (exactly value) tries) →
        is_clear made.board address value ≡ true }
{}

/// Each flag that a line of the text waits for, at the head of a device or handler or as a `wait`, is
/// clear on the board that is made of it.
pub fn waited_flags_are_clear()
    ensures { (text : List ℕ) (made : Made) (line : DeviceLine) (flag : Flag) →
        made_read text ≡ Ok made → Contains (device_lines text) line →
        flag_of line ≡ Some flag → is_clear made.board flag.address flag.value ≡ true }
{}

/// On the board that is made of a text a master has the writes of each `put` line, one after
/// another: their enabled bytes are those of the put, each once and in order.
pub fn puts_stand_on_the_board()
    ensures { (text : List ℕ) (made : Made) (put : Put) →
        made_read text ≡ Ok made → Contains (device_lines text) (Puts put) →
        IsPut made.board put }
{}

/// A doorbell, a put and a message on one bus.
pub fn worked_devices()
    ensures made { made_read worked_text ≡ Ok worked_made }
    ensures run { Run worked_board (history_of worked_events) }
    ensures complete { Complete worked_board (history_of worked_events) }
    ensures twice { made_read twice_text ≡ Err twice_fault }
{}
