//! What is printed of a board is read as the same: the laws of its lines. Each law is the contract
//! of a function that does nothing. In a `pciboard 1` text (`wide` false) it holds of the lines
//! whose addresses, sizes and limits are all below 2^32.
ghost use Rattle.std.specs.Prelude.{◌≡◌, ◌<◌, ◌≤◌, ◌^◌, ◌++◌, ℕ, List, [], ◌∷◌, Some, None, true};
ghost use Rattle.std.specs.Prelude.{false, Bool, not, ◌||◌, codes};
ghost use Rattle.std.specs.Fmt.{decimal};
ghost use Rattle.board_text.specs.Lines.{line_fault};
ghost use Rattle.board_text.specs.Tokens.{words_of};
ghost use Rattle.board_model.specs.declared.bridge.Bridge.{Bridge};
ghost use Rattle.board_model.specs.declared.agents.Range.{Range};
ghost use Rattle.board_model.specs.declared.agents.Opening.{Opening};
ghost use Rattle.board_model.specs.declared.agents.Target.{Target};
ghost use Rattle.board_model.specs.declared.agents.Master.{Master};
ghost use Rattle.board_model.specs.declared.op.Op.{Op};
ghost use Rattle.board_model.specs.declared.board.Board.{Board};
ghost use Rattle.board_model.specs.declared.board.Planned.{Planned};
ghost use Rattle.board_model.specs.WellFormed.{is_well_formed_bridge, is_well_formed_target};
ghost use Rattle.board_model.specs.WellFormed.{is_well_formed_range, is_well_formed_opening};
ghost use Rattle.board_model.specs.WellFormed.{is_well_formed_op, is_well_formed_plan};
ghost use Rattle.board_printer.specs.Lines.{line_text};
ghost use Rattle.board_printer.specs.Numbers.{half_text};
ghost use Rattle.board_printer.specs.Bridges.{bridge_line};
ghost use Rattle.board_printer.specs.Targets.{target_line, range_line, opening_line};
ghost use Rattle.board_printer.specs.Masters.{master_line, op_line};
ghost use Rattle.board_printer.specs.Boards.{is_short, is_short_bridge, is_short_range};
ghost use Rattle.board_printer.specs.Boards.{is_short_op, is_short_board, planned_line, first_line};
ghost use Rattle.board_statements.specs.declared.statement.Statement.TheVariants.{NewBridge};
ghost use Rattle.board_statements.specs.declared.statement.Statement.TheVariants.{NewTarget};
ghost use Rattle.board_statements.specs.declared.statement.Statement.TheVariants.{Identifies};
ghost use Rattle.board_statements.specs.declared.statement.Statement.TheVariants.{Stalls, Bursts};
ghost use Rattle.board_statements.specs.declared.statement.Statement.TheVariants.{Claims, Aborts};
ghost use Rattle.board_statements.specs.declared.statement.Statement.TheVariants.{Opens, NewMaster};
ghost use Rattle.board_statements.specs.declared.statement.Statement.TheVariants.{Does, Discards};
ghost use Rattle.board_statements.specs.declared.statement.Statement.TheVariants.{Drops};
ghost use Rattle.board_statements.specs.Statements.{first_line_of};
ghost use Rattle.board_model.specs.Fits.{BridgeFits, TargetFits, MasterFits, RangeFits};
ghost use Rattle.board_model.specs.Fits.{OpeningFits, OpFits, PlannedFits};
ghost use Rattle.board_roundtrip.specs.words.Printed.{has_words_alone};
ghost use Rattle.board_roundtrip.specs.lines.ReadsAs.{IsReadAs};
ghost use Rattle.board_model.specs.Limits.{most_dwords};

/// The words of a line that was printed are the words that were printed. A line ends before its
/// newline.
pub fn words_are_read()
    ensures { (words : List (List ℕ)) (line : List ℕ) → has_words_alone words ≡ true →
        line_text words ≡ line ++ 10 ∷ [] → words_of line ≡ words }
{}

/// The first line tells whether an address, a size, a limit or the last address of a range needs 64
/// bits.
pub fn first_line_is_read()
    ensures told { (board : Board) (line : List ℕ) → line_text (first_line board) ≡ line ++ 10 ∷
        [] → first_line_of (words_of line) ≡ Some (not (is_short_board board)) }
    ensures allowed { (board : Board) (line : List ℕ) →
        line_text (first_line board) ≡ line ++ 10 ∷ [] → line_fault line ≡ None }
{}

/// The line of a bridge is read as the bridge.
pub fn bridges_are_read()
    ensures { (wide : Bool) (bridge : Bridge) → BridgeFits bridge →
        is_well_formed_bridge bridge ≡ true → (wide || is_short_bridge bridge) ≡ true →
        IsReadAs wide (bridge_line bridge) (NewBridge bridge) }
{}

/// The lines of a target are read as what they say of it.
pub fn targets_are_read()
    ensures target { (wide : Bool) (target : Target) → TargetFits target →
        is_well_formed_target target ≡ true →
        IsReadAs wide (target_line target) (NewTarget target.name target.bus target.device) }
    ensures id { (wide : Bool) (vendor model : ℕ) → vendor < 2 ^ 16 → model < 2 ^ 16 → IsReadAs wide
        (codes "id" ∷ half_text vendor ∷ half_text model ∷ []) (Identifies vendor model) }
    ensures stall { (wide : Bool) (tokens : ℕ) → tokens ≤ 1000000 →
        IsReadAs wide (codes "stall" ∷ decimal tokens ∷ []) (Stalls tokens) }
    ensures burst { (wide : Bool) (phases : ℕ) → 1 ≤ phases → phases ≤ most_dwords →
        IsReadAs wide (codes "burst" ∷ decimal phases ∷ []) (Bursts phases) }
{}

/// So are its ranges, its abort ranges and its opening words.
pub fn ranges_are_read()
    ensures claim { (wide : Bool) (range : Range) → RangeFits range →
        is_well_formed_range range ≡ true → (wide || is_short_range range) ≡ true →
        IsReadAs wide (range_line (codes "range") range) (Claims range) }
    ensures abort { (wide : Bool) (range : Range) → RangeFits range →
        is_well_formed_range range ≡ true → (wide || is_short_range range) ≡ true →
        IsReadAs wide (range_line (codes "abort") range) (Aborts range) }
    ensures opening { (wide : Bool) (opening : Opening) → OpeningFits opening →
        is_well_formed_opening opening ≡ true → (wide || is_short opening.address) ≡ true →
        IsReadAs wide (opening_line opening) (Opens opening) }
{}

/// The line of a master and those of its operations are read as what they say.
pub fn masters_are_read()
    ensures master { (wide : Bool) (master : Master) → MasterFits master →
        IsReadAs wide (master_line master) (NewMaster master.name master.bus) }
    ensures op { (wide : Bool) (op : Op) → OpFits op → is_well_formed_op op ≡ true →
        (wide || is_short_op op) ≡ true → IsReadAs wide (op_line op) (Does op false) }
{}

/// The lines of what is discarded and dropped are read as what they say.
pub fn plans_are_read()
    ensures discard { (wide : Bool) (planned : Planned) → PlannedFits planned →
        is_well_formed_plan planned ≡ true →
        IsReadAs wide (planned_line (codes "discard") planned) (Discards planned) }
    ensures drop { (wide : Bool) (planned : Planned) → PlannedFits planned →
        is_well_formed_plan planned ≡ true →
        IsReadAs wide (planned_line (codes "drop") planned) (Drops planned) }
{}
