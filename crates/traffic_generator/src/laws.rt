ghost use Rattle.std.specs.Prelude.{◌≡◌, ℕ, ◌*◌, ◌≤◌};
ghost use Rattle.board_model.specs.Valid.{IsValid};
ghost use Rattle.board_model.specs.Ways.{bound_of};
ghost use Rattle.traffic_generator.specs.Generated.{generated};

/// The board of at most 300 rounds is valid, and each round adds 97 to its bound.
pub fn generated_boards_are_valid()
    ensures valid { (rounds : ℕ) → rounds ≤ 300 → IsValid (generated rounds) }
    ensures bound { (rounds : ℕ) → bound_of (generated rounds) ≡ 97 * rounds }
{}
