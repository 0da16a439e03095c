//! What holds of every end of plain lanes. Each law is the contract of a function that does
//! nothing.
ghost use Rattle.std.specs.Prelude.{◌≡◌, ◌++◌};
ghost use Rattle.lane_items.specs.Lane.{in_hand, GotInOrder};
ghost use Rattle.lane_ends.specs.plain.Plain.{PlainState};

use crate::plain::PlainEnd;
use lane_items::LaneEnd;

/// What was got is the front of what was in hand when the phase began, and what is in hand the
/// rest. So whatever the other end sent and kept, all that was got came in the order of its
/// sending.
pub fn got_in_order()
    ensures front { (end : PlainState) → ⟦<PlainEnd as LaneEnd>⟧.got end ++
        in_hand (⟦<PlainEnd as LaneEnd>⟧.had end) (⟦<PlainEnd as LaneEnd>⟧.got end) ≡
        ⟦<PlainEnd as LaneEnd>⟧.had end }
    ensures in_order { (near far : PlainState) →
        GotInOrder (⟦<PlainEnd as LaneEnd>⟧.had far) (⟦<PlainEnd as LaneEnd>⟧.got far)
        (⟦<PlainEnd as LaneEnd>⟧.sent near) (⟦<PlainEnd as LaneEnd>⟧.kept near) }
{}
