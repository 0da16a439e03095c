ghost use Rattle.std.specs.Prelude.{◌≡◌};
ghost use Rattle.history_model.specs.Moves.{is_like};

use history_model::Carried;
use machine_steps::{is_done_for, is_of};

/// Whether the other is like the item: of a request, what is of its operation; of a completion, that
/// of its slot.
pub fn is_like(item: Carried, other: Carried) -> bool
    ensures { result ≡ is_like item other }
{
    match item {
        Carried::Post { op } | Carried::Ask { op, .. } => is_of(other, op),
        Carried::Done { slot, .. } => is_done_for(other, slot),
        Carried::Room | Carried::Gone { .. } => false,
    }
}
