use crate::By;
use board_model::Lane;

/// What a bridge keeps of who presented a delayed request, and whether one waits for an older one
/// that is the same on its bus.
#[derive(Clone, Copy, Debug, Default, PartialEq, Eq)]
pub enum Rule {
    /// The local master, so that each completion goes to the one that asked for it.
    #[default]
    Tagged,
    /// Nothing: a slot is known by its request alone.
    Untagged,
}

impl Rule {
    ghost use Rattle.std.specs.Prelude.{◌≡◌};
    ghost use Rattle.history_model.specs.World.{noted};
    ghost use Rattle.history_model.specs.Answers.{waits_for_equal};

    /// The initiator that is noted down with a slot.
    pub fn noted(self, by: By) -> By
        ensures { result ≡ noted self by }
    {
        match self {
            Rule::Tagged => by,
            Rule::Untagged => By::Lane(Lane { bus: 0, up: false }),
        }
    }

    /// Whether a delayed request waits for an older one that is the same on its bus.
    pub fn waits_for_equal(self) -> bool
        ensures { result ≡ waits_for_equal self }
    {
        match self {
            Rule::Tagged => true,
            Rule::Untagged => false,
        }
    }
}
