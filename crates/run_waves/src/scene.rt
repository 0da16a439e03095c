ghost use Rattle.std.specs.Prelude.{◌≡◌};
ghost use Rattle.history_model.specs.Local.{bus_of};

use board_model::{Board, end_of};
use history_model::{Carried, Event};

/// What happens in a moment: an event, and what arrives by it.
#[derive(Clone, Copy)]
pub(crate) struct Scene {
    pub(crate) event: Event,
    pub(crate) item: Option<Carried>,
}

impl Scene {
    /// The bus on which it happens.
    pub(crate) fn bus(&self, board: &Board) -> u8
        ensures { result ≡ bus_of board.now self.now.event }
    {
        match self.event {
            Event::Act { bus, .. } => bus,
            Event::Arrive { lane, .. } => end_of(board, lane),
        }
    }
}
