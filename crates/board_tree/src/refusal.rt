use board_model::Board;
use text_faults::TreeFault;
use thiserror::Error;

/// Why a board is not a valid tree of buses. The board is given back.
#[derive(Debug, Drop, Error)]
pub enum TreeRefusal {
    /// The first of its faults.
    #[error("{fault}")]
    Fault { fault: TreeFault, board: Board },
    /// It has none of these faults, but a run of it may have so many events, which are above 500,000.
    #[error("a run may have {bound} events, more than 500,000")]
    AboveBound { bound: u64, board: Board },
}
