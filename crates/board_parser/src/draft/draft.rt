use board_model::{Board, Master, Target};

/// Whose details the next line may give.
#[derive(Debug, Drop)]
pub enum AgentPlace {
    /// Nobody's: the last line was of another kind, or there was none.
    Nobody,
    /// Those of the target that began last.
    OfTarget(Target),
    /// Those of the master that began last.
    OfMaster(Master),
}

/// What the lines of a board text say so far.
#[derive(Debug, Drop)]
pub struct Draft {
    /// Whether the text may have addresses from 2^32 on: whether its first line is `pciboard 2`.
    pub wide: bool,
    /// The board without the owner.
    pub board: Board,
    pub owner: AgentPlace,
}
