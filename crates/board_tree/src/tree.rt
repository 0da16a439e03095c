ghost use Rattle.std.specs.Prelude.{◌≡◌, ◌↔◌, ◌≤◌, IsTrue, IsOk, IfOk, IfErr};
ghost use Rattle.board_model.specs.WellFormed.{is_well_formed};
ghost use Rattle.board_model.specs.Ways.{bound_of};
ghost use Rattle.board_model.specs.Valid.{IsValid};
ghost use Rattle.board_tree.specs.Refusals.{refusal_of};
ghost use Rattle.board_tree.specs.Sites.{AreSites};

use crate::bound::bound_of;
use crate::{Sites, TreeRefusal};
use board_checks::first_fault;
use board_model::Board;
use std::marker::Model;

/// How many events a run may have.
const MOST_EVENTS: u64 = 500_000;

/// A board that is valid: contracts see the board.
#[derive(Debug, Drop)]
pub struct Tree {
    board: Board,
    bound: u64,
    sites: Sites,
}

impl Model for Tree {
    ghost use Rattle.std.specs.Prelude.{◌≡◌};
    ghost use Rattle.board_model.specs.declared.board.Board.{Board};
    ghost use Rattle.board_model.specs.Ways.{bound_of};
    ghost use Rattle.board_model.specs.Valid.{IsValid};
    ghost use Rattle.board_tree.specs.Sites.{AreSites};

    ghost Value = { Board };

    ghost view = { λ tree. tree.board };

    ghost invariant = { λ tree. IsValid tree.board × (tree.bound ≡ bound_of tree.board) ×
        AreSites tree.board tree.sites };
}

impl Tree {
    /// The board, which is valid.
    pub fn board(&self) -> &Board
        ensures value { result.now ≡ self.now }
        ensures valid { IsValid self.now }
    {
        &self.board
    }

    /// Where its targets and bridges stand, by their bus.
    pub fn sites(&self) -> &Sites
        ensures { AreSites self.now result.now }
    {
        &self.sites
    }

    /// How many events a run of the board has at most: its bound, which is at most 500,000.
    pub fn bound(&self) -> u64
        ensures value { result ≡ bound_of self.now }
        ensures most { result ≤ 500000 }
    {
        self.bound
    }
}

/// The tree of a valid board. The board of a refusal is the one given.
pub fn validate(board: Board) -> Result<Tree, TreeRefusal>
    requires { IsTrue (is_well_formed board) }
    ensures valid { IsOk result ↔ IsValid board }
    ensures tree { IfOk result (λ tree. tree ≡ board) }
    ensures refusal { IfErr result (λ refusal. refusal ≡ refusal_of board) }
{
    if let Some(fault) = first_fault(&board) {
        return Err(TreeRefusal::Fault { fault, board });
    }
    let sites = Sites::of(&board);
    let bound = bound_of(&board, Some(&sites));
    if bound > MOST_EVENTS {
        return Err(TreeRefusal::AboveBound { bound, board });
    }
    Ok(Tree {
        board,
        bound,
        sites,
    })
}
