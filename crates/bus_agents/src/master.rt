ghost use Rattle.std.specs.Prelude.{◌≡◌, ℕ, List, [], ◌∷◌, IsTrue};
ghost use Rattle.board_model.specs.declared.board.Board.{Board as BoardTree};
ghost use Rattle.board_model.specs.WellFormed.{is_well_formed};
ghost use Rattle.history_model.specs.declared.event.Event.{Event as EventOfRun};
ghost use Rattle.history_model.specs.Program.{turn_of, ended};
ghost use Rattle.bus_agents.specs.Turns.{MasterView, MasterStands, IsOfOther, turn_behind};

use board_model::Board;
use machine_steps::{first_turn, follows};
use pci_command::{OpId, Outcome};
use std::marker::Model;

/// A master, and the operation that is its turn; none where its program ended.
#[derive(Debug, Drop)]
pub struct MasterState {
    master: u16,
    turn: Option<OpId>,
}

impl Model for MasterState {
    ghost use Rattle.bus_agents.specs.Turns.{MasterView};

    ghost Value = { MasterView };

    ghost view = { λ m. record { master = m.master; turn = m.turn } };
}

impl MasterState {
    ghost use Rattle.bus_agents.specs.Turns.{EndsTurn};

    /// The master at this place of the board, before the first event: the first operation of its
    /// program is its turn. It takes no memory.
    pub fn new(board: &Board, master: u16) -> MasterState
        ensures kept { result ≡ record { master = master; turn = turn_of board.now [] master } }
        ensures stands { MasterStands board.now [] result }
    {
        MasterState {
            master,
            turn: first_turn(board, master),
        }
    }

    /// Its place on the board.
    pub fn master(&self) -> u16
        ensures { result ≡ self.now.master }
    {
        self.master
    }

    /// The operation that it presents; none exactly where its program ended.
    pub fn want(&self) -> Option<OpId>
        ensures { result ≡ self.now.turn }
    {
        self.turn
    }

    /// The operation that was its turn ended so. After a try of a poll that was not met the next
    /// try is its turn, and after the last one nothing; else the next operation. Where its program
    /// ended nothing changes.
    pub fn ended(&mut self, board: &Board, outcome: Outcome)
        requires { IsTrue (is_well_formed board.now) }
        ensures kept { self.new ≡
            record self.old { turn = turn_behind board.now outcome self.old.turn } }
        ensures stands { EndsTurn board.now self.old outcome self.new }
    {
        self.go_on(board, outcome);
    }

    fn go_on(&mut self, board: &Board, outcome: Outcome)
        requires { IsTrue (is_well_formed board.now) }
        ensures { self.new ≡
            record self.old { turn = turn_behind board.now outcome self.old.turn } }
    {
        self.turn = behind(board, self.turn, outcome);
    }
}

/// What follows the operation that was the turn and ended so.
fn behind(board: &Board, turn: Option<OpId>, outcome: Outcome) -> Option<OpId>
    requires { IsTrue (is_well_formed board.now) }
    ensures { result ≡ turn_behind board.now outcome turn }
{
    match turn {
        Some(op) => follows(board, op, outcome),
        None => None,
    }
}

/// An event that ends no operation of a master leaves its turn as it was.
pub fn others_leave_turns()
    ensures { (board : BoardTree) (p : List EventOfRun) (m : MasterView) (e : EventOfRun) →
        IsOfOther m.master (ended e) → MasterStands board p m → MasterStands board (e ∷ p) m }
{}
