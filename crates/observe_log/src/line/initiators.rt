//! Who drives a line, looked up once for each word of a bus as a rule.
ghost use Rattle.std.specs.Prelude.{◌≡◌};
ghost use Rattle.observe_log.specs.Readers.{Found};
ghost use Rattle.observe_log.specs.Words.{who_in};

use crate::line::words::who_in;
use board_model::Board;
use observe_told::Who;
use std::marker::Model;

/// Who drives the lines of this bus that have this word.
#[derive(Clone, Copy)]
struct Known<'a> {
    word: &'a [u8],
    bus: u8,
    who: Who,
}

/// The initiators of a board. Of each sum of bytes the last word that has it is known. Clauses see
/// the board.
#[derive(Drop)]
pub(crate) struct Initiators<'a> {
    board: &'a Board,
    likely: [Option<Known<'a>>; 256],
}

impl<'a> Model for Initiators<'a> {
    ghost use Rattle.board_model.specs.declared.board.Board.{Board};
    ghost use Rattle.observe_log.specs.Initiators.{AreRight};

    ghost Value = { Board };

    ghost view = { λ initiators. initiators.board.now };

    ghost invariant = { λ initiators. AreRight initiators.board.now initiators.likely };
}

impl<'a> Initiators<'a> {
    /// None is known yet.
    pub(crate) fn new(board: &'a Board) -> Initiators<'a>
        ensures { result ≡ board.now }
    {
        Initiators {
            board,
            likely: [None; 256],
        }
    }

    /// The board.
    pub(crate) fn board(&self) -> &Board
        ensures { result.now ≡ self.now }
    {
        self.board
    }

    /// A master of the board on the bus, or a lane that ends on it.
    pub(crate) fn find(&mut self, bus: u8, word: &'a [u8]) -> Option<Who>
        ensures found { Found result (who_in self.old bus word.now) }
        ensures board { self.new ≡ self.old }
    {
        let at = usize::from(sum_of(bus, word));
        if let Some(known) = self.likely[at] {
            if known.bus == bus && known.word == word {
                return Some(known.who);
            }
        }
        let who = who_in(self.board, bus, word)?;
        self.likely[at] = Some(Known { word, bus, who });
        Some(who)
    }
}

/// A number by which initiators differ as a rule: nothing rests on it.
fn sum_of(bus: u8, word: &[u8]) -> u8 {
    let mut sum = bus;
    for byte in word {
        sum = sum.wrapping_mul(31).wrapping_add(*byte); // not a limit
    }
    sum
}
