ghost use Rattle.judge_state.specs.State.{token_used};
ghost use Rattle.std.specs.Prelude.{◌≡◌, ◌<◌, ◌+◌, length};

use board_model::{Board, Place};
use history_model::{Event, Step};
use pci_command::NoMemory;
use std::alloc::Global;
use std::marker::Model;

/// The stall tokens that are left of each target, in the order of the board.
#[derive(Debug, Drop)]
pub(crate) struct KeptTokens {
    tokens: Vec<u32>,
}

impl Model for KeptTokens {
    ghost use Rattle.std.specs.Prelude.{List, ℕ};

    ghost Value = { List ℕ };

    ghost view = { λ k. k.tokens.items };
}

impl KeptTokens {
    ghost use Rattle.std.specs.Prelude.{IfOk};
    ghost use Rattle.judge_state.specs.First.{tokens_at_first};
    ghost use Rattle.judge_state.specs.State.{tokens_in, tokens_next};

    /// All tokens of each target.
    pub(crate) fn new(alloc: Global, board: &Board) -> Result<KeptTokens, NoMemory>
        ensures { IfOk result (λ tokens. tokens ≡ tokens_at_first board.now) }
    {
        let targets = board.targets.as_slice();
        let tokens = targets.iter().map(|target| target.stalls).collect(alloc)?;
        Ok(KeptTokens { tokens })
    }

    /// Those of the target.
    pub(crate) fn of(&self, target: u16) -> u32
        ensures { result ≡ tokens_in self.now target }
    {
        match self.tokens.as_slice().get(target as usize) {
            Some(tokens) => *tokens,
            None => 0,
        }
    }

    /// One more event uses a token, if it is a stall.
    pub(crate) fn happen(&mut self, event: &Event)
        ensures { self.new ≡ tokens_next event.now self.old }
    {
        match *event {
            Event::Act {
                step: Step::Stall,
                place: Place::Target(target),
                ..
            } => use_token(self.tokens.as_mut_slice(), target),
            Event::Act { .. } | Event::Arrive { .. } => {}
        }
    }
}

fn use_token(tokens: &mut [u32], target: u16)
    ensures { tokens.new ≡ token_used tokens.old target }
{
    let place = target as usize;
    if place < tokens.len() {
        tokens[place] = tokens[place].saturating_sub(1);
    }
}
