ghost use Rattle.std.specs.Prelude.{◌≡◌, nat_lt, IfOk};
ghost use Rattle.std.specs.List.{position_from};
ghost use Rattle.draw_told.specs.Brackets.{brackets_of};

use crate::told::Span;
use std::alloc::{AllocError, Global};
use std::marker::Model;

/// No more brackets than these stand side by side.
const MOST: usize = 8;

/// Where the brackets of the lines stand beside the list.
#[derive(Debug, Drop)]
pub struct Brackets {
    tracks: Vec<Option<usize>>,
    /// The last row of the last bracket of each track.
    ends: Vec<u32>,
}

impl Model for Brackets {
    ghost use Rattle.draw_told.specs.Brackets.{Standing};

    ghost Value = { Standing };

    ghost view = { λ k. record { tracks = k.tracks.items; ends = k.ends.items } };
}

/// The brackets of these spans, in their order.
pub fn brackets_of(alloc: Global, spans: &[Span]) -> Result<Brackets, AllocError>
    ensures { IfOk result (λ brackets. brackets ≡ brackets_of spans.now) }
{
    let mut brackets = Brackets::new(alloc);
    for span in spans {
        brackets.stand(*span)?;
    }
    Ok(brackets)
}

impl Brackets {
    ghost use Rattle.std.specs.Prelude.{OnOk, Some, [], length};
    ghost use Rattle.draw_told.specs.Brackets.{with_bracket, with_found, with_new};

    fn new(alloc: Global) -> Brackets
        ensures { result ≡ record { tracks = []; ends = [] } }
    {
        Brackets {
            tracks: Vec::new(alloc),
            ends: Vec::new(alloc),
        }
    }

    /// One more bracket.
    fn stand(&mut self, span: Span) -> Result<(), AllocError>
        ensures { OnOk result (self.new ≡ with_bracket span self.old) }
    {
        let low = span.landed.min(span.read);
        let high = span.landed.max(span.read);
        match first_before(self.ends.as_slice(), low) {
            Some(track) => self.stand_on(track, high),
            None => self.stand_aside(high),
        }
    }

    fn stand_on(&mut self, track: usize, high: u32) -> Result<(), AllocError>
        ensures { OnOk result (self.new ≡ with_found high (Some track) self.old) }
    {
        if track < self.ends.len() {
            self.ends[track] = high;
        }
        self.tracks.push(Some(track))?;
        Ok(())
    }

    /// On a track of its own, if there is room.
    fn stand_aside(&mut self, high: u32) -> Result<(), AllocError>
        ensures { OnOk result (self.new ≡ with_new high self.old) }
    {
        let count = self.ends.len();
        if count < MOST {
            self.tracks.push(Some(count))?;
            self.ends.push(high)?;
        } else {
            self.tracks.push(None)?;
        }
        Ok(())
    }

    /// The track of each, where there was one free.
    pub fn tracks(&self) -> &[Option<usize>]
        ensures { result.now ≡ self.now.tracks }
    {
        self.tracks.as_slice()
    }

    /// How many tracks are used.
    pub fn count(&self) -> usize
        ensures { result ≡ length self.now.ends }
    {
        self.ends.len()
    }
}

/// The first of these that is less.
fn first_before(ends: &[u32], low: u32) -> Option<usize>
    ensures { result ≡ position_from (λ end. nat_lt end low) 0 ends.now }
{
    ends.iter().position(|end| *end < low)
}
