ghost use Rattle.std.specs.Prelude.{◌≡◌, ◌≤◌, length, IfOk};
ghost use Rattle.run_waves.specs.Blocks.{holds, meets, Spans, AreSpans};

use crate::homes::home;
use crate::signal::Signal;
use crate::touched::Touch;
use board_model::Board;
use std::alloc::{AllocError, Global};

/// So many signals make a block.
pub(crate) const BLOCK: usize = 32;

/// Signals, and the span of each block of them.
#[derive(Clone, Copy)]
pub(crate) struct Blocks<'a> {
    pub(crate) signals: &'a [Signal],
    pub(crate) spans: &'a [BlockSpan],
}

/// The buses to which the signals of a block belong, from the lowest to the highest.
#[derive(Clone, Copy)]
pub(crate) struct BlockSpan {
    low: u8,
    high: u8,
}

/// The span of each block of the signals.
pub(crate) fn spans_of(
    alloc: Global,
    board: &Board,
    signals: &[Signal],
) -> Result<Vec<BlockSpan>, AllocError>
    ensures { IfOk result (λ spans. AreSpans board.now signals.now spans.items) }
{
    let mut spans = Vec::new(alloc);
    for number in 0..signals.len().div_ceil(BLOCK) {
        spans.push(span_of(board, signals, number * BLOCK))?;
    }
    Ok(spans)
}

/// That of the block that begins there.
fn span_of(board: &Board, signals: &[Signal], start: usize) -> BlockSpan
    requires { start ≤ length signals.now }
    ensures { Spans board.now signals.now start result }
{
    let mut span = BlockSpan {
        low: u8::MAX,
        high: 0,
    };
    for number in start..signals.len().min(start + BLOCK) {
        let bus = home(board, signals[number]);
        span = BlockSpan {
            low: span.low.min(bus),
            high: span.high.max(bus),
        };
    }
    span
}

impl BlockSpan {
    /// Whether something may be touched that belongs to a bus in it.
    pub(crate) fn meets(self, touch: &Touch) -> bool
        ensures { result ≡ meets self touch.now }
    {
        self.holds(touch.from)
            || self.holds(touch.to)
            || self.holds(touch.mover)
            || self.holds(touch.taker)
    }

    /// Whether a bus, where there is one, lies in it.
    fn holds(self, bus: Option<u8>) -> bool
        ensures { result ≡ holds self bus }
    {
        bus.is_some_and(|bus| self.low <= bus && bus <= self.high)
    }
}
