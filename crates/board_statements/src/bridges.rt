ghost use Rattle.std.specs.Prelude.{false};
ghost use Rattle.board_statements.specs.Words.{Gives, choice, give};
ghost use Rattle.board_statements.specs.Bridges.{window, base_limit, depth, abort_mode};
ghost use Rattle.board_statements.specs.Bridges.{bridge_options, bridge_form, header_form};

use crate::Statement;
use crate::words::Words;
use board_model::{Bridge, MOST_DELAYED, MOST_POSTED, Window};
use text_faults::LineFault;

/// `bridge B on Q dev D last S`, and then what may be left out.
#[tactic(auto, unfolding(crate::specs::Bridges::bridge_form))]
pub fn bridge(words: &mut Words, wide: bool) -> Result<Statement, LineFault>
    ensures { Gives result words.new (bridge_form wide words.old) }
{
    let bus = words.decimal_byte(1, 255)?;
    words.fixed(b"on")?;
    let parent = words.decimal_byte(0, 255)?;
    words.fixed(b"dev")?;
    let device = words.decimal_byte(0, 31)?;
    words.fixed(b"last")?;
    let last = words.decimal_byte(0, 255)?;
    bridge_options(words, wide, bus, parent, device, last)
}

/// What may be left out of the line of a bridge, in its order.
fn bridge_options(
    words: &mut Words,
    wide: bool,
    bus: u8,
    parent: u8,
    device: u8,
    last: u8,
) -> Result<Statement, LineFault>
    ensures { Gives result words.new (bridge_options wide bus parent device last words.old) }
{
    let mem = window(words, b"mem", false)?;
    let pref = window(words, b"pref", wide)?;
    let io = window(words, b"io", false)?;
    let posted = depth(words, b"posted", MOST_POSTED)?;
    let delayed = depth(words, b"delayed", MOST_DELAYED)?;
    let mode = abort_mode(words)?;
    Ok(Statement::NewBridge(Bridge {
        bus,
        parent,
        device,
        last,
        mem,
        pref,
        io,
        posted,
        delayed,
        mode,
    }))
}

/// `header D BYTES`, and then what may be left out, in its order.
#[tactic(auto, unfolding(crate::specs::Bridges::header_form))]
pub fn header(words: &mut Words) -> Result<Statement, LineFault>
    ensures { Gives result words.new (header_form words.old) }
{
    let device = words.decimal_byte(0, 31)?;
    let bytes = words.header()?;
    let posted = depth(words, b"posted", MOST_POSTED)?;
    let delayed = depth(words, b"delayed", MOST_DELAYED)?;
    Ok(Statement::NewHeader {
        device,
        bytes,
        posted,
        delayed,
    })
}

/// The window behind this word, if it is the next one.
#[tactic(auto, unfolding(crate::specs::Bridges::window))]
fn window(words: &mut Words, word: &[u8], wide: bool) -> Result<Option<Window>, LineFault>
    ensures { Gives result words.new (window word.now wide words.old) }
{
    if !words.skips(word) || words.skips(b"none") {
        return Ok(None);
    }
    let base = words.long(wide)?;
    let limit = words.long(wide)?;
    Ok(Some(Window { base, limit }))
}

/// The number of entries behind this word, if it is the next one.
#[tactic(auto, unfolding(crate::specs::Bridges::depth))]
fn depth(words: &mut Words, word: &[u8], most: u8) -> Result<u8, LineFault>
    ensures { Gives result words.new (depth word.now most words.old) }
{
    if words.skips(word) {
        words.decimal_byte(1, most)
    } else {
        Ok(4)
    }
}

/// The master abort mode behind `abort`, if it is the next word.
#[tactic(auto, unfolding(crate::specs::Bridges::abort_mode))]
fn abort_mode(words: &mut Words) -> Result<bool, LineFault>
    ensures { Gives result words.new (abort_mode words.old) }
{
    if !words.skips(b"abort") {
        return Ok(false);
    }
    let bit = words.decimal_byte(0, 1)?;
    Ok(bit == 1)
}
