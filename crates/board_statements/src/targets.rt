ghost use Rattle.std.specs.Prelude.{◌≡◌};
ghost use Rattle.board_statements.specs.Words.{Gives, one_word};
ghost use Rattle.board_statements.specs.Targets.{is_wide_in, space_word, target_form, id_form};
ghost use Rattle.board_statements.specs.Targets.{stall_form, burst_form, range_form, claim_form};
ghost use Rattle.board_statements.specs.Targets.{abort_form, opening_form};

use crate::Statement;
use crate::words::{Words, is_word};
use board_model::{MOST_DWORDS, Opening, Range};
use pci_command::Space;
use text_faults::LineFault;

/// Whether a number of this space may have 64 bits.
pub fn is_wide_in(wide: bool, space: Space) -> bool
    ensures { result ≡ is_wide_in wide space }
{
    match space {
        Space::Mem => wide,
        Space::Io | Space::Cfg => false,
    }
}

/// `target NAME on B dev D`
#[tactic(auto, unfolding(crate::specs::Targets::target_form))]
pub fn target(words: &mut Words) -> Result<Statement, LineFault>
    ensures { Gives result words.new (target_form words.old) }
{
    let name = words.name()?;
    words.fixed(b"on")?;
    let bus = words.decimal_byte(0, 255)?;
    words.fixed(b"dev")?;
    let device = words.decimal_byte(0, 31)?;
    Ok(Statement::NewTarget { name, bus, device })
}

/// `id V M`
#[tactic(auto, unfolding(crate::specs::Targets::id_form))]
pub fn identifies(words: &mut Words) -> Result<Statement, LineFault>
    ensures { Gives result words.new (id_form words.old) }
{
    let vendor = words.hex_half()?;
    let model = words.hex_half()?;
    Ok(Statement::Identifies { vendor, model })
}

/// `stall T`
#[tactic(auto, unfolding(crate::specs::Targets::stall_form))]
pub fn stalls(words: &mut Words) -> Result<Statement, LineFault>
    ensures { Gives result words.new (stall_form words.old) }
{
    let tokens = words.decimal(0, 1_000_000)?;
    Ok(Statement::Stalls(tokens))
}

/// `burst K`
#[tactic(auto, unfolding(crate::specs::Targets::burst_form))]
pub fn bursts(words: &mut Words) -> Result<Statement, LineFault>
    ensures { Gives result words.new (burst_form words.old) }
{
    let phases = words.decimal_byte(1, MOST_DWORDS as u8)?;
    Ok(Statement::Bursts(phases))
}

/// `range SPACE BASE SIZE`
#[tactic(auto, unfolding(crate::specs::Targets::claim_form))]
pub fn claims(words: &mut Words, wide: bool) -> Result<Statement, LineFault>
    ensures { Gives result words.new (claim_form wide words.old) }
{
    let range = range(words, wide)?;
    Ok(Statement::Claims(range))
}

/// `abort SPACE BASE SIZE`
#[tactic(auto, unfolding(crate::specs::Targets::abort_form))]
pub fn aborts(words: &mut Words, wide: bool) -> Result<Statement, LineFault>
    ensures { Gives result words.new (abort_form wide words.old) }
{
    let range = range(words, wide)?;
    Ok(Statement::Aborts(range))
}

/// `word SPACE ADDR VALUE`
#[tactic(auto, unfolding(crate::specs::Targets::opening_form))]
pub fn opens(words: &mut Words, wide: bool) -> Result<Statement, LineFault>
    ensures { Gives result words.new (opening_form wide words.old) }
{
    let space = space(words)?;
    let address = words.long(is_wide_in(wide, space))?;
    let value = words.hex()?;
    Ok(Statement::Opens(Opening {
        space,
        address,
        value,
    }))
}

#[tactic(auto, unfolding(crate::specs::Targets::range_form))]
fn range(words: &mut Words, wide: bool) -> Result<Range, LineFault>
    ensures { Gives result words.new (range_form wide words.old) }
{
    let space = space(words)?;
    let base = words.long(is_wide_in(wide, space))?;
    let size = words.long(is_wide_in(wide, space))?;
    Ok(Range { space, base, size })
}

#[tactic(auto, unfolding(crate::specs::Targets::space_of_word))]
fn space(words: &mut Words) -> Result<Space, LineFault>
    ensures { Gives result words.new (space_word words.old) }
{
    let word = words.take()?;
    if is_word(word, b"mem") {
        Ok(Space::Mem)
    } else if is_word(word, b"io") {
        Ok(Space::Io)
    } else {
        Err(LineFault::WrongWord)
    }
}
