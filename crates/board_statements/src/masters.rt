ghost use Rattle.std.specs.Prelude.{◌≡◌, false};
ghost use Rattle.board_statements.specs.Words.{Gives, one_word};
ghost use Rattle.board_statements.specs.Masters.{master_form, tail_form, read_form, burst_words};
ghost use Rattle.board_statements.specs.Masters.{burst_write_form, port_write_form};
ghost use Rattle.board_statements.specs.Masters.{register_read_form, register_write_form};
ghost use Rattle.board_statements.specs.Masters.{poll_form, planned_form, discard_form, drop_form};
ghost use Rattle.board_statements.specs.Masters.{direction_of_word};

use crate::Statement;
use crate::targets::is_wide_in;
use crate::words::{Words, is_word};
use board_model::{MOST_DWORDS, MOST_TRIES, Op, Planned, Want};
use pci_command::{Command, Phases, Space};
use text_faults::LineFault;

/// `master NAME on B`
#[tactic(auto, unfolding(crate::specs::Masters::master_form))]
pub fn master(words: &mut Words) -> Result<Statement, LineFault>
    ensures { Gives result words.new (master_form words.old) }
{
    let name = words.name()?;
    words.fixed(b"on")?;
    let bus = words.decimal_byte(0, 255)?;
    Ok(Statement::NewMaster { name, bus })
}

/// A read of one dword: `ADDR`, and its tail.
#[tactic(auto, unfolding(crate::specs::Masters::read_form))]
pub fn read(words: &mut Words, wide: bool, command: Command) -> Result<Statement, LineFault>
    ensures { Gives result words.new (read_form wide command words.old) }
{
    let address = words.long(is_wide_in(wide, command.space()))?;
    read_tail(words)?;
    Ok(does(Op::Read { command, address }))
}

/// What may stand behind a read and is no part of the board: `is HEX`, what it should return, or
/// `any`.
pub fn read_tail(words: &mut Words) -> Result<(), LineFault>
    ensures { Gives result words.new (tail_form words.old) }
{
    if words.skips(b"is") {
        let _expected = words.hex()?;
    } else {
        let _any = words.skips(b"any");
    }
    Ok(())
}

/// A write in memory: `ADDR WORD..`.
#[tactic(auto, unfolding(crate::specs::Masters::burst_write_form))]
pub fn burst_write(words: &mut Words, wide: bool, command: Command) -> Result<Statement, LineFault>
    ensures { Gives result words.new (burst_write_form wide command words.old) }
{
    let address = words.long(wide)?;
    let (phases, too_many) = burst_words(words)?;
    Ok(Statement::Does {
        op: Op::Write {
            command,
            address,
            phases,
        },
        too_many,
    })
}

/// A write in I/O space: `ADDR WORD`.
#[tactic(auto, unfolding(crate::specs::Masters::port_write_form))]
pub fn port_write(words: &mut Words) -> Result<Statement, LineFault>
    ensures { Gives result words.new (port_write_form words.old) }
{
    let address = u64::from(words.hex()?);
    let phase = words.data_word()?;
    let mut phases = Phases::new();
    phases.push(phase);
    Ok(does(Op::Write {
        command: Command::IoWrite,
        address,
        phases,
    }))
}

/// A read in configuration space: `B D R`, and its tail.
#[tactic(auto, unfolding(crate::specs::Masters::register_read_form))]
pub fn register_read(words: &mut Words) -> Result<Statement, LineFault>
    ensures { Gives result words.new (register_read_form words.old) }
{
    let bus = words.decimal_byte(0, 255)?;
    let device = words.decimal_byte(0, 31)?;
    let register = words.decimal_byte(0, 63)?;
    read_tail(words)?;
    Ok(does(Op::CfgRead {
        bus,
        device,
        register,
    }))
}

/// A write in configuration space: `B D R WORD`.
#[tactic(auto, unfolding(crate::specs::Masters::register_write_form))]
pub fn register_write(words: &mut Words) -> Result<Statement, LineFault>
    ensures { Gives result words.new (register_write_form words.old) }
{
    let bus = words.decimal_byte(0, 255)?;
    let device = words.decimal_byte(0, 31)?;
    let register = words.decimal_byte(0, 63)?;
    let phase = words.data_word()?;
    Ok(does(Op::CfgWrite {
        bus,
        device,
        register,
        phase,
    }))
}

/// A poll in memory or in I/O space for the value under the mask, or for any that differs:
/// `ADDR MASK VALUE TRIES`.
#[tactic(auto, unfolding(crate::specs::Masters::poll_form))]
pub fn poll(
    words: &mut Words,
    wide: bool,
    space: Space,
    differs: bool,
) -> Result<Statement, LineFault>
    ensures { Gives result words.new (poll_form wide space differs words.old) }
{
    let address = words.long(is_wide_in(wide, space))?;
    let mask = words.hex()?;
    let wanted = words.hex()?;
    let tries = words.decimal(1, MOST_TRIES)?;
    let want = Want {
        mask,
        wanted,
        differs,
    };
    Ok(does(Op::Poll {
        space,
        address,
        want,
        tries,
    }))
}

/// `discard B down K` or `discard B up K`
#[tactic(auto, unfolding(crate::specs::Masters::discard_form))]
pub fn discards(words: &mut Words) -> Result<Statement, LineFault>
    ensures { Gives result words.new (discard_form words.old) }
{
    let planned = planned(words)?;
    Ok(Statement::Discards(planned))
}

/// `drop B down K` or `drop B up K`
#[tactic(auto, unfolding(crate::specs::Masters::drop_form))]
pub fn drops(words: &mut Words) -> Result<Statement, LineFault>
    ensures { Gives result words.new (drop_form words.old) }
{
    let planned = planned(words)?;
    Ok(Statement::Drops(planned))
}

fn does(op: Op) -> Statement
    ensures { result ≡ Statement.Does op false }
{
    Statement::Does {
        op,
        too_many: false,
    }
}

// As many of the data words that are left as a burst may have, of which there must be one, and
// whether there are more.
fn burst_words(words: &mut Words) -> Result<(Phases, bool), LineFault>
    ensures { Gives result words.new (burst_words words.old) }
{
    let mut phases = Phases::new();
    phases.push(words.data_word()?);
    let mut too_many = false;
    while !words.is_done() {
        let phase = words.data_word()?;
        if phases.len() < MOST_DWORDS {
            phases.push(phase);
        } else {
            too_many = true;
        }
    }
    Ok((phases, too_many))
}

#[tactic(auto, unfolding(crate::specs::Masters::planned_form))]
fn planned(words: &mut Words) -> Result<Planned, LineFault>
    ensures { Gives result words.new (planned_form words.old) }
{
    let bus = words.decimal_byte(0, 255)?;
    let up = is_up(words)?;
    let count = words.decimal(1, 1_000_000)?;
    Ok(Planned { bus, up, count })
}

#[tactic(auto, unfolding(crate::specs::Masters::direction_of_word))]
fn is_up(words: &mut Words) -> Result<bool, LineFault>
    ensures { Gives result words.new (one_word direction_of_word words.old) }
{
    let word = words.take()?;
    if is_word(word, b"down") {
        Ok(false)
    } else if is_word(word, b"up") {
        Ok(true)
    } else {
        Err(LineFault::WrongWord)
    }
}
