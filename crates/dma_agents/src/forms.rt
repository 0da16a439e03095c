//! The lines of devices, read word by word.

ghost use Rattle.std.specs.Prelude.{◌≡◌, Ok};
ghost use Rattle.board_text.specs.Tokens.{words_of};
ghost use Rattle.board_statements.specs.Words.{Gives, one_word};
ghost use Rattle.dma_agents.specs.DeviceLines.{name_in, flag_form, device_form, handler_form};
ghost use Rattle.dma_agents.specs.DeviceLines.{put_form, get_form, look_form, send_form, wait_form};
ghost use Rattle.dma_agents.specs.DeviceLines.{word_form, form_behind, device_line};

use crate::messages::message;
use crate::{DeviceLine, Flag, Put};
use board_model::{MOST_TRIES, Name};
use board_statements::{Words, is_word, read_tail};
use text_faults::LineFault;

/// What a line says by its words. Its fault says that it has none of the forms.
#[tactic(auto, unfolding(crate::specs::DeviceLines::device_line))]
pub(crate) fn device_line(line: &[u8]) -> Result<DeviceLine, LineFault>
    ensures { result ≡ device_line (words_of line.now) }
{
    let mut words = Words::new(line);
    let word = words.take()?;
    let found = behind_word(&mut words, word)?;
    if words.is_done() {
        Ok(found)
    } else {
        Err(LineFault::TooMany)
    }
}

#[tactic(auto, unfolding(crate::specs::DeviceLines::form_behind))]
fn behind_word(words: &mut Words, word: &[u8]) -> Result<DeviceLine, LineFault>
    ensures { Gives result words.new (form_behind word.now words.old) }
{
    if is_word(word, b"device") {
        device(words)
    } else if is_word(word, b"handler") {
        handler(words)
    } else if is_word(word, b"put") {
        put(words)
    } else if is_word(word, b"get") {
        get(words)
    } else if is_word(word, b"send") {
        send(words)
    } else if is_word(word, b"look") {
        look(words)
    } else if is_word(word, b"wait") {
        wait(words)
    } else if is_word(word, b"word") {
        write(words)
    } else {
        Err(LineFault::WrongWord)
    }
}

// `device NAME on TARGET bell ADDR VALUE TRIES`
#[tactic(auto, unfolding(crate::specs::DeviceLines::device_form))]
fn device(words: &mut Words) -> Result<DeviceLine, LineFault>
    ensures { Gives result words.new (device_form words.old) }
{
    let name = name_in(words)?;
    words.fixed(b"on")?;
    let target = name_in(words)?;
    words.fixed(b"bell")?;
    let bell = flag(words)?;
    Ok(DeviceLine::Device { name, target, bell })
}

// `handler NAME on BUS wait ADDR VALUE TRIES`
#[tactic(auto, unfolding(crate::specs::DeviceLines::handler_form))]
fn handler(words: &mut Words) -> Result<DeviceLine, LineFault>
    ensures { Gives result words.new (handler_form words.old) }
{
    let name = name_in(words)?;
    words.fixed(b"on")?;
    let bus = words.decimal_byte(0, 255)?;
    words.fixed(b"wait")?;
    let wait = flag(words)?;
    Ok(DeviceLine::Handler { name, bus, wait })
}

// `put ADDR LENGTH SEED`
#[tactic(auto, unfolding(crate::specs::DeviceLines::put_form))]
fn put(words: &mut Words) -> Result<DeviceLine, LineFault>
    ensures { Gives result words.new (put_form words.old) }
{
    let address = words.hex()?;
    let length = words.decimal(1, 4096)?;
    let seed = words.hex()?;
    if seed > 255 {
        return Err(LineFault::IllFormed);
    }
    Ok(DeviceLine::Puts(Put {
        address,
        length,
        seed: seed as u8,
    }))
}

// `get ADDR`, and its tail
#[tactic(auto, unfolding(crate::specs::DeviceLines::get_form))]
fn get(words: &mut Words) -> Result<DeviceLine, LineFault>
    ensures { Gives result words.new (get_form words.old) }
{
    let address = words.hex()?;
    read_tail(words)?;
    Ok(DeviceLine::Gets(address))
}

// `look ADDR`, and its tail
#[tactic(auto, unfolding(crate::specs::DeviceLines::look_form))]
fn look(words: &mut Words) -> Result<DeviceLine, LineFault>
    ensures { Gives result words.new (look_form words.old) }
{
    let address = words.hex()?;
    read_tail(words)?;
    Ok(DeviceLine::Looks(address))
}

// `send ADDR DATA VECTORS V`
#[tactic(auto, unfolding(crate::specs::DeviceLines::send_form))]
fn send(words: &mut Words) -> Result<DeviceLine, LineFault>
    ensures { Gives result words.new (send_form words.old) }
{
    let address = words.hex()?;
    let low = words.hex_half()?;
    let vectors = words.decimal_byte(0, 32)?;
    let number = words.decimal_byte(0, 31)?;
    match message(low, vectors, number) {
        None => Err(LineFault::IllFormed),
        Some(message) => Ok(DeviceLine::Sends { address, message }),
    }
}

// `wait ADDR VALUE TRIES`
#[tactic(auto, unfolding(crate::specs::DeviceLines::wait_form))]
fn wait(words: &mut Words) -> Result<DeviceLine, LineFault>
    ensures { Gives result words.new (wait_form words.old) }
{
    let flag = flag(words)?;
    Ok(DeviceLine::Waits(flag))
}

// `word ADDR VALUE`
#[tactic(auto, unfolding(crate::specs::DeviceLines::word_form))]
fn write(words: &mut Words) -> Result<DeviceLine, LineFault>
    ensures { Gives result words.new (word_form words.old) }
{
    let address = words.hex()?;
    let value = words.hex()?;
    Ok(DeviceLine::Writes { address, value })
}

// `ADDR VALUE TRIES`
#[tactic(auto, unfolding(crate::specs::DeviceLines::flag_form))]
fn flag(words: &mut Words) -> Result<Flag, LineFault>
    ensures { Gives result words.new (flag_form words.old) }
{
    let address = words.hex()?;
    let value = words.hex()?;
    let tries = words.decimal(1, MOST_TRIES)?;
    Ok(Flag {
        address,
        value,
        tries,
    })
}

// The next word as a name, or none.
fn name_in(words: &mut Words) -> Result<Option<Name>, LineFault>
    ensures { Gives result words.new (one_word name_in words.old) }
{
    let word = words.take()?;
    Ok(Name::new(word))
}
