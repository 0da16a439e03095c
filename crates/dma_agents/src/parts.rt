ghost use Rattle.std.specs.Prelude.{◌≡◌, ◌+◌, ◌<◌, ◌≤◌, ◌^◌, ◌∷◌, [], length, drop, codes, IfOk};
ghost use Rattle.std.specs.Prelude.{IfErr, IfSome, IfNone, Err};
ghost use Rattle.dma_agents.specs.declared.fault.MakeFault.{MakeFault as Fault};
ghost use Rattle.text_faults.specs.declared.device.DeviceFault.TheVariants.{Misshapen};
ghost use Rattle.dma_agents.specs.Made.{is_line, begins_devices, made_read};
ghost use Rattle.dma_agents.specs.Parts.{StartsBehind, Finds, IsWithout};

use crate::marks::{is_one_word, is_two_words};
use board_text::next_line;

/// Where the line `devices` stands.
#[derive(Clone, Copy, PartialEq, Eq)]
pub(crate) struct DevicesLine {
    /// Its first byte.
    pub(crate) start: usize,
    /// The first byte behind its newline, and the number of the line that begins there.
    pub(crate) behind: usize,
    pub(crate) number: u32,
}

fn is_first(line: &[u8]) -> bool
    ensures { result ≡ is_line (codes "pcidevices" ∷ codes "1" ∷ []) line.now }
{
    is_two_words(line, b"pcidevices", b"1")
}

/// Whether the first line of a text is that of a device text, `pcidevices 1`.
pub fn begins_devices(bytes: &[u8]) -> bool
    ensures { result ≡ begins_devices bytes.now }
{
    match next_line(bytes, 0) {
        Some((line, _)) => is_first(line),
        None => false,
    }
}

/// The place behind the first line, where that is `pcidevices 1`.
pub(crate) fn behind_first_line(bytes: &[u8]) -> Option<usize>
    ensures found { IfSome result (StartsBehind bytes.now) }
    ensures fault { IfNone result (made_read bytes.now ≡ Err (Fault.Device 1 Misshapen)) }
{
    match next_line(bytes, 0) {
        Some((line, next)) if is_first(line) => Some(next),
        _ => None,
    }
}

/// The first line `devices` from a place on at which the second line begins, or else the number of
/// the line behind the last.
pub(crate) fn find_devices(bytes: &[u8], from: usize) -> Result<DevicesLine, u32>
    requires short { length bytes.now < 2 ^ 31 }
    requires within { from ≤ length bytes.now + 1 }
    ensures found { IfOk result (Finds bytes.now from) }
    ensures fault { IfErr result (IsWithout bytes.now from) }
{
    let mut number = 2;
    let mut at = from;
    while let Some((line, next)) = next_line(bytes, at) {
        if is_one_word(line, b"devices") {
            return Ok(DevicesLine {
                start: at,
                behind: next,
                number: number + 1,
            });
        }
        number += 1;
        at = next;
    }
    Err(number)
}
