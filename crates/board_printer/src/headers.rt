//! The header bytes of the bridges of a board, as text.
ghost use Rattle.std.specs.Prelude.{◌≡◌, ◌++◌, ◌<◌, ◌≤◌, ◌+◌, [], ◌∷◌, length};
ghost use Rattle.std.specs.Prelude.{map, codes, IfOk, OnOk, string_bytes};
ghost use Rattle.std.specs.List.{flat_map};
ghost use Rattle.std.specs.Fmt.{decimal};
ghost use Rattle.board_printer.specs.Lines.{spaced, line_text, text_of};
ghost use Rattle.board_model.specs.HeaderBytes.{header_bytes};
ghost use Rattle.board_printer.specs.headers.Headers.{byte_text, sixteen, row_line};
ghost use Rattle.board_printer.specs.headers.Headers.{rows_of, header_lines, headers_text};

mod byte;

use board_model::{Board, Bridge, encode};
use byte::HexByte;
use pci_command::{List, NoMemory};
use std::alloc::{AllocError, Global};

/// For each bridge of the board, in order, the line `bridge B` and its 64 header bytes in four
/// lines of sixteen (PCI-to-PCI Bridge Architecture 1.1, section 3.2, from memory).
#[tactic(auto, unfolding(crate::specs::headers::Headers::headers_text))]
pub fn print_headers(alloc: Global, board: &Board) -> Result<List<u8>, NoMemory>
    ensures { IfOk result (λ text. text ≡ headers_text board.now) }
{
    let mut text = String::new(alloc);
    print_bridges(&mut text, board.bridges.as_slice())?;
    Ok(List::from_vec(text.into_bytes()))
}

fn print_bridges(text: &mut String, bridges: &[Bridge]) -> Result<(), AllocError>
    ensures { OnOk result
        (string_bytes text.new ≡
        string_bytes text.old ++ text_of (flat_map header_lines bridges.now)) }
{
    for bridge in bridges {
        print_bridge(text, bridge)?;
    }
    Ok(())
}

fn print_bridge(text: &mut String, bridge: &Bridge) -> Result<(), AllocError>
    ensures { OnOk result
        (string_bytes text.new ≡ string_bytes text.old ++ text_of (header_lines bridge.now)) }
{
    let bytes = encode(bridge);
    print_name(text, bridge.bus)?;
    print_rows(text, &bytes)
}

fn print_name(text: &mut String, bus: u8) -> Result<(), AllocError>
    ensures { OnOk result
        (string_bytes text.new ≡
        string_bytes text.old ++ line_text (codes "bridge" ∷ decimal bus ∷ [])) }
{
    writeln!(text, "bridge {bus}")
}

#[tactic(auto, unfolding(crate::specs::headers::Headers::rows_of))]
fn print_rows(text: &mut String, bytes: &[u8; 64]) -> Result<(), AllocError>
    ensures { OnOk result
        (string_bytes text.new ≡ string_bytes text.old ++ text_of (rows_of bytes.now)) }
{
    print_row(text, "00:", &bytes[0..16])?;
    print_row(text, "10:", &bytes[16..32])?;
    print_row(text, "20:", &bytes[32..48])?;
    print_row(text, "30:", &bytes[48..64])
}

fn print_row(text: &mut String, label: &str, bytes: &[u8]) -> Result<(), AllocError>
    ensures { OnOk result
        (string_bytes text.new ≡
        string_bytes text.old ++ line_text (label.now ∷ map byte_text bytes.now)) }
{
    text.push_str(label)?;
    print_bytes(text, bytes)?;
    writeln!(text)
}

fn print_bytes(text: &mut String, bytes: &[u8]) -> Result<(), AllocError>
    ensures { OnOk result
        (string_bytes text.new ≡ string_bytes text.old ++ spaced (map byte_text bytes.now) []) }
{
    for byte in bytes {
        print_byte(text, *byte)?;
    }
    Ok(())
}

fn print_byte(text: &mut String, byte: u8) -> Result<(), AllocError>
    ensures { OnOk result
        (string_bytes text.new ≡ string_bytes text.old ++ 32 ∷ byte_text byte) }
{
    write!(text, " {}", HexByte(byte))
}
