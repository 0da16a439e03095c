ghost use Rattle.std.specs.Prelude.{◌≡◌, ◌++◌, [], map, OnOk, string_bytes};
ghost use Rattle.board_printer.specs.Lines.{spaced, line_text, text_of};
ghost use Rattle.board_printer.specs.Bridges.{window_words, depth_words, mode_words};
ghost use Rattle.board_printer.specs.Bridges.{option_words, bridge_line};

use crate::Address;
use board_model::{Bridge, Window};
use std::alloc::AllocError;

/// The lines of the bridges, in order.
pub(crate) fn print_bridges(text: &mut String, bridges: &[Bridge]) -> Result<(), AllocError>
    ensures { OnOk result
        (string_bytes text.new ≡ string_bytes text.old ++ text_of (map bridge_line bridges.now)) }
{
    for bridge in bridges {
        print_bridge(text, bridge)?;
    }
    Ok(())
}

fn print_bridge(text: &mut String, bridge: &Bridge) -> Result<(), AllocError>
    ensures { OnOk result
        (string_bytes text.new ≡ string_bytes text.old ++ line_text (bridge_line bridge.now)) }
{
    write!(
        text,
        "bridge {} on {} dev {} last {}",
        bridge.bus, bridge.parent, bridge.device, bridge.last
    )?;
    print_options(text, bridge)?;
    writeln!(text)
}

fn print_options(text: &mut String, bridge: &Bridge) -> Result<(), AllocError>
    ensures { OnOk result
        (string_bytes text.new ≡ string_bytes text.old ++ spaced (option_words bridge.now) []) }
{
    print_window(text, "mem", bridge.mem)?;
    print_window(text, "pref", bridge.pref)?;
    print_window(text, "io", bridge.io)?;
    print_depth(text, "posted", bridge.posted)?;
    print_depth(text, "delayed", bridge.delayed)?;
    print_mode(text, bridge.mode)
}

fn print_window(text: &mut String, word: &str, window: Option<Window>) -> Result<(), AllocError>
    ensures { OnOk result
        (string_bytes text.new
        ≡ string_bytes text.old ++ spaced (window_words word.now window) []) }
{
    let Some(window) = window else {
        return Ok(());
    };
    write!(
        text,
        " {word} {} {}",
        Address(window.base),
        Address(window.limit)
    )
}

fn print_depth(text: &mut String, word: &str, depth: u8) -> Result<(), AllocError>
    ensures { OnOk result
        (string_bytes text.new ≡ string_bytes text.old ++ spaced (depth_words word.now depth) []) }
{
    if depth == 4 {
        return Ok(());
    }
    write!(text, " {word} {depth}")
}

fn print_mode(text: &mut String, mode: bool) -> Result<(), AllocError>
    ensures { OnOk result
        (string_bytes text.new ≡ string_bytes text.old ++ spaced (mode_words mode) []) }
{
    if mode {
        text.push_str(" abort 1")
    } else {
        Ok(())
    }
}
