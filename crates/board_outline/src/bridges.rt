ghost use Rattle.std.specs.Prelude.{◌≡◌, ◌++◌, OnOk, string_bytes};
ghost use Rattle.std.specs.Option.{option_copied};
ghost use Rattle.board_outline.specs.Outline.{depth_text, mode_text, windows_text, kept_text};
ghost use Rattle.board_outline.specs.Outline.{bridge_text, head_text};

use crate::spans::print_window;
use board_model::Bridge;
use std::alloc::AllocError;

/// The line of a bus: that of the bridge to it, if there is one.
pub(crate) fn print_head(
    text: &mut String,
    bus: u8,
    bridge: Option<&Bridge>,
) -> Result<(), AllocError>
    ensures { OnOk result (string_bytes text.new
        ≡ string_bytes text.old ++ head_text bus (option_copied bridge.entry)) }
{
    match bridge {
        Some(bridge) => print_bridge(text, bridge),
        None => writeln!(text, "bus {bus}"),
    }
}

fn print_bridge(text: &mut String, bridge: &Bridge) -> Result<(), AllocError>
    ensures { OnOk result (string_bytes text.new
        ≡ string_bytes text.old ++ bridge_text bridge.now) }
{
    write!(text, "bridge {} dev {}", bridge.bus, bridge.device)?;
    print_windows(text, bridge)?;
    print_kept(text, bridge)?;
    writeln!(text)
}

fn print_windows(text: &mut String, bridge: &Bridge) -> Result<(), AllocError>
    ensures { OnOk result (string_bytes text.new
        ≡ string_bytes text.old ++ windows_text bridge.now) }
{
    print_window(text, "mem", bridge.mem)?;
    print_window(text, "pref", bridge.pref)?;
    print_window(text, "io", bridge.io)
}

/// How many it holds, and its master abort mode.
fn print_kept(text: &mut String, bridge: &Bridge) -> Result<(), AllocError>
    ensures { OnOk result (string_bytes text.new
        ≡ string_bytes text.old ++ kept_text bridge.now) }
{
    print_depth(text, "posted", bridge.posted)?;
    print_depth(text, "delayed", bridge.delayed)?;
    print_mode(text, bridge.mode)
}

fn print_depth(text: &mut String, word: &str, depth: u8) -> Result<(), AllocError>
    ensures { OnOk result (string_bytes text.new
        ≡ string_bytes text.old ++ depth_text word.now depth) }
{
    match depth {
        4 => Ok(()),
        _ => write!(text, " {word} {depth}"),
    }
}

fn print_mode(text: &mut String, mode: bool) -> Result<(), AllocError>
    ensures { OnOk result (string_bytes text.new ≡ string_bytes text.old ++ mode_text mode) }
{
    text.push_str(if mode { " abort 1" } else { "" })
}
