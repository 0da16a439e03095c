ghost use Rattle.std.specs.Prelude.{◌≡◌, ◌++◌, ◌==◌, OnOk, string_bytes, codes, if◌then◌else◌};
ghost use Rattle.std.specs.List.{flat_map};
ghost use Rattle.board_outline.specs.Outline.{blanks, operations_text, master_text, target_text};
ghost use Rattle.board_outline.specs.Outline.{master_on, target_on};

use crate::spans::print_ranges;
use board_model::{Master, Target};
use std::alloc::AllocError;

/// Two blanks for each bridge that a line is below.
pub(crate) fn print_blanks(text: &mut String, depth: usize) -> Result<(), AllocError>
    ensures { OnOk result (string_bytes text.new ≡ string_bytes text.old ++ blanks depth) }
{
    'levels: for _ in 0..depth {
        text.push_str("  ")?;
    }
    Ok(())
}

/// The masters of a bus, in the order of the board.
pub(crate) fn print_masters(
    text: &mut String,
    masters: &[Master],
    bus: u8,
    depth: usize,
) -> Result<(), AllocError>
    ensures { OnOk result (string_bytes text.new
        ≡ string_bytes text.old ++ flat_map (master_on bus depth) masters.now) }
{
    for master in masters {
        print_if_there(text, master, bus, depth)?;
    }
    Ok(())
}

fn print_if_there(
    text: &mut String,
    master: &Master,
    bus: u8,
    depth: usize,
) -> Result<(), AllocError>
    ensures { OnOk result (string_bytes text.new
        ≡ string_bytes text.old ++ master_on bus depth master.now) }
{
    if master.bus == bus {
        text.push_str("  ")?;
        print_blanks(text, depth)?;
        print_master(text, master)
    } else {
        Ok(())
    }
}

fn print_master(text: &mut String, master: &Master) -> Result<(), AllocError>
    ensures { OnOk result (string_bytes text.new
        ≡ string_bytes text.old ++ master_text master.now) }
{
    write!(text, "master {} ", master.name.as_str())?;
    print_operations(text, master.ops.as_slice().len())?;
    writeln!(text)
}

fn print_operations(text: &mut String, count: usize) -> Result<(), AllocError>
    ensures { OnOk result (string_bytes text.new
        ≡ string_bytes text.old ++ operations_text count) }
{
    if count == 1 {
        write!(text, "{count} operation")
    } else {
        write!(text, "{count} operations")
    }
}

/// The targets of a bus, in the order of the board.
pub(crate) fn print_targets(
    text: &mut String,
    targets: &[Target],
    bus: u8,
    depth: usize,
) -> Result<(), AllocError>
    ensures { OnOk result (string_bytes text.new
        ≡ string_bytes text.old ++ flat_map (target_on bus depth) targets.now) }
{
    for target in targets {
        print_target_there(text, target, bus, depth)?;
    }
    Ok(())
}

fn print_target_there(
    text: &mut String,
    target: &Target,
    bus: u8,
    depth: usize,
) -> Result<(), AllocError>
    ensures { OnOk result (string_bytes text.new
        ≡ string_bytes text.old ++ target_on bus depth target.now) }
{
    if target.bus == bus {
        text.push_str("  ")?;
        print_blanks(text, depth)?;
        print_target(text, target)
    } else {
        Ok(())
    }
}

fn print_target(text: &mut String, target: &Target) -> Result<(), AllocError>
    ensures { OnOk result (string_bytes text.new
        ≡ string_bytes text.old ++ target_text target.now) }
{
    write!(
        text,
        "target {} dev {}",
        target.name.as_str(),
        target.device
    )?;
    print_ranges(text, " ", target.ranges.as_slice())?;
    print_ranges(text, " abort ", target.aborts.as_slice())?;
    writeln!(text)
}
