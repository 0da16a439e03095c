ghost use Rattle.std.specs.Prelude.{◌≡◌, ◌++◌, map, OnOk, string_bytes};
ghost use Rattle.std.specs.List.{flat_map};
ghost use Rattle.board_printer.specs.Lines.{line_text, text_of};
ghost use Rattle.board_printer.specs.Targets.{target_line, id_lines, stall_lines, burst_lines};
ghost use Rattle.board_printer.specs.Targets.{range_line, opening_line, target_lines};

use crate::spaces::space_word;
use crate::{Address, HexHalf, HexWord};
use board_model::{MOST_DWORDS, Opening, Range, Target};
use std::alloc::AllocError;

/// The lines of the targets, in order.
pub(crate) fn print_targets(text: &mut String, targets: &[Target]) -> Result<(), AllocError>
    ensures { OnOk result
        (string_bytes text.new
        ≡ string_bytes text.old ++ text_of (flat_map target_lines targets.now)) }
{
    for target in targets {
        print_target(text, target)?;
    }
    Ok(())
}

fn print_target(text: &mut String, target: &Target) -> Result<(), AllocError>
    ensures { OnOk result
        (string_bytes text.new ≡ string_bytes text.old ++ text_of (target_lines target.now)) }
{
    print_place(text, target)?;
    print_id(text, target)?;
    print_stalls(text, target.stalls)?;
    print_burst(text, target.burst)?;
    print_ranges(text, "range", target.ranges.as_slice())?;
    print_ranges(text, "abort", target.aborts.as_slice())?;
    print_openings(text, target.openings.as_slice())
}

fn print_place(text: &mut String, target: &Target) -> Result<(), AllocError>
    ensures { OnOk result
        (string_bytes text.new ≡ string_bytes text.old ++ line_text (target_line target.now)) }
{
    writeln!(
        text,
        "target {} on {} dev {}",
        target.name.as_str(),
        target.bus,
        target.device
    )
}

/// The identification that a target has where no line gives it.
const VENDOR: u16 = 0x1234;

const MODEL: u16 = 1;

fn print_id(text: &mut String, target: &Target) -> Result<(), AllocError>
    ensures { OnOk result
        (string_bytes text.new ≡ string_bytes text.old ++ text_of (id_lines target.now)) }
{
    if target.vendor == VENDOR && target.model == MODEL {
        return Ok(());
    }
    writeln!(
        text,
        "id {} {}",
        HexHalf(target.vendor),
        HexHalf(target.model)
    )
}

fn print_stalls(text: &mut String, stalls: u32) -> Result<(), AllocError>
    ensures { OnOk result
        (string_bytes text.new ≡ string_bytes text.old ++ text_of (stall_lines stalls)) }
{
    if stalls == 0 {
        return Ok(());
    }
    writeln!(text, "stall {stalls}")
}

fn print_burst(text: &mut String, burst: u8) -> Result<(), AllocError>
    ensures { OnOk result
        (string_bytes text.new ≡ string_bytes text.old ++ text_of (burst_lines burst)) }
{
    if usize::from(burst) == MOST_DWORDS {
        return Ok(());
    }
    writeln!(text, "burst {burst}")
}

fn print_ranges(text: &mut String, word: &str, ranges: &[Range]) -> Result<(), AllocError>
    ensures { OnOk result
        (string_bytes text.new
        ≡ string_bytes text.old ++ text_of (map (range_line word.now) ranges.now)) }
{
    for range in ranges {
        print_range(text, word, range)?;
    }
    Ok(())
}

fn print_range(text: &mut String, word: &str, range: &Range) -> Result<(), AllocError>
    ensures { OnOk result
        (string_bytes text.new
        ≡ string_bytes text.old ++ line_text (range_line word.now range.now)) }
{
    let space = space_word(range.space);
    writeln!(
        text,
        "{word} {space} {} {}",
        Address(range.base),
        Address(range.size)
    )
}

fn print_openings(text: &mut String, openings: &[Opening]) -> Result<(), AllocError>
    ensures { OnOk result
        (string_bytes text.new ≡ string_bytes text.old ++ text_of (map opening_line openings.now)) }
{
    for opening in openings {
        print_opening(text, opening)?;
    }
    Ok(())
}

fn print_opening(text: &mut String, opening: &Opening) -> Result<(), AllocError>
    ensures { OnOk result
        (string_bytes text.new ≡ string_bytes text.old ++ line_text (opening_line opening.now)) }
{
    let space = space_word(opening.space);
    writeln!(
        text,
        "word {space} {} {}",
        Address(opening.address),
        HexWord(opening.value)
    )
}
