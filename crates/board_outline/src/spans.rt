ghost use Rattle.std.specs.Prelude.{◌≡◌, ◌++◌, OnOk, string_bytes};
ghost use Rattle.std.specs.List.{flat_map};
ghost use Rattle.board_outline.specs.Outline.{last_of, range_text, window_text};

use board_model::{Range, Window};
use board_printer::{Address, space_word};
use std::alloc::AllocError;

/// The ranges, in order, each behind these bytes.
pub(crate) fn print_ranges(
    text: &mut String,
    lead: &str,
    ranges: &[Range],
) -> Result<(), AllocError>
    ensures { OnOk result (string_bytes text.new
        ≡ string_bytes text.old ++ flat_map (range_text lead.now) ranges.now) }
{
    for range in ranges {
        print_range(text, lead, range)?;
    }
    Ok(())
}

fn print_range(text: &mut String, lead: &str, range: &Range) -> Result<(), AllocError>
    ensures { OnOk result (string_bytes text.new
        ≡ string_bytes text.old ++ range_text lead.now range.now) }
{
    let space = space_word(range.space);
    let last = last_of(range);
    write!(
        text,
        "{lead}{space} {}-{}",
        Address(range.base),
        Address(last)
    )
}

/// The last address of a range.
fn last_of(range: &Range) -> u64
    ensures { result ≡ last_of range.now }
{
    range.base.saturating_add(range.size.saturating_sub(1))
}

/// A window that is open.
pub(crate) fn print_window(
    text: &mut String,
    word: &str,
    window: Option<Window>,
) -> Result<(), AllocError>
    ensures { OnOk result (string_bytes text.new
        ≡ string_bytes text.old ++ window_text word.now window) }
{
    match window {
        None => Ok(()),
        Some(Window { base, limit }) => {
            write!(text, " {word} {}-{}", Address(base), Address(limit))
        }
    }
}
