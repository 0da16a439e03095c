ghost use Rattle.std.specs.Prelude.{◌≡◌, ◌++◌, string_bytes, OnOk};
ghost use Rattle.std.specs.List.{flat_map};
ghost use Rattle.draw_page.specs.strips.Strips.{row_text};
ghost use Rattle.draw_page.specs.strips.Kept.{PrintsStrips};

use crate::strips::strip::{Strip, draw_all, empty_strips};
use draw_items::Columns;
use draw_shapes::{Element, Frame};
use pci_command::NoMemory;
use std::alloc::{AllocError, Global};

/// The strips, each with the columns behind what is drawn.
pub(crate) fn print_strips(
    alloc: Global,
    text: &mut String,
    columns: &Columns,
    frame: &Frame,
    elements: &[Element],
) -> Result<(), NoMemory>
    ensures { OnOk result (PrintsStrips frame.now elements.now
        (string_bytes text.old) (string_bytes text.new)) }
{
    let mut strips = empty_strips(alloc, columns, frame)?;
    draw_all(&mut strips, frame, elements)?;
    print_each(text, strips.as_slice())?;
    Ok(())
}

fn print_each(text: &mut String, strips: &[Strip]) -> Result<(), AllocError>
    ensures { OnOk result
        (string_bytes text.new ≡ string_bytes text.old ++ flat_map row_text strips.now) }
{
    for strip in strips {
        print_strip(text, strip.text())?;
    }
    Ok(())
}

fn print_strip(text: &mut String, drawn: &str) -> Result<(), AllocError>
    ensures { OnOk result (string_bytes text.new ≡ string_bytes text.old ++ row_text drawn.now) }
{
    text.push_str("<tr><td>")?;
    text.push_str(drawn)?;
    text.push_str("</svg>\n")
}
