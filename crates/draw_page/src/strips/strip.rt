ghost use Rattle.std.specs.Prelude.{◌≡◌, ◌++◌, ◌<◌, ◌≤◌, length, IfOk, OnOk};
ghost use Rattle.std.proofs.Math.ListN.{set};
ghost use Rattle.draw_shapes.specs.Shapes.{shape_text};
ghost use Rattle.draw_page.specs.strips.Strips.{strips_count};
ghost use Rattle.draw_page.specs.strips.Kept.{text_at, DrawsAll, Draws, AddsTo};

use draw_items::Columns;
use draw_shapes::{Element, Frame, print_sheet};
use pci_command::NoMemory;
use std::alloc::{AllocError, Global};
use std::marker::Model;

/// How many rows a strip has; the last may have fewer.
const ROWS: u32 = 32;

/// What passes a strip, in front of its columns.
#[derive(Drop)]
pub(crate) struct Strip {
    text: String,
}

impl Model for Strip {
    ghost use Rattle.std.specs.Prelude.{List, ℕ, string_bytes};

    ghost Value = { List ℕ };

    ghost view = { λ k. string_bytes k.text };
}

impl Strip {
    /// The strip of this number, with its columns alone.
    fn new(
        alloc: Global,
        columns: &Columns,
        frame: &Frame,
        number: u32,
    ) -> Result<Strip, AllocError> {
        let mut text = String::new(alloc);
        print_sheet(&mut text, columns, top_of(number), foot_of(frame, number))?;
        Ok(Strip { text })
    }

    fn add(&mut self, element: &Element) -> Result<(), AllocError>
        ensures { OnOk result (self.new ≡ self.old ++ shape_text element.now.shape) }
    {
        element.print(&mut self.text)
    }

    pub(crate) fn text(&self) -> &str
        ensures { result.now ≡ self.now }
    {
        self.text.as_str()
    }
}

/// How many strips there are.
#[tactic(auto, unfolding(crate::specs::strips::Strips::strips_count))]
fn strips_count(frame: &Frame) -> u32
    ensures { result ≡ strips_count frame.now.first frame.now.last }
{
    ((u64::from(frame.last) + 32).saturating_sub(u64::from(frame.first)) / 32) as u32
}

/// The height at which a strip begins.
fn top_of(strip: u32) -> u64 {
    16 * (32 * u64::from(strip))
}

/// And that at which it ends.
fn foot_of(frame: &Frame, strip: u32) -> u64 {
    let last = u64::from(frame.last.saturating_sub(frame.first));
    16 * last.min(32 * u64::from(strip) + 31) + 16
}

/// The strips, with nothing in front of their columns.
pub(crate) fn empty_strips(
    alloc: Global,
    columns: &Columns,
    frame: &Frame,
) -> Result<Vec<Strip>, NoMemory>
    ensures { IfOk result (λ strips.
        length strips.items ≡ strips_count frame.now.first frame.now.last) }
{
    let mut strips = Vec::new(alloc);
    for number in 0..strips_count(frame) {
        strips.push(Strip::new(alloc, columns, frame, number)?)?;
    }
    Ok(strips)
}

/// All elements, each in just the strips that it passes.
pub(crate) fn draw_all(
    strips: &mut Vec<Strip>,
    frame: &Frame,
    elements: &[Element],
) -> Result<(), AllocError>
    ensures { OnOk result (DrawsAll frame.now elements.now strips.old.items strips.new.items) }
{
    for element in elements {
        draw(strips, frame, element)?;
    }
    Ok(())
}

/// An element more, in each strip that it passes.
fn draw(strips: &mut Vec<Strip>, frame: &Frame, element: &Element) -> Result<(), AllocError>
    ensures { OnOk result (Draws frame.now element.now strips.old.items strips.new.items) }
{
    let from = element.from();
    let to = element.to();
    if from <= frame.last && frame.first <= to {
        let begin = from.saturating_sub(frame.first) / ROWS;
        let end = to.saturating_sub(frame.first) / ROWS + 1;
        add_to(strips, begin as usize, end as usize, element)?;
    }
    Ok(())
}

/// The element, in the strips from number `begin` on and before number `end`.
fn add_to(
    strips: &mut Vec<Strip>,
    begin: usize,
    end: usize,
    element: &Element,
) -> Result<(), AllocError>
    ensures { OnOk result
        (AddsTo begin end (shape_text element.now.shape) strips.old.items strips.new.items) }
{
    for strip in begin..end.min(strips.len()) {
        add_at(strips, strip, element)?;
    }
    Ok(())
}

fn add_at(strips: &mut Vec<Strip>, strip: usize, element: &Element) -> Result<(), AllocError>
    requires { strip < length strips.old.items }
    ensures { OnOk result (strips.new.items ≡ set strips.old.items strip
        (text_at strips.old.items strip ++ shape_text element.now.shape)) }
{
    strips[strip].add(element)
}
