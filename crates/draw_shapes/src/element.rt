ghost use Rattle.std.specs.Prelude.{◌≡◌, ◌∷◌, [], ◌++◌, OnOk, string_bytes};
ghost use Rattle.draw_shapes.specs.Shapes.{captions_in, caption_in, is_among};

use crate::frame::Frame;
use pci_command::NoMemory;
use std::alloc::{AllocError, Global};
use std::marker::Model;

/// An element of a picture, and the rows from which and to which it goes.
#[derive(Debug, Drop)]
pub struct Element {
    from: u32,
    to: u32,
    /// Its text, or what of it stands before its title.
    text: String,
    /// Whether it has a title.
    is_titled: bool,
    title: String,
    /// What stands behind the title.
    behind: String,
}

impl Model for Element {
    ghost use Rattle.std.specs.Prelude.{string_bytes};
    ghost use Rattle.draw_shapes.specs.Shapes.{Placed, shape_of};

    ghost Value = { Placed };

    ghost view = { λ k. record {
      from = k.from;
      to = k.to;
      shape = shape_of k.is_titled (string_bytes k.text) (string_bytes k.title)
          (string_bytes k.behind);
    } };
}

impl Element {
    ghost use Rattle.draw_shapes.specs.Shapes.{shape_text};

    /// The rows that it passes.
    pub fn from(&self) -> u32
        ensures { result ≡ self.now.from }
    {
        self.from
    }

    pub fn to(&self) -> u32
        ensures { result ≡ self.now.to }
    {
        self.to
    }

    /// Its text, behind another.
    pub fn print(&self, text: &mut String) -> Result<(), AllocError>
        ensures { OnOk result
            (string_bytes text.new ≡ string_bytes text.old ++ shape_text self.now.shape) }
    {
        text.push_str(self.text.as_str())?;
        if self.is_titled {
            text.push_str(self.title.as_str())?;
            text.push_str(self.behind.as_str())
        } else {
            Ok(())
        }
    }
}

/// An element more, without a title, in one row.
pub(crate) fn add_in_row(
    alloc: Global,
    elements: &mut Vec<Element>,
    n: u32,
    text: String,
) -> Result<(), NoMemory>
    ensures { OnOk result (captions_in elements.new.items ≡ captions_in elements.old.items) }
{
    add_between(alloc, elements, n, n, text)
}

/// An element more, without a title, from one row to another.
#[tactic(auto, using(crate::proofs::ShapeLemmas::nothing_more))]
pub(crate) fn add_between(
    alloc: Global,
    elements: &mut Vec<Element>,
    from: u32,
    to: u32,
    text: String,
) -> Result<(), NoMemory>
    ensures { OnOk result (captions_in elements.new.items ≡ captions_in elements.old.items) }
{
    let element = Element {
        from,
        to,
        text,
        is_titled: false,
        title: String::new(alloc),
        behind: String::new(alloc),
    };
    push(elements, element)
}

/// An element more, from one row to another, with a title in its text.
pub(crate) fn add_titled(
    elements: &mut Vec<Element>,
    from: u32,
    to: u32,
    text: String,
    title: String,
    behind: String,
) -> Result<(), NoMemory>
    ensures { OnOk result (captions_in elements.new.items ≡ captions_in elements.old.items ++
        record { from = from; to = to; title = string_bytes title } ∷ []) }
{
    let element = Element {
        from,
        to,
        text,
        is_titled: true,
        title,
        behind,
    };
    push(elements, element)
}

#[tactic(auto, using(crate::proofs::ShapeLemmas::captions_more))]
fn push(elements: &mut Vec<Element>, element: Element) -> Result<(), NoMemory>
    ensures { OnOk result (captions_in elements.new.items
        ≡ captions_in elements.old.items ++ caption_in element) }
{
    elements.push(element)?;
    Ok(())
}

/// Whether what goes from one row to another has a row that is drawn.
pub(crate) fn is_seen(frame: &Frame, from: u32, to: u32) -> bool
    ensures { result ≡ is_among frame.now.first frame.now.last from to }
{
    from <= frame.last && frame.first <= to
}
