ghost use Rattle.std.specs.Prelude.{◌≡◌, ◌++◌, string_bytes, OnOk};
ghost use Rattle.draw_elements.specs.Titles.{or_end, last_row_of, title_text, came_text, left_text};

use crate::height::{Height, print_circle, row_middle};
use crate::words::{faint, kind_class, kind_word};
use board_model::Board;
use draw_items::{Columns, Journey, lane_back};
use history_model::Carried;
use std::alloc::AllocError;
use trace_text::{LaneWord, print_operation};

/// Where an item is drawn: from where it was sent to where it arrived, and down to where it left.
#[derive(Clone, Copy, Debug)]
pub struct DrawnRoute {
    /// The places.
    pub from: u64,
    pub to: u64,
    /// The rows.
    pub sent: u32,
    pub came: u32,
    pub left: u32,
}

impl DrawnRoute {
    /// That of an item, if `end` is the row behind the last event.
    pub fn of(columns: &Columns, end: u32, item: &Journey) -> DrawnRoute
        ensures sent { result.sent ≡ item.now.sent }
        ensures left { result.left ≡ last_row_of end item.now }
    {
        let from = columns.face(lane_back(item.lane));
        let came = or_end(item.came, end);
        if item.has_stood() {
            DrawnRoute {
                from,
                to: columns.bar(item.lane, item.track),
                sent: item.sent,
                came,
                left: or_end(item.left, end),
            }
        } else {
            DrawnRoute {
                from,
                to: columns.face(item.lane),
                sent: item.sent,
                came,
                left: came,
            }
        }
    }
}

fn or_end(row: u32, end: u32) -> u32
    ensures { result ≡ or_end row end }
{
    if row > 0 { row } else { end }
}

fn print_route(text: &mut String, first: u32, route: &DrawnRoute) -> Result<(), AllocError> {
    write!(
        text,
        "M{} {}L{} {}",
        route.from,
        row_middle(first, route.sent),
        route.to,
        row_middle(first, route.came)
    )
}

/// The rim of an item, of this class.
pub fn print_item_rim(
    text: &mut String,
    class: &str,
    first: u32,
    route: &DrawnRoute,
) -> Result<(), AllocError> {
    write!(text, "<path class=\"{class}\" d=\"")?;
    print_route(text, first, route)?;
    if route.came < route.left {
        write!(text, "V{}", row_middle(first, route.left))?;
    }
    text.push_str("\"/>\n")
}

/// The begin of an item, before its title: pale if it belongs to a fruitless try.
pub fn print_item_open(text: &mut String, item: Carried, pale: bool) -> Result<(), AllocError> {
    write!(text, "<g class=\"{}{}\">", kind_class(item), faint(pale))
}

/// What is drawn of an item, up to its end.
pub fn print_item_way(
    text: &mut String,
    first: u32,
    item: &Journey,
    route: &DrawnRoute,
) -> Result<(), AllocError> {
    print_slant(text, first, route)?;
    print_bar(text, first, route)?;
    print_sign(text, first, item, route)?;
    text.push_str("</g>\n")
}

/// The title of an item: what it is, its operation and its lane, and its events.
#[tactic(auto, unfolding(crate::specs::Titles::title_text))]
pub fn print_title(text: &mut String, board: &Board, item: &Journey) -> Result<(), AllocError>
    ensures { OnOk result (string_bytes text.new ≡ string_bytes text.old ++
        title_text board.now item.now) }
{
    write!(text, "<title>{} ", kind_word(item.carried))?;
    print_operation(text, board, &item.op)?;
    write!(text, " on {}: sent {}", LaneWord(item.lane), item.sent)?;
    print_came(text, item)?;
    print_left(text, item)?;
    text.push_str("</title>")
}

fn print_came(text: &mut String, item: &Journey) -> Result<(), AllocError>
    ensures { OnOk result (string_bytes text.new ≡ string_bytes text.old ++ came_text item.now) }
{
    if item.came > 0 {
        write!(text, ", arrived {}", item.came)
    } else {
        Ok(())
    }
}

fn print_left(text: &mut String, item: &Journey) -> Result<(), AllocError>
    ensures { OnOk result (string_bytes text.new ≡ string_bytes text.old ++ left_text item.now) }
{
    if item.left > 0 {
        write!(text, ", left {}", item.left)
    } else {
        Ok(())
    }
}

fn print_bar(text: &mut String, first: u32, route: &DrawnRoute) -> Result<(), AllocError> {
    if route.came < route.left {
        write!(
            text,
            "<path class=\"s\" d=\"M{} {}V{}\"/>",
            route.to,
            row_middle(first, route.came),
            row_middle(first, route.left)
        )
    } else {
        Ok(())
    }
}

fn print_slant(text: &mut String, first: u32, route: &DrawnRoute) -> Result<(), AllocError> {
    text.push_str("<path d=\"")?;
    print_route(text, first, route)?;
    text.push_str("\"/>")
}

/// What stands where the item arrived.
fn print_sign(
    text: &mut String,
    first: u32,
    item: &Journey,
    route: &DrawnRoute,
) -> Result<(), AllocError> {
    if item.marked {
        print_cross_sign(text, first, route)
    } else if item.has_stood() {
        print_circle(text, first, route.came, route.to, 3)
    } else {
        Ok(())
    }
}

fn print_cross_sign(text: &mut String, first: u32, route: &DrawnRoute) -> Result<(), AllocError> {
    let y = Height {
        first,
        row: route.came,
        down: 4,
    };
    write!(
        text,
        "<path class=\"x\" d=\"M{} {y}l8 8m0 -8l-8 8\"/>",
        route.to.saturating_sub(4)
    )
}
