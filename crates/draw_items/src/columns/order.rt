ghost use Rattle.std.specs.Prelude.{◌≡◌, ◌++◌, ◌&&◌, nat_lt, nat_le, IfOk, OnOk};
ghost use Rattle.std.specs.List.{filter};
ghost use Rattle.board_model.specs.Valid.{has_bridge_to};
ghost use Rattle.draw_items.specs.columns.Order.{lower_buses, children_of, is_child};
ghost use Rattle.draw_items.specs.columns.Order.{first_of_right, middle_of, in_order, lines_on};
ghost use Rattle.draw_items.specs.columns.Order.{masters_on, targets_on, left_faces};
ghost use Rattle.draw_items.specs.columns.Order.{right_faces, own_left, own_right};

use crate::columns::line::ColumnLine;
use board_model::{Board, Lane, has_bridge_to, primary_of};
use std::alloc::{AllocError, Global};

/// The least bus of the right wing, or 256.
#[tactic(auto, unfolding(crate::specs::columns::Order::middle_of))]
pub(crate) fn middle_of(alloc: Global, board: &Board) -> Result<u16, AllocError>
    ensures { IfOk result (λ middle. middle ≡ middle_of board.now) }
{
    let children = children_of(alloc, board, 0)?;
    Ok(first_of_right(children.as_slice()))
}

/// The first bus behind the lesser half of these, or 256.
fn first_of_right(children: &[u8]) -> u16
    ensures { result ≡ first_of_right children.now }
{
    match children.get(children.len() / 2) {
        Some(bus) => u16::from(*bus),
        None => 256,
    }
}

/// The buses below the bridges on a bus, by increasing number.
fn children_of(alloc: Global, board: &Board, parent: u8) -> Result<Vec<u8>, AllocError>
    ensures { IfOk result (λ children. children.items ≡ children_of board.now parent) }
{
    let buses = lower_buses(alloc)?;
    buses
        .as_slice()
        .iter()
        .copied()
        .filter(|bus| is_child(board, parent, *bus))
        .collect(alloc)
}

/// All buses but bus 0.
fn lower_buses(alloc: Global) -> Result<Vec<u8>, AllocError>
    ensures { IfOk result (λ buses. buses.items ≡ lower_buses) }
{
    let mut buses = Vec::new(alloc);
    for above in 0..255u8 {
        buses.push(above + 1)?;
    }
    Ok(buses)
}

fn is_child(board: &Board, parent: u8, bus: u8) -> bool
    ensures { result ≡ is_child board.now parent bus }
{
    has_bridge_to(board, bus) && primary_of(board, bus) == parent
}

/// The buses from left to right.
pub(crate) fn in_order(alloc: Global, board: &Board, middle: u16) -> Result<Vec<u8>, AllocError>
    ensures { IfOk result (λ buses. buses.items ≡ in_order board.now middle) }
{
    let lower = lower_buses(alloc)?;
    let mut buses = left_wing(alloc, board, middle, lower.as_slice())?;
    buses.reverse();
    buses.push(0)?;
    let right = right_wing(alloc, board, middle, lower.as_slice())?;
    buses.extend_from_slice(right.as_slice())?;
    Ok(buses)
}

fn left_wing(alloc: Global, board: &Board, middle: u16, lower: &[u8]) -> Result<Vec<u8>, AllocError>
    ensures { IfOk result (λ buses. buses.items ≡ filter (λ bus.
        nat_lt bus middle && has_bridge_to board.now bus) lower.now) }
{
    lower
        .iter()
        .copied()
        .filter(|bus| u16::from(*bus) < middle && has_bridge_to(board, *bus))
        .collect(alloc)
}

fn right_wing(
    alloc: Global,
    board: &Board,
    middle: u16,
    lower: &[u8],
) -> Result<Vec<u8>, AllocError>
    ensures { IfOk result (λ buses. buses.items ≡ filter (λ bus.
        nat_le middle bus && has_bridge_to board.now bus) lower.now) }
{
    lower
        .iter()
        .copied()
        .filter(|bus| middle <= u16::from(*bus) && has_bridge_to(board, *bus))
        .collect(alloc)
}

/// The lines of a bus from left to right.
pub(crate) fn lines_on(
    alloc: Global,
    board: &Board,
    middle: u16,
    bus: u8,
) -> Result<Vec<ColumnLine>, AllocError>
    ensures { IfOk result (λ lines. lines.items ≡ lines_on board.now middle bus) }
{
    let children = children_of(alloc, board, bus)?;
    let mut lines = Vec::new(alloc);
    add_own_left(&mut lines, middle, bus)?;
    add_left_faces(alloc, &mut lines, middle, children.as_slice())?;
    add_masters(&mut lines, board, bus)?;
    add_targets(&mut lines, board, bus)?;
    add_right_faces(alloc, &mut lines, middle, children.as_slice())?;
    add_own_right(&mut lines, middle, bus)?;
    Ok(lines)
}

fn add_own_left(lines: &mut Vec<ColumnLine>, middle: u16, bus: u8) -> Result<(), AllocError>
    ensures { OnOk result (lines.new.items ≡ lines.old.items ++ own_left middle bus) }
{
    if bus != 0 && middle <= u16::from(bus) {
        lines.push(ColumnLine::Left(Lane { bus, up: false }))?;
    }
    Ok(())
}

fn add_own_right(lines: &mut Vec<ColumnLine>, middle: u16, bus: u8) -> Result<(), AllocError>
    ensures { OnOk result (lines.new.items ≡ lines.old.items ++ own_right middle bus) }
{
    if bus != 0 && u16::from(bus) < middle {
        lines.push(ColumnLine::Right(Lane { bus, up: false }))?;
    }
    Ok(())
}

fn add_left_faces(
    alloc: Global,
    lines: &mut Vec<ColumnLine>,
    middle: u16,
    children: &[u8],
) -> Result<(), AllocError>
    ensures { OnOk result (lines.new.items ≡ lines.old.items ++ left_faces middle children.now) }
{
    let mut found: Vec<u8> = children
        .iter()
        .copied()
        .filter(|child| u16::from(*child) < middle)
        .collect(alloc)?;
    found.reverse();
    let left = found.as_slice();
    for child in left {
        lines.push(ColumnLine::Left(Lane {
            bus: *child,
            up: true,
        }))?;
    }
    Ok(())
}

fn add_right_faces(
    alloc: Global,
    lines: &mut Vec<ColumnLine>,
    middle: u16,
    children: &[u8],
) -> Result<(), AllocError>
    ensures { OnOk result (lines.new.items ≡ lines.old.items ++ right_faces middle children.now) }
{
    let found: Vec<u8> = children
        .iter()
        .copied()
        .filter(|child| middle <= u16::from(*child))
        .collect(alloc)?;
    let right = found.as_slice();
    for child in right {
        lines.push(ColumnLine::Right(Lane {
            bus: *child,
            up: true,
        }))?;
    }
    Ok(())
}

fn add_masters(lines: &mut Vec<ColumnLine>, board: &Board, bus: u8) -> Result<(), AllocError>
    ensures { OnOk result (lines.new.items ≡ lines.old.items ++
        masters_on bus 0 board.now.masters) }
{
    for (master, agent) in board.masters.as_slice().iter().enumerate() {
        if agent.bus == bus {
            lines.push(ColumnLine::Master(master))?;
        }
    }
    Ok(())
}

fn add_targets(lines: &mut Vec<ColumnLine>, board: &Board, bus: u8) -> Result<(), AllocError>
    ensures { OnOk result (lines.new.items ≡ lines.old.items ++
        targets_on bus 0 board.now.targets) }
{
    for (target, agent) in board.targets.as_slice().iter().enumerate() {
        if agent.bus == bus {
            lines.push(ColumnLine::Target(target))?;
        }
    }
    Ok(())
}
