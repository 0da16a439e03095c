ghost use Rattle.std.specs.Prelude.{◌≡◌, ◌++◌, IfOk, OnOk, IsTrue, length};
ghost use Rattle.board_model.specs.WellFormed.{is_well_formed};
ghost use Rattle.judge_next.specs.Lines.{listed, lanes_ending, masters_below, lines_of};

use board_model::{Board, Lane};
use machine_steps::{ends_on, is_on};
use pci_command::NoMemory;
use std::alloc::Global;
use std::marker::Model;

/// The lines of a bus: the lanes that end there, and its masters, in the order in which the next
/// event is looked for.
#[derive(Debug, Drop)]
pub struct Lines {
    lanes: Vec<Lane>,
    masters: Vec<u16>,
}

impl Model for Lines {
    ghost use Rattle.judge_next.specs.Lines.{BusLines};

    ghost Value = { BusLines };

    ghost view = { λ lines. record { lanes = lines.lanes.items; masters = lines.masters.items } };
}

impl Lines {
    /// The lines of the bus of this number.
    pub fn new(alloc: Global, board: &Board, bus: u8) -> Result<Lines, NoMemory>
        requires { IsTrue (is_well_formed board.now) }
        ensures { IfOk result (λ lines. lines ≡ lines_of board.now bus) }
    {
        let lanes = lanes_ending(alloc, board, bus)?;
        let masters = masters_on(alloc, board, bus)?;
        Ok(Lines { lanes, masters })
    }

    /// The lanes that end there.
    pub fn lanes(&self) -> &[Lane]
        ensures { result.now ≡ self.now.lanes }
    {
        self.lanes.as_slice()
    }

    /// Its masters, by place.
    pub fn masters(&self) -> &[u16]
        ensures { result.now ≡ self.now.masters }
    {
        self.masters.as_slice()
    }
}

/// The lane of its own bridge, then those of the bridges below by increasing number.
fn lanes_ending(alloc: Global, board: &Board, bus: u8) -> Result<Vec<Lane>, NoMemory>
    ensures { IfOk result (λ lanes. lanes.items ≡ lanes_ending 256 board.now bus) }
{
    let mut lanes = Vec::new(alloc);
    list(&mut lanes, board, bus, Lane { bus, up: false })?;
    for child in 0..256u16 {
        let child = child as u8;
        list(
            &mut lanes,
            board,
            bus,
            Lane {
                bus: child,
                up: true,
            },
        )?;
    }
    Ok(lanes)
}

/// One lane more, where it ends on the bus.
fn list(lanes: &mut Vec<Lane>, board: &Board, bus: u8, lane: Lane) -> Result<(), NoMemory>
    ensures { OnOk result (lanes.new.items ≡ lanes.old.items ++ listed board.now bus lane) }
{
    if ends_on(board, bus, lane) {
        lanes.push(lane)?;
    }
    Ok(())
}

/// Its masters, in the order of the board.
#[tactic(auto, using(board_model::proofs::FewLemmas::few_masters_before, board_model::proofs::FewLemmas::master_more))]
fn masters_on(alloc: Global, board: &Board, bus: u8) -> Result<Vec<u16>, NoMemory>
    requires { IsTrue (is_well_formed board.now) }
    ensures { IfOk result (λ masters. masters.items ≡ masters_below (length board.now.masters) board.now bus) }
{
    let mut masters = Vec::new(alloc);
    for (index, master) in board.masters.as_slice().iter().enumerate() {
        // It is one of 256 buses, with few masters on each.
        let _bus = master.bus;
        if is_on(board, bus, index as u16) {
            masters.push(index as u16)?;
        }
    }
    Ok(masters)
}
