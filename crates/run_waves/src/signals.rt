ghost use Rattle.std.specs.Prelude.{◌≡◌, ◌++◌, OnOk, IsTrue};
ghost use Rattle.std.specs.List.{flat_map};
ghost use Rattle.board_model.specs.WellFormed.{is_well_formed};
ghost use Rattle.run_waves.specs.Signals.{signals_on, happenings, lane_counts, lanes_on, progress};
ghost use Rattle.run_waves.specs.Signals.{tokens_left, masters_on, targets_on};

use crate::signal::{BusPart, LaneCount, Signal};
use board_model::{Board, Lane};
use std::alloc::AllocError;

/// The signals of one bus, behind others.
pub(crate) fn add_bus(signals: &mut Vec<Signal>, board: &Board, bus: u8) -> Result<(), AllocError>
    requires { IsTrue (is_well_formed board.now) }
    ensures { OnOk result (signals.new.items ≡ signals.old.items ++ signals_on board.now bus) }
{
    add_happenings(signals, bus)?;
    add_lanes(signals, bus)?;
    add_masters(signals, board, bus)?;
    add_targets(signals, board, bus)
}

fn add_happenings(signals: &mut Vec<Signal>, bus: u8) -> Result<(), AllocError>
    ensures { OnOk result (signals.new.items ≡ signals.old.items ++ happenings bus) }
{
    let parts = [
        BusPart::Event,
        BusPart::By,
        BusPart::Op,
        BusPart::To,
        BusPart::Value,
    ];
    signals.extend_from_slice(&parts.map(|part| Signal::Bus { bus, part }))
}

fn add_lanes(signals: &mut Vec<Signal>, bus: u8) -> Result<(), AllocError>
    ensures { OnOk result (signals.new.items ≡ signals.old.items ++ lanes_on bus) }
{
    if bus == 0 {
        return Ok(());
    }
    add_lane(signals, Lane { bus, up: false })?;
    add_lane(signals, Lane { bus, up: true })
}

fn add_lane(signals: &mut Vec<Signal>, lane: Lane) -> Result<(), AllocError>
    ensures { OnOk result (signals.new.items ≡ signals.old.items ++ lane_counts lane) }
{
    signals.extend_from_slice(&[
        Signal::Lane {
            lane,
            count: LaneCount::Owed,
        },
        Signal::Lane {
            lane,
            count: LaneCount::Held,
        },
        Signal::Lane {
            lane,
            count: LaneCount::Flight,
        },
        Signal::Lane {
            lane,
            count: LaneCount::Posts,
        },
        Signal::Lane {
            lane,
            count: LaneCount::Requests,
        },
        Signal::Lane {
            lane,
            count: LaneCount::Completions,
        },
    ])
}

fn add_masters(signals: &mut Vec<Signal>, board: &Board, bus: u8) -> Result<(), AllocError>
    requires { IsTrue (is_well_formed board.now) }
    ensures { OnOk result (signals.new.items
        ≡ signals.old.items ++ flat_map progress (masters_on board.now bus)) }
{
    for (master, agent) in board.masters.as_slice().iter().enumerate() {
        // It is one of 256 buses, with few masters on each.
        let on = agent.bus;
        if on == bus {
            add_progress(signals, master as u16)?;
        }
    }
    Ok(())
}

fn add_progress(signals: &mut Vec<Signal>, master: u16) -> Result<(), AllocError>
    ensures { OnOk result (signals.new.items ≡ signals.old.items ++ progress master) }
{
    signals.extend_from_slice(&[
        Signal::Index { master },
        Signal::Try { master },
        Signal::Waits { master },
    ])
}

fn add_targets(signals: &mut Vec<Signal>, board: &Board, bus: u8) -> Result<(), AllocError>
    requires { IsTrue (is_well_formed board.now) }
    ensures { OnOk result (signals.new.items
        ≡ signals.old.items ++ flat_map tokens_left (targets_on board.now bus)) }
{
    for (target, agent) in board.targets.as_slice().iter().enumerate() {
        // It is one of 256 buses, with few targets on each.
        let on = agent.bus;
        if on == bus {
            signals.push(Signal::Stall {
                target: target as u16,
            })?;
        }
    }
    Ok(())
}
