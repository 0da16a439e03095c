ghost use Rattle.std.specs.List.{AllByRecursion};
ghost use Rattle.board_model.specs.Fits.{BridgeFits, TargetFits, MasterFits, RangeFits};
ghost use Rattle.board_model.specs.Fits.{OpeningFits, OpFits, WantFits, PhaseFits, PlannedFits};
ghost use Rattle.board_model.specs.Fits.{DetailsFit, ProgramFits, BoardFits};

use crate::{Board, Bridge, Master, Op, Opening, Planned, Range, Target, Want};
use pci_command::Phase;

/// Each board of the program has names that are names, and numbers as wide as their fields.
pub fn board_fits(board: &Board)
    ensures { BoardFits board.now }
{
    bridges_fit(board.bridges.as_slice());
    targets_fit(board.targets.as_slice());
    masters_fit(board.masters.as_slice());
    plans_fit(board.discards.as_slice());
    plans_fit(board.drops.as_slice());
}

fn bridges_fit(bridges: &[Bridge])
    ensures { AllByRecursion BridgeFits bridges.now }
{
    for bridge in bridges {
        bridge_fits(bridge);
    }
}

fn bridge_fits(bridge: &Bridge)
    ensures { BridgeFits bridge.now }
{
    let _bus = bridge.bus;
    let _parent = bridge.parent;
    let _last = bridge.last;
}

fn targets_fit(targets: &[Target])
    ensures { AllByRecursion DetailsFit targets.now }
{
    for target in targets {
        details_fit(target);
    }
}

fn details_fit(target: &Target)
    ensures { DetailsFit target.now }
{
    target_fits(target);
    let _vendor = target.vendor;
    let _model = target.model;
    ranges_fit(target.ranges.as_slice());
    ranges_fit(target.aborts.as_slice());
    openings_fit(target.openings.as_slice());
}

fn target_fits(target: &Target)
    ensures { TargetFits target.now }
{
    let _name = target.name.bytes();
    let _bus = target.bus;
}

fn ranges_fit(ranges: &[Range])
    ensures { AllByRecursion RangeFits ranges.now }
{
    for range in ranges {
        range_fits(range);
    }
}

fn range_fits(range: &Range)
    ensures { RangeFits range.now }
{
    let _base = range.base;
    let _size = range.size;
}

fn openings_fit(openings: &[Opening])
    ensures { AllByRecursion OpeningFits openings.now }
{
    for opening in openings {
        opening_fits(opening);
    }
}

fn opening_fits(opening: &Opening)
    ensures { OpeningFits opening.now }
{
    let _address = opening.address;
    let _value = opening.value;
}

fn masters_fit(masters: &[Master])
    ensures { AllByRecursion ProgramFits masters.now }
{
    for master in masters {
        program_fits(master);
    }
}

fn program_fits(master: &Master)
    ensures { ProgramFits master.now }
{
    master_fits(master);
    ops_fit(master.ops.as_slice());
}

fn master_fits(master: &Master)
    ensures { MasterFits master.now }
{
    let _name = master.name.bytes();
    let _bus = master.bus;
}

fn ops_fit(ops: &[Op])
    ensures { AllByRecursion OpFits ops.now }
{
    for op in ops {
        op_fits(op);
    }
}

fn op_fits(op: &Op)
    ensures { OpFits op.now }
{
    match op {
        Op::Read { address, .. } => {
            let _address = *address;
        }
        Op::Write {
            address,
            phases,
            ..
        } => {
            let _address = *address;
            phases_fit(phases.as_slice());
        }
        Op::CfgRead { bus, .. } => {
            let _bus = *bus;
        }
        Op::CfgWrite { bus, phase, .. } => {
            let _bus = *bus;
            phase_fits(phase);
        }
        Op::Poll { address, want, .. } => {
            let _address = *address;
            want_fits(want);
        }
    }
}

fn phases_fit(phases: &[Phase])
    ensures { AllByRecursion PhaseFits phases.now }
{
    for phase in phases {
        phase_fits(phase);
    }
}

fn phase_fits(phase: &Phase)
    ensures { PhaseFits phase.now }
{
    let _value = phase.value;
}

fn want_fits(want: &Want)
    ensures { WantFits want.now }
{
    let _mask = want.mask;
    let _wanted = want.wanted;
}

fn plans_fit(plans: &[Planned])
    ensures { AllByRecursion PlannedFits plans.now }
{
    for planned in plans {
        plan_fits(planned);
    }
}

fn plan_fits(planned: &Planned)
    ensures { PlannedFits planned.now }
{
    let _bus = planned.bus;
}
