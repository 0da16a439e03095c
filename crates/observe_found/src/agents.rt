use crate::ground::Ground;
use crate::programs::Draft;
use crate::words::{Further, further_of, further_words};
use board_model::{MOST_DWORDS, Master, Name, Opening, Range, Target};
use observe_told::Unfound;
use pci_command::{List, NoMemory};
use std::alloc::Global;

/// The masters with their programs.
pub(crate) fn all_masters(ground: &Ground, drafts: Vec<Draft>) -> Result<Vec<Master>, NoMemory> {
    let mut masters = Vec::new(ground.alloc);
    for draft in drafts {
        masters.push(draft.into_master(ground)?)?;
    }
    Ok(masters)
}

/// Lists the targets, each with what it opens with.
pub(crate) fn list_targets(ground: &Ground, targets: &mut Vec<Target>) -> Result<(), Unfound> {
    let further = further_words(ground)?;
    for (place, target) in ground.board.targets.as_slice().iter().enumerate() {
        let place = u16::try_from(place).unwrap_or(u16::MAX);
        if let Some(name) = Name::new(target.name.bytes()) {
            let own = further_of(further.as_slice(), place);
            let openings = openings_of(ground.alloc, target, own)?;
            targets.push(copy_target(ground.alloc, target, name, openings)?)?;
        }
    }
    Ok(())
}

fn openings_of(
    alloc: Global,
    target: &Target,
    further: &[Further],
) -> Result<Vec<Opening>, NoMemory> {
    let mut all = Vec::from_slice(alloc, target.openings.as_slice())?;
    for further in further {
        all.push(further.opening())?;
    }
    Ok(all)
}

fn copy_target(
    alloc: Global,
    target: &Target,
    name: Name,
    openings: Vec<Opening>,
) -> Result<Target, NoMemory> {
    Ok(Target {
        name,
        bus: target.bus,
        device: target.device,
        vendor: target.vendor,
        model: target.model,
        stalls: 0,
        burst: MOST_DWORDS as u8,
        ranges: copy_ranges(alloc, &target.ranges)?,
        aborts: copy_ranges(alloc, &target.aborts)?,
        openings: List::from_vec(openings),
    })
}

fn copy_ranges(alloc: Global, ranges: &List<Range>) -> Result<List<Range>, NoMemory> {
    Ok(List::from_vec(Vec::from_slice(alloc, ranges.as_slice())?))
}
