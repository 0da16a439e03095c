use crate::acts::{Deeds, Told};
use crate::agents::{all_masters, list_targets};
use crate::depths::{list_bridges, list_discards};
use crate::errands::Errands;
use crate::ground::{Ends, Ground, Times, number};
use crate::programs::Draft;
use board_model::{Board, Bridge, Lane, Master, Planned, Target};
use board_tree::Tree;
use observe_told::{Counts, LineActs, Note, Seen, Unfound, Unseen, Who};
use pci_command::{List, NoMemory, Phase};
use std::alloc::Global;

/// What a log tells: the board with the programs of the masters, and the acts, bus by bus and there
/// in the order of the lines.
#[derive(Debug, Drop)]
pub struct LogFound {
    pub board: Board,
    pub acts: LineActs,
    pub unseen: Unseen,
}

/// What was found beside the programs. These are written out last: errands and streams are let go
/// first.
#[derive(Drop)]
struct Sought {
    bridges: Vec<Bridge>,
    targets: Vec<Target>,
    discards: Vec<Planned>,
    notes: Vec<Note>,
}

/// What the lines of a log tell, of the board of this tree: errands, streams and cuts, who was
/// served by whom and latched where, programs and acts. Where nothing that a bus shows decides
/// which of several requests was served, the first is taken that the machine allows. The time grows
/// with the number of lines, and where requests of several initiators are equal with the choices
/// that are tried.
pub fn find(
    alloc: Global,
    tree: &Tree,
    lines: &[Seen],
    phases: &[Phase],
    times: Times,
) -> Result<LogFound, Unfound> {
    let mut ground = Ground::new(alloc, tree, lines, phases, times)?;
    let errands = Errands::of(&ground)?;
    let ends = ground.claim(tree, &errands)?;
    let lanes = ground.lanes()?;
    let mut sought = Sought {
        bridges: Vec::new(alloc),
        targets: Vec::new(alloc),
        discards: Vec::new(alloc),
        notes: Vec::new(alloc),
    };
    let (drafts, acts, fruitless) = sought.seek(&ground, lanes.as_slice(), errands, ends)?;
    ground.forget_buses();
    let masters = all_masters(&ground, drafts)?;
    let counts = Counts {
        lines: number(lines.len()),
        acts: number(acts.count()),
        fruitless,
    };
    Ok(sought.with(masters, acts, counts))
}

impl Sought {
    /// All that is found: the programs that are not written out yet, the acts, and how many Retries
    /// have none. Acts are listed once the errands are let go, of which there are many.
    fn seek(
        &mut self,
        ground: &Ground,
        lanes: &[Lane],
        errands: Errands,
        ends: Ends,
    ) -> Result<(Vec<Draft>, LineActs, u32), Unfound> {
        let mut told = Told::new(ground, errands);
        told.follow(lanes, ends)?;
        self.list(lanes, &told)?;
        let Told {
            errands,
            streams,
            programs,
            ..
        } = told;
        let deeds = Deeds::new(ground, errands, &streams, &programs)?;
        let (acts, fruitless) = deeds.acts()?;
        drop(deeds);
        Ok((programs.into_drafts(), acts, fruitless))
    }

    fn list(&mut self, lanes: &[Lane], told: &Told) -> Result<(), Unfound> {
        let (ground, errands) = (told.ground, &told.errands);
        list_targets(ground, &mut self.targets)?;
        list_discards(ground, lanes, errands, &mut self.discards, &mut self.notes)?;
        list_bridges(ground, &told.streams, &mut self.bridges, &mut self.notes)?;
        note_rest(ground, errands, &mut self.notes)?;
        Ok(())
    }

    /// The same, with the masters, the acts, and how many there are.
    fn with(self, masters: Vec<Master>, acts: LineActs, counts: Counts) -> LogFound {
        let Sought {
            bridges,
            targets,
            discards,
            notes,
        } = self;
        let alloc = *bridges.allocator();
        LogFound {
            board: Board {
                bridges: List::from_vec(bridges),
                targets: List::from_vec(targets),
                masters: List::from_vec(masters),
                discards: List::from_vec(discards),
                drops: List::from_vec(Vec::new(alloc)),
            },
            acts,
            unseen: Unseen {
                notes: List::from_vec(notes),
                counts,
            },
        }
    }
}

/// What was not looked at, and what did not end.
fn note_rest(ground: &Ground, errands: &Errands, notes: &mut Vec<Note>) -> Result<(), NoMemory> {
    for (errand, count) in &ground.further {
        if let Some(op) = errands.op_of(*errand) {
            let count = *count;
            notes.push(Note::NotLookedAt { op, count })?;
        }
    }
    for place in 0..errands.count() {
        let errand = errands.get(place);
        if errand.ended().is_none() {
            let line = errands.first_line(&errand);
            let seen = ground.seen(line);
            if seen.is_some_and(|seen| matches!(seen.who, Who::Master(_))) {
                let op = errands.op_of(place);
                let asked = number(errands.lines_of(&errand).len());
                notes.push(Note::NotEnded { op, line, asked })?;
            }
        }
    }
    Ok(())
}
