use crate::errands::Errands;
use crate::ground::{Ground, number};
use crate::slots::{Change, note_changes, overflows, slots_of};
use crate::streams::Streams;
use board_model::{Bridge, Lane, MOST_POSTED, Planned};
use observe_told::{Ending, Note, Unfound, bump};
use pci_command::NoMemory;

/// Lists which completions are discarded: those of far errands that are not the last of their near
/// ones, and where else more slots were held than there are those that nobody took to the end.
pub(crate) fn list_discards(
    ground: &Ground,
    lanes: &[Lane],
    errands: &Errands,
    discards: &mut Vec<Planned>,
    notes: &mut Vec<Note>,
) -> Result<(), NoMemory> {
    for lane in lanes {
        let Lane { bus, up } = *lane;
        let mut crowded = None;
        let mut count = 0u32;
        for far in ground.fars_of(*lane) {
            let made = errands.get(*far);
            let Some(line) = made.ended() else {
                continue;
            };
            count = count.saturating_add(1);
            let Some(near) = made.near().map(|near| errands.get(near)) else {
                continue;
            };
            let is_last = near.last_far() == Some(*far);
            if is_last && near.ended().is_none() && crowded.is_none() {
                crowded = Some(is_crowded(ground, *lane, errands)?);
            }
            let is_left = near.ended().is_none() && crowded == Some(true);
            if !is_last || is_left {
                let up = !up;
                discards.push(Planned { bus, up, count })?;
                if let Some(op) = errands.op_of(*far) {
                    let bridge = bus;
                    notes.push(Note::Discarded { bridge, op, line })?;
                }
            }
        }
    }
    Ok(())
}

/// Whether at some latch more slots of the lane were held than there are.
fn is_crowded(ground: &Ground, lane: Lane, errands: &Errands) -> Result<bool, NoMemory> {
    let lines = ground.on_bus(ground.start_of(lane)).len();
    let mut changes = vec![in ground.alloc; Change::default(); lines]?;
    for far in ground.fars_of(lane) {
        note_changes(ground, errands, *far, &mut changes);
    }
    Ok(overflows(changes.as_slice(), slots_of(ground, lane)))
}

/// What a lane held while its near bus is gone through.
#[derive(Drop)]
struct Held {
    /// How many lines that the lane sent were looked at.
    far: usize,
    /// Of each line of the log how many of its pieces left.
    left_of: Vec<u32>,
    pieces_left: u32,
    bursts_left: u32,
    pieces: u32,
    bursts: u32,
    /// How many pieces at once the lane has to hold.
    most: u32,
}

/// Lists the bridges of the board, which hold more posted writes where bursts were cut into more
/// pieces than they hold, while of these they never held more than they may.
pub(crate) fn list_bridges(
    ground: &Ground,
    streams: &Streams,
    bridges: &mut Vec<Bridge>,
    notes: &mut Vec<Note>,
) -> Result<(), Unfound> {
    let mut held = Held::new(ground)?;
    for bridge in ground.board.bridges.as_slice() {
        let raised = held.raised(ground, streams, bridge)?;
        note_raised(bridge, raised.posted, notes)?;
        bridges.push(raised)?;
    }
    Ok(())
}

fn note_raised(bridge: &Bridge, posted: u8, notes: &mut Vec<Note>) -> Result<(), NoMemory> {
    if posted != bridge.posted {
        notes.push(Note::Raised {
            bridge: bridge.bus,
            posted,
            given: bridge.posted,
        })?;
    }
    Ok(())
}

impl Held {
    fn new(ground: &Ground) -> Result<Held, NoMemory> {
        Ok(Held {
            far: 0,
            left_of: vec![in ground.alloc; 0u32; ground.lines.len()]?,
            pieces_left: 0,
            bursts_left: 0,
            pieces: 0,
            bursts: 0,
            most: 0,
        })
    }

    /// The bridge with as many posted writes as both lanes have to hold.
    fn raised(
        &mut self,
        ground: &Ground,
        streams: &Streams,
        bridge: &Bridge,
    ) -> Result<Bridge, Unfound> {
        let mut raised = *bridge;
        for up in [false, true] {
            let lane = Lane {
                bus: bridge.bus,
                up,
            };
            let most = self.most_of(ground, streams, lane, bridge.posted)?;
            raised.posted = raised.posted.max(most);
        }
        Ok(raised)
    }

    /// How many pieces at once the lane has to hold; 0 where it held more bursts than this.
    fn most_of(
        &mut self,
        ground: &Ground,
        streams: &Streams,
        lane: Lane,
        posted: u8,
    ) -> Result<u8, Unfound> {
        self.far = 0;
        self.pieces_left = 0;
        self.bursts_left = 0;
        self.pieces = 0;
        self.bursts = 0;
        self.most = 0;
        for line in ground.taken_by(lane) {
            self.leave_until(ground, streams, lane, ground.end(*line));
            if self.burst_held() > u32::from(posted) {
                return Ok(0);
            }
            self.bring(ground, streams, *line);
            if self.most > u32::from(MOST_POSTED) {
                return Err(Unfound::TooManyPieces { line: *line });
            }
        }
        Ok(u8::try_from(self.most).unwrap_or(u8::MAX))
    }

    /// How many bursts the lane holds with one more.
    fn burst_held(&mut self) -> u32 {
        let before = self.bursts;
        self.bursts = before.saturating_add(1);
        self.bursts.saturating_sub(self.bursts_left.min(before))
    }

    fn bring(&mut self, ground: &Ground, streams: &Streams, line: u32) {
        for _ in 0..pieces_of(ground, streams, line) {
            let before = self.pieces;
            self.pieces = before.saturating_add(1);
            let held = self.pieces.saturating_sub(self.pieces_left.min(before));
            self.most = self.most.max(held);
        }
    }

    /// What lines of the far bus took away that began by this time.
    fn leave_until(&mut self, ground: &Ground, streams: &Streams, lane: Lane, time: u64) {
        let lines = ground.sent_by(lane);
        for line in lines.get(self.far..).unwrap_or(&[]) {
            if ground.start(*line) > time {
                break;
            }
            self.far = self.far.saturating_add(1);
            self.leave(ground, streams, *line);
        }
    }

    fn leave(&mut self, ground: &Ground, streams: &Streams, line: u32) {
        let mut before = None;
        let (first, end) = ground.span(line);
        for phase in first..end {
            before = self.leave_phase(ground, streams, streams.track(phase).source.get(), before);
        }
        if let Some(lost) = streams.lost.get(&line).copied() {
            for phase in lost.first..lost.first.saturating_add(lost.count) {
                before = self.leave_phase(ground, streams, Some(phase), before);
            }
        }
    }

    /// The data phase of the near bus leaves, behind this one; a piece leaves with its first.
    fn leave_phase(
        &mut self,
        ground: &Ground,
        streams: &Streams,
        phase: Option<u32>,
        before: Option<u32>,
    ) -> Option<u32> {
        if let Some(phase) = phase
            && begins_piece(streams, before, phase)
        {
            self.pieces_left = self.pieces_left.saturating_add(1);
            let line = ground.line_of(phase);
            let left = bump(&mut self.left_of, line as usize).saturating_add(1);
            if left == pieces_of(ground, streams, line) {
                self.bursts_left = self.bursts_left.saturating_add(1);
            }
        }
        phase
    }
}

/// Whether the data phase is of another operation than the one before, if there is one.
fn begins_piece(streams: &Streams, before: Option<u32>, phase: u32) -> bool {
    before.is_none_or(|before| streams.op_of(before) != streams.op_of(phase))
}

/// Of how many operations the data phases of a line are.
fn pieces_of(ground: &Ground, streams: &Streams, line: u32) -> u32 {
    let (first, end) = ground.span(line);
    let mut count = 0u32;
    let mut before = None;
    for phase in first..end {
        if begins_piece(streams, before, phase) {
            count = count.saturating_add(1);
        }
        before = Some(phase);
    }
    count
}
