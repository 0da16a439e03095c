use crate::ground::{Ground, number};
use board_model::{Lane, MOST_BRIDGES, MOST_DWORDS, MOST_POSTED};
use observe_told::{BusPlaces, Ending, HeldPhase, MaybeOp, MaybePlace, Unfound};
use pci_command::{NoMemory, OpId, Phase};
use std::alloc::Global;
use std::collections::{BTreeMap, VecDeque};

/// Among how many data phases that nothing has taken a match is looked for: sixteen times those
/// that a bridge of this machine holds one way.
const MOST_HELD: usize = 16 * MOST_POSTED as usize * MOST_DWORDS;
/// How many lanes a way has at most: each bridge up and down, and one more each way.
pub(crate) const MOST_LANES: u32 = 2 * (1 + MOST_BRIDGES as u32);

/// What is known of a data phase, of which there are many: of one that a lane drove that of the near
/// bus that it is; of one that a lane took which line of the far bus took it away, and whether it
/// was lost there; whether the burst is cut before it, and which operation it is of.
#[derive(Clone, Copy)]
pub(crate) struct Track {
    pub(crate) source: MaybePlace,
    taker: MaybePlace,
    op: MaybeOp,
    is_lost: bool,
    pub(crate) is_cut: bool,
}

/// Data phases of one near line, one behind the other, that an abort of a far line took away.
#[derive(Clone, Copy, Default)]
pub(crate) struct Lost {
    pub(crate) first: u32,
    pub(crate) count: u32,
}

/// The data phases that a lane took, in order, and how they left.
#[derive(Drop)]
pub(crate) struct Stream {
    pub(crate) lane: Lane,
    /// Of each the place of its line on the near bus.
    brought: BusPlaces,
    /// The places of the lines of the far bus with which some left, and how many had left then.
    left: BusPlaces,
    counts: Vec<u32>,
}

/// The streams of all lanes.
#[derive(Drop)]
pub(crate) struct Streams {
    of_lanes: Vec<Stream>,
    tracks: Vec<Track>,
    pub(crate) lost: BTreeMap<u32, Lost>,
}

/// What stands in a lane while its far bus is gone through.
#[derive(Drop)]
struct Flow {
    stream: Stream,
    waiting: VecDeque<u32>,
    /// How many lines that the lane took were looked at.
    near: usize,
    gone: u32,
}

impl Track {
    /// Nothing is known of it.
    const NEW: Track = Track {
        source: MaybePlace::NONE,
        taker: MaybePlace::NONE,
        op: MaybeOp::NONE,
        is_lost: false,
        is_cut: false,
    };
}

impl Stream {
    /// How many data phases had left before this place of the far bus.
    pub(crate) fn left_before(&self, place: u32) -> u32 {
        let last = self.left.before(place).checked_sub(1);
        let count = last.and_then(|last| self.counts.get(last));
        count.copied().unwrap_or(0)
    }

    /// How many data phases lines before this place of the near bus brought.
    pub(crate) fn brought_before(&self, place: u32) -> u32 {
        number(self.brought.before(place))
    }

    /// The place on the near bus of the line that brought the data phase of this number, from 0.
    pub(crate) fn place_of(&self, count: u32) -> Option<u32> {
        self.brought.get(count)
    }
}

impl Streams {
    /// None yet.
    pub(crate) fn new(alloc: Global) -> Streams {
        Streams {
            of_lanes: Vec::new(alloc),
            tracks: Vec::new(alloc),
            lost: BTreeMap::new(alloc),
        }
    }

    /// The streams of these lanes, far ends first, and the cuts that they made.
    pub(crate) fn follow_all(&mut self, ground: &Ground, lanes: &[Lane]) -> Result<(), Unfound> {
        self.tracks.resize(ground.phases.len(), Track::NEW)?;
        for lane in lanes {
            self.follow(ground, *lane)?;
        }
        for lane in lanes {
            self.cut(ground, *lane);
        }
        Ok(())
    }

    /// The stream of the lane.
    pub(crate) fn of(&self, lane: Lane) -> Option<&Stream> {
        self.of_lanes.iter().find(|stream| stream.lane == lane)
    }

    fn follow(&mut self, ground: &Ground, lane: Lane) -> Result<(), Unfound> {
        let mut flow = Flow::new(ground, lane);
        self.follow_flow(ground, lane, &mut flow)?;
        self.of_lanes.push(flow.ended())?;
        Ok(())
    }

    fn follow_flow(&mut self, ground: &Ground, lane: Lane, flow: &mut Flow) -> Result<(), Unfound> {
        for line in ground.sent_by(lane) {
            flow.bring(ground, ground.end(*line))?;
            self.take_away(ground, flow, *line, ground.place(*line))?;
        }
        flow.bring(ground, u64::MAX)?;
        Ok(())
    }

    /// What the line of the far bus took away.
    fn take_away(
        &mut self,
        ground: &Ground,
        flow: &mut Flow,
        line: u32,
        place: u32,
    ) -> Result<(), Unfound> {
        let (first, end) = ground.span(line);
        for phase in first..end {
            match flow.take(ground, phase) {
                Some(source) => self.give(phase, source, line),
                None => return Err(flow.not_held(ground, line, phase)),
            }
        }
        if ground
            .seen(line)
            .is_some_and(|seen| seen.ending != Ending::Done)
        {
            self.lose(ground, flow, line, place)?;
        }
        flow.note_left(place)?;
        Ok(())
    }

    fn give(&mut self, phase: u32, source: u32, line: u32) {
        if let Some(track) = self.tracks.get_mut(phase as usize) {
            track.source = MaybePlace::some(source);
        }
        self.take(source, line, false);
    }

    fn take(&mut self, source: u32, line: u32, is_lost: bool) {
        if let Some(track) = self.tracks.get_mut(source as usize) {
            track.taker = MaybePlace::some(line);
            track.is_lost = is_lost;
        }
    }

    /// What an abort takes away: the rest of one near line, up to where the next posted line of the
    /// lane goes on.
    fn lose(
        &mut self,
        ground: &Ground,
        flow: &mut Flow,
        line: u32,
        place: u32,
    ) -> Result<(), Unfound> {
        let (first, end) = ground.span(line);
        let moved = end.saturating_sub(first);
        let before = 4 * u64::from(moved);
        let address = ground.first_address(line).saturating_add(before);
        match flow.oldest_where(ground, address, None) {
            Some(at) => {
                let next = flow.next_start(ground, place);
                let lost = self.lose_from(ground, flow, at, line, next);
                self.lost.insert(line, lost)?;
                Ok(())
            }
            None if moved == 0 => Err(flow.not_held(ground, line, first)),
            None => Ok(()),
        }
    }

    /// The waiting data phase and those of its line behind it, up to the address of the next line.
    fn lose_from(
        &mut self,
        ground: &Ground,
        flow: &mut Flow,
        at: usize,
        line: u32,
        next: Option<u64>,
    ) -> Lost {
        let first = flow.waiting.get(at).copied().unwrap_or(0);
        let mut lost = Lost { first, count: 0 };
        for _ in 0..flow.waiting.len() {
            let phase = first.saturating_add(lost.count);
            if !flow.goes_on(ground, at, first, phase) || is_reached(ground, first, phase, next) {
                break;
            }
            flow.remove(at);
            self.take(phase, line, true);
            lost.count = lost.count.saturating_add(1);
        }
        lost
    }

    pub(crate) fn track(&self, phase: u32) -> Track {
        let track = self.tracks.get(phase as usize);
        track.copied().unwrap_or(Track::NEW)
    }

    /// The cuts that the far bus of the lane made, or that were made beyond it.
    fn cut(&mut self, ground: &Ground, lane: Lane) {
        for line in ground.sent_by(lane) {
            self.hand_cuts_on(ground, *line);
        }
        for line in ground.taken_by(lane) {
            self.cut_between_takers(ground, *line);
        }
    }

    fn hand_cuts_on(&mut self, ground: &Ground, line: u32) {
        let (first, end) = ground.span(line);
        for phase in first..end {
            let track = self.track(phase);
            if let Some(source) = track.source.get()
                && track.is_cut
            {
                self.mark_cut(source);
            }
        }
    }

    fn cut_between_takers(&mut self, ground: &Ground, line: u32) {
        let (first, end) = ground.span(line);
        let mut before = self.track(first);
        for phase in first..end {
            let track = self.track(phase);
            if (track.taker, track.is_lost) != (before.taker, before.is_lost) {
                self.mark_cut(phase);
            }
            before = track;
        }
    }

    fn mark_cut(&mut self, phase: u32) {
        if let Some(track) = self.tracks.get_mut(phase as usize) {
            track.is_cut = true;
        }
    }

    /// The operation that the data phase is of, where it is known: that of the one that a lane
    /// drove is the one that it took.
    pub(crate) fn op_of(&self, phase: u32) -> Option<OpId> {
        let mut kept = self.tracks.get(phase as usize)?;
        for _ in 0..MOST_LANES {
            if let Some(op) = kept.op.get() {
                return Some(op);
            }
            kept = self.tracks.get(kept.source.get()? as usize)?;
        }
        None
    }

    /// The data phase is of this operation.
    pub(crate) fn name(&mut self, phase: u32, op: OpId) {
        if let Some(track) = self.tracks.get_mut(phase as usize) {
            track.op = MaybeOp::some(op);
        }
    }
}

impl Flow {
    fn new(ground: &Ground, lane: Lane) -> Flow {
        let stream = Stream {
            lane,
            brought: BusPlaces::new(ground.alloc),
            left: BusPlaces::new(ground.alloc),
            counts: Vec::new(ground.alloc),
        };
        Flow {
            stream,
            waiting: VecDeque::new(ground.alloc),
            near: 0,
            gone: 0,
        }
    }

    /// What lines of the near bus brought that began by this time.
    fn bring(&mut self, ground: &Ground, until: u64) -> Result<(), NoMemory> {
        let lane = self.stream.lane;
        let lines = ground.taken_by(lane);
        for line in lines.get(self.near..).unwrap_or(&[]) {
            if ground.start(*line) > until {
                break;
            }
            self.bring_line(ground, *line)?;
            self.near = self.near.saturating_add(1);
        }
        Ok(())
    }

    fn bring_line(&mut self, ground: &Ground, line: u32) -> Result<(), NoMemory> {
        let (first, end) = ground.span(line);
        for phase in first..end {
            self.stream.brought.add(ground.place(line))?;
            self.waiting.push_back(phase)?;
        }
        Ok(())
    }

    /// The oldest that waits and is this data phase of the far bus, which leaves.
    fn take(&mut self, ground: &Ground, phase: u32) -> Option<u32> {
        let wanted = ground.phases.get(phase as usize)?;
        let address = ground.address_of(phase);
        let at = self.oldest_where(ground, address, Some(wanted))?;
        let source = self.waiting.get(at).copied();
        self.remove(at);
        source
    }

    /// Where the oldest stands that waits at this address, with this word, if one is given.
    fn oldest_where(&self, ground: &Ground, address: u64, word: Option<&Phase>) -> Option<usize> {
        for (at, source) in self.waiting.iter().enumerate().take(MOST_HELD) {
            let found = ground.phases.get(*source as usize)?;
            let is_word = word.is_none_or(|word| word == found);
            if is_word && ground.address_of(*source) == address {
                return Some(at);
            }
        }
        None
    }

    /// Where the next posted line of the lane goes on behind this place of its far bus.
    fn next_start(&self, ground: &Ground, place: u32) -> Option<u64> {
        let next = ground.next_posted(self.stream.lane, place)?;
        if self.begins_at(ground, next) {
            None
        } else {
            Some(next)
        }
    }

    /// Whether a write waits that begins at this address: a line that goes on there is that one's,
    /// and not the rest of another.
    fn begins_at(&self, ground: &Ground, address: u64) -> bool {
        self.waiting.iter().take(MOST_HELD).any(|phase| ground.number_in_line(*phase) == 0
            && ground.address_of(*phase) == address)
    }

    /// Whether what waits there is this data phase, of the line of the first.
    fn goes_on(&self, ground: &Ground, at: usize, first: u32, phase: u32) -> bool {
        self.waiting.get(at).copied() == Some(phase)
            && ground.line_of(phase) == ground.line_of(first)
    }

    fn remove(&mut self, at: usize) {
        if self.waiting.remove(at).is_some() {
            self.gone = self.gone.saturating_add(1);
        }
    }

    fn note_left(&mut self, place: u32) -> Result<(), NoMemory> {
        self.stream.left.add(place)?;
        self.stream.counts.push(self.gone)?;
        Ok(())
    }

    fn not_held(&self, ground: &Ground, line: u32, phase: u32) -> Unfound {
        let oldest = self.waiting.get(0).copied();
        Unfound::NotHeld {
            line,
            bridge: self.stream.lane.bus,
            phase: ground.number_in_line(phase),
            oldest: oldest.map(|phase| HeldPhase {
                line: ground.line_of(phase),
                phase: ground.number_in_line(phase),
            }),
        }
    }

    fn ended(self) -> Stream {
        let Flow { stream, .. } = self;
        stream
    }
}

/// Whether the next line of the lane goes on at this data phase, or before it, behind the first.
fn is_reached(ground: &Ground, first: u32, phase: u32, next: Option<u64>) -> bool {
    match next {
        Some(next) => ground.address_of(first) < next && next <= ground.address_of(phase),
        None => false,
    }
}
