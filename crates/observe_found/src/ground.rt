use crate::errands::{Errands, Wanted};
use board_model::{Board, Lane, Place, bridge_to, end_of, primary_of};
use board_tree::Tree;
use observe_told::{Addressed, BusLines, Ending, LaneLists, Seen, Who};
use pci_command::{NoMemory, Phase};
use std::alloc::Global;

/// Behind each place of a bus.
pub(crate) const NO_PLACE: u32 = u32::MAX;
/// Behind each time.
pub(crate) const NO_TIME: u64 = u64::MAX;
/// Above each address of configuration space: of a device that is not there.
const NO_DEVICE: u64 = 1 << 40; // not a limit

/// Whether a Retry may have latched a request that went on at the very time at which the Retry
/// began.
#[derive(Clone, Copy, Debug, PartialEq, Eq)]
pub enum Times {
    Meet,
    /// It did not, where another may have latched it.
    Apart,
}

/// A log and its board, with who claims each line and the place of each line on its bus. Lines and
/// data phases are named by their places in the log, from 0.
#[derive(Drop)]
pub(crate) struct Ground<'a> {
    pub(crate) alloc: Global,
    pub(crate) board: &'a Board,
    pub(crate) lines: &'a [Seen],
    pub(crate) phases: &'a [Phase],
    pub(crate) times: Times,
    claimants: Vec<Place>,
    on_buses: BusLines,
    taken: LaneLists<u32>,
    sent: LaneLists<u32>,
    fars: LaneLists<u32>,
    /// Of each data phase its line.
    of_phases: Vec<u32>,
    /// The lines with data that targets claim.
    pub(crate) at_targets: Vec<u32>,
    /// The reads of which acts tell of the first dword alone, and how many further ones there were.
    pub(crate) further: Vec<(u32, u32)>,
}

/// An errand as it began, and what it asks for.
#[derive(Clone, Copy)]
pub(crate) struct Begun {
    pub(crate) wanted: Wanted,
    pub(crate) errand: u32,
}

/// The errands that lanes claim, and those that they drive, each as they began.
#[derive(Drop)]
pub(crate) struct Ends {
    pub(crate) nears: LaneLists<Begun>,
    pub(crate) fars: LaneLists<Begun>,
}

/// A count or a place in 32 bits, of which a log has fewer.
pub(crate) fn number(count: usize) -> u32 {
    u32::try_from(count).unwrap_or(u32::MAX)
}

impl<'a> Ground<'a> {
    pub(crate) fn new(
        alloc: Global,
        tree: &'a Tree,
        lines: &'a [Seen],
        phases: &'a [Phase],
        times: Times,
    ) -> Result<Ground<'a>, NoMemory> {
        let on_buses = BusLines::new(alloc, lines)?;
        let of_phases = lines_of_phases(alloc, lines, phases.len())?;
        Ok(Ground {
            alloc,
            board: tree.board(),
            lines,
            phases,
            times,
            claimants: Vec::new(alloc),
            on_buses,
            taken: LaneLists::new(alloc),
            sent: LaneLists::new(alloc),
            fars: LaneLists::new(alloc),
            of_phases,
            at_targets: Vec::new(alloc),
            further: Vec::new(alloc),
        })
    }

    /// Says who claims each line, and lists what is looked at lane by lane. All lines of an errand
    /// ask for the same, so that who claims the first one claims the others. They are numbered as
    /// they begin.
    pub(crate) fn claim(&mut self, tree: &Tree, errands: &Errands) -> Result<Ends, NoMemory> {
        let board = tree.board();
        let mut ends = Ends {
            nears: LaneLists::new(self.alloc),
            fars: LaneLists::new(self.alloc),
        };
        let mut claimed: Vec<Place> = Vec::new(self.alloc);
        self.claimants.reserve(self.lines.len())?;
        for (place, seen) in self.lines.iter().enumerate() {
            let line = number(place);
            let errand = errands.of_line(line);
            let found = errand.and_then(|errand| claimed.get(errand as usize).copied());
            let claimant = found.unwrap_or_else(|| seen.claimant(board));
            self.claimants.push(claimant)?;
            if is_moved(seen) && matches!(claimant, Place::Target(_)) {
                self.at_targets.push(line)?;
            }
            match errand {
                Some(errand) => {
                    if found.is_none() {
                        claimed.push(claimant)?;
                        self.list_begun(&mut ends, errand, claimant, seen)?;
                    }
                    self.list_ended(errand, claimant, seen)?;
                }
                None => self.list_posted(line, claimant, seen)?,
            }
        }
        self.list_open(errands)?;
        Ok(ends)
    }

    fn list_posted(&mut self, line: u32, claimant: Place, seen: &Seen) -> Result<(), NoMemory> {
        if seen.ending == Ending::Done
            && let Place::Lane(lane) = claimant
        {
            self.taken.add(self.alloc, lane, line)?;
        }
        if seen.ending != Ending::Retry
            && let Who::Lane(lane) = seen.who
        {
            self.sent.add(self.alloc, lane, line)?;
        }
        Ok(())
    }

    /// The errand that begins at the line.
    fn list_begun(
        &self,
        ends: &mut Ends,
        errand: u32,
        claimant: Place,
        seen: &Seen,
    ) -> Result<(), NoMemory> {
        let wanted = self.wanted(seen);
        if let Place::Lane(lane) = claimant {
            ends.nears.add(self.alloc, lane, Begun { wanted, errand })?;
        }
        if let Who::Lane(lane) = seen.who {
            ends.fars.add(self.alloc, lane, Begun { wanted, errand })?;
        }
        Ok(())
    }

    /// The errand of the line, where this ends it.
    fn list_ended(&mut self, errand: u32, claimant: Place, seen: &Seen) -> Result<(), NoMemory> {
        let further = not_looked_at(seen, claimant);
        if further > 0 {
            self.further.push((errand, further))?;
        }
        if seen.ending != Ending::Retry
            && let Who::Lane(lane) = seen.who
        {
            self.fars.add(self.alloc, lane, errand)?;
        }
        Ok(())
    }

    /// The errands of lanes that did not end.
    fn list_open(&mut self, errands: &Errands) -> Result<(), NoMemory> {
        for errand in 0..errands.count() {
            if errands.get(errand).ended().is_none() {
                let first = errands.first_line(&errands.get(errand));
                let seen = self.lines.get(first as usize);
                if let Some(Who::Lane(lane)) = seen.map(|seen| seen.who) {
                    self.fars.add(self.alloc, lane, errand)?;
                }
            }
        }
        Ok(())
    }

    /// Who claims a line, and which lines stand on which bus, is not asked any more.
    pub(crate) fn forget_buses(&mut self) {
        let alloc = self.alloc;
        self.claimants = Vec::new(alloc);
        self.on_buses = BusLines::none(alloc);
        self.taken = LaneLists::new(alloc);
        self.sent = LaneLists::new(alloc);
        self.fars = LaneLists::new(alloc);
    }

    /// The line at this place of the log.
    pub(crate) fn seen(&self, line: u32) -> Option<&Seen> {
        self.lines.get(line as usize)
    }

    pub(crate) fn start(&self, line: u32) -> u64 {
        self.seen(line).map_or(0, |seen| seen.start)
    }

    pub(crate) fn end(&self, line: u32) -> u64 {
        self.seen(line).map_or(0, |seen| seen.end)
    }

    /// The place of the line on its bus.
    pub(crate) fn place(&self, line: u32) -> u32 {
        self.on_buses.place(line)
    }

    /// Who claims the line.
    pub(crate) fn claimant(&self, line: u32) -> Place {
        let claimant = self.claimants.get(line as usize);
        claimant.copied().unwrap_or(Place::Nobody)
    }

    /// The lines of the bus, in its order.
    pub(crate) fn on_bus(&self, bus: u8) -> &[u32] {
        self.on_buses.on_bus(bus)
    }

    /// The posted writes that the lane took, in the order of the bus where it begins.
    pub(crate) fn taken_by(&self, lane: Lane) -> &[u32] {
        self.taken.of(lane)
    }

    /// The posted lines that the lane drove and that were not retried, in the order of the bus where
    /// it ends.
    pub(crate) fn sent_by(&self, lane: Lane) -> &[u32] {
        self.sent.of(lane)
    }

    /// The errands that the lane drives, as they ended; behind them those that did not end.
    pub(crate) fn fars_of(&self, lane: Lane) -> &[u32] {
        self.fars.of(lane)
    }

    /// The data phases in which the line transferred data, by the first and how many.
    pub(crate) fn moved(&self, seen: &Seen) -> &[Phase] {
        if is_moved(seen) {
            self.phases_of(seen)
        } else {
            &[]
        }
    }

    /// The data phases of the line, those that were only offered too.
    fn phases_of(&self, seen: &Seen) -> &[Phase] {
        let (first, end) = span_of(seen);
        match self.phases.get(first as usize..end as usize) {
            Some(phases) => phases,
            None => &[],
        }
    }

    /// The first data phase of the line.
    pub(crate) fn first_phase(&self, seen: &Seen) -> Phase {
        self.phases_of(seen).first().copied().unwrap_or_default()
    }

    /// The data phases of the line in which data was transferred, by the first and the one behind
    /// the last.
    pub(crate) fn span(&self, line: u32) -> (u32, u32) {
        match self.seen(line) {
            Some(seen) if is_moved(seen) => span_of(seen),
            _ => (0, 0),
        }
    }

    /// The line that a data phase is of.
    pub(crate) fn line_of(&self, phase: u32) -> u32 {
        self.of_phases.get(phase as usize).copied().unwrap_or(0)
    }

    /// The number of a data phase on its line.
    pub(crate) fn number_in_line(&self, phase: u32) -> u32 {
        match self.seen(self.line_of(phase)) {
            Some(seen) => phase.saturating_sub(seen.first),
            None => 0,
        }
    }

    /// The address of a data phase in memory.
    pub(crate) fn address_of(&self, phase: u32) -> u64 {
        match self.seen(self.line_of(phase)) {
            Some(seen) => {
                let before = 4 * u64::from(phase.saturating_sub(seen.first));
                address_of_line(seen).saturating_add(before)
            }
            None => 0,
        }
    }

    /// The byte address of the line; 0 in configuration space.
    pub(crate) fn first_address(&self, line: u32) -> u64 {
        self.seen(line).map_or(0, |seen| address_of_line(seen))
    }

    /// The address of the next posted line that the lane drives behind this place of its far bus.
    pub(crate) fn next_posted(&self, lane: Lane, place: u32) -> Option<u64> {
        let lines = self.on_bus(self.end_of(lane));
        for line in lines.get(place as usize..)?.iter().skip(1) {
            let seen = self.seen(*line)?;
            if seen.is_posted() && seen.who == Who::Lane(lane) {
                return Some(self.first_address(*line));
            }
        }
        None
    }

    /// The request of a delayed line as it is driven on its bus.
    pub(crate) fn driven(&self, seen: &Seen) -> Wanted {
        self.wanted_at(seen, driven_address(seen.address))
    }

    /// The request of a delayed line, by which a far errand is known as one of a near one.
    pub(crate) fn wanted(&self, seen: &Seen) -> Wanted {
        self.wanted_at(seen, self.common_address(seen))
    }

    fn wanted_at(&self, seen: &Seen, address: u64) -> Wanted {
        let code = seen.command.plain().code();
        let phase = if seen.command.is_read() {
            Phase::default()
        } else {
            self.first_phase(seen)
        };
        Wanted {
            code,
            address,
            value: phase.value,
            enables: phase.enables,
        }
    }

    /// In configuration space the address of type 1 with the bus that is meant; all devices that
    /// are not there are one.
    fn common_address(&self, seen: &Seen) -> u64 {
        match seen.address {
            Addressed::Byte(address) => address,
            Addressed::Type0 { device, register } => self.register_at(seen.bus, device, register),
            Addressed::Type1 {
                bus,
                device,
                register,
            } => self.register_at(bus, Some(device), register),
        }
    }

    fn register_at(&self, bus: u8, device: Option<u8>, register: u8) -> u64 {
        let register = 0x1_0000 * u64::from(bus) + 4 * u64::from(register) + 1;
        match device {
            Some(device) if self.has_device(bus, device) => register + 0x800 * u64::from(device),
            _ => NO_DEVICE + register,
        }
    }

    /// Whether the bus has a device of this number.
    pub(crate) fn has_device(&self, bus: u8, device: u8) -> bool {
        let targets = self.board.targets.as_slice();
        let bridges = self.board.bridges.as_slice();
        targets
            .iter()
            .any(|target| target.bus == bus && target.device == device)
            || bridges
                .iter()
                .any(|bridge| bridge.parent == bus && bridge.device == device)
    }

    /// The first place on the bus of a line that ended at this time or later.
    pub(crate) fn first_behind(&self, bus: u8, time: u64) -> u32 {
        number(
            self.on_bus(bus)
                .partition_point(|line| self.end(*line) < time),
        )
    }

    /// The lanes in the order in which they are settled, far ends first: downward ones from the
    /// lowest up, upward ones from the highest down.
    pub(crate) fn lanes(&self) -> Result<Vec<Lane>, NoMemory> {
        let mut lanes = Vec::new(self.alloc);
        for below in 0..=255u8 {
            self.list(&mut lanes, 255 - below, false)?;
        }
        for bus in 0..=255u8 {
            self.list(&mut lanes, bus, true)?;
        }
        Ok(lanes)
    }

    fn list(&self, lanes: &mut Vec<Lane>, bus: u8, up: bool) -> Result<(), NoMemory> {
        if bridge_to(self.board, bus).is_some() {
            lanes.push(Lane { bus, up })?;
        }
        Ok(())
    }

    /// The bus on which the lane begins.
    pub(crate) fn start_of(&self, lane: Lane) -> u8 {
        if lane.up {
            lane.bus
        } else {
            primary_of(self.board, lane.bus)
        }
    }

    /// The bus on which the lane ends.
    pub(crate) fn end_of(&self, lane: Lane) -> u8 {
        end_of(self.board, lane)
    }
}

/// The byte address of the line; 0 in configuration space.
pub(crate) fn address_of_line(seen: &Seen) -> u64 {
    match seen.address {
        Addressed::Byte(address) => address,
        Addressed::Type0 { .. } | Addressed::Type1 { .. } => 0,
    }
}

/// The first data phase of the line, and the one behind its last.
fn span_of(seen: &Seen) -> (u32, u32) {
    (seen.first, seen.first.saturating_add(u32::from(seen.count)))
}

/// Whether the data phases of the line were transferred, and not only offered.
fn is_moved(seen: &Seen) -> bool {
    match seen.ending {
        Ending::Done => true,
        Ending::TargetAbort => seen.is_posted() || seen.command.is_read(),
        Ending::Retry | Ending::Nobody => false,
    }
}

/// How many dwords of a read no act tells of: at a lane and of a lane all but the first.
fn not_looked_at(seen: &Seen, claimant: Place) -> u32 {
    let is_of_lane = matches!(seen.who, Who::Lane(_)) || matches!(claimant, Place::Lane(_));
    if is_moved(seen) && seen.command.is_read() && is_of_lane {
        u32::from(seen.count).saturating_sub(1)
    } else {
        0
    }
}

fn driven_address(address: Addressed) -> u64 {
    match address {
        Addressed::Type0 {
            device: None,
            register,
        } => NO_DEVICE + 4 * u64::from(register),
        _ => address.driven().unwrap_or(NO_DEVICE),
    }
}

fn lines_of_phases(alloc: Global, lines: &[Seen], count: usize) -> Result<Vec<u32>, NoMemory> {
    let mut of_phases = vec![in alloc; 0u32; count]?;
    for (line, seen) in lines.iter().enumerate() {
        let (first, end) = span_of(seen);
        if let Some(slots) = of_phases
            .as_mut_slice()
            .get_mut(first as usize..end as usize)
        {
            for slot in slots.iter_mut() {
                *slot = number(line);
            }
        }
    }
    Ok(of_phases)
}
