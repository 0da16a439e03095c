ghost use Rattle.std.specs.Prelude.{◌≡◌, ◌+◌, ◌<◌, ◌≤◌, ℕ, false, length};
ghost use Rattle.std.specs.Int.{bit_at};
ghost use Rattle.bus_segment.specs.turns.Works.{IsSilent, AreAsked, AsksUpTo};
ghost use Rattle.board_model.specs.Limits.{most_agents, most_ports};

use board_model::MOST_PORTS;
use bus_core::Bus;

/// The first request line of a master; those below are of bridges.
const MASTERS: usize = MOST_PORTS;

/// The request lines of all that present something: a bit for each, bit 0 that of the bus's own
/// bridge.
pub(crate) fn lines(bus: &Bus) -> u32
    requires ports { length bus.now.ports ≤ most_ports }
    requires masters { length bus.now.masters ≤ most_agents }
    ensures { AreAsked bus.now result }
{
    lane_lines(bus) | master_lines(bus)
}

/// Those of the lanes.
fn lane_lines(bus: &Bus) -> u32
    requires ports { length bus.now.ports ≤ most_ports }
    ensures { AsksUpTo bus.now 0 (length bus.now.ports) result }
{
    let mut lines = 0;
    for place in 0..bus.ports() {
        if lane_presents(bus, place) {
            lines |= 1 << place;
        }
    }
    lines
}

/// Those of the masters.
fn master_lines(bus: &Bus) -> u32
    requires ports { length bus.now.ports ≤ most_ports }
    requires masters { length bus.now.masters ≤ most_agents }
    ensures { AsksUpTo bus.now most_ports (most_ports + length bus.now.masters) result }
{
    let mut lines = 0;
    for place in 0..bus.masters() {
        if master_presents(bus, place) {
            lines |= 1 << (MASTERS + place);
        }
    }
    lines
}

/// Whether the lane of the port at this place presents something.
fn lane_presents(bus: &Bus, place: usize) -> bool
    requires ports { length bus.now.ports ≤ most_ports }
    requires place { place < length bus.now.ports }
    ensures { result ≡ false → IsSilent bus.now place }
{
    !bus.offers(place).is_empty()
}

/// Whether the master at this place does.
fn master_presents(bus: &Bus, place: usize) -> bool
    requires ports { length bus.now.ports ≤ most_ports }
    requires place { place < length bus.now.masters }
    ensures { result ≡ false → IsSilent bus.now (most_ports + place) }
{
    bus.wants(place).is_some()
}
