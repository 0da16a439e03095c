ghost use Rattle.std.specs.Prelude.{◌≡◌, ◌<◌, ◌==◌, ◌&&◌, length, map, IfOk};
ghost use Rattle.std.specs.List.{position};
ghost use Rattle.engine_segments.specs.First.{buses_of, worker_of};
ghost use Rattle.engine_runs.specs.Loop.{all_seen};
ghost use Rattle.engine_runs.specs.First.{AreLinked, AreAboveOf, IsAboveOf};

use crate::settling::Above;
use board_model::{Board, Lane, primary_of};
use bus_segment::{Segment, Worker};
use engine_segments::{buses, lanes_to};
use lane_items::LaneEnd;
use pci_command::NoMemory;
use std::alloc::Global;

/// A worker for each segment, in the same order.
pub fn all_workers<L: LaneEnd + Drop>(
    alloc: Global,
    segments: Vec<Segment<L>>,
) -> Result<Vec<Worker<L>>, NoMemory>
    ensures { IfOk result (λ workers. all_seen workers.items ≡ map worker_of segments.items) }
{
    let mut workers = Vec::new(alloc);
    for segment in segments {
        workers.push(Worker::new(segment))?;
    }
    Ok(workers)
}

/// Where the bridges to all buses but bus 0 hang, by increasing number of the bus.
pub fn all_above(alloc: Global, board: &Board) -> Result<Vec<Above>, NoMemory>
    requires { AreLinked board.now }
    ensures { IfOk result (λ above. AreAboveOf board.now above.items) }
{
    let buses = buses(alloc, board)?;
    let mut above = Vec::new(alloc);
    for place in 1..buses.len() {
        above.push(above_of(alloc, board, buses.as_slice(), place)?)?;
    }
    Ok(above)
}

/// Where the bridge to the bus of this place hangs.
fn above_of(alloc: Global, board: &Board, buses: &[u8], place: usize) -> Result<Above, NoMemory>
    requires linked { AreLinked board.now }
    requires buses { buses.now ≡ buses_of board.now }
    requires place { (0 < place) × (place < length buses.now) }
    ensures { IfOk result (λ above. IsAboveOf board.now place above) }
{
    let bus = buses[place];
    let primary = primary_of(board, bus);
    let lanes = lanes_to(alloc, board, primary)?;
    let worker = place_of(buses, primary).unwrap();
    let port = port_of(lanes.as_slice(), bus).unwrap();
    Ok(Above { worker, port })
}

fn place_of(buses: &[u8], bus: u8) -> Option<usize>
    ensures { result ≡ position (λ other. other == bus) buses.now }
{
    buses.iter().position(|other| *other == bus)
}

/// The port of the lane up from a bus.
fn port_of(lanes: &[Lane], bus: u8) -> Option<usize>
    ensures { result ≡ position (λ lane. lane.up && lane.bus == bus) lanes.now }
{
    lanes.iter().position(|lane| lane.up && lane.bus == bus)
}
