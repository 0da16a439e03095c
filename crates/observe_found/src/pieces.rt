use crate::ground::Ground;
use crate::streams::Streams;
use board_model::MOST_DWORDS;
use pci_command::NoMemory;

/// Data phases of a burst that are one operation: the first, and the one behind the last.
#[derive(Clone, Copy)]
pub(crate) struct Piece {
    pub(crate) first: u32,
    pub(crate) end: u32,
}

/// The operations of a burst: it is cut where a bus of its way began or ended a transaction between
/// two of its data phases, at each multiple of 64, and behind as many as a burst may have.
pub(crate) fn pieces(
    ground: &Ground,
    streams: &Streams,
    line: u32,
) -> Result<Vec<Piece>, NoMemory> {
    let mut pieces = Vec::new(ground.alloc);
    let (first, end) = ground.span(line);
    let mut begin = first;
    for phase in first..end {
        let is_cut = streams.track(phase).is_cut
            || ground.address_of(phase) % 64 == 0 // not a limit
            || begin.saturating_add(MOST_DWORDS as u32) <= phase;
        if is_cut && begin < phase {
            pieces.push(Piece {
                first: begin,
                end: phase,
            })?;
            begin = phase;
        }
    }
    if begin < end {
        pieces.push(Piece { first: begin, end })?;
    }
    Ok(pieces)
}
