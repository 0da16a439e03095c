ghost use Rattle.std.specs.Prelude.{◌≡◌, ◌++◌, slice_get, IfOk, OnOk};
ghost use Rattle.std.specs.List.{flat_map};
ghost use Rattle.draw_journeys.specs.Steps.{is_in, least_free, tracks_on};
ghost use Rattle.draw_journeys.specs.Kept.{IsListed, track_on};

use board_model::Lane;
use draw_items::Journey;
use std::alloc::{AllocError, Global};

/// The least track that nothing has that stands where the lane ends; of these journeys, of which
/// those under way are at these places.
pub(crate) fn free_track(
    alloc: Global,
    journeys: &[Journey],
    under_way: &[usize],
    lane: Lane,
) -> Result<usize, AllocError>
    requires { IsListed journeys.now under_way.now }
    ensures { IfOk result (λ track. track ≡ least_free (tracks_on lane journeys.now)) }
{
    let tracks = tracks_at(alloc, journeys, under_way, lane)?;
    Ok(least_free(tracks.as_slice()))
}

/// The tracks of those at these places that stand where the lane ends.
fn tracks_at(
    alloc: Global,
    journeys: &[Journey],
    places: &[usize],
    lane: Lane,
) -> Result<Vec<usize>, AllocError>
    ensures { IfOk result (λ tracks. tracks.items
        ≡ flat_map (λ place. track_on lane (slice_get journeys.now place)) places.now) }
{
    let mut tracks = Vec::new(alloc);
    for place in places {
        add_track(&mut tracks, journeys, *place, lane)?;
    }
    Ok(tracks)
}

/// The track of a journey that stands where the lane ends, behind others.
fn add_track(
    tracks: &mut Vec<usize>,
    journeys: &[Journey],
    place: usize,
    lane: Lane,
) -> Result<(), AllocError>
    ensures { OnOk result
        (tracks.new.items ≡ tracks.old.items ++ track_on lane (slice_get journeys.now place)) }
{
    match journeys.get(place) {
        Some(journey) => {
            if journey.stands(lane) {
                tracks.push(journey.track)?;
            }
            Ok(())
        }
        None => Ok(()),
    }
}

fn least_free(tracks: &[usize]) -> usize
    ensures { result ≡ least_free tracks.now }
{
    for track in 0..tracks.len() {
        if !is_in(tracks, track) {
            return track;
        }
    }
    tracks.len()
}

fn is_in(tracks: &[usize], track: usize) -> bool
    ensures { result ≡ is_in tracks.now track }
{
    tracks.iter().any(|other| *other == track)
}
