ghost use Rattle.std.specs.Prelude.{IsTrue};
ghost use Rattle.board_model.specs.WellFormed.{is_well_formed};

use crate::reasons::Past;
use board_model::{Place, end_of};
use history_model::Step;
use observe_told::{Candidate, Refused, SeenAct, Who, WhyNot};

/// Which of the candidates is named, none of which is allowed: that whose line ended first; if it
/// waits for what the next line of another bus has not sent, and is not refused for what it went
/// before, that line.
pub(crate) fn blamed(past: &Past, candidates: &[Candidate]) -> Option<(Candidate, Refused)>
    requires { IsTrue (is_well_formed past.now.board.now) }
{
    let mut named = first_ended(candidates)?;
    for _ in 0..candidates.len() {
        match waited_for(past, candidates, &named) {
            Some(other) => named = other,
            None => break,
        }
    }
    let (why, reason) = past.why(&named);
    let refused = Refused {
        line: named.line,
        why,
        reason,
    };
    Some((named, refused))
}

fn first_ended(candidates: &[Candidate]) -> Option<Candidate> {
    let by_end = candidates
        .iter()
        .min_by_key(|candidate| (candidate.end, candidate.line));
    by_end.copied()
}

/// The candidate of the bus from which an item of this one's operation has to come.
fn waited_for(past: &Past, candidates: &[Candidate], named: &Candidate) -> Option<Candidate>
    requires { IsTrue (is_well_formed past.now.board.now) }
{
    let (_why, reason) = past.why(named);
    if matches!(
        reason,
        WhyNot::BehindWrite { .. } | WhyNot::BehindEqual { .. } | WhyNot::CompletionBehind { .. }
    ) {
        return None;
    }
    let act = past.heads.act(named)?;
    let before = bus_before(past, &act)?;
    if past.heads.has_left(before, act.op) {
        candidates
            .iter()
            .find(|candidate| candidate.bus == before)
            .copied()
    } else {
        None
    }
}

/// The bus from which it comes: of a completion that where the request went, of what a lane drives
/// that where the lane took it.
fn bus_before(past: &Past, act: &SeenAct) -> Option<u8> {
    match (act.step, act.place) {
        (Step::Take(_), Place::Lane(lane)) => Some(end_of(past.board, lane)),
        _ => match past.heads.seen(act.line)?.who {
            Who::Lane(lane) => Some(past.near_bus(lane)),
            Who::Master(_) => None,
        },
    }
}
