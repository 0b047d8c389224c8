//! Computes the depth of the least query that continues a state.
ghost use Rattle.std.specs.Prelude.{◌≡◌, ◌≤◌, List};
ghost use Rattle.query_spec.specs.Query.{height};
ghost use Rattle.pql_machine.specs.Least as least;
ghost use Rattle.pql_machine.specs.Machine as machine;
ghost use Rattle.pql_parts.specs.Heights as spec;
ghost use Rattle.pql_parts.specs.States.{mode_of, paged_of, state_of};

use crate::build::deeper;
use crate::frames::Frames;
use crate::state::{Mode, Owner, Paged, State};

// The height of the least filter that continues the mode.
fn least_height(mode: &Mode) -> usize
    ensures { result ≡ height (least.least (mode_of mode.now)) }
{
    match mode {
        Mode::DifferFrom(_) => 2,
        _ => 1,
    }
}

fn paged_need(frames: &Frames, paged: &Paged) -> usize
    ensures { (x : machine.PagingStage) → result ≡ spec.capped (least.need (paged_of frames.now paged.now x)) }
{
    match &paged.owner {
        Owner::Outermost => paged.closed.height,
        Owner::Right(right) => {
            let height = deeper(paged.closed.height);
            frames.depth_of(right.pending.put_height(right.nots, height))
        }
    }
}

/// The depth of the least query that continues the state. Depths above 100 are returned as 101.
pub fn need(frames: &Frames, state: &State) -> usize
    ensures { result ≡ spec.capped (least.need (state_of frames.now state.now)) }
{
    match state {
        State::Start | State::Headed(_) | State::HeadColumns(_, _, _) => 0,
        State::HeadBrace(_, _) => 0,
        State::Body(_) => frames.depth_of(frames.bare()),
        State::Within(spot, mode) => {
            let height = least_height(mode);
            frames.depth_of(spot.pending.put_height(spot.nots, height))
        }
        State::Done(_, pending) => frames.depth_of(pending.region_height()),
        State::Paged(paged, _) => paged_need(frames, paged),
        State::Complete(finished) => finished.height,
    }
}
