//! Counts the commands that came in, and how they ended.
ghost use Rattle.std.specs.Prelude.{◌≡◌, ◌-◌, ◌<◌, ◌^◌, reverse};
ghost use Rattle.core_state.specs.Tallies.{tally_of, counted_with, counted_as};

use crate::note::{EventKind, EventNote};

/// How many commands came in, and how many ended in each way.
#[derive(Clone, Copy, PartialEq, Eq, Debug)]
pub struct Tally {
    /// The number of submitted commands.
    pub received: u64,
    /// The number of changes that were applied to the tables.
    pub applied: u64,
    /// The number of commands that a newer one of their node and kind superseded.
    pub superseded: u64,
    /// The number of discarded commands: those refused, and those that failed sixteen times.
    pub discarded: u64,
}

/// The tally with one event of this kind more.
fn with_kind(tally: Tally, kind: EventKind) -> Tally
    requires received { tally.received < 2 ^ 64 - 1 }
    requires applied { tally.applied < 2 ^ 64 - 1 }
    requires superseded { tally.superseded < 2 ^ 64 - 1 }
    requires discarded { tally.discarded < 2 ^ 64 - 1 }
    ensures { result ≡ counted_as kind tally }
{
    let mut tally = tally;
    match kind {
        EventKind::Submit => tally.received += 1,
        EventKind::Apply => tally.applied += 1,
        EventKind::Supersede => tally.superseded += 1,
        EventKind::Discard => tally.discarded += 1,
        EventKind::Other => {}
    }
    tally
}

/// The tally with one event more.
#[tactic(auto, using(crate::proofs::KindLaws::kind_counts))]
fn with_event(tally: Tally, event: &EventNote) -> Tally
    requires received { tally.received < 2 ^ 64 - 1 }
    requires applied { tally.applied < 2 ^ 64 - 1 }
    requires superseded { tally.superseded < 2 ^ 64 - 1 }
    requires discarded { tally.discarded < 2 ^ 64 - 1 }
    ensures { result ≡ counted_with event.now tally }
{
    with_kind(tally, event.kind())
}

/// The tally of events, listed oldest first.
pub(crate) fn counted(events: &[EventNote]) -> Tally
    ensures { result ≡ tally_of (reverse events.now) }
{
    let mut tally = Tally {
        received: 0,
        applied: 0,
        superseded: 0,
        discarded: 0,
    };
    for event in events {
        tally = with_event(tally, event);
    }
    tally
}
