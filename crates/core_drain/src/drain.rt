//! Claims and settles commands until none is pending.
ghost use Rattle.std.specs.Prelude.{◌≡◌, ◌↔◌, true, false, Some};
ghost use Rattle.core_ends.specs.core_state.Puts.{QueueCounts};
ghost use Rattle.core_ends.specs.core_state.Seen.{down_of};
ghost use Rattle.core_ends.specs.core_course.Sight.{sight_of};
ghost use Rattle.core_ends.specs.core_course.Work.{Worked};
ghost use Rattle.core_ends.specs.declared.ends.WorkEnd.TheVariants as end;
ghost use Rattle.core_ends.specs.Answers.{after_claim};
ghost use Rattle.core_ends.specs.Ends.{EndsSo, EndsHere, NothingClaimed, ClaimsNoMore};
ghost use Rattle.core_drain.specs.LastCall.{EndsByCall, TurnEndsByCall};

use crate::work::work_on;
use core_ends::{Claimed, Core, Keeper, WorkEnd};
use fleet_ports::Disk;
use std::alloc::Global;

/// Settles pending commands one by one, until none is pending or a call of the core answers a fault. Commands that are claimed at
/// the start are queued again first. If the core is up at the end, nothing is claimed.
///
/// A store that fails is called again, up to sixteen times a command; that is no end. So the loop is limited to sixteen turns for
/// each pending command, and one for the end. If they ran out, the answer would be `Memory`; no clause says that they never do.
pub fn drain_alone<D: Disk + Drop, K: Keeper + Drop>(
    alloc: Global,
    core: &mut Core<D, K>,
) -> WorkEnd
    ensures worked { Worked (sight_of D.Disk K.Keeper) core.old core.new }
    ensures ends { EndsSo (sight_of D.Disk K.Keeper) result core.old core.new }

    // The last call of the core answered the end. So a fault that was got over is none.
    ensures last { EndsByCall D.Disk K.Keeper result core.old core.new }
    ensures queue_cause { QueueCounts D.fault_count core.old.queue core.new.queue (result ≡ end.QueueFault) }
    ensures unclaimed { NothingClaimed (sight_of D.Disk K.Keeper) core.old core.new }
    ensures down { (result ≡ end.Down) ↔ (down_of K.down core.old ≡ true) }
{
    if core.is_down() {
        return WorkEnd::Down;
    }
    core.free_claims();
    let turns = 16 * u64::from(core.pending().0) + 1;
    'turns: for _ in 0..turns {
        if let Some(end) = turn(alloc, core) {
            return end;
        }
    }
    WorkEnd::Memory
}

// Claims a command and works on it. None means that the work may go on.
fn turn<D: Disk + Drop, K: Keeper + Drop>(alloc: Global, core: &mut Core<D, K>) -> Option<WorkEnd>
    requires up { down_of K.down core.old ≡ false }
    ensures worked { Worked (sight_of D.Disk K.Keeper) core.old core.new }
    ensures ends { EndsHere (sight_of D.Disk K.Keeper) result core.old core.new }
    ensures last { TurnEndsByCall D.Disk K.Keeper result core.old core.new }
    ensures queue_cause { QueueCounts D.fault_count core.old.queue core.new.queue (result ≡ Some end.QueueFault) }
    ensures claims { ClaimsNoMore (sight_of D.Disk K.Keeper) core.old core.new }
{
    match core.claim() {
        Claimed::Job(job) => work_on(alloc, core, job),
        claimed => end_of(&claimed),
    }
}

// The end that an answer of a claim means.
fn end_of(claimed: &Claimed) -> Option<WorkEnd>
    ensures { result ≡ after_claim claimed.now }
{
    match claimed {
        Claimed::Job(_) | Claimed::Rest => None,
        Claimed::Done => Some(WorkEnd::Done),
        Claimed::QueueFault => Some(WorkEnd::QueueFault),
        Claimed::Spent => Some(WorkEnd::Spent),
        Claimed::Down => Some(WorkEnd::Down),
        Claimed::Memory => Some(WorkEnd::Memory),
    }
}
