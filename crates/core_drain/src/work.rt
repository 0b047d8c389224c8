//! Works on one claimed command.
ghost use Rattle.std.specs.Prelude.{◌≡◌, false, Some};
ghost use Rattle.core_ends.specs.core_state.Puts.{QueueCounts};
ghost use Rattle.core_ends.specs.core_state.Seen.{down_of, IsSubmitted, IsFit};
ghost use Rattle.core_ends.specs.core_settles.Settles.{IsVerdictOf};
ghost use Rattle.core_ends.specs.core_course.Sight.{sight_of};
ghost use Rattle.core_ends.specs.core_course.Work.{Worked};
ghost use Rattle.core_ends.specs.Ends.{EndsHere, LetsGo};
ghost use Rattle.core_drain.specs.LastCall.{TurnEndsByCall};

use command_decode::{DecodeFault, decode};
use core_ends::{Core, Job, Keeper, Prepared, Settled, Verdict, WorkEnd, end_of_settle};
use fleet_ports::Disk;
use fleet_rows::Change;
use std::alloc::Global;

/// Decodes a claimed command, prepares its change and settles it. None means that the work may go on.
pub(crate) fn work_on<D: Disk + Drop, K: Keeper + Drop>(
    alloc: Global,
    core: &mut Core<D, K>,
    job: Job,
) -> Option<WorkEnd>
    requires up { down_of K.down core.old ≡ false }
    requires submitted { IsSubmitted job.receipt job.command core.old }
    requires fit { IsFit job.command }
    ensures worked { Worked (sight_of D.Disk K.Keeper) core.old core.new }
    ensures ends { EndsHere (sight_of D.Disk K.Keeper) result core.old core.new }
    ensures last { TurnEndsByCall D.Disk K.Keeper result core.old core.new }
    ensures queue_cause { QueueCounts D.fault_count core.old.queue core.new.queue (result ≡ Some WorkEnd.QueueFault) }
    ensures lets_go { LetsGo (sight_of D.Disk K.Keeper) job.receipt core.old core.new }
{
    match decode(alloc, job.command.command()) {
        Ok(change) => settle_change(alloc, core, job, change),
        Err(DecodeFault::Refused(refusal)) => settle_as(core, job, Verdict::Refused(refusal)),
        Err(DecodeFault::Memory) => Some(give_back(core, job)),
    }
}

// Prepares the decoded change, and settles the command.
fn settle_change<D: Disk + Drop, K: Keeper + Drop>(
    alloc: Global,
    core: &mut Core<D, K>,
    job: Job,
    change: Change,
) -> Option<WorkEnd>
    requires up { down_of K.down core.old ≡ false }
    requires submitted { IsSubmitted job.receipt job.command core.old }
    requires fit { IsFit job.command }
    requires decodes { IsVerdictOf (Verdict.Change change) job.command }
    ensures worked { Worked (sight_of D.Disk K.Keeper) core.old core.new }
    ensures ends { EndsHere (sight_of D.Disk K.Keeper) result core.old core.new }
    ensures last { TurnEndsByCall D.Disk K.Keeper result core.old core.new }
    ensures queue_cause { QueueCounts D.fault_count core.old.queue core.new.queue (result ≡ Some WorkEnd.QueueFault) }
    ensures lets_go { LetsGo (sight_of D.Disk K.Keeper) job.receipt core.old core.new }
{
    match Prepared::of(alloc, &job, change) {
        Ok(prepared) => settle_as(core, job, Verdict::Change(prepared)),
        Err(_) => Some(give_back(core, job)),
    }
}

// Settles the command by what it decodes to.
fn settle_as<D: Disk + Drop, K: Keeper + Drop>(
    core: &mut Core<D, K>,
    job: Job,
    verdict: Verdict,
) -> Option<WorkEnd>
    requires up { down_of K.down core.old ≡ false }
    requires submitted { IsSubmitted job.receipt job.command core.old }
    requires fit { IsFit job.command }
    requires decodes { IsVerdictOf verdict job.command }
    ensures worked { Worked (sight_of D.Disk K.Keeper) core.old core.new }
    ensures ends { EndsHere (sight_of D.Disk K.Keeper) result core.old core.new }
    ensures last { TurnEndsByCall D.Disk K.Keeper result core.old core.new }
    ensures queue_cause { QueueCounts D.fault_count core.old.queue core.new.queue (result ≡ Some WorkEnd.QueueFault) }
    ensures lets_go { LetsGo (sight_of D.Disk K.Keeper) job.receipt core.old core.new }
{
    match core.settle(job, verdict) {
        Settled::Memory(job, _) => Some(give_back(core, job)),
        settled => end_of_settle(&settled),
    }
}

// Queues the command again, since there was no memory.
fn give_back<D: Disk + Drop, K: Keeper + Drop>(core: &mut Core<D, K>, job: Job) -> WorkEnd
    requires up { down_of K.down core.old ≡ false }
    ensures worked { Worked (sight_of D.Disk K.Keeper) core.old core.new }
    ensures memory { result ≡ WorkEnd.Memory }
    ensures up { down_of K.down core.new ≡ false }
    ensures queue { core.new.queue ≡ core.old.queue }
    ensures lets_go { LetsGo (sight_of D.Disk K.Keeper) job.receipt core.old core.new }
{
    core.release(job);
    WorkEnd::Memory
}
