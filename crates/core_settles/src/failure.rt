//! Counts a failure of the store.
ghost use Rattle.std.specs.Prelude.{◌≡◌, ◌<◌, ◌≤◌, ◌+◌, ◌^◌, length, IsTrue};
ghost use Rattle.core_claims.specs.core_spec.Pending.{NoneIsWornOut};
ghost use Rattle.core_claims.specs.core_machine.Claims.{is_claimed};
ghost use Rattle.core_claims.specs.queue_log.Queued.{QueueIsUp, queue_size};
ghost use Rattle.core_settles.specs.Ends.{DoesFail};

use crate::answers::Settled;
use crate::steps::{count, free};
use core_claims::{CoreState, Job, Keeper, Kept, put_record};
use fleet_ports::Disk;
use queue_records::fail_bytes;

/// Writes a failure of the store to the queue's log, with its fault counts before and after.
pub(crate) fn fail<D: Disk + Drop, K: Keeper + Drop>(
    core: &mut CoreState<D, K>,
    job: Job,
    before: u64,
    after: u64,
) -> Settled
    requires up { QueueIsUp D.seen D.may_leave core.old.queue }
    requires claimed { IsTrue (is_claimed job.receipt core.old.pending) }
    requires few { NoneIsWornOut core.old.pending }
    requires events { length core.old.pending + 1 < core.old.events.room }
    requires discards { 0 < core.old.discards.room }
    ensures does { DoesFail D.Disk result job before after core.old core.new }
{
    let receipt = job.receipt;
    let answer = put_record(
        &mut core.queue,
        core.alloc,
        &fail_bytes(receipt, before, after),
    );
    match answer {
        Kept::Ok => count(core, job, before, after),
        Kept::Down => Settled::QueueFault,
        _ => {
            free(core, receipt);
            Settled::QueueFault
        }
    }
}
