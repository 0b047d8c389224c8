//! Discards a refused command.
ghost use Rattle.std.specs.Prelude.{◌≡◌, ◌<◌, ◌≤◌, ◌+◌, length, IsTrue};
ghost use Rattle.core_claims.specs.record_spec.Refusals.{IsRefusal};
ghost use Rattle.core_claims.specs.core_machine.Claims.{is_claimed};
ghost use Rattle.core_claims.specs.queue_log.Queued.{QueueIsUp};
ghost use Rattle.core_settles.specs.Ends.{DoesRefuse, EndDoes};

use crate::answers::{Settled, Verdict};
use crate::steps::{discard, free};
use core_claims::{CoreState, Job, Keeper, Kept, put_record};
use fleet_ports::Disk;
use fleet_rows::{Cause, Refusal};
use queue_records::write_queue;
use record_spec::QueueRecord;

/// Ends the command by the answer of the queue's log.
fn end<D: Disk + Drop, K: Keeper + Drop>(
    core: &mut CoreState<D, K>,
    job: Job,
    refusal: Refusal,
    answer: Kept,
) -> Settled
    requires claimed { IsTrue (is_claimed job.receipt core.old.pending) }
    requires events { length core.old.pending < core.old.events.room }
    requires discards { 0 < core.old.discards.room }
    ensures does { EndDoes result answer job refusal core.old core.new }
{
    let receipt = job.receipt;
    match answer {
        Kept::Ok => {
            discard(core, job, Cause::Refused(refusal));
            Settled::Discarded
        }
        Kept::Down => Settled::QueueFault,
        Kept::Memory => Settled::Memory(job, Verdict::Refused(refusal)),
        Kept::Failed => {
            free(core, receipt);
            Settled::QueueFault
        }
        Kept::Spent => {
            free(core, receipt);
            Settled::Spent
        }
    }
}

/// Writes the refusal to the queue's log, and discards the command.
pub(crate) fn refuse<D: Disk + Drop, K: Keeper + Drop>(
    core: &mut CoreState<D, K>,
    job: Job,
    refusal: Refusal,
) -> Settled
    requires up { QueueIsUp D.seen D.may_leave core.old.queue }
    requires claimed { IsTrue (is_claimed job.receipt core.old.pending) }
    requires refusal { IsRefusal refusal }
    ensures does { DoesRefuse D.Disk result job refusal core.old core.new }
{
    let waiting = core.pending.count() as usize;
    if core.events.reserve(waiting + 1).is_err() || core.discards.reserve().is_err() {
        return Settled::Memory(job, Verdict::Refused(refusal));
    }
    let rec = QueueRecord::Refused(job.receipt, refusal);
    match write_queue(core.alloc, &rec) {
        Err(_) => Settled::Memory(job, Verdict::Refused(refusal)),
        Ok(frame) => {
            let answer = put_record(&mut core.queue, core.alloc, frame.as_slice());
            end(core, job, refusal, answer)
        }
    }
}
