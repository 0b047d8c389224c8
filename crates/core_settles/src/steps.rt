//! Changes the parts of a core in memory when a command ends.
ghost use Rattle.std.specs.Prelude.{◌≡◌, ◌<◌, ◌≤◌, ◌+◌, ◌^◌, ◌∷◌, [], length, IsTrue, true, false};
ghost use Rattle.core_claims.specs.core_spec.Pending.{NoneIsWornOut};
ghost use Rattle.core_claims.specs.history_spec.Lawful.{IsChange};
ghost use Rattle.core_claims.specs.fleet_tables.Rooms.{room_for};
ghost use Rattle.core_claims.specs.core_machine.Claims.{is_claimed};
ghost use Rattle.core_claims.specs.core_spec.declared.event.Event.TheVariants as event;
ghost use Rattle.core_settles.specs.Ends.{dead_of, WasFreed, WasDiscarded, WasApplied, CountDoes};

use crate::answers::Settled;
use core_claims::{CoreState, Job, Keeper, free_claim, take_out};
use core_spec::{Dead, Event};
use fleet_ports::Disk;
use fleet_rows::{Cause, Change};
use fleet_tables::Room;
use retry_discard::is_last;

/// Queues a claimed command again.
pub(crate) fn free<D: Disk + Drop, K: Keeper + Drop>(core: &mut CoreState<D, K>, receipt: u64)
    requires claimed { IsTrue (is_claimed receipt core.old.pending) }
    requires room { 0 < core.old.events.room }
    ensures freed { WasFreed receipt core.old core.new }
{
    free_claim(&mut core.pending, &mut core.events, receipt);
}

/// Discards a claimed command.
pub(crate) fn discard<D: Disk + Drop, K: Keeper + Drop>(
    core: &mut CoreState<D, K>,
    job: Job,
    cause: Cause,
)
    requires claimed { IsTrue (is_claimed job.receipt core.old.pending) }
    requires events { length core.old.pending < core.old.events.room }
    requires discards { 0 < core.old.discards.room }
    ensures discarded { WasDiscarded (dead_of job cause) (event.Discard job.receipt cause ∷ []) core.old core.new }
{
    let Job { receipt, command } = job;
    take_out(&mut core.pending, receipt);
    core.discards.put(Dead {
        receipt,
        command,
        cause,
    });
    core.events.note(Event::Discard(receipt, cause));
}

/// Applies the change of a claimed command to the tables.
pub(crate) fn apply<D: Disk + Drop, K: Keeper + Drop>(
    core: &mut CoreState<D, K>,
    job: Job,
    change: Change,
    room: Room,
)
    requires claimed { IsTrue (is_claimed job.receipt core.old.pending) }
    requires events { length core.old.pending < core.old.events.room }
    requires tables { room ≡ room_for core.old.tables change }
    requires lawful { IsChange change }
    ensures applied { WasApplied job change core.old core.new }
{
    let receipt = job.receipt;
    let received = job.command.command().received;
    core.tables.apply(room, receipt, Some(received), change);
    take_out(&mut core.pending, receipt);
    core.events.note(Event::Apply(receipt, Some(received)));
}

/// Counts a failure whose record was written. The sixteenth discards the command; otherwise it is queued again.
pub(crate) fn count<D: Disk + Drop, K: Keeper + Drop>(
    core: &mut CoreState<D, K>,
    job: Job,
    before: u64,
    after: u64,
) -> Settled
    requires claimed { IsTrue (is_claimed job.receipt core.old.pending) }
    requires few { NoneIsWornOut core.old.pending }
    requires events { length core.old.pending + 1 < core.old.events.room }
    requires discards { 0 < core.old.discards.room }
    ensures does { CountDoes result job before after core.old core.new }
{
    let receipt = job.receipt;
    core.events.note(Event::Fail(receipt, before, after));
    let attempts = core.pending.count_failure(receipt);
    if is_last(attempts - 1) {
        discard(core, job, Cause::Failures);
        return Settled::Discarded;
    }
    core.pending.unmark(receipt);
    Settled::Failed { attempts }
}
