//! Keeps a change in the store, and applies it.
ghost use Rattle.std.specs.Prelude.{◌≡◌, ◌<◌, ◌≤◌, ◌+◌, ◌^◌, length, IsTrue};
ghost use Rattle.core_claims.specs.core_spec.Pending.{NoneIsWornOut};
ghost use Rattle.core_claims.specs.history_spec.Lawful.{HasStamp, IsChange};
ghost use Rattle.core_claims.specs.fleet_tables.Rooms.{room_for};
ghost use Rattle.core_claims.specs.core_machine.Claims.{is_claimed};
ghost use Rattle.core_claims.specs.queue_log.Queued.{QueueIsUp};
ghost use Rattle.core_settles.specs.Records.{IsSpellingOf};
ghost use Rattle.core_settles.specs.Ends.{DoesFinish, DoesAfter, DoesStore, DoesKeep};

use crate::answers::{Settled, Verdict};
use crate::failure::fail;
use crate::prepared::{Prepared, Spelling};
use crate::steps::{apply, free};
use crate::write::write;
use core_claims::{CoreState, Job, Keeper, Kept, MOST_LOG, put_record};
use fleet_ports::Disk;
use fleet_rows::Change;
use fleet_tables::Room;
use queue_records::done_bytes;

/// The size of a log, in bytes, up to which it has room for the frame of a failure, which takes 30.
const ROOM_TO_FAIL: u64 = MOST_LOG - 30;

/// Applies a change that the store has, and writes its Done to the queue.
fn finish<D: Disk + Drop, K: Keeper + Drop>(
    core: &mut CoreState<D, K>,
    job: Job,
    change: Change,
    room: Room,
) -> Settled
    requires up { QueueIsUp D.seen D.may_leave core.old.queue }
    requires claimed { IsTrue (is_claimed job.receipt core.old.pending) }
    requires events { length core.old.pending < core.old.events.room }
    requires tables { room ≡ room_for core.old.tables change }
    requires lawful { IsChange change }
    ensures does { DoesFinish D.Disk result job change core.old core.new }
{
    let receipt = job.receipt;
    apply(core, job, change, room);
    let answer = put_record(&mut core.queue, core.alloc, &done_bytes(receipt));
    if answer != Kept::Ok {
        core.undone = true;
        return Settled::QueueFault;
    }
    Settled::Applied
}

/// Ends the command by the store's answer.
fn after<D: Disk + Drop, K: Keeper + Drop>(
    core: &mut CoreState<D, K>,
    job: Job,
    change: Change,
    room: Room,
    spelling: Spelling,
    before: u64,
    answer: Kept,
) -> Settled
    requires up { QueueIsUp D.seen D.may_leave core.old.queue }
    requires claimed { IsTrue (is_claimed job.receipt core.old.pending) }
    requires few { NoneIsWornOut core.old.pending }
    requires events { length core.old.pending + 1 < core.old.events.room }
    requires discards { 0 < core.old.discards.room }
    requires tables { room ≡ room_for core.old.tables change }
    requires lawful { IsChange change }
    requires spelt { IsSpellingOf spelling change }
    ensures does { DoesAfter D.Disk K.Keeper result answer job change before core.old core.new }
{
    match answer {
        Kept::Ok => {
            drop(spelling);
            finish(core, job, change, room)
        }
        Kept::Failed => {
            drop((change, room, spelling));
            let after = core.store.faults();
            fail(core, job, before, after)
        }
        Kept::Down => {
            drop((change, room, spelling));
            Settled::StoreDown
        }
        Kept::Memory => {
            let change = room.into_prepared(change);
            Settled::Memory(job, Verdict::Change(Prepared { change, spelling }))
        }
        Kept::Spent => {
            drop((change, room, spelling));
            free(core, job.receipt);
            Settled::Spent
        }
    }
}

/// Keeps the change in the store. The tables have room for it.
fn store<D: Disk + Drop, K: Keeper + Drop>(
    core: &mut CoreState<D, K>,
    job: Job,
    change: Change,
    room: Room,
    spelling: Spelling,
) -> Settled
    requires up { QueueIsUp D.seen D.may_leave core.old.queue }
    requires store_up { K.is_up core.old.store }
    requires claimed { IsTrue (is_claimed job.receipt core.old.pending) }
    requires few { NoneIsWornOut core.old.pending }
    requires events { length core.old.pending + 1 < core.old.events.room }
    requires discards { 0 < core.old.discards.room }
    requires tables { room ≡ room_for core.old.tables change }
    requires lawful { IsChange change }
    requires spelt { IsSpellingOf spelling change }
    requires received { HasStamp job.command.received }
    ensures does { DoesStore D.Disk K.Keeper result job change core.old core.new }
{
    let before = core.store.faults();
    let (answer, change) = write(&mut core.store, core.alloc, &job, change, &spelling);
    after(core, job, change, room, spelling, before, answer)
}

/// Keeps and applies the change of a claimed command. If the store fails, the failure is counted. The queue's log must have room
/// for that from the start.
pub(crate) fn keep<D: Disk + Drop, K: Keeper + Drop>(
    core: &mut CoreState<D, K>,
    job: Job,
    prepared: Prepared,
) -> Settled
    requires up { QueueIsUp D.seen D.may_leave core.old.queue }
    requires store_up { K.is_up core.old.store }
    requires claimed { IsTrue (is_claimed job.receipt core.old.pending) }
    requires few { NoneIsWornOut core.old.pending }
    requires release { 0 < core.old.events.room }
    requires lawful { IsChange prepared }
    requires received { HasStamp job.command.received }
    ensures does { DoesKeep D.Disk K.Keeper result job prepared core.old core.new }
{
    if core.queue.size() > ROOM_TO_FAIL {
        drop(prepared);
        free(core, job.receipt);
        return Settled::Spent;
    }
    let waiting = core.pending.count() as usize;
    if core.events.reserve(waiting + 2).is_err() || core.discards.reserve().is_err() {
        return Settled::Memory(job, Verdict::Change(prepared));
    }
    let Prepared { change, spelling } = prepared;
    match core.tables.reserve_prepared(change) {
        Err(change) => Settled::Memory(job, Verdict::Change(Prepared { change, spelling })),
        Ok((change, room)) => store(core, job, change, room, spelling),
    }
}
