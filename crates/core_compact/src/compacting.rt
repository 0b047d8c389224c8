//! Compacts both logs, after all their records are made.
ghost use Rattle.std.specs.Prelude.{◌≡◌, false, List, None, IfOk};
ghost use Rattle.std.specs.List.{AllByRecursion};
ghost use Rattle.core_state.specs.record_spec.Store.{IsStoreRecord};
ghost use Rattle.core_state.specs.record_spec.declared.queue.QueueRecord.{QueueRecord};
ghost use Rattle.core_state.specs.compact_laws.checkpoint_spec.Lists.{list_of};
ghost use Rattle.core_state.specs.compact_laws.Lawful.{IsLawfulTable};
ghost use Rattle.core_state.specs.compact_laws.Records.{records_of};
ghost use Rattle.core_state.specs.queue_log.Queued.{QueueIsUp};
ghost use Rattle.core_state.specs.Seen.{down_of, CoreIsSound};
ghost use Rattle.core_state.specs.Spelling.{HasSpelling};
ghost use Rattle.core_compact.specs.Call.{CoreCompacts};
ghost use Rattle.core_compact.specs.Anew.{AreFramesOf, QueueBeginsAnew, StoreBeginsAnew};
ghost use Rattle.core_compact.specs.Compacts.{queue_records, store_records};
ghost use Rattle.core_compact.specs.Does.{of_store, of_queue, DoesCompact};

use crate::answers::Compacted;
use crate::queue::queue_frames;
use crate::store::store_records;
use core_state::{CoreState, Frames, Keeper, Kept, QueueLog, StoreRecords, Tables};
use fleet_ports::Disk;
use std::alloc::{AllocError, Global};

// ---- one log

/// Compacts the queue's log to these frames.
fn queue_anew<D: Disk + Drop>(queue: &mut QueueLog<D>, frames: &Frames) -> Kept
    requires up { QueueIsUp D.seen D.may_leave queue.old }
    ensures anew { (records : List QueueRecord) → AreFramesOf frames.now records
        → QueueBeginsAnew D.Disk result queue.old queue.new records }
{
    queue.checkpoint(frames)
}

/// Compacts the store's log to these records.
fn store_anew<K: Keeper + Drop>(store: &mut K, alloc: Global, records: &StoreRecords) -> Kept
    requires up { K.is_up store.old }
    requires fits { AllByRecursion IsStoreRecord records.now }
    ensures anew { StoreBeginsAnew K.Keeper result store.old store.new records.now }
{
    store.checkpoint(alloc, records)
}

// ---- both logs

/// The answer if the store's log wasn't compacted.
fn store_answer(said: Kept) -> Compacted
    ensures { result ≡ of_store said }
{
    match said {
        Kept::Ok => Compacted::Ok,
        Kept::Failed => Compacted::StoreFault,
        Kept::Down => Compacted::StoreFault,
        Kept::Memory => Compacted::Memory,
        Kept::Spent => Compacted::Spent,
    }
}

/// The answer by that of the queue's log, once the store's is compacted.
fn queue_answer(said: Kept) -> Compacted
    ensures { result ≡ of_queue said }
{
    match said {
        Kept::Ok => Compacted::Ok,
        Kept::Failed => Compacted::QueueFault,
        Kept::Down => Compacted::QueueFault,
        Kept::Memory => Compacted::Memory,
        Kept::Spent => Compacted::Spent,
    }
}

/// The records of the tables.
fn records_of_tables(alloc: Global, tables: &Tables) -> Result<StoreRecords, AllocError>
    requires { IsLawfulTable tables.now }
    ensures records { IfOk result (λ records. records ≡ records_of None (list_of tables.now)) }
    ensures fits { IfOk result (AllByRecursion IsStoreRecord) }
{
    let list = tables.snapshot()?;
    store_records(alloc, list)
}

/// Compacts both logs, the store's first.
fn both_anew<D: Disk + Drop, K: Keeper + Drop>(
    core: &mut CoreState<D, K>,
    records: &StoreRecords,
    frames: &Frames,
) -> Compacted
    requires sound { CoreIsSound D.Disk K.Keeper core.old }
    requires up { down_of K.down core.old ≡ false }
    requires records { records.now ≡ store_records core.old }
    requires fits { AllByRecursion IsStoreRecord records.now }
    requires frames { AreFramesOf frames.now (queue_records core.old) }
    ensures does { DoesCompact D.Disk K.Keeper result core.old core.new }
{
    let said = store_anew(&mut core.store, core.alloc, records);
    if said != Kept::Ok {
        return store_answer(said);
    }
    let came = queue_anew(&mut core.queue, frames);
    queue_answer(came)
}

/// Makes the records and the frames before anything is written, and then compacts both logs.
fn compact_step<D: Disk + Drop, K: Keeper + Drop>(core: &mut CoreState<D, K>) -> Compacted
    requires sound { CoreIsSound D.Disk K.Keeper core.old }
    requires spelling { HasSpelling core.old }
    ensures does { DoesCompact D.Disk K.Keeper result core.old core.new }
{
    if core.is_down() {
        return Compacted::Down;
    }
    let Ok(frames) = queue_frames(core.alloc, core.last, &core.pending, &core.discards) else {
        return Compacted::Memory;
    };
    let Ok(records) = records_of_tables(core.alloc, &core.tables) else {
        return Compacted::Memory;
    };
    both_anew(core, &records, &frames)
}

/// Rewrites both logs of the core as checkpoints of what it holds, the store's first. No event is added, and a claimed command
/// stays claimed.
pub fn compact<D: Disk + Drop, K: Keeper + Drop>(core: &mut CoreState<D, K>) -> Compacted
    requires sound { CoreIsSound D.Disk K.Keeper core.old }
    requires spelling { HasSpelling core.old }
    ensures does { CoreCompacts D.Disk K.Keeper result core.old core.new }
{
    compact_step(core)
}
