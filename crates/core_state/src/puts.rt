//! Writes records to the two logs.
ghost use Rattle.std.specs.Prelude.{◌≡◌, ◌≤◌, length};
ghost use Rattle.supersede_core.specs.record_spec.declared.queue.QueueRecord.{QueueRecord};
ghost use Rattle.supersede_core.specs.record_spec.Store.{IsStoreRecord};
ghost use Rattle.retry_discard.specs.core_spec.Damage.{IsQueueFrame};
ghost use Rattle.queue_log.specs.log_pair.Pair.{generation_of_pair};
ghost use Rattle.queue_log.specs.Queued.{queue_pair, queue_side, QueueIsUp};
ghost use Rattle.core_state.specs.Puts.{QueueHasPut, StoreHasKept};

use queue_log::QueueLog;
use queue_log::fleet_keeper::{Keeper, Kept, Spelt};
use queue_log::fleet_ports::Disk;
use std::alloc::Global;
use supersede_core::record_spec::StoreRecord;

/// Appends a record to the queue, by its spelling. A spelling of at most 64 bytes takes no memory.
pub fn put_record<D: Disk + Drop>(queue: &mut QueueLog<D>, alloc: Global, frame: &[u8]) -> Kept
    requires up { QueueIsUp D.seen D.may_leave queue.old }
    ensures put { (rec : QueueRecord) → IsQueueFrame frame.now rec
        → QueueHasPut D.Disk result queue.old queue.new rec }
    ensures side { queue_side queue.new ≡ queue_side queue.old }
    ensures generation { generation_of_pair (queue_pair queue.new) ≡ generation_of_pair (queue_pair queue.old) }
    ensures short { length frame.now ≤ 64 → result ≡ Kept.Memory → ⊥ }
{
    queue.put(alloc, frame)
}

/// Keeps a record in the store.
pub fn keep_record<K: Keeper + Drop>(store: &mut K, alloc: Global, rec: &StoreRecord) -> Kept
    requires up { K.is_up store.old }
    requires fits { IsStoreRecord rec.now }
    ensures kept { StoreHasKept K.Keeper result store.old store.new rec.now }
{
    store.keep(alloc, rec)
}

/// Keeps a record in the store that was spelt before.
pub fn keep_spelt<K: Keeper + Drop>(store: &mut K, alloc: Global, rec: &Spelt) -> Kept
    requires up { K.is_up store.old }
    ensures kept { StoreHasKept K.Keeper result store.old store.new rec.now }
{
    store.keep_spelt(alloc, rec)
}
