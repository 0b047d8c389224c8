//! Opens a core's state, from both logs together.
ghost use Rattle.std.specs.Prelude.{◌≡◌, [], ◌∷◌, IfOk, IfErr, IsTrue};
ghost use Rattle.core_state.specs.fleet_rows.declared.settings.Ttls.{Ttls};
ghost use Rattle.core_state.specs.log_pair.Pair.{disk_a, disk_b};
ghost use Rattle.core_state.specs.core_spec.declared.event.Event.TheVariants.{Restart};
ghost use Rattle.core_state.specs.core_spec.Damage.{IsQueueLog, IsStoreLog};
ghost use Rattle.core_state.specs.core_spec.History.{History};
ghost use Rattle.core_state.specs.core_spec.Stands.{Stands};
ghost use Rattle.core_state.specs.fleet_keeper.Keeper.{pair_of};
ghost use Rattle.core_state.specs.queue_log.Queued.{queue_pair, queue_size};
ghost use Rattle.core_opening.specs.declared.faults.OpenCoreFault.TheVariants.{QueueFault};
ghost use Rattle.core_opening.specs.Call.{CoreOpens};
ghost use Rattle.core_opening.specs.Filled.{IsFilled};
ghost use Rattle.core_opening.specs.Opened.{found_queue, found_store, seen_queue, seen_store, QueueFaults, StoreFaults};
ghost use Rattle.core_opening.specs.Opened.{disks_in, disks_after, IsQueueFault, IsStoreFault, AllAreUntouched};
ghost use Rattle.core_opening.specs.Opened.{QueueHolds, StoreHolds, IsLacking, CoreIsReady, IsMadeOf, MatchGathered, as_core, IsAtStart, CoreIsOpened};
ghost use Rattle.core_opening.specs.Opened.{IsSameCore, fault_in, SameStore, QueueIsLater, WritesDone, WritesOnly, MatchMended};
ghost use Rattle.core_opening.specs.Replayed.{IsReading};

use crate::faults::OpenCoreFault;
use crate::greatest::greatest;
use crate::parts::{OpenStore, open_filled, open_waiting};
use crate::reading::Reading;
use core_spec::Event;
use core_state::{CoreState, Events, Found, Kept, LogKeeper, QueueLog, put_record};
use fleet_ports::{Disk, Disks};
use queue_records::done_bytes;
use std::alloc::{AllocError, Global};
use supersede_core::Pending;

/// The receipt that the store applied last, if it is still pending in the queue.
fn lacking(pending: &Pending, taken: Option<u64>) -> Option<u64>
    ensures { IsLacking taken pending.now result }
{
    let receipt = taken?;
    let waits = pending.entry(receipt).is_some();
    waits.then_some(receipt)
}

/// The four disks of the two logs.
fn disks_of<D: Disk + Drop>(queue: QueueLog<D>, keeper: LogKeeper<D>) -> Disks<D>
    ensures { result ≡ record {
      queue_a = disk_a (queue_pair queue);
      queue_b = disk_b (queue_pair queue);
      store_a = disk_a (pair_of keeper);
      store_b = disk_b (pair_of keeper);
    } }
{
    let (queue_a, queue_b) = queue.into_disks();
    let (store_a, store_b) = keeper.into_disks();
    Disks {
        queue_a,
        queue_b,
        store_a,
        store_b,
    }
}

/// The events of a new core: a restart.
fn restart(alloc: Global) -> Result<Events, AllocError>
    ensures { IfOk result (λ events. events.list ≡ Restart ∷ []) }
{
    let mut events = Events::new(alloc);
    events.reserve(1)?;
    events.note(Event::Restart);
    Ok(events)
}

/// The core of two logs and of what their records lead to, and the receipt whose Done is missing.
fn assemble<D: Disk + Drop>(
    alloc: Global,
    queue: QueueLog<D>,
    reading: Reading,
    store: OpenStore<D>,
    opened_a: u64,
    opened_b: u64,
) -> Result<(CoreState<D, LogKeeper<D>>, Option<u64>), Disks<D>>
    requires queue { QueueHolds D.Disk queue reading.found.value }
    requires reading { IsReading reading }
    requires queue_log { IsQueueLog reading.found.value }
    requires store { StoreHolds D.Disk store.keeper store.found.value }
    requires filled { IsFilled store.filled store.found.value }
    requires store_log { IsStoreLog store.found.value }
    ensures ready { IfOk result (λ r. CoreIsReady D.Disk r.0 r.1) }
    ensures same { IfOk result (λ r. IsMadeOf r.0 queue reading.found.value store.keeper store.found.value opened_a opened_b) }
    ensures back { IfErr result (λ disks. disks ≡ record {
      queue_a = disk_a (queue_pair queue);
      queue_b = disk_b (queue_pair queue);
      store_a = disk_a (pair_of store.keeper);
      store_b = disk_b (pair_of store.keeper);
    }) }
{
    let Ok(events) = restart(alloc) else {
        return Err(disks_of(queue, store.keeper));
    };
    let missing = lacking(&reading.pending, store.filled.taken);
    let last = greatest(&reading.pending, reading.last);
    let state = CoreState {
        alloc,
        queue,
        store: store.keeper,
        tables: store.filled.tables,
        pending: reading.pending,
        discards: reading.discards,
        events,
        last,
        undone: false,
        found: Found {
            queue: reading.found,
            store: store.found,
        },
        opened_a,
        opened_b,
    };
    Ok((state, missing))
}

/// Reads both logs. The queue may miss the Done of a receipt.
fn gather<D: Disk + Drop>(
    alloc: Global,
    disks: Disks<D>,
) -> Result<(CoreState<D, LogKeeper<D>>, Option<u64>), (OpenCoreFault, Disks<D>)>
    ensures told { IsTrue D.is_told → MatchGathered result (seen_queue D.Disk disks) (seen_store D.Disk disks) }
    ensures ready { IfOk result (λ r. CoreIsReady D.Disk r.0 r.1) }
    ensures start { IfOk result (λ r. IsAtStart D.fault_count disks r.0) }
    ensures untouched { AllAreUntouched D.Disk disks (disks_after (as_core result)) }
    ensures queue_cause { QueueFaults D.Disk disks (disks_after (as_core result)) (IsQueueFault (as_core result)) }
    ensures store_cause { StoreFaults D.Disk disks (disks_after (as_core result)) (IsStoreFault (as_core result)) }
{
    let Disks {
        queue_a,
        queue_b,
        store_a,
        store_b,
    } = disks;
    let opened_a = queue_a.faults();
    let opened_b = queue_b.faults();
    let (queue, reading) = match open_waiting(alloc, queue_a, queue_b) {
        Ok(opened) => opened,
        Err((fault, queue_a, queue_b)) => {
            return Err((
                fault,
                Disks {
                    queue_a,
                    queue_b,
                    store_a,
                    store_b,
                },
            ));
        }
    };
    let store = match open_filled(alloc, store_a, store_b) {
        Ok(opened) => opened,
        Err((fault, store_a, store_b)) => {
            let (queue_a, queue_b) = queue.into_disks();
            return Err((
                fault,
                Disks {
                    queue_a,
                    queue_b,
                    store_a,
                    store_b,
                },
            ));
        }
    };
    match assemble(alloc, queue, reading, store, opened_a, opened_b) {
        Ok(gathered) => Ok(gathered),
        Err(disks) => Err((OpenCoreFault::Memory, disks)),
    }
}

/// The error for a missing Done that couldn't be written.
fn fault_of(answer: Kept) -> Option<OpenCoreFault>
    ensures value { result ≡ fault_in answer }
{
    match answer {
        Kept::Ok => None,
        Kept::Failed => Some(OpenCoreFault::QueueFault),
        Kept::Down => Some(OpenCoreFault::QueueFault),
        Kept::Memory => Some(OpenCoreFault::Memory),
        Kept::Spent => Some(OpenCoreFault::Spent),
    }
}

/// Writes the Done that the queue misses.
fn mend<D: Disk + Drop>(
    state: CoreState<D, LogKeeper<D>>,
    missing: Option<u64>,
) -> Result<CoreState<D, LogKeeper<D>>, (OpenCoreFault, Disks<D>)>
    requires { CoreIsReady D.Disk state missing }
    ensures opened { IfOk result (CoreIsOpened D.Disk) }
    ensures same { IfOk result (IsSameCore state) }
    ensures writing { (ttls : Ttls) (history : History) → Stands ttls (found_queue state) (found_store state) history
        → WritesDone D.Disk ttls (disks_in state) (disks_after result) history }
    ensures later { QueueIsLater D.moment (disks_in state) (disks_after result) }
    ensures room { MatchMended result missing (queue_size state.queue) }
    ensures store { SameStore state (disks_after result) }
    ensures cause { QueueFaults D.Disk (disks_in state) (disks_after result) (IsQueueFault result) }
    ensures unwritten { IfErr result (λ e. (e.0 ≡ QueueFault → ⊥) → e.1 ≡ disks_in state) }
    ensures within { IsTrue D.is_told → WritesOnly D.Disk missing (found_queue state) (disks_in state) (disks_after result) }
{
    let mut state = state;
    let receipt = match missing {
        None => return Ok(state),
        Some(receipt) => receipt,
    };
    let answer = put_record(&mut state.queue, state.alloc, &done_bytes(receipt));
    match fault_of(answer) {
        None => {
            let _entry = state.pending.take(receipt);
            Ok(state)
        }
        Some(fault) => Err((fault, disks_of(state.queue, state.store))),
    }
}

/// Opens a core over the disks that an earlier one left, whatever image a crash left. It opens the queue's log first, then the
/// store's. If the Done of the last change is missing in the queue, it is written before the answer. Every error hands the disks
/// back.
pub fn open_state<D: Disk + Drop>(
    alloc: Global,
    disks: Disks<D>,
) -> Result<CoreState<D, LogKeeper<D>>, (OpenCoreFault, Disks<D>)>
    ensures does { CoreOpens D.Disk result disks }
{
    match gather(alloc, disks) {
        Err((fault, disks)) => Err((fault, disks)),
        Ok((state, missing)) => mend(state, missing),
    }
}
