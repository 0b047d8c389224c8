//! Opens each of the two logs, and replays its records.
ghost use Rattle.std.specs.Prelude.{◌≡◌, IsTrue, IfOk, IfErr};
ghost use Rattle.core_state.specs.record_log.Untouched.{IsUntouched};
ghost use Rattle.core_state.specs.log_spec.ImageOf.{image_of};
ghost use Rattle.core_state.specs.log_spec.PairImage.{pair_image};
ghost use Rattle.core_state.specs.log_pair.Open.{PairCounts};
ghost use Rattle.core_state.specs.core_spec.Damage.{IsQueueLog, IsStoreLog};
ghost use Rattle.core_state.specs.fleet_keeper.Keeper.{faults_of, opened_of, IsWithin};
ghost use Rattle.core_opening.specs.declared.faults.OpenCoreFault.TheVariants.{QueueFault, StoreFault};
ghost use Rattle.core_opening.specs.Filled.{IsFilled};
ghost use Rattle.core_opening.specs.Opened.{queue_name, QueueHolds, MatchWaiting, IsWaitingFault, queue_a_after, queue_b_after};
ghost use Rattle.core_opening.specs.Opened.{store_name, StoreHolds, MatchStore, IsFilledFault, store_a_after, store_b_after};
ghost use Rattle.core_opening.specs.Replayed.{IsReading};

use crate::faults::{FileName, OpenCoreFault};
use crate::fill::{Filled, fill};
use crate::reading::{Reading, UnreadQueue, read_frames};
use core_state::{LogKeeper, PairFault, QueueLog, Side, StoreRecords, open_keeper, open_queue};
use fleet_ports::Disk;
use std::alloc::Global;
use std::snapshot::Snapshot;

fn queue_file(side: Side) -> FileName
    ensures value { result ≡ queue_name side }
{
    match side {
        Side::A => FileName::QueueA,
        Side::B => FileName::QueueB,
    }
}

fn store_file(side: Side) -> FileName
    ensures value { result ≡ store_name side }
{
    match side {
        Side::A => FileName::StoreA,
        Side::B => FileName::StoreB,
    }
}

/// Opens the queue's log, and reads it.
pub(crate) fn open_waiting<D: Disk + Drop>(
    alloc: Global,
    a: D,
    b: D,
) -> Result<(QueueLog<D>, Reading), (OpenCoreFault, D, D)>
    ensures told { IsTrue D.is_told → MatchWaiting result (pair_image (image_of (D.seen a)) (image_of (D.seen b))) }
    ensures log { IfOk result (λ r. QueueHolds D.Disk r.0 r.1.found.value) }
    ensures reading { IfOk result (λ r. IsReading r.1 × IsQueueLog r.1.found.value) }
    ensures first { IsUntouched D.Disk a (queue_a_after result) }
    ensures second { IsUntouched D.Disk b (queue_b_after result) }
    ensures cause { PairCounts (D.fault_count a) (D.fault_count (queue_a_after result))
        (D.fault_count b) (D.fault_count (queue_b_after result)) (IsWaitingFault result) }
    ensures own { IfErr result (λ e. e.0 ≡ StoreFault → ⊥) }
{
    let (queue, frames) = match open_queue(alloc, a, b) {
        Ok(opened) => opened,
        Err((PairFault::Damaged { file, at }, a, b)) => {
            let file = queue_file(file);
            return Err((OpenCoreFault::Damaged { file, at }, a, b));
        }
        Err((PairFault::DiskFault, a, b)) => return Err((OpenCoreFault::QueueFault, a, b)),
        Err((PairFault::Memory, a, b)) => return Err((OpenCoreFault::Memory, a, b)),
    };
    match read_frames(alloc, frames.into_vec()) {
        Ok(reading) => Ok((queue, reading)),
        Err(UnreadQueue::Damaged(at)) => {
            let file = queue_file(queue.side());
            let (a, b) = queue.into_disks();
            Err((OpenCoreFault::Damaged { file, at }, a, b))
        }
        Err(UnreadQueue::Memory) => {
            let (a, b) = queue.into_disks();
            Err((OpenCoreFault::Memory, a, b))
        }
    }
}

/// The store's log, opened, and what its records lead to.
#[derive(Drop)]
pub(crate) struct OpenStore<D: Disk + Drop> {
    pub(crate) keeper: LogKeeper<D>,
    pub(crate) found: Snapshot<StoreRecords>,
    pub(crate) filled: Filled,
}

/// Opens the store's log, and fills the tables.
pub(crate) fn open_filled<D: Disk + Drop>(
    alloc: Global,
    a: D,
    b: D,
) -> Result<OpenStore<D>, (OpenCoreFault, D, D)>
    ensures told { IsTrue D.is_told → MatchStore result (pair_image (image_of (D.seen a)) (image_of (D.seen b))) }
    ensures log { IfOk result (λ r. StoreHolds D.Disk r.keeper r.found.value) }
    ensures filled { IfOk result (λ r. IsFilled r.filled r.found.value × IsStoreLog r.found.value) }
    ensures opened { IfOk result (λ r. (faults_of r.keeper ≡ 0) × (opened_of r.keeper ≡ (D.fault_count a, D.fault_count b))) }
    ensures within { IfOk result (λ r. IsWithin D.fault_count r.keeper (0, D.fault_count a, D.fault_count b)) }
    ensures first { IsUntouched D.Disk a (store_a_after result) }
    ensures second { IsUntouched D.Disk b (store_b_after result) }
    ensures cause { PairCounts (D.fault_count a) (D.fault_count (store_a_after result))
        (D.fault_count b) (D.fault_count (store_b_after result)) (IsFilledFault result) }
    ensures own { IfErr result (λ e. e.0 ≡ QueueFault → ⊥) }
{
    let (keeper, records) = match open_keeper(alloc, a, b) {
        Ok(opened) => opened,
        Err((PairFault::Damaged { file, at }, a, b)) => {
            let file = store_file(file);
            return Err((OpenCoreFault::Damaged { file, at }, a, b));
        }
        Err((PairFault::DiskFault, a, b)) => return Err((OpenCoreFault::StoreFault, a, b)),
        Err((PairFault::Memory, a, b)) => return Err((OpenCoreFault::Memory, a, b)),
    };
    let found = Snapshot::of(&records);
    match fill(alloc, records) {
        Ok(filled) => Ok(OpenStore {
            keeper,
            found,
            filled,
        }),
        Err(_) => {
            let (a, b) = keeper.into_disks();
            Err((OpenCoreFault::Memory, a, b))
        }
    }
}
