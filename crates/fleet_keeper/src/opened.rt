//! Opens a keeper over two disks.
ghost use Rattle.std.specs.Prelude.{◌≡◌, ℕ, List, map, Option, Some, IsTrue, IfOk, IfErr};
ghost use Rattle.std.specs.List.{AllByRecursion};
ghost use Rattle.log_pair.specs.record_log.Untouched.{IsUntouched};
ghost use Rattle.log_pair.specs.log_spec.ImageOf.{image_of};
ghost use Rattle.log_pair.specs.log_spec.PairImage.{pair_image};
ghost use Rattle.log_pair.specs.log_spec.declared.side.Side.{Side};
ghost use Rattle.log_pair.specs.declared.opened.PairFault.TheVariants.{Damaged};
ghost use Rattle.log_pair.specs.Pair.{EachPair, PairStands, IsGood};
ghost use Rattle.log_pair.specs.Open.{PairCounts};
ghost use Rattle.core_spec.specs.record_spec.Store.{store_text, IsStoreRecord};
ghost use Rattle.store_records.specs.Reading.{store_at};
ghost use Rattle.fleet_keeper.specs.Keeper.{pair_of, faults_of, opened_of, IsWithin};
ghost use Rattle.fleet_keeper.specs.Records.{AllAre};
ghost use Rattle.fleet_keeper.specs.Pairs.{pair_records, PairImages};
ghost use Rattle.core_spec.specs.Damage.{IsStoreLog};
ghost use Rattle.fleet_keeper.specs.Opened.{MatchKeeper, IsDamageOf, IsOpenFault, first_disk, second_disk};

use crate::frames::{Unread, read_frames};
use crate::log_keeper::LogKeeper;
use crate::records::StoreRecords;
use log_pair::{PairFault, open_pair};
use port_memory::fleet_ports::Disk;
use std::alloc::Global;

/// Opens a keeper over two disks, and answers the records of their files. Each file that is read is synced first, so a crash
/// leaves what was read. A frame that is no record, or that may not stand there, is damage at the offset of its gate. Every error
/// hands the disks back.
pub fn open_keeper<D: Disk + Drop>(
    alloc: Global,
    a: D,
    b: D,
) -> Result<(LogKeeper<D>, StoreRecords), (PairFault, D, D)>
    ensures told { IsTrue D.is_told → MatchKeeper result (pair_image (image_of (D.seen a)) (image_of (D.seen b))) }
    ensures up { IfOk result (λ r. IsGood D.seen D.may_leave (pair_of r.0)) }
    ensures log { IfOk result (λ r. IsStoreLog r.1) }
    ensures lawful { IfOk result (λ r. AllByRecursion IsStoreRecord r.1) }
    ensures spelt { IfOk result (λ r. PairStands D.may_leave (pair_of r.0) (map store_text r.1)) }
    ensures kept { IfOk result (λ r. IsTrue D.is_told → pair_records store_at D.seen (pair_of r.0) ≡ Some r.1) }
    ensures stands { IfOk result (λ r. AllAre (PairImages store_at D.may_leave (pair_of r.0)) (Some r.1)) }
    ensures damaged { IfErr result (λ e. (file : Side) (at : ℕ) → e.0 ≡ Damaged file at → EachPair (D.may_leave e.1) (D.may_leave e.2)
        (λ x y. IsDamageOf (pair_image (image_of x) (image_of y)) file at)) }
    ensures first { IsUntouched D.Disk a (first_disk result) }
    ensures second { IsUntouched D.Disk b (second_disk result) }
    ensures cause { PairCounts (D.fault_count a) (D.fault_count (first_disk result))
        (D.fault_count b) (D.fault_count (second_disk result)) (IsOpenFault result) }
    ensures opened { IfOk result (λ r. (faults_of r.0 ≡ 0) × (opened_of r.0 ≡ (D.fault_count a, D.fault_count b))) }
    ensures within { IfOk result (λ r. IsWithin D.fault_count r.0 (0, D.fault_count a, D.fault_count b)) }
{
    let opened_a = a.faults();
    let opened_b = b.faults();
    let (pair, frames) = match open_pair(alloc, a, b) {
        Ok(opened) => opened,
        Err((fault, a, b)) => return Err((fault, a, b)),
    };
    match read_frames(alloc, frames.into_vec()) {
        Ok(records) => {
            let keeper = LogKeeper {
                pair,
                faults: 0,
                opened_a,
                opened_b,
            };
            Ok((keeper, records))
        }
        Err(Unread::Damaged(at)) => {
            let file = pair.side();
            let (a, b) = pair.into_disks();
            Err((PairFault::Damaged { file, at }, a, b))
        }
        Err(Unread::Memory) => {
            let (a, b) = pair.into_disks();
            Err((PairFault::Memory, a, b))
        }
    }
}
