//! Initializes one pair, and then the other.
ghost use Rattle.std.specs.Prelude.{◌≡◌, ◌≢◌, ◌⊎◌, IsErr, IfErr, OnOk, Err};
ghost use Rattle.log_pair.specs.fleet_ports.Moments.{LeavesOnly};
ghost use Rattle.core_spec.specs.log_spec.Image.{closed};
ghost use Rattle.log_pair.specs.record_log.Log.{AllStand};
ghost use Rattle.log_pair.specs.record_log.Lay.{Fits, IsClosed, IsLaying};
ghost use Rattle.log_pair.specs.Lay.{laid_pair};
ghost use Rattle.log_pair.specs.Open.{PairCounts};
ghost use Rattle.log_pair.specs.Pair.{EachPair, IsPair};
ghost use Rattle.core_layout.specs.declared.laid.LayCoreFault.TheVariants.{QueueFault, StoreFault};
ghost use Rattle.core_layout.specs.Layout.{IsDiskFault, IsClosedOrLaid, IsSecondFirst};

use crate::laid::LayCoreFault;
use log_pair::fleet_ports::{Disk, Disks, Failed};
use log_pair::lay_pair;
use log_pair::record_log::{Frames, LayFault};

/// Initializes a pair with frames that fit.
fn lay_fitting<D: Disk + Drop>(a: &mut D, b: &mut D, frames: &Frames) -> Result<(), Failed>
    requires fits { Fits frames.now }
    ensures ok { OnOk result (EachPair (D.may_leave a.new) (D.may_leave b.new) (IsPair (laid_pair frames.now))) }
    ensures second { AllStand (D.may_leave b.old) closed → LeavesOnly D.moment D.left_since b.old b.new IsClosed }
    ensures first { LeavesOnly D.moment D.left_since a.old a.new (IsLaying (D.may_leave a.old) 1 frames.now) }
    ensures order { IsSecondFirst D.may_leave a.old a.new b.new }
    ensures cause { PairCounts (D.fault_count a.old) (D.fault_count a.new) (D.fault_count b.old) (D.fault_count b.new) (IsErr result) }
{
    match lay_pair(a, b, frames) {
        Ok(()) => Ok(()),
        Err(LayFault::DiskFault { .. }) => Err(Failed),
        Err(LayFault::TooLong) => unreachable!(),
    }
}

/// Initializes the store's pair, and then the queue's.
pub(crate) fn lay_pairs<D: Disk + Drop>(
    disks: &mut Disks<D>,
    queue: &Frames,
    store: &Frames,
) -> Result<(), LayCoreFault>
    requires queue { Fits queue.now }
    requires store { Fits store.now }
    ensures queue_ok { OnOk result (EachPair (D.may_leave disks.new.queue_a) (D.may_leave disks.new.queue_b) (IsPair (laid_pair queue.now))) }
    ensures store_ok { result ≢ Err StoreFault → EachPair (D.may_leave disks.new.store_a) (D.may_leave disks.new.store_b) (IsPair (laid_pair store.now)) }
    ensures store_first { ((disks.new.queue_a ≡ disks.old.queue_a) × (disks.new.queue_b ≡ disks.old.queue_b))
        ⊎ EachPair (D.may_leave disks.new.store_a) (D.may_leave disks.new.store_b) (IsPair (laid_pair store.now)) }
    ensures store_order { IsSecondFirst D.may_leave disks.old.store_a disks.new.store_a disks.new.store_b }
    ensures queue_order { IsSecondFirst D.may_leave disks.old.queue_a disks.new.queue_a disks.new.queue_b }
    ensures queue_b { AllStand (D.may_leave disks.old.queue_b) closed
        → LeavesOnly D.moment D.left_since disks.old.queue_b disks.new.queue_b IsClosed }
    ensures queue_a { AllStand (D.may_leave disks.old.queue_a) closed
        → LeavesOnly D.moment D.left_since disks.old.queue_a disks.new.queue_a
        (IsClosedOrLaid queue.now (EachPair (D.may_leave disks.new.store_a) (D.may_leave disks.new.store_b) (IsPair (laid_pair store.now)))) }
    ensures answers { IfErr result IsDiskFault }
    ensures store_fault { result ≡ Err StoreFault → (disks.new.queue_a ≡ disks.old.queue_a) × (disks.new.queue_b ≡ disks.old.queue_b) }
    ensures queue_cause { PairCounts (D.fault_count disks.old.queue_a) (D.fault_count disks.new.queue_a)
        (D.fault_count disks.old.queue_b) (D.fault_count disks.new.queue_b) (result ≡ Err QueueFault) }
    ensures store_cause { PairCounts (D.fault_count disks.old.store_a) (D.fault_count disks.new.store_a)
        (D.fault_count disks.old.store_b) (D.fault_count disks.new.store_b) (result ≡ Err StoreFault) }
{
    match lay_fitting(&mut disks.store_a, &mut disks.store_b, store) {
        Err(_) => Err(LayCoreFault::StoreFault),
        Ok(()) => match lay_fitting(&mut disks.queue_a, &mut disks.queue_b, queue) {
            Err(_) => Err(LayCoreFault::QueueFault),
            Ok(()) => Ok(()),
        },
    }
}
