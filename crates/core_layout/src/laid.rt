//! Initializes all four files.
ghost use Rattle.std.specs.Prelude.{◌≡◌, ◌≢◌, ◌⊎◌, ◌↔◌, [], map, IsTrue, IfOk, IfErr, OnOk, Err};
ghost use Rattle.log_pair.specs.fleet_ports.Moments.{LeavesOnly};
ghost use Rattle.core_spec.specs.log_spec.Image.{closed};
ghost use Rattle.log_pair.specs.record_log.Log.{AllStand};
ghost use Rattle.log_pair.specs.record_log.Lay.{IsClosed};
ghost use Rattle.log_pair.specs.Open.{PairCounts};
ghost use Rattle.queue_records.specs.record_spec.Queue.{queue_text};
ghost use Rattle.queue_records.specs.record_spec.Store.{store_text};
ghost use Rattle.core_spec.specs.Files.{FilesStand};
ghost use Rattle.core_layout.specs.Records.{first_queued, first_kept};
ghost use Rattle.core_layout.specs.Layout.{EachImage, LaysInOrder, LaysInTurn, IsSecondFirst, AreUnlaid, IsUnlaidOrEmpty, IsAllLaid, StoreIsLaid, AreOpen};
ghost use Rattle.core_layout.specs.Layout.{QueueIsUntouched, AllAreUntouched, IsDiskFault, IsClosedOrLaid};
ghost use Rattle.core_layout.specs.declared.laid.LayCoreFault.TheVariants.{QueueFault, StoreFault, AlreadyLaid, Memory};

use crate::first::{queue_frames, store_frames};
use crate::opened::either_is_open;
use crate::pairs::lay_pairs;
use log_pair::fleet_ports::{Disk, Disks};
use log_pair::record_log::Frames;
use queue_records::fleet_rows::Ttls;
use std::alloc::{AllocError, Global};
use thiserror::Error;

/// Why the files weren't initialized.
#[derive(Clone, Copy, PartialEq, Eq, Debug, Drop, Error)]
pub enum LayCoreFault {
    /// A disk of the queue counted a fault.
    #[error("queue fault")]
    QueueFault,
    /// A disk of the store counted a fault.
    #[error("store fault")]
    StoreFault,
    /// A file of the queue is open, and so is one of the store. Nothing was written.
    #[error("already laid")]
    AlreadyLaid,
    /// There was no memory. Nothing was written.
    #[error("out of memory")]
    Memory,
}

/// Initializes the four files, so that they stand for the empty history with these lifetimes. It writes the store's files, then
/// the queue's, and of each log the second file before the first. If a file of each log is open already, it writes nothing.
///
/// After a fault it can be called again on the same disks, or on those that a crash left.
pub fn lay_core<D: Disk + Drop>(
    alloc: Global,
    disks: &mut Disks<D>,
    ttls: Ttls,
) -> Result<(), LayCoreFault>
    ensures ok { OnOk result (EachImage D.may_leave disks.new (FilesStand ttls [])) }
    // The first file of each log counts, with generation 1.
    ensures laid { OnOk result (EachImage D.may_leave disks.new (IsAllLaid ttls)) }

    // If no file of the queue was open: at each moment none is, or the files stand for the empty history.
    ensures any_moment { AreUnlaid D.may_leave disks.old
        → LaysInOrder D.Disk disks.old disks.new (IsUnlaidOrEmpty ttls) }
    ensures in_turn { LaysInTurn D.Disk ttls disks.old disks.new }

    ensures already { IsTrue D.is_told → result ≡ Err AlreadyLaid → AreOpen D.seen disks.old }
    ensures laid_before { IsTrue D.is_told → AreOpen D.seen disks.old
        → (result ≡ Err AlreadyLaid) ⊎ (result ≡ Err QueueFault) ⊎ (result ≡ Err StoreFault) }

    // What each refusal leaves.
    ensures untouched { (result ≡ Err AlreadyLaid) ⊎ (result ≡ Err Memory)
        → AllAreUntouched D.Disk disks.old disks.new }
    ensures store_fault { result ≡ Err StoreFault
        → QueueIsUntouched D.Disk disks.old disks.new }
    ensures queue_fault { result ≡ Err QueueFault
        → AllAreUntouched D.Disk disks.old disks.new ⊎ StoreIsLaid D.may_leave ttls disks.new }

    ensures queue_cause { PairCounts (D.fault_count disks.old.queue_a) (D.fault_count disks.new.queue_a)
        (D.fault_count disks.old.queue_b) (D.fault_count disks.new.queue_b) (result ≡ Err QueueFault) }
    ensures store_cause { PairCounts (D.fault_count disks.old.store_a) (D.fault_count disks.new.store_a)
        (D.fault_count disks.old.store_b) (D.fault_count disks.new.store_b) (result ≡ Err StoreFault) }
{
    match is_laid(disks) {
        Err(fault) => Err(fault),
        Ok(true) => Err(LayCoreFault::AlreadyLaid),
        Ok(false) => lay_anew(alloc, disks, &ttls),
    }
}

// Whether a file of the queue is open, and also one of the store.
fn is_laid<D: Disk + Drop>(disks: &mut Disks<D>) -> Result<bool, LayCoreFault>
    ensures told { IfOk result (λ laid. IsTrue D.is_told → IsTrue laid ↔ AreOpen D.seen disks.old) }
    ensures untouched { AllAreUntouched D.Disk disks.old disks.new }
    ensures answers { IfErr result IsDiskFault }
    ensures queue_cause { PairCounts (D.fault_count disks.old.queue_a) (D.fault_count disks.new.queue_a)
        (D.fault_count disks.old.queue_b) (D.fault_count disks.new.queue_b) (result ≡ Err QueueFault) }
    ensures store_cause { PairCounts (D.fault_count disks.old.store_a) (D.fault_count disks.new.store_a)
        (D.fault_count disks.old.store_b) (D.fault_count disks.new.store_b) (result ≡ Err StoreFault) }
{
    match either_is_open(&mut disks.queue_a, &mut disks.queue_b) {
        Err(_) => Err(LayCoreFault::QueueFault),
        Ok(false) => Ok(false),
        Ok(true) => match either_is_open(&mut disks.store_a, &mut disks.store_b) {
            Err(_) => Err(LayCoreFault::StoreFault),
            Ok(laid) => Ok(laid),
        },
    }
}

// The first frames of both logs.
fn first_frames(alloc: Global, ttls: &Ttls) -> Result<(Frames, Frames), AllocError>
    ensures { IfOk result (λ frames. (frames.0 ≡ map queue_text first_queued) × (frames.1 ≡ map store_text (first_kept ttls.now))) }
{
    let queue = queue_frames(alloc)?;
    let store = store_frames(alloc, ttls)?;
    Ok((queue, store))
}

// Initializes the files, whatever they hold.
fn lay_anew<D: Disk + Drop>(
    alloc: Global,
    disks: &mut Disks<D>,
    ttls: &Ttls,
) -> Result<(), LayCoreFault>
    ensures laid { OnOk result (EachImage D.may_leave disks.new (IsAllLaid ttls.now)) }
    ensures store_order { IsSecondFirst D.may_leave disks.old.store_a disks.new.store_a disks.new.store_b }
    ensures store_first { ((disks.new.queue_a ≡ disks.old.queue_a) × (disks.new.queue_b ≡ disks.old.queue_b))
        ⊎ StoreIsLaid D.may_leave ttls.now disks.new }
    ensures queue_order { IsSecondFirst D.may_leave disks.old.queue_a disks.new.queue_a disks.new.queue_b }
    ensures queue_b { AllStand (D.may_leave disks.old.queue_b) closed
        → LeavesOnly D.moment D.left_since disks.old.queue_b disks.new.queue_b IsClosed }
    ensures queue_a { AllStand (D.may_leave disks.old.queue_a) closed
        → LeavesOnly D.moment D.left_since disks.old.queue_a disks.new.queue_a
        (IsClosedOrLaid (map queue_text first_queued) (StoreIsLaid D.may_leave ttls.now disks.new)) }
    ensures answers { result ≢ Err AlreadyLaid }
    ensures memory { result ≡ Err Memory → disks.new ≡ disks.old }
    ensures store_fault { result ≡ Err StoreFault → (disks.new.queue_a ≡ disks.old.queue_a) × (disks.new.queue_b ≡ disks.old.queue_b) }
    ensures queue_fault { result ≡ Err QueueFault → StoreIsLaid D.may_leave ttls.now disks.new }
    ensures queue_cause { PairCounts (D.fault_count disks.old.queue_a) (D.fault_count disks.new.queue_a)
        (D.fault_count disks.old.queue_b) (D.fault_count disks.new.queue_b) (result ≡ Err QueueFault) }
    ensures store_cause { PairCounts (D.fault_count disks.old.store_a) (D.fault_count disks.new.store_a)
        (D.fault_count disks.old.store_b) (D.fault_count disks.new.store_b) (result ≡ Err StoreFault) }
{
    match first_frames(alloc, ttls) {
        Ok((queue, store)) => lay_pairs(disks, &queue, &store),
        Err(_) => Err(LayCoreFault::Memory),
    }
}
