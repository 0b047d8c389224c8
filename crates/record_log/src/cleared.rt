//! Clears the second file of a pair before the first one is laid.
ghost use Rattle.std.specs.Prelude.{◌≡◌, ◌≤◌, length, take, IsTrue, IsErr, OnOk};
ghost use Rattle.fleet_ports.specs.Counts.{Counts};
ghost use Rattle.fleet_ports.specs.Disks.{Cut, Follows, Only};
ghost use Rattle.fleet_ports.specs.Moments.{LeavesOnly};
ghost use Rattle.log_spec.specs.Image.{closed};
ghost use Rattle.record_log.specs.Log.{AllStand};
ghost use Rattle.record_log.specs.Lay.{IsClosed, CutFrom};

use crate::reads::{flush, measure};
use fleet_ports::{Disk, Failed};

/// Cuts a file of more than one byte to its first byte.
fn shorten<D: Disk + Drop>(disk: &mut D) -> Result<(), Failed>
    ensures short { OnOk result (IsTrue D.is_told → length (D.seen disk.new) ≤ 1) }
    ensures bytes { OnOk result (IsTrue D.is_told → D.seen disk.new ≡ take 1 (D.seen disk.old)) }
    ensures images { Follows (Cut 1) (D.may_leave disk.old) (D.may_leave disk.new) }
    ensures any_moment { LeavesOnly D.moment D.left_since disk.old disk.new (CutFrom (D.may_leave disk.old)) }
    ensures cause { Counts (D.fault_count disk.old) (D.fault_count disk.new) (IsErr result) }
{
    let len = measure(disk)?;
    if len <= 1 {
        return Ok(());
    }
    disk.cut(1)?;
    Ok(())
}

/// The same, and syncs the file whether it was cut or not.
fn shorten_synced<D: Disk + Drop>(disk: &mut D) -> Result<(), Failed>
    ensures cleared { OnOk result (AllStand (D.may_leave disk.new) closed) }
    ensures bytes { OnOk result (Only (take 1 (D.seen disk.old)) (D.may_leave disk.new)) }
    ensures images { Follows (Cut 1) (D.may_leave disk.old) (D.may_leave disk.new) }
    ensures any_moment { LeavesOnly D.moment D.left_since disk.old disk.new (CutFrom (D.may_leave disk.old)) }
    ensures cause { Counts (D.fault_count disk.old) (D.fault_count disk.new) (IsErr result) }
{
    shorten(disk)?;
    flush(disk)?;
    Ok(())
}

/// Cuts a file to its first byte, without writing that byte, and syncs it. An empty file stays empty. It allocates nothing. A
/// closed file stays closed at every moment.
pub fn clear<D: Disk + Drop>(disk: &mut D) -> Result<(), Failed>
    ensures cleared { OnOk result (AllStand (D.may_leave disk.new) closed) }
    ensures bytes { OnOk result (Only (take 1 (D.seen disk.old)) (D.may_leave disk.new)) }
    ensures any_moment { LeavesOnly D.moment D.left_since disk.old disk.new (CutFrom (D.may_leave disk.old)) }
    ensures stays_closed { AllStand (D.may_leave disk.old) closed → LeavesOnly D.moment D.left_since disk.old disk.new IsClosed }
    ensures closed { AllStand (D.may_leave disk.old) closed → AllStand (D.may_leave disk.new) closed }
    ensures cause { Counts (D.fault_count disk.old) (D.fault_count disk.new) (IsErr result) }
{
    shorten_synced(disk)
}
