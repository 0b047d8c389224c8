//! The calls of a disk that change no byte and add no image.
ghost use Rattle.std.specs.Prelude.{◌≡◌, ◌+◌, ◌≤◌, length, take, drop, get_or, IsTrue, IsErr, OnOk, IfOk};
ghost use Rattle.fleet_ports.specs.Counts.{Counts};
ghost use Rattle.fleet_ports.specs.Disks.{Only};
ghost use Rattle.record_log.specs.Untouched.{IsUntouched};

use fleet_ports::{Disk, Failed};

/// The length in bytes.
pub(crate) fn measure<D: Disk + Drop>(disk: &mut D) -> Result<u64, Failed>
    ensures length { IfOk result (λ n. IsTrue D.is_told → n ≡ length (D.seen disk.old)) }
    ensures untouched { IsUntouched D.Disk disk.old disk.new }
    ensures cause { Counts (D.fault_count disk.old) (D.fault_count disk.new) (IsErr result) }
{
    disk.len()
}

/// Fills a slice with the bytes from an offset on.
pub(crate) fn fetch<D: Disk + Drop>(disk: &mut D, at: u64, into: &mut [u8]) -> Result<(), Failed>
    requires { IsTrue D.is_told → at + length into.old ≤ length (D.seen disk.old) }
    ensures bytes { OnOk result (IsTrue D.is_told → into.new ≡ take (length into.old) (drop at (D.seen disk.old))) }
    ensures untouched { IsUntouched D.Disk disk.old disk.new }
    ensures cause { Counts (D.fault_count disk.old) (D.fault_count disk.new) (IsErr result) }
{
    disk.read_at(at, into)
}

/// Syncs the disk.
pub(crate) fn flush<D: Disk + Drop>(disk: &mut D) -> Result<(), Failed>
    ensures durable { OnOk result (Only (D.seen disk.old) (D.may_leave disk.new)) }
    ensures untouched { IsUntouched D.Disk disk.old disk.new }
    ensures cause { Counts (D.fault_count disk.old) (D.fault_count disk.new) (IsErr result) }
{
    disk.sync()
}

/// The byte at an offset.
pub(crate) fn read_byte<D: Disk + Drop>(disk: &mut D, at: u64) -> Result<u8, Failed>
    requires { IsTrue D.is_told → at + 1 ≤ length (D.seen disk.old) }
    ensures byte { IfOk result (λ b. IsTrue D.is_told → b ≡ get_or (D.seen disk.old) at 0) }
    ensures untouched { IsUntouched D.Disk disk.old disk.new }
    ensures cause { Counts (D.fault_count disk.old) (D.fault_count disk.new) (IsErr result) }
{
    let mut byte = [0; 1];
    fetch(disk, at, &mut byte)?;
    Ok(byte[0])
}
