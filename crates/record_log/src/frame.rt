//! Reads one frame of a file.
ghost use Rattle.std.specs.Prelude.{◌≡◌, ◌+◌, ◌<◌, ◌≤◌, ◌⊎◌, length, take, drop, get_or, IsTrue, IsErr, OnOk, IfOk, IfErr, IfSome};
ghost use Rattle.fleet_ports.specs.Counts.{Counts};
ghost use Rattle.record_log.specs.Untouched.{IsUntouched};
ghost use Rattle.log_spec.specs.ImageOf.{stated};
ghost use Rattle.record_log.specs.declared.open.OpenFault.TheVariants.{DiskFault, Memory};
ghost use Rattle.record_log.specs.Open.{MatchFrame, IsDiskFault};
ghost use Rattle.record_log.specs.Window.{Shows};

use crate::open::OpenFault;
use crate::window::{Window, fetch_through};
use fleet_ports::{Disk, Failed};
use json_tree::Bytes;
use std::alloc::Global;

/// The byte at an offset.
fn gate_at<D: Disk + Drop>(
    window: &mut Window,
    disk: &mut D,
    at: u64,
    len: u64,
) -> Result<u8, Failed>
    requires length { IsTrue D.is_told → len ≡ length (D.seen disk.old) }
    requires inside { at + 1 ≤ len }
    requires shows { IsTrue D.is_told → Shows window.old (D.seen disk.old) }
    ensures byte { IfOk result (λ b. IsTrue D.is_told → b ≡ get_or (D.seen disk.old) at 0) }
    ensures shows { OnOk result (IsTrue D.is_told → Shows window.new (D.seen disk.new)) }
    ensures untouched { IsUntouched D.Disk disk.old disk.new }
    ensures cause { Counts (D.fault_count disk.old) (D.fault_count disk.new) (IsErr result) }
{
    let mut byte = [0; 1];
    fetch_through(window, disk, at, &mut byte, len)?;
    Ok(byte[0])
}

/// The length that a frame states, read after its gate.
fn length_behind<D: Disk + Drop>(
    window: &mut Window,
    disk: &mut D,
    at: u64,
    len: u64,
) -> Result<u32, Failed>
    requires length { IsTrue D.is_told → len ≡ length (D.seen disk.old) }
    requires inside { at + 4 ≤ len }
    requires shows { IsTrue D.is_told → Shows window.old (D.seen disk.old) }
    ensures length { IfOk result (λ n. IsTrue D.is_told → n ≡ stated (drop at (D.seen disk.old))) }
    ensures shows { OnOk result (IsTrue D.is_told → Shows window.new (D.seen disk.new)) }
    ensures untouched { IsUntouched D.Disk disk.old disk.new }
    ensures cause { Counts (D.fault_count disk.old) (D.fault_count disk.new) (IsErr result) }
{
    let mut bytes = [0; 4];
    fetch_through(window, disk, at, &mut bytes, len)?;
    Ok(u32::from_le_bytes(bytes))
}

/// The next n bytes.
fn read_body<D: Disk + Drop>(
    alloc: Global,
    window: &mut Window,
    disk: &mut D,
    at: u64,
    n: u32,
    len: u64,
) -> Result<Bytes, OpenFault>
    requires length { IsTrue D.is_told → len ≡ length (D.seen disk.old) }
    requires inside { at + n ≤ len }
    requires shows { IsTrue D.is_told → Shows window.old (D.seen disk.old) }
    ensures bytes { IfOk result (λ body. IsTrue D.is_told → body ≡ take n (drop at (D.seen disk.old))) }
    ensures size { IfOk result (λ body. length body ≡ n) }
    ensures fault { IfErr result (λ e. (e ≡ DiskFault) ⊎ (e ≡ Memory)) }
    ensures shows { OnOk result (IsTrue D.is_told → Shows window.new (D.seen disk.new)) }
    ensures untouched { IsUntouched D.Disk disk.old disk.new }
    ensures cause { Counts (D.fault_count disk.old) (D.fault_count disk.new) (IsDiskFault result) }
{
    let mut body = match vec![in alloc; 0; n as usize] {
        Ok(body) => body,
        Err(_) => return Err(OpenFault::Memory),
    };
    match fetch_through(window, disk, at, &mut body, len) {
        Ok(()) => Ok(Bytes::from_vec(body)),
        Err(_) => Err(OpenFault::DiskFault),
    }
}

/// The frame at an offset below the length, or None if its gate is closed.
pub(crate) fn read_frame<D: Disk + Drop>(
    alloc: Global,
    window: &mut Window,
    disk: &mut D,
    at: u64,
    len: u64,
) -> Result<Option<Bytes>, OpenFault>
    requires length { IsTrue D.is_told → len ≡ length (D.seen disk.old) }
    requires inside { at < len }
    requires shows { IsTrue D.is_told → Shows window.old (D.seen disk.old) }
    ensures told { IsTrue D.is_told → MatchFrame result at (D.seen disk.old) }
    ensures within { IfOk result (λ frame. IfSome frame (λ f. at + 5 + length f < len)) }
    ensures shows { OnOk result (IsTrue D.is_told → Shows window.new (D.seen disk.new)) }
    ensures untouched { IsUntouched D.Disk disk.old disk.new }
    ensures cause { Counts (D.fault_count disk.old) (D.fault_count disk.new) (IsDiskFault result) }
{
    let Ok(gate) = gate_at(window, disk, at, len) else {
        return Err(OpenFault::DiskFault);
    };
    if gate != 1 {
        return Ok(None);
    }
    if len - at < 6 {
        return Err(OpenFault::Damaged { at });
    }
    let Ok(size) = length_behind(window, disk, at + 1, len) else {
        return Err(OpenFault::DiskFault);
    };
    if len - at - 5 <= u64::from(size) {
        return Err(OpenFault::Damaged { at });
    }
    let frame = read_body(alloc, window, disk, at + 5, size, len)?;
    Ok(Some(frame))
}
