//! A piece of a file in memory, so that opening reads large pieces.
//!
//! A frame is read a few bytes at a time. Bytes in the window are copied. If more are needed than a window holds, they are read
//! straight into their destination; otherwise the window moves. Reading goes from the start of the file to its end, so no byte is
//! read twice.
ghost use Rattle.std.specs.Prelude.{◌≡◌, ◌+◌, ◌-◌, ◌≤◌, ◌++◌, ℕ, List, length, take, drop, min, IsTrue, IsErr, OnOk, IfOk};
ghost use Rattle.fleet_ports.specs.Counts.{Counts};
ghost use Rattle.record_log.specs.Untouched.{IsUntouched};
ghost use Rattle.record_log.specs.Window.{Shows};

use crate::reads::fetch;
use fleet_ports::{Disk, Failed};
use std::alloc::{AllocError, Global};

/// The size of a window in bytes, if the file is that long.
const PIECE: u64 = 1 << 16;

/// The bytes of a file from an offset on.
#[derive(Drop)]
pub(crate) struct Window {
    pub(crate) bytes: Vec<u8>,
    pub(crate) place: u64,
}

/// A window buffer for a file of this length.
pub(crate) fn blank(alloc: Global, len: u64) -> Result<Window, AllocError>
    ensures size { IfOk result (λ w. length w.bytes.items ≤ len) }
{
    let bytes = vec![in alloc; 0; PIECE.min(len) as usize]?;
    Ok(Window { bytes, place: 0 })
}

/// Moves the window to an offset, from which the file has `left` bytes.
pub(crate) fn refill<D: Disk + Drop>(
    window: &mut Window,
    disk: &mut D,
    at: u64,
    left: u64,
) -> Result<(), Failed>
    requires left { IsTrue D.is_told → at + left ≤ length (D.seen disk.old) }
    ensures shows { OnOk result (IsTrue D.is_told → Shows window.new (D.seen disk.old)) }
    ensures place { window.new.place ≡ at }
    ensures size { length window.new.bytes.items ≡ min left (length window.old.bytes.items) }
    ensures untouched { IsUntouched D.Disk disk.old disk.new }
    ensures cause { Counts (D.fault_count disk.old) (D.fault_count disk.new) (IsErr result) }
{
    let size = left.min(window.bytes.len() as u64) as usize;
    window.bytes.truncate(size);
    window.place = at;
    fetch(disk, at, &mut window.bytes)
}

/// Copies what the window has from an offset on, and returns the number of bytes.
fn copy(window: &Window, at: u64, into: &mut [u8]) -> usize
    ensures count { result ≤ length into.old }
    ensures bytes { (file : List ℕ) → Shows window.now file → into.new ≡ take result (drop at file) ++ drop result into.old }
    ensures all { window.now.place ≡ at → length into.old ≤ length window.now.bytes.items → result ≡ length into.old }
{
    let bytes = window.bytes.as_slice();
    if at < window.place || at - window.place >= bytes.len() as u64 {
        return 0;
    }
    let from = (at - window.place) as usize;
    let count = into.len().min(bytes.len() - from);
    into[..count].copy_from_slice(&bytes[from..from + count]);
    count
}

/// Fills a slice from an offset on, past the window's content.
fn fetch_rest<D: Disk + Drop>(
    window: &mut Window,
    disk: &mut D,
    at: u64,
    into: &mut [u8],
    len: u64,
) -> Result<(), Failed>
    requires length { IsTrue D.is_told → len ≡ length (D.seen disk.old) }
    requires inside { at + length into.old ≤ len }
    requires shows { IsTrue D.is_told → Shows window.old (D.seen disk.old) }
    ensures bytes { OnOk result (IsTrue D.is_told → into.new ≡ take (length into.old) (drop at (D.seen disk.old))) }
    ensures shows { OnOk result (IsTrue D.is_told → Shows window.new (D.seen disk.new)) }
    ensures untouched { IsUntouched D.Disk disk.old disk.new }
    ensures cause { Counts (D.fault_count disk.old) (D.fault_count disk.new) (IsErr result) }
{
    if into.len() >= window.bytes.len() {
        fetch(disk, at, into)?;
        return Ok(());
    }
    refill(window, disk, at, len - at)?;
    copy(window, at, into);
    Ok(())
}

/// Fills a slice from an offset on.
pub(crate) fn fetch_through<D: Disk + Drop>(
    window: &mut Window,
    disk: &mut D,
    at: u64,
    into: &mut [u8],
    len: u64,
) -> Result<(), Failed>
    requires length { IsTrue D.is_told → len ≡ length (D.seen disk.old) }
    requires inside { at + length into.old ≤ len }
    requires shows { IsTrue D.is_told → Shows window.old (D.seen disk.old) }
    ensures bytes { OnOk result (IsTrue D.is_told → into.new ≡ take (length into.old) (drop at (D.seen disk.old))) }
    ensures shows { OnOk result (IsTrue D.is_told → Shows window.new (D.seen disk.new)) }
    ensures untouched { IsUntouched D.Disk disk.old disk.new }
    ensures cause { Counts (D.fault_count disk.old) (D.fault_count disk.new) (IsErr result) }
{
    let had = copy(window, at, into);
    if had == into.len() {
        return Ok(());
    }
    fetch_rest(window, disk, at + had as u64, &mut into[had..], len)?;
    Ok(())
}
