//! The steps that put a frame on a disk: write its block after the closed gate, open the gate, and repair a failure.
//!
//! A block is the frame's length, its bytes and a closed gate. It is written after the closed gate that ends the frames, where
//! bytes don't matter, and synced. Then the gate is opened and synced. So in each image at each moment, the gate is closed, or
//! open before a block that every image has. If writing or syncing the gate fails, an image may have the gate open or closed, and
//! the repair closes it again.
ghost use Rattle.std.specs.Prelude.{◌≡◌, ◌+◌, ◌^◌, ◌<◌, ◌≤◌, ℕ, List, [], ◌∷◌, ◌++◌, length, IsTrue, IsErr, OnOk};
ghost use Rattle.fleet_ports.specs.Counts.{Counts, RoseBy};
ghost use Rattle.fleet_ports.specs.Disks.{overlaid, Torn, Follows, Only};
ghost use Rattle.fleet_ports.specs.Moments.{LeavesOnly};
ghost use Rattle.log_spec.specs.Image.{standing};
ghost use Rattle.log_spec.specs.ImageOf.{block_text};
ghost use Rattle.record_log.specs.Log.{AllStand, TornFrom, IsOldOrNew, AfterPut, IsFaulty};

use fleet_ports::{Disk, Failed};
use std::alloc::Global;

/// The result of appending a frame.
#[derive(Clone, Copy, Debug, PartialEq, Eq)]
pub enum Appended {
    /// In every image, the frames are the old ones and this one.
    Ok,
    /// The disk counted a fault. In every image, the frames are the old ones.
    Failed,
    /// The disk counted a fault, and another in the repair. An image has the old frames, or those and this one. The log is down.
    Down,
    /// Memory ran out. The disk wasn't called.
    Memory,
    /// The frame has 2^32 bytes or more, or the file would exceed 2^62 bytes. The disk wasn't called.
    TooLong,
}

/// Writes bytes and syncs them.
pub(crate) fn write_synced<D: Disk + Drop>(
    disk: &mut D,
    at: u64,
    bytes: &[u8],
) -> Result<(), Failed>
    requires { IsTrue D.is_told → at ≤ length (D.seen disk.old) }
    ensures written { OnOk result (IsTrue D.is_told → D.seen disk.new ≡ overlaid (D.seen disk.old) at bytes.now) }
    ensures durable { OnOk result (Only (D.seen disk.new) (D.may_leave disk.new)) }
    ensures images { Follows (Torn at (length bytes.now)) (D.may_leave disk.old) (D.may_leave disk.new) }
    ensures any_moment { LeavesOnly D.moment D.left_since disk.old disk.new (TornFrom (D.may_leave disk.old) at (length bytes.now)) }
    ensures cause { Counts (D.fault_count disk.old) (D.fault_count disk.new) (IsErr result) }
{
    disk.write_at(at, bytes)?;
    disk.sync()
}

/// Writes a frame's block, which ends with a closed gate, after the closed gate, and opens that gate. It repairs a failure.
pub(crate) fn put_block<D: Disk + Drop>(disk: &mut D, gate: u64, block: &[u8]) -> Appended
    requires told { IsTrue D.is_told → gate < length (D.seen disk.old) }
    requires room { gate < 2 ^ 63 }

    ensures any_moment { (generation : ℕ) (frames : List (List ℕ)) (frame : List ℕ) → AllStand (D.may_leave disk.old) (standing generation frames gate)
        → block.now ≡ block_text frame ++ 0 ∷ [] → length frame < 2 ^ 32
        → LeavesOnly D.moment D.left_since disk.old disk.new (IsOldOrNew generation frames gate frame) }

    ensures after { (generation : ℕ) (frames : List (List ℕ)) (frame : List ℕ) → AllStand (D.may_leave disk.old) (standing generation frames gate)
        → block.now ≡ block_text frame ++ 0 ∷ [] → length frame < 2 ^ 32
        → AfterPut result generation frames gate frame (D.may_leave disk.new) }

    ensures cause { Counts (D.fault_count disk.old) (D.fault_count disk.new) (IsFaulty result) }
    ensures not_long { result ≡ Appended.TooLong → ⊥ }
    ensures fed { result ≡ Appended.Memory → ⊥ }
    ensures down { result ≡ Appended.Down → RoseBy 2 (D.fault_count disk.old) (D.fault_count disk.new) }
{
    match write_synced(disk, gate + 1, block) {
        Err(_) => Appended::Failed,
        Ok(()) => match write_synced(disk, gate, &[1]) {
            Ok(()) => Appended::Ok,
            Err(_) => match write_synced(disk, gate, &[0]) {
                Ok(()) => Appended::Failed,
                Err(_) => Appended::Down,
            },
        },
    }
}

/// Fills a frame's block: its length, its bytes and a closed gate.
fn fill(block: &mut [u8], frame: &[u8])
    requires length { length block.old ≡ length frame.now + 5 }
    requires small { length frame.now < 2 ^ 32 }
    ensures { block.new ≡ block_text frame.now ++ 0 ∷ [] }
{
    let end = 4 + frame.len();
    block[..4].copy_from_slice(&(frame.len() as u32).to_le_bytes());
    block[4..end].copy_from_slice(frame);
    block[end] = 0;
}

/// Puts a frame, in a buffer of its block's length.
pub(crate) fn put_frame<D: Disk + Drop>(
    disk: &mut D,
    gate: u64,
    block: &mut [u8],
    frame: &[u8],
) -> Appended
    requires told { IsTrue D.is_told → gate < length (D.seen disk.old) }
    requires room { gate < 2 ^ 63 }
    requires length { length block.old ≡ length frame.now + 5 }
    requires small { length frame.now < 2 ^ 32 }

    ensures any_moment { (generation : ℕ) (frames : List (List ℕ)) → AllStand (D.may_leave disk.old) (standing generation frames gate)
        → LeavesOnly D.moment D.left_since disk.old disk.new (IsOldOrNew generation frames gate frame.now) }
    ensures after { (generation : ℕ) (frames : List (List ℕ)) → AllStand (D.may_leave disk.old) (standing generation frames gate)
        → AfterPut result generation frames gate frame.now (D.may_leave disk.new) }
    ensures cause { Counts (D.fault_count disk.old) (D.fault_count disk.new) (IsFaulty result) }
    ensures not_long { result ≡ Appended.TooLong → ⊥ }
    ensures fed { result ≡ Appended.Memory → ⊥ }
    ensures down { result ≡ Appended.Down → RoseBy 2 (D.fault_count disk.old) (D.fault_count disk.new) }
{
    fill(block, frame);
    put_block(disk, gate, block)
}

/// A frame of up to this many bytes needs no memory.
const SHORT: usize = 64;

/// Puts a frame.
pub(crate) fn put_any<D: Disk + Drop>(
    alloc: Global,
    disk: &mut D,
    gate: u64,
    frame: &[u8],
) -> Appended
    requires told { IsTrue D.is_told → gate < length (D.seen disk.old) }
    requires room { gate < 2 ^ 63 }
    requires small { length frame.now < 2 ^ 32 }

    ensures any_moment { (generation : ℕ) (frames : List (List ℕ)) → AllStand (D.may_leave disk.old) (standing generation frames gate)
        → LeavesOnly D.moment D.left_since disk.old disk.new (IsOldOrNew generation frames gate frame.now) }
    ensures after { (generation : ℕ) (frames : List (List ℕ)) → AllStand (D.may_leave disk.old) (standing generation frames gate)
        → AfterPut result generation frames gate frame.now (D.may_leave disk.new) }
    ensures not_long { result ≡ Appended.TooLong → ⊥ }
    ensures short { length frame.now ≤ 64 → result ≡ Appended.Memory → ⊥ }
    ensures untouched { result ≡ Appended.Memory → disk.new ≡ disk.old }
    ensures cause { Counts (D.fault_count disk.old) (D.fault_count disk.new) (IsFaulty result) }
    ensures down { result ≡ Appended.Down → RoseBy 2 (D.fault_count disk.old) (D.fault_count disk.new) }
{
    let size = frame.len() + 5;
    if frame.len() <= SHORT {
        let mut block = [0; SHORT + 5];
        put_frame(disk, gate, &mut block[..size], frame)
    } else {
        match vec![in alloc; 0; size] {
            Ok(mut block) => put_frame(disk, gate, &mut block, frame),
            Err(_) => Appended::Memory,
        }
    }
}
