//! Lays a file: makes a log file of given frames.
//!
//! The file gate is closed and synced before anything else is written, and opened last. Until then each image is an old one or a
//! closed file. A closed first byte is never overwritten. If the file gate is open in what a read gives, writing 0 may leave any
//! first byte in an image. If that byte isn't 1, the image is closed. If it is 1, the image existed before, since a read gives 1
//! there (the law `mixes` of `Disk`).
ghost use Rattle.std.specs.Prelude.{◌≡◌, ◌≢◌, ◌↔◌, ◌+◌, ◌^◌, ◌<◌, ◌≤◌, ℕ, List, [], ◌∷◌, ◌++◌, length, get_or, true, false, IsTrue, IsErr, OnOk, IfOk, Err};
ghost use Rattle.record_log.specs.declared.laid.LayFault.TheVariants.{DiskFault, TooLong};
ghost use Rattle.fleet_ports.specs.Counts.{Counts};
ghost use Rattle.fleet_ports.specs.Disks.{Only};
ghost use Rattle.fleet_ports.specs.Moments.{LeavesOnly};
ghost use Rattle.record_log.specs.Untouched.{IsUntouched};
ghost use Rattle.log_spec.specs.ImageOf.{block_text, frame_texts, rest_text, laid_image};
ghost use Rattle.record_log.specs.Log.{AllStand};
ghost use Rattle.record_log.specs.Lay.{Fits, IsTooLong, IsShut, AllShut, IsLaying, IsOldOrClosed, IsLayFault, AllLaid};

use crate::frames::Frames;
use crate::put::write_synced;
use crate::reads::{flush, measure, read_byte};
use fleet_ports::{Disk, Failed};
use json_tree::Bytes;
use log_spec::MOST_LOG;
use thiserror::Error;

const MAGIC: [u8; 7] = *b"PDBLOG1";

/// Whether the file has a first byte other than 1.
fn is_shut<D: Disk + Drop>(disk: &mut D) -> Result<bool, Failed>
    ensures told { IfOk result (λ shut. IsTrue D.is_told → IsTrue shut → (0 < length (D.seen disk.old)) × IsShut (D.seen disk.old)) }
    ensures opened { IfOk result (λ shut. IsTrue D.is_told → shut ≡ false → 0 < length (D.seen disk.old) → get_or (D.seen disk.old) 0 0 ≡ 1) }
    ensures untouched { IsUntouched D.Disk disk.old disk.new }
    ensures cause { Counts (D.fault_count disk.old) (D.fault_count disk.new) (IsErr result) }
{
    let len = measure(disk)?;
    if len == 0 {
        return Ok(false);
    }
    let first = read_byte(disk, 0)?;
    Ok(first != 1)
}

/// Closes the file.
fn shut<D: Disk + Drop>(disk: &mut D) -> Result<(), Failed>
    ensures closed { OnOk result (IsTrue D.is_told → (0 < length (D.seen disk.new)) × IsShut (D.seen disk.new)) }
    ensures durable { OnOk result (Only (D.seen disk.new) (D.may_leave disk.new)) }
    ensures images { (c : List ℕ) → D.may_leave disk.new c → IsOldOrClosed (D.may_leave disk.old) c }
    ensures any_moment { LeavesOnly D.moment D.left_since disk.old disk.new (IsOldOrClosed (D.may_leave disk.old)) }
    ensures cause { Counts (D.fault_count disk.old) (D.fault_count disk.new) (IsErr result) }
{
    if is_shut(disk)? {
        return flush(disk);
    }
    write_synced(disk, 0, &[0])
}

/// Appends bytes to a closed file.
fn add<D: Disk + Drop>(disk: &mut D, at: u64, bytes: &[u8]) -> Result<(), Failed>
    requires end { IsTrue D.is_told → at ≡ length (D.seen disk.old) }
    requires some { 1 ≤ at }
    ensures written { OnOk result (IsTrue D.is_told → D.seen disk.new ≡ D.seen disk.old ++ bytes.now) }
    ensures shut { AllShut (D.may_leave disk.old) → AllShut (D.may_leave disk.new) }
    ensures any_moment { AllShut (D.may_leave disk.old) → LeavesOnly D.moment D.left_since disk.old disk.new IsShut }
    ensures cause { Counts (D.fault_count disk.old) (D.fault_count disk.new) (IsErr result) }
{
    disk.write_at(at, bytes)
}

/// Cuts a closed file to its first byte.
fn cut_to_first<D: Disk + Drop>(disk: &mut D) -> Result<(), Failed>
    requires { IsTrue D.is_told → 0 < length (D.seen disk.old) }
    ensures cut { OnOk result (IsTrue D.is_told → D.seen disk.new ≡ get_or (D.seen disk.old) 0 0 ∷ []) }
    ensures shut { AllShut (D.may_leave disk.old) → AllShut (D.may_leave disk.new) }
    ensures any_moment { AllShut (D.may_leave disk.old) → LeavesOnly D.moment D.left_since disk.old disk.new IsShut }
    ensures cause { Counts (D.fault_count disk.old) (D.fault_count disk.new) (IsErr result) }
{
    disk.cut(1)
}

/// Appends a frame to a closed file.
fn add_frame<D: Disk + Drop>(disk: &mut D, at: u64, frame: &[u8]) -> Result<(), Failed>
    requires end { IsTrue D.is_told → at ≡ length (D.seen disk.old) }
    requires some { 1 ≤ at }
    requires room { at < 2 ^ 63 }
    requires small { length frame.now < 2 ^ 32 }
    ensures written { OnOk result (IsTrue D.is_told → D.seen disk.new ≡ D.seen disk.old ++ (1 ∷ block_text frame.now)) }
    ensures shut { AllShut (D.may_leave disk.old) → AllShut (D.may_leave disk.new) }
    ensures any_moment { AllShut (D.may_leave disk.old) → LeavesOnly D.moment D.left_since disk.old disk.new IsShut }
    ensures cause { Counts (D.fault_count disk.old) (D.fault_count disk.new) (IsErr result) }
{
    let [a, b, c, d] = (frame.len() as u32).to_le_bytes();
    add(disk, at, &[1, a, b, c, d])?;
    add(disk, at + 5, frame)
}

/// Whether a log of these frames can be laid.
fn fits(frames: &[Bytes]) -> bool
    ensures fits { IsTrue result → Fits frames.now }
    ensures too_long { result ≡ false → IsTooLong frames.now }
{
    let mut size = 17u64;
    'adding: for frame in frames {
        let n = frame.as_slice().len() as u64;
        if n > u64::from(u32::MAX) || size + 5 + n > MOST_LOG {
            return false;
        }
        size = size + 5 + n;
    }
    true
}

impl Frames {
    /// Whether a log of these frames can be laid: each has less than 2^32 bytes, and the file at most 2^62 bytes.
    pub fn fit(&self) -> bool
        ensures fits { IsTrue result → Fits self.now }
        ensures too_long { result ≡ false → IsTooLong self.now }
    {
        fits(self.as_slice())
    }
}

/// Appends the frames and a closed gate to a closed file.
fn add_frames<D: Disk + Drop>(disk: &mut D, at: u64, frames: &[Bytes]) -> Result<(), Failed>
    requires end { IsTrue D.is_told → at ≡ length (D.seen disk.old) }
    requires start { at ≡ 16 }
    requires fits { Fits frames.now }
    ensures written { OnOk result (IsTrue D.is_told → D.seen disk.new ≡ D.seen disk.old ++ frame_texts frames.now ++ 0 ∷ []) }
    ensures shut { AllShut (D.may_leave disk.old) → AllShut (D.may_leave disk.new) }
    ensures any_moment { AllShut (D.may_leave disk.old) → LeavesOnly D.moment D.left_since disk.old disk.new IsShut }
    ensures cause { Counts (D.fault_count disk.old) (D.fault_count disk.new) (IsErr result) }
{
    let mut end = at;
    'adding: for frame in frames {
        let bytes = frame.as_slice();
        add_frame(disk, end, bytes)?;
        end = end + 5 + bytes.len() as u64;
    }
    add(disk, end, &[0])
}

/// Writes everything but the first byte.
fn lay_rest<D: Disk + Drop>(disk: &mut D, generation: u64, frames: &[Bytes]) -> Result<(), Failed>
    requires some { IsTrue D.is_told → 0 < length (D.seen disk.old) }
    requires fits { Fits frames.now }
    ensures written { OnOk result (IsTrue D.is_told → D.seen disk.new ≡ get_or (D.seen disk.old) 0 0 ∷ rest_text generation frames.now) }
    ensures shut { AllShut (D.may_leave disk.old) → AllShut (D.may_leave disk.new) }
    ensures any_moment { AllShut (D.may_leave disk.old) → LeavesOnly D.moment D.left_since disk.old disk.new IsShut }
    ensures cause { Counts (D.fault_count disk.old) (D.fault_count disk.new) (IsErr result) }
{
    cut_to_first(disk)?;
    add(disk, 1, &MAGIC)?;
    add(disk, 8, &generation.to_le_bytes())?;
    add_frames(disk, 16, frames)
}

/// Makes the file, except for its open first byte.
fn prepare<D: Disk + Drop>(disk: &mut D, generation: u64, frames: &[Bytes]) -> Result<(), Failed>
    requires fits { Fits frames.now }
    ensures written { OnOk result (IsTrue D.is_told → (first : ℕ) × (first ≢ 1) × (D.seen disk.new ≡ first ∷ rest_text generation frames.now)) }
    ensures durable { OnOk result (Only (D.seen disk.new) (D.may_leave disk.new)) }
    ensures images { (c : List ℕ) → D.may_leave disk.new c → IsOldOrClosed (D.may_leave disk.old) c }
    ensures any_moment { LeavesOnly D.moment D.left_since disk.old disk.new (IsOldOrClosed (D.may_leave disk.old)) }
    ensures cause { Counts (D.fault_count disk.old) (D.fault_count disk.new) (IsErr result) }
{
    shut(disk)?;
    lay_rest(disk, generation, frames)?;
    flush(disk)
}

/// Why a file couldn't be laid.
#[derive(Clone, Copy, Debug, Drop, Error)]
pub enum LayFault {
    /// The disk counted a fault.
    #[error("disk fault")]
    DiskFault {
        /// Whether the write that opens the file had begun.
        opened: bool,
    },
    /// A frame has 2^32 bytes or more, or the file would exceed 2^62 bytes.
    #[error("too long")]
    TooLong,
}

/// Makes the file of these frames, and opens its gate last.
fn lay_frames<D: Disk + Drop>(
    disk: &mut D,
    generation: u64,
    frames: &[Bytes],
) -> Result<(), LayFault>
    ensures ok { OnOk result (AllStand (D.may_leave disk.new) (laid_image generation frames.now)) }
    ensures bytes { OnOk result (Only (1 ∷ rest_text generation frames.now) (D.may_leave disk.new)) }
    ensures fits { OnOk result (Fits frames.now) }
    ensures any_moment { LeavesOnly D.moment D.left_since disk.old disk.new (IsLaying (D.may_leave disk.old) generation frames.now) }
    ensures unopened { result ≡ Err (DiskFault false) → (c : List ℕ) → D.may_leave disk.new c → IsOldOrClosed (D.may_leave disk.old) c }
    ensures opened { result ≡ Err (DiskFault true) → AllLaid (D.may_leave disk.new) generation frames.now }
    ensures too_long { (result ≡ Err TooLong) ↔ IsTooLong frames.now }
    ensures untouched { result ≡ Err TooLong → disk.new ≡ disk.old }
    ensures may_fit { (result ≡ Err TooLong → ⊥) → Fits frames.now }
    ensures cause { Counts (D.fault_count disk.old) (D.fault_count disk.new) (IsLayFault result) }
{
    if !fits(frames) {
        return Err(LayFault::TooLong);
    }
    match prepare(disk, generation, frames) {
        Err(_) => Err(LayFault::DiskFault { opened: false }),
        Ok(()) => match write_synced(disk, 0, &[1]) {
            Ok(()) => Ok(()),
            Err(_) => Err(LayFault::DiskFault { opened: true }),
        },
    }
}

/// Makes the file of these frames, and opens its gate last. It allocates nothing. An open file is closed first, and stays closed
/// while the new one is made. At the end, nothing of an older file remains after the closed gate.
pub fn lay<D: Disk + Drop>(disk: &mut D, generation: u64, frames: &Frames) -> Result<(), LayFault>
    ensures ok { OnOk result (AllStand (D.may_leave disk.new) (laid_image generation frames.now)) }
    ensures bytes { OnOk result (Only (1 ∷ rest_text generation frames.now) (D.may_leave disk.new)) }
    ensures fits { OnOk result (Fits frames.now) }
    ensures any_moment { LeavesOnly D.moment D.left_since disk.old disk.new (IsLaying (D.may_leave disk.old) generation frames.now) }
    ensures unopened { result ≡ Err (DiskFault false) → (c : List ℕ) → D.may_leave disk.new c → IsOldOrClosed (D.may_leave disk.old) c }
    ensures opened { result ≡ Err (DiskFault true) → AllLaid (D.may_leave disk.new) generation frames.now }
    ensures too_long { (result ≡ Err TooLong) ↔ IsTooLong frames.now }
    ensures untouched { result ≡ Err TooLong → disk.new ≡ disk.old }
    ensures may_fit { (result ≡ Err TooLong → ⊥) → Fits frames.now }
    ensures cause { Counts (D.fault_count disk.old) (D.fault_count disk.new) (IsLayFault result) }
{
    lay_frames(disk, generation, frames.as_slice())
}
