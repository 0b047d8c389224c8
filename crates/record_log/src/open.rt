//! Opens a log: syncs its file, then reads it from its head to the first closed gate.
ghost use Rattle.std.specs.Prelude.{◌≡◌, ◌+◌, ◌^◌, ◌<◌, ◌≤◌, ◌⊎◌, ℕ, length, take, drop, IsTrue, IsErr, OnOk, IfOk, IfErr, MatchResult, bytes_eq, false};
ghost use Rattle.std.specs.Int.{w64, from_le_bytes};
ghost use Rattle.fleet_ports.specs.Counts.{Counts};
ghost use Rattle.fleet_ports.specs.Disks.{Only};
ghost use Rattle.record_log.specs.Untouched.{IsUntouched};
ghost use Rattle.log_spec.specs.Image.{magic, closed, damaged};
ghost use Rattle.log_spec.specs.ImageOf.{image_of};
ghost use Rattle.record_log.specs.declared.open.OpenFault.TheVariants.{Closed, Damaged, DiskFault, Memory};
ghost use Rattle.record_log.specs.Log.{disk_of, down_of, AllStand, StandsFor, log_frames};
ghost use Rattle.record_log.specs.Open.{MatchOpened, MatchLog, IsDiskFault};
ghost use Rattle.record_log.specs.Window.{Shows};

use crate::frame::read_frame;
use crate::frames::Frames;
use crate::log::{Gate, Log};
use crate::reads::{flush, measure};
use crate::window::{Window, blank, fetch_through, refill};
use fleet_ports::{Disk, Failed};
use std::alloc::{AllocError, Global};
use thiserror::Error;

/// Why a file couldn't be opened.
#[derive(Clone, Copy, Debug, Drop, Error)]
pub enum OpenFault {
    /// The file has fewer than 17 bytes, or its first byte isn't 1.
    #[error("closed")]
    Closed,
    /// The file is open, but lacks the magic (damaged at 1), or a frame is incomplete or has no gate after it.
    #[error("damaged at {at}")]
    Damaged {
        /// The offset of the damage.
        at: u64,
    },
    /// The disk counted a fault.
    #[error("disk fault")]
    DiskFault,
    /// Memory ran out.
    #[error("out of memory")]
    Memory,
}

impl From<AllocError> for OpenFault {
    ghost from_gives = { λ _ e. e ≡ Memory };

    fn from(_: AllocError) -> Self {
        OpenFault::Memory
    }
}

/// What was read.
#[derive(Drop)]
pub(crate) struct Opened {
    pub(crate) generation: u64,
    pub(crate) frames: Frames,
    /// The offset of the first closed gate.
    pub(crate) gate: u64,
}

const MAGIC: [u8; 7] = *b"PDBLOG1";

/// Whether a head has the magic.
fn is_magic(head: &[u8; 16]) -> bool
    ensures { result ≡ bytes_eq (take 7 (drop 1 head.now)) magic }
{
    head[1..8] == MAGIC[..]
}

/// The generation that a head states.
fn generation_of(head: &[u8; 16]) -> u64
    ensures { result ≡ from_le_bytes w64 (take 8 (drop 8 head.now)) }
{
    let mut bytes = [0; 8];
    bytes.copy_from_slice(&head[8..]);
    u64::from_le_bytes(bytes)
}

/// A window at the start of the file.
fn open_window<D: Disk + Drop>(alloc: Global, disk: &mut D, len: u64) -> Result<Window, OpenFault>
    requires length { IsTrue D.is_told → len ≡ length (D.seen disk.old) }
    ensures shows { IfOk result (λ w. IsTrue D.is_told → Shows w (D.seen disk.new)) }
    ensures fault { IfErr result (λ e. (e ≡ DiskFault) ⊎ (e ≡ Memory)) }
    ensures untouched { IsUntouched D.Disk disk.old disk.new }
    ensures cause { Counts (D.fault_count disk.old) (D.fault_count disk.new) (IsDiskFault result) }
{
    let mut window = match blank(alloc, len) {
        Ok(window) => window,
        Err(_) => return Err(OpenFault::Memory),
    };
    match refill(&mut window, disk, 0, len) {
        Ok(()) => Ok(window),
        Err(_) => Err(OpenFault::DiskFault),
    }
}

/// The head of a file of at least 16 bytes.
fn read_head<D: Disk + Drop>(
    window: &mut Window,
    disk: &mut D,
    len: u64,
) -> Result<[u8; 16], Failed>
    requires length { IsTrue D.is_told → len ≡ length (D.seen disk.old) }
    requires long { 16 ≤ len }
    requires shows { IsTrue D.is_told → Shows window.old (D.seen disk.old) }
    ensures bytes { IfOk result (λ head. IsTrue D.is_told → head ≡ take 16 (D.seen disk.old)) }
    ensures shows { OnOk result (IsTrue D.is_told → Shows window.new (D.seen disk.new)) }
    ensures untouched { IsUntouched D.Disk disk.old disk.new }
    ensures cause { Counts (D.fault_count disk.old) (D.fault_count disk.new) (IsErr result) }
{
    let mut head = [0; 16];
    fetch_through(window, disk, 0, &mut head, len)?;
    Ok(head)
}

/// Reads a file from its head to the first closed gate.
fn read_log<D: Disk + Drop>(alloc: Global, disk: &mut D) -> Result<Opened, OpenFault>
    ensures told { IsTrue D.is_told → MatchOpened result (image_of (D.seen disk.old)) }
    ensures small { IfOk result (λ it. it.gate + 1 < 2 ^ 64) }
    ensures durable { (IsDiskFault result → ⊥) → Only (D.seen disk.old) (D.may_leave disk.new) }
    ensures untouched { IsUntouched D.Disk disk.old disk.new }
    ensures cause { Counts (D.fault_count disk.old) (D.fault_count disk.new) (IsDiskFault result) }
{
    let Ok(()) = flush(disk) else {
        return Err(OpenFault::DiskFault);
    };
    let Ok(len) = measure(disk) else {
        return Err(OpenFault::DiskFault);
    };
    if len < 17 {
        return Err(OpenFault::Closed);
    }
    let mut window = open_window(alloc, disk, len)?;
    let Ok(head) = read_head(&mut window, disk, len) else {
        return Err(OpenFault::DiskFault);
    };
    if head[0] != 1 {
        return Err(OpenFault::Closed);
    }
    if !is_magic(&head) {
        return Err(OpenFault::Damaged { at: 1 });
    }
    let generation = generation_of(&head);
    let mut frames = Frames::new(alloc);
    let mut at = 16;
    'reading: while at < len {
        match read_frame(alloc, &mut window, disk, at, len) {
            Err(fault) => return Err(fault),
            Ok(None) => {
                return Ok(Opened {
                    generation,
                    frames,
                    gate: at,
                });
            }
            Ok(Some(frame)) => {
                at = at + 5 + frame.as_slice().len() as u64;
                frames.push(frame)?;
            }
        }
    }
    Err(OpenFault::Damaged { at })
}

/// Opens a log: gives the log of the disk and the frames in the file. It syncs first, so that a crash leaves what was read. An
/// error hands the disk back.
pub fn open_log<D: Disk + Drop>(alloc: Global, disk: D) -> Result<(Log<D>, Frames), (OpenFault, D)>
    ensures stands { IfOk result (λ r. StandsFor D.may_leave r.0 r.1) }
    ensures closed { IfErr result (λ e. e.0 ≡ Closed → AllStand (D.may_leave e.1) closed) }
    ensures damaged { IfErr result (λ e. (at : ℕ) → e.0 ≡ Damaged at → AllStand (D.may_leave e.1) (damaged at)) }
    ensures up { IfOk result (λ r. down_of r.0 ≡ false) }
    ensures again { IfOk result (λ r. StandsFor D.may_leave r.0 (log_frames D.seen r.0)) }
    ensures told { IsTrue D.is_told → MatchLog result (image_of (D.seen disk)) }
    ensures untouched { MatchResult result
        (λ r. IsUntouched D.Disk disk (disk_of r.0))
        (λ e. IsUntouched D.Disk disk e.1) }
    ensures cause { MatchResult result
        (λ r. D.fault_count (disk_of r.0) ≡ D.fault_count disk)
        (λ e. Counts (D.fault_count disk) (D.fault_count e.1) (e.0 ≡ DiskFault)) }
{
    let mut disk = disk;
    match read_log(alloc, &mut disk) {
        Ok(opened) => {
            let Opened {
                generation,
                frames,
                gate,
            } = opened;
            let log = Log {
                disk,
                generation,
                gate: Gate { place: gate },
                down: false,
            };
            Ok((log, frames))
        }
        Err(fault) => Err((fault, disk)),
    }
}
