//! What the tests make and see of a log.
ghost use Rattle.std.specs.Prelude.{◌≡◌, false, IfOk};
ghost use Rattle.log_pair.specs.record_log.Log.{StandsFor, down_of, log_frames};

use log_pair::record_log::{Appended, Frames, Log, OpenFault, lay, open_log};
use port_memory::json_tree::Bytes;
use port_memory::{MemoryDisk, Numbers};
use port_real::fleet_ports::Disk;
use std::alloc::{AllocError, Global};

/// What an opening found.
#[derive(Clone, Copy, PartialEq, Eq)]
pub(crate) enum Found {
    Closed,
    Damaged(u64),
    /// How many frames, and the log's size.
    Open(usize, u64),
    DiskFault,
    Memory,
}

pub(crate) fn seen<D: Disk + Drop>(alloc: Global, disk: D) -> Found {
    match open_log(alloc, disk) {
        Ok((log, frames)) => Found::Open(frames.as_slice().len(), log.size()),
        Err((OpenFault::Closed, _)) => Found::Closed,
        Err((OpenFault::Damaged { at }, _)) => Found::Damaged(at),
        Err((OpenFault::DiskFault, _)) => Found::DiskFault,
        Err((OpenFault::Memory, _)) => Found::Memory,
    }
}

/// These numbers.
pub(crate) fn numbers(alloc: Global, list: &[u64]) -> Result<Numbers, AllocError> {
    let mut numbers = Numbers::new(alloc);
    for number in list {
        numbers.push(*number)?;
    }
    Ok(numbers)
}

/// A disk with these bytes, of which these calls fail; 0 is the number of none.
pub(crate) fn weak_disk(
    alloc: Global,
    bytes: &[u8],
    fails: &[u64],
) -> Result<MemoryDisk, AllocError> {
    let fails = numbers(alloc, fails)?;
    let bytes = Bytes::from_slice(alloc, bytes)?;
    Ok(MemoryDisk::new(alloc, bytes, fails))
}

/// A disk with these bytes, of which no call fails.
pub(crate) fn disk_of(alloc: Global, bytes: &[u8]) -> Result<MemoryDisk, AllocError> {
    weak_disk(alloc, bytes, &[])
}

/// What an opening of these bytes finds.
pub(crate) fn seen_in(alloc: Global, bytes: &[u8]) -> Result<Found, AllocError> {
    Ok(seen(alloc, disk_of(alloc, bytes)?))
}

/// Whether the disk has exactly these bytes, at most 64.
pub(crate) fn has(disk: &mut MemoryDisk, bytes: &[u8]) -> bool {
    let mut buffer = [0; 64];
    let count = bytes.len();
    match disk.len() {
        Ok(len) if len == count as u64 && count <= 64 => {
            disk.read_at(0, &mut buffer[..count]).is_ok() && &buffer[..count] == bytes
        }
        _ => false,
    }
}

/// These frames.
pub(crate) fn frames_of(alloc: Global, list: &[&[u8]]) -> Result<Frames, AllocError> {
    let mut frames = Frames::new(alloc);
    for frame in list {
        frames.push(Bytes::from_slice(alloc, frame)?)?;
    }
    Ok(frames)
}

/// The frame `abc`.
pub(crate) fn one_frame(alloc: Global) -> Result<Frames, AllocError> {
    frames_of(alloc, &[b"abc"])
}

/// A log of generation 1 with these frames. Else the disk.
pub(crate) fn laid<D: Disk + Drop>(disk: D, frames: &Frames) -> Result<Log<D>, D>
    ensures up { IfOk result (λ log. down_of log ≡ false) }
    ensures stands { IfOk result (λ log. StandsFor D.may_leave log (log_frames D.seen log)) }
{
    let mut disk = disk;
    match lay(&mut disk, 1, frames) {
        Ok(()) => Ok(Log::laid(disk, 1, frames)),
        Err(_) => Err(disk),
    }
}

/// Appends a frame, unless the log is down. How many frames were acknowledged.
pub(crate) fn add<D: Disk + Drop>(log: &mut Log<D>, alloc: Global, frame: &[u8]) -> usize
    requires stands { down_of log.old ≡ false → StandsFor D.may_leave log.old (log_frames D.seen log.old) }
    ensures stands { down_of log.new ≡ false → StandsFor D.may_leave log.new (log_frames D.seen log.new) }
{
    if log.is_down() {
        return 0;
    }
    match log.append(alloc, frame) {
        Appended::Ok => 1,
        _ => 0,
    }
}
