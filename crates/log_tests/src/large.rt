//! The largest logs that are sensible. Want of memory is an answer that no contract ties to a growth
//! that was refused, so that it doesn't come where there is memory is shown here.
use crate::opened::{Found, disk_of, frames_of, seen};
use crate::wrong::{Wrong, holds};
use log_pair::record_log::{Appended, Frames, lay, open_log};
use port_memory::MemoryDisk;
use port_memory::json_tree::Bytes;
use std::alloc::{AllocError, Global};

fn is_laid(disk: &mut MemoryDisk, frames: &Frames) -> bool {
    lay(disk, 1, frames).is_ok()
}

/// The disk of a log that was opened with 28 bytes, where a frame was appended.
fn grown(alloc: Global, disk: MemoryDisk, frame: &[u8]) -> Option<MemoryDisk> {
    match open_log(alloc, disk) {
        Ok((log, _frames)) => {
            let mut log = log;
            let appended = log.append(alloc, frame) == Appended::Ok;
            let grew = log.size() == (frame.len() as u64).wrapping_add(28);
            (appended && grew).then_some(log.into_disk())
        }
        Err((_fault, _disk)) => None,
    }
}

/// Whether they are the frame `x` and this one.
fn are(frames: &[Bytes], frame: &[u8]) -> bool {
    match frames {
        [first, second] => first.as_slice() == b"x".as_slice() && second.as_slice() == frame,
        _ => false,
    }
}

fn are_there(alloc: Global, disk: MemoryDisk, frame: &[u8]) -> bool {
    match open_log(alloc, disk) {
        Ok((_log, frames)) => are(frames.as_slice(), frame),
        Err((_fault, _disk)) => false,
    }
}

/// Whether a frame of this length is there after reopening.
fn is_there(alloc: Global, len: usize) -> Result<bool, AllocError> {
    let frame = vec![in alloc; 7; len]?;
    let first = frames_of(alloc, &[b"x"])?;
    let mut disk = disk_of(alloc, b"")?;
    if !is_laid(&mut disk, &first) {
        return Ok(false);
    }
    match grown(alloc, disk, frame.as_slice()) {
        Some(disk) => Ok(are_there(alloc, disk, frame.as_slice())),
        None => Ok(false),
    }
}

static LENGTHS: [usize; 6] = [0, 1, 64, 65, 100_000, 16_777_216];

fn each_length(alloc: Global) -> Result<(), Wrong> {
    for (at, len) in LENGTHS.iter().enumerate() {
        holds(is_there(alloc, *len)?, at)?;
    }
    Ok(())
}

#[test]
fn frames_of_all_lengths_are_there_after_reopening(rt: HostRuntime) -> Result<(), Wrong> {
    each_length(rt.alloc())
}

/// So many frames of four bytes.
fn many(alloc: Global, count: u32) -> Result<Frames, AllocError> {
    let mut frames = Frames::new(alloc);
    for index in 0..count {
        frames.push(Bytes::from_slice(alloc, &index.to_le_bytes())?)?;
    }
    Ok(frames)
}

fn many_are_there(alloc: Global) -> Result<bool, AllocError> {
    let frames = many(alloc, 20_000)?;
    let mut disk = disk_of(alloc, b"")?;
    Ok(is_laid(&mut disk, &frames) && seen(alloc, disk) == Found::Open(20_000, 180_017))
}

#[test]
fn a_log_of_many_frames_is_laid_and_opened(rt: HostRuntime) -> Result<(), Wrong> {
    holds(many_are_there(rt.alloc())?, 0)
}
