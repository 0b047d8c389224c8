//! Files as their bytes say.
use crate::opened::{Found, disk_of, frames_of, has, seen_in};
use crate::wrong::{Wrong, holds};
use log_pair::record_log::{Frames, lay, open_log};
use port_memory::MemoryDisk;
use std::alloc::{AllocError, Global};

/// Generation 2, the frames `abc` and one of no byte.
const FILE: [u8; 30] = *b"\x01PDBLOG1\x02\0\0\0\0\0\0\0\x01\x03\0\0\0abc\x01\0\0\0\0\0";

fn is_laid(disk: &mut MemoryDisk, frames: &Frames) -> bool {
    lay(disk, 2, frames).is_ok()
}

/// What the disk has before: less than the new file, and more, closed or open.
static BEFORE: [&[u8]; 4] = [
    b"",
    b"old",
    b"\0PDBLOG1\x01\0\0\0\0\0\0\0\x01\x0a\0\0\00123456789\x01\x03\0\0\0xyz\0",
    b"\x01PDBLOG1\x01\0\0\0\0\0\0\0\x01\x0a\0\0\00123456789\x01\x03\0\0\0xyz\0",
];

fn has_these_bytes(alloc: Global, before: &[u8]) -> Result<bool, AllocError> {
    let frames = frames_of(alloc, &[b"abc", b""])?;
    let mut disk = disk_of(alloc, before)?;
    Ok(is_laid(&mut disk, &frames) && has(&mut disk, &FILE))
}

fn each_before(alloc: Global) -> Result<(), Wrong> {
    for (row, before) in BEFORE.iter().enumerate() {
        holds(has_these_bytes(alloc, before)?, row)?;
    }
    Ok(())
}

#[test]
fn a_laid_file_has_these_bytes(rt: HostRuntime) -> Result<(), Wrong> {
    each_before(rt.alloc())
}

/// To how many bytes the file is cut, the place of a byte that is changed, to what, and what is found.
static CHANGED: [(usize, usize, u8, Found); 19] = [
    (0, 0, 1, Found::Closed),
    (16, 0, 1, Found::Closed),
    (17, 0, 1, Found::Damaged(16)),
    (24, 0, 1, Found::Damaged(16)),
    (25, 0, 1, Found::Damaged(24)),
    (29, 0, 1, Found::Damaged(24)),
    (30, 0, 1, Found::Open(2, 30)),
    (30, 0, 9, Found::Closed),
    (30, 1, 9, Found::Damaged(1)),
    (30, 7, 9, Found::Damaged(1)),
    (30, 8, 9, Found::Open(2, 30)),
    (30, 15, 9, Found::Open(2, 30)),
    (30, 16, 9, Found::Open(0, 17)),
    (17, 16, 0, Found::Open(0, 17)),
    (30, 17, 8, Found::Open(1, 30)),
    (30, 17, 9, Found::Damaged(16)),
    (30, 20, 9, Found::Damaged(16)),
    (30, 24, 0, Found::Open(1, 25)),
    (30, 29, 1, Found::Damaged(29)),
];

/// The file, cut and with one byte changed.
fn changed(alloc: Global, len: usize, at: usize, byte: u8) -> Result<Vec<u8>, AllocError> {
    let mut file = FILE.to_vec(alloc)?;
    if let Some(place) = file.get_mut(at) {
        *place = byte;
    }
    file.truncate(len);
    Ok(file)
}

fn is_found(
    alloc: Global,
    len: usize,
    at: usize,
    byte: u8,
    want: Found,
) -> Result<bool, AllocError> {
    let file = changed(alloc, len, at, byte)?;
    Ok(seen_in(alloc, file.as_slice())? == want)
}

fn each_change(alloc: Global) -> Result<(), Wrong> {
    for (row, (len, at, byte, want)) in CHANGED.iter().enumerate() {
        holds(is_found(alloc, *len, *at, *byte, *want)?, row)?;
    }
    Ok(())
}

#[test]
fn a_file_is_closed_damaged_or_open_as_its_bytes_say(rt: HostRuntime) -> Result<(), Wrong> {
    each_change(rt.alloc())
}

/// Whether the log is opened and has this generation, this size and no frame.
fn is_shortest(alloc: Global, disk: MemoryDisk, generation: u64, size: u64) -> bool {
    match open_log(alloc, disk) {
        Ok((log, frames)) => {
            log.generation() == generation && log.size() == size && frames.as_slice().is_empty()
        }
        Err((_fault, _disk)) => false,
    }
}

#[test]
fn the_shortest_log_tells_its_generation(rt: HostRuntime) -> Result<(), Wrong> {
    let disk = disk_of(rt.alloc(), b"\x01PDBLOG1\x07\0\0\0\0\0\0\0\0")?;
    holds(is_shortest(rt.alloc(), disk, 7, 17), 0)
}
