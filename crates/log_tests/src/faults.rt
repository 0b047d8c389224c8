//! Each call of the disk failing in turn.
use crate::opened::{Found, laid, one_frame, seen, weak_disk};
use crate::wrong::{Wrong, holds};
use log_pair::record_log::{Appended, Frames, LayFault, lay};
use port_memory::MemoryDisk;
use port_real::fleet_ports::Disk;
use std::alloc::{AllocError, Global};

/// The calls of `lay` with one frame on an empty disk.
const LAY: u64 = 12;

/// Whether a laying fails so, and tells whether its opening was begun; None where it doesn't fail.
fn lays_so<D: Disk + Drop>(disk: &mut D, frames: &Frames, wanted: Option<bool>) -> bool {
    match lay(disk, 1, frames) {
        Ok(()) => wanted.is_none(),
        Err(LayFault::DiskFault { opened }) => wanted == Some(opened),
        Err(LayFault::TooLong) => false,
    }
}

fn laying_at(call: u64) -> Option<bool> {
    match call {
        1..=10 => Some(false),
        11..=12 => Some(true),
        _ => None,
    }
}

/// As read, the last write opens the file.
fn left_at(call: u64) -> Found {
    match call {
        1..=11 => Found::Closed,
        _ => Found::Open(1, 25),
    }
}

fn is_laid_so(alloc: Global, call: u64) -> Result<bool, AllocError> {
    let frames = one_frame(alloc)?;
    let mut disk = weak_disk(alloc, b"", &[call])?;
    let answered = lays_so(&mut disk, &frames, laying_at(call));
    let counted = disk.faults() == call.min(1);
    Ok(answered && counted && seen(alloc, disk) == left_at(call))
}

fn each_call_of_a_laying(alloc: Global) -> Result<(), Wrong> {
    for call in 0..13_usize {
        holds(is_laid_so(alloc, call as u64)?, call)?;
    }
    Ok(())
}

#[test]
fn a_laying_tells_whether_its_opening_was_begun(rt: HostRuntime) -> Result<(), Wrong> {
    each_call_of_a_laying(rt.alloc())
}

/// A call of an append and another that fail, counted behind those of the laying, its answer, and how
/// many frames are left; 0 is the number of no call.
static APPENDS: [(u64, u64, Appended, usize); 9] = [
    (0, 0, Appended::Ok, 2),
    (1, 0, Appended::Failed, 1),
    (2, 0, Appended::Failed, 1),
    (3, 0, Appended::Failed, 1),
    (4, 0, Appended::Failed, 1),
    (3, 4, Appended::Down, 1),
    (3, 5, Appended::Down, 1),
    (4, 5, Appended::Down, 2),
    (4, 6, Appended::Down, 1),
];

/// The number of a call of an append behind the laying.
fn behind_lay(call: u64) -> u64 {
    if call == 0 { 0 } else { LAY.wrapping_add(call) }
}

fn weak(alloc: Global, first: u64, second: u64) -> Result<MemoryDisk, AllocError> {
    weak_disk(alloc, b"", &[behind_lay(first), behind_lay(second)])
}

/// Appends a frame to a log that is laid. Whether it is answered so, and the disk.
fn appends_so<D: Disk + Drop>(
    alloc: Global,
    disk: D,
    frames: &Frames,
    answer: Appended,
) -> (bool, D) {
    match laid(disk, frames) {
        Ok(log) => {
            let mut log = log;
            let answered = log.append(alloc, b"x") == answer;
            let down = log.is_down() == (answer == Appended::Down);
            (answered && down, log.into_disk())
        }
        Err(disk) => (false, disk),
    }
}

fn is_open<D: Disk + Drop>(alloc: Global, disk: D, count: usize) -> bool {
    match seen(alloc, disk) {
        Found::Open(found, _) => found == count,
        _ => false,
    }
}

fn is_appended_so(
    alloc: Global,
    disk: MemoryDisk,
    answer: Appended,
    left: usize,
) -> Result<bool, AllocError> {
    let frames = one_frame(alloc)?;
    let (answered, disk) = appends_so(alloc, disk, &frames, answer);
    Ok(answered && is_open(alloc, disk, left))
}

fn each_append(alloc: Global) -> Result<(), Wrong> {
    for (at, (first, second, answer, left)) in APPENDS.iter().enumerate() {
        let disk = weak(alloc, *first, *second)?;
        holds(is_appended_so(alloc, disk, *answer, *left)?, at)?;
    }
    Ok(())
}

#[test]
fn an_append_is_mended_or_takes_the_log_down(rt: HostRuntime) -> Result<(), Wrong> {
    each_append(rt.alloc())
}
