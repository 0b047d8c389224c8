//! A stop at each call, and then a crash.
use crate::opened::{Found, add, disk_of, laid, one_frame, seen};
use crate::wrong::{Wrong, holds};
use log_pair::record_log::Frames;
use port_memory::FuseDisk;
use port_real::fleet_ports::Disk;
use std::alloc::{AllocError, Global};

/// Lays a log with one frame and appends three. How many frames were acknowledged, and the disk.
fn served<D: Disk + Drop>(alloc: Global, disk: D, frames: &Frames) -> (usize, D) {
    match laid(disk, frames) {
        Ok(log) => {
            let mut log = log;
            let first = add(&mut log, alloc, b"x");
            let second = add(&mut log, alloc, &[9; 70]);
            let third = add(&mut log, alloc, b"");
            let count = first.wrapping_add(second).wrapping_add(third);
            (count.wrapping_add(1), log.into_disk())
        }
        Err(disk) => (0, disk),
    }
}

/// The same where so many calls pass, and then the machine stops. How many frames were acknowledged,
/// and what is there.
fn stopped(alloc: Global, calls: u64, choice: u64) -> Result<(usize, Found), AllocError> {
    let frames = one_frame(alloc)?;
    let fuse = FuseDisk::new(disk_of(alloc, b"")?, calls);
    let (count, fuse) = served(alloc, fuse, &frames);
    let left = fuse.crash(alloc, choice)?;
    Ok((count, seen(alloc, left)))
}

/// What a stop left of the frames that were acknowledged.
#[derive(Clone, Copy)]
enum Left {
    Those,
    OneMore,
    /// None was acknowledged, and the file isn't open.
    Closed,
    Other,
}

fn left_of(acknowledged: usize, found: Found) -> Left {
    match found {
        Found::Open(count, _) if count == acknowledged => Left::Those,
        Found::Open(count, _) if count == acknowledged.wrapping_add(1) => Left::OneMore,
        Found::Closed if acknowledged == 0 => Left::Closed,
        _ => Left::Other,
    }
}

fn left_behind(alloc: Global, calls: u64, choice: u64) -> Result<Left, AllocError> {
    let (acknowledged, found) = stopped(alloc, calls, choice)?;
    Ok(left_of(acknowledged, found))
}

fn each_stop(alloc: Global) -> Result<(), Wrong> {
    let mut closed = false;
    let mut more = false;
    // The calls that pass are 0 to 25, and the choices 0 to 15.
    for at in 0..416_usize {
        match left_behind(alloc, (at / 16) as u64, (at % 16) as u64)? {
            Left::Those => {}
            Left::OneMore => more = true,
            Left::Closed => closed = true,
            Left::Other => return Err(Wrong::Row(at)),
        }
    }
    // Some crash left a frame that wasn't acknowledged, and some a file that wasn't opened.
    holds(closed && more, 416)
}

fn all_calls_pass(alloc: Global) -> Result<bool, AllocError> {
    let (acknowledged, found) = stopped(alloc, 26, 0)?;
    Ok(acknowledged == 4 && found == Found::Open(4, 111))
}

#[test]
fn each_stop_leaves_what_was_acknowledged_and_at_most_one_more(
    rt: HostRuntime,
) -> Result<(), Wrong> {
    each_stop(rt.alloc())?;
    holds(all_calls_pass(rt.alloc())?, 417)
}
