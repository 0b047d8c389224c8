//! Two files that take turns.
ghost use Rattle.std.specs.Prelude.{◌≡◌, false};
ghost use Rattle.log_pair.specs.Pair.{is_down_of, IsGood};

use crate::opened::{disk_of, frames_of, has, one_frame, weak_disk};
use crate::wrong::{Wrong, holds};
use log_pair::record_log::{Appended, Frames};
use log_pair::{Checked, Pair, PairFault, Side, lay_pair, open_pair};
use port_memory::{FuseDisk, MemoryDisk};
use port_real::fleet_ports::Disk;
use std::alloc::{AllocError, Global};

/// What an opening found.
#[derive(Clone, Copy, PartialEq, Eq)]
enum Found {
    Damaged(Side, u64),
    /// Which file counts, and how many frames it has.
    Open(Side, usize),
    DiskFault,
    Memory,
}

fn opened<D: Disk + Drop>(alloc: Global, a: D, b: D) -> Found {
    match open_pair(alloc, a, b) {
        Ok((pair, frames)) => Found::Open(pair.side(), frames.as_slice().len()),
        Err((PairFault::Damaged { file, at }, _, _)) => Found::Damaged(file, at),
        Err((PairFault::DiskFault, _, _)) => Found::DiskFault,
        Err((PairFault::Memory, _, _)) => Found::Memory,
    }
}

fn opened_of(alloc: Global, a: &[u8], b: &[u8]) -> Result<Found, AllocError> {
    Ok(opened(alloc, disk_of(alloc, a)?, disk_of(alloc, b)?))
}

/// A file's first byte, its generation and the gate behind the head.
type Short = (u8, u64, u8);

/// A file of these, with no frame.
fn short_file(alloc: Global, short: Short) -> Result<Vec<u8>, AllocError> {
    let (first, generation, last) = short;
    let mut file = vec![in alloc; first; 1]?;
    file.extend_from_slice(b"PDBLOG1")?;
    file.extend_from_slice(&generation.to_le_bytes())?;
    file.push(last)?;
    Ok(file)
}

/// The two files, and what is found.
static NEWEST: [(Short, Short, Found); 10] = [
    ((1, 1, 0), (1, 2, 0), Found::Open(Side::B, 0)),
    ((1, 2, 0), (1, 1, 0), Found::Open(Side::A, 0)),
    ((1, 2, 0), (1, 2, 0), Found::Open(Side::A, 0)),
    ((0, 9, 0), (1, 2, 0), Found::Open(Side::B, 0)),
    ((1, 1, 0), (0, 2, 1), Found::Open(Side::A, 0)),
    ((1, 1, 0), (1, 2, 1), Found::Damaged(Side::B, 16)),
    ((1, 1, 1), (1, 2, 0), Found::Damaged(Side::A, 16)),
    ((1, 1, 1), (1, 2, 1), Found::Damaged(Side::A, 16)),
    ((0, 1, 0), (1, 2, 1), Found::Damaged(Side::B, 16)),
    ((0, 1, 0), (0, 2, 0), Found::Damaged(Side::A, 0)),
];

fn is_found(alloc: Global, a: Short, b: Short, want: Found) -> Result<bool, AllocError> {
    let first = short_file(alloc, a)?;
    let second = short_file(alloc, b)?;
    Ok(opened_of(alloc, first.as_slice(), second.as_slice())? == want)
}

fn each_two(alloc: Global) -> Result<(), Wrong> {
    for (at, (a, b, want)) in NEWEST.iter().enumerate() {
        holds(is_found(alloc, *a, *b, *want)?, at)?;
    }
    Ok(())
}

#[test]
fn the_newest_open_file_counts_unless_one_is_damaged(rt: HostRuntime) -> Result<(), Wrong> {
    each_two(rt.alloc())
}

/// Generation 1, the frames `ab` and `c`.
const FIRST: [u8; 30] = *b"\x01PDBLOG1\x01\0\0\0\0\0\0\0\x01\x02\0\0\0ab\x01\x01\0\0\0c\0";

/// Generation 2, the frame `abc`.
const SECOND: [u8; 25] = *b"\x01PDBLOG1\x02\0\0\0\0\0\0\0\x01\x03\0\0\0abc\0";

/// Opens a pair and makes a checkpoint of these frames. Its answer, and the second disk.
fn checked<D: Disk + Drop>(alloc: Global, a: D, b: D, frames: &Frames) -> Option<(Checked, D)> {
    match open_pair(alloc, a, b) {
        Ok((pair, _frames)) => {
            let mut pair = pair;
            let answer = pair.checkpoint(frames);
            let (_a, b) = pair.into_disks();
            Some((answer, b))
        }
        Err((_fault, _a, _b)) => None,
    }
}

/// The same of the frame `abc`, over the first file and this one.
fn checked_over(alloc: Global, b: &[u8]) -> Result<Option<(Checked, MemoryDisk)>, AllocError> {
    let frames = one_frame(alloc)?;
    let first = disk_of(alloc, &FIRST)?;
    let second = disk_of(alloc, b)?;
    Ok(checked(alloc, first, second, &frames))
}

fn lays_the_other(alloc: Global) -> Result<bool, AllocError> {
    match checked_over(alloc, b"old")? {
        Some((answer, disk)) => {
            let mut disk = disk;
            Ok(answer == Checked::Ok && has(&mut disk, &SECOND))
        }
        None => Ok(false),
    }
}

fn is_spent(alloc: Global) -> Result<bool, AllocError> {
    let last = short_file(alloc, (1, u64::MAX, 0))?;
    match checked_over(alloc, last.as_slice())? {
        Some((answer, _disk)) => Ok(answer == Checked::Spent),
        None => Ok(false),
    }
}

#[test]
fn a_checkpoint_lays_the_other_file_with_the_next_generation(rt: HostRuntime) -> Result<(), Wrong> {
    holds(lays_the_other(rt.alloc())?, 0)?;
    let found = opened_of(rt.alloc(), &FIRST, &SECOND)?;
    holds(found == Found::Open(Side::B, 1), 1)?;
    holds(is_spent(rt.alloc())?, 2)
}

/// A disk of which one call fails, and which stops after so many.
fn weak(alloc: Global, bytes: &[u8], fail: u64, calls: u64) -> Result<FuseDisk, AllocError> {
    Ok(FuseDisk::new(weak_disk(alloc, bytes, &[fail])?, calls))
}

/// Lays new frames, unless the pair is down. Whether they were acknowledged.
fn renewed<D: Disk + Drop>(pair: &mut Pair<D>, frames: &Frames) -> bool
    requires good { is_down_of pair.old ≡ false → IsGood D.seen D.may_leave pair.old }
{
    if pair.is_down() {
        return false;
    }
    pair.checkpoint(frames) == Checked::Ok
}

/// Appends a frame to a pair of two, and makes a checkpoint of one. How many frames there are by what was
/// acknowledged last.
fn go_on<D: Disk + Drop>(alloc: Global, pair: &mut Pair<D>, frames: &Frames) -> usize
    requires good { IsGood D.seen D.may_leave pair.old }
{
    let appended = pair.append(alloc, b"d") == Appended::Ok;
    if renewed(pair, frames) {
        1
    } else if appended {
        3
    } else {
        2
    }
}

/// Opens a pair of two frames and goes on so. How many frames there are, and the disks.
fn served<D: Disk + Drop>(alloc: Global, a: D, b: D, frames: &Frames) -> (usize, D, D) {
    match open_pair(alloc, a, b) {
        Ok((pair, _frames)) => {
            let mut pair = pair;
            let count = go_on(alloc, &mut pair, frames);
            let (a, b) = pair.into_disks();
            (count, a, b)
        }
        Err((_fault, a, b)) => (2, a, b),
    }
}

/// The same, and then the machine stops. How many frames there were by what was acknowledged last,
/// and what is there.
fn stopped(
    alloc: Global,
    a: FuseDisk,
    b: FuseDisk,
    choice: u64,
) -> Result<(usize, Found), AllocError> {
    let frames = one_frame(alloc)?;
    let (count, a, b) = served(alloc, a, b, &frames);
    let a = a.crash(alloc, choice)?;
    let b = b.crash(alloc, choice)?;
    Ok((count, opened(alloc, a, b)))
}

/// The call fails on the first disk, or on the second, or is the last of one of them.
fn weak_pair(alloc: Global, call: u64, way: u64) -> Result<(FuseDisk, FuseDisk), AllocError> {
    let (fail_a, fail_b, stop_a, stop_b) = match way {
        0 => (call, 0, 99, 99),
        1 => (0, call, 99, 99),
        2 => (0, 0, call, 99),
        _ => (0, 0, 99, call),
    };
    let a = weak(alloc, &FIRST, fail_a, stop_a)?;
    let b = weak(alloc, b"old", fail_b, stop_b)?;
    Ok((a, b))
}

/// What a stop left: the old frames, the new ones, or the new ones where they weren't acknowledged.
#[derive(Clone, Copy)]
enum Left {
    Known,
    Untold,
    Other,
}

fn left_of(count: usize, found: Found) -> Left {
    match found {
        Found::Open(Side::A, left) if left == count || count == 2 && left == 3 => Left::Known,
        Found::Open(Side::B, 1) if count == 1 => Left::Known,
        Found::Open(Side::B, 1) => Left::Untold,
        _ => Left::Other,
    }
}

fn left_behind(alloc: Global, call: u64, choice: u64, way: u64) -> Result<Left, AllocError> {
    let (a, b) = weak_pair(alloc, call, way)?;
    let (count, found) = stopped(alloc, a, b, choice)?;
    Ok(left_of(count, found))
}

fn each_fault_and_stop(alloc: Global) -> Result<(), Wrong> {
    let mut more = false;
    // The calls are 0 to 23, the choices 0 to 4 and the ways 0 to 3.
    for at in 0..480_usize {
        let (call, choice, way) = (at / 20, at / 4 % 5, at % 4);
        match left_behind(alloc, call as u64, choice as u64, way as u64)? {
            Left::Known => {}
            Left::Untold => more = true,
            Left::Other => return Err(Wrong::Row(at)),
        }
    }
    // Some stop left new frames that weren't acknowledged.
    holds(more, 480)
}

#[test]
fn each_fault_and_each_stop_leaves_the_old_frames_or_the_new_ones(
    rt: HostRuntime,
) -> Result<(), Wrong> {
    each_fault_and_stop(rt.alloc())
}

fn is_laid<D: Disk + Drop>(a: &mut D, b: &mut D, frames: &Frames) -> bool {
    lay_pair(a, b, frames).is_ok()
}

/// What the second file has before a laying, and what it has then.
static CLEARED: [(&[u8], &[u8]); 5] = [
    (b"", b""),
    (b"\x01", b"\x01"),
    (b"\0old", b"\0"),
    (b"\x01PDBLOG1\x07\0\0\0\0\0\0\0\0", b"\x01"),
    (b"\x01PDBLOG1\x07\0\0\0\0\0\0\0\x01\x03\0\0\0abc\0", b"\x01"),
];

fn leaves_these_bytes(alloc: Global, before: &[u8], after: &[u8]) -> Result<bool, AllocError> {
    let frames = frames_of(alloc, &[b"ab", b"c"])?;
    let mut a = disk_of(alloc, before)?;
    let mut b = disk_of(alloc, before)?;
    Ok(is_laid(&mut a, &mut b, &frames) && has(&mut a, &FIRST) && has(&mut b, after))
}

fn each_laying(alloc: Global) -> Result<(), Wrong> {
    for (row, (before, after)) in CLEARED.iter().enumerate() {
        holds(leaves_these_bytes(alloc, before, after)?, row)?;
    }
    Ok(())
}

#[test]
fn a_laid_pair_has_these_bytes(rt: HostRuntime) -> Result<(), Wrong> {
    each_laying(rt.alloc())
}

/// Whether a laying that stops leaves no open file or the laid frames.
fn lays_or_not(alloc: Global, calls: u64, choice: u64) -> Result<bool, AllocError> {
    let frames = frames_of(alloc, &[b"ab", b"c"])?;
    let mut a = weak(alloc, b"old", 0, calls)?;
    let mut b = weak(alloc, b"\0older", 0, calls)?;
    let laid = is_laid(&mut a, &mut b, &frames);
    let seen = opened(alloc, a.crash(alloc, choice)?, b.crash(alloc, choice)?);
    Ok(seen == Found::Open(Side::A, 2) || !laid && seen == Found::Damaged(Side::A, 0))
}

fn each_stop_of_a_laying(alloc: Global) -> Result<(), Wrong> {
    // The calls that pass are 0 to 19, and the choices 0 to 4.
    for at in 0..100_usize {
        holds(lays_or_not(alloc, (at / 5) as u64, (at % 5) as u64)?, at)?;
    }
    Ok(())
}

#[test]
fn each_stop_of_a_laying_leaves_no_open_file_or_the_laid_frames(
    rt: HostRuntime,
) -> Result<(), Wrong> {
    each_stop_of_a_laying(rt.alloc())
}
