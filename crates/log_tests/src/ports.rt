//! The ports in memory, and a text that is written to a sink of one byte a call.
ghost use Rattle.std.specs.Prelude.{Some};

use crate::opened::{numbers, weak_disk};
use crate::wrong::{Wrong, holds};
use port_memory::json_tree::Bytes;
use port_memory::{FuseDisk, MemoryDisk, MemorySink, MemorySource};
use port_real::fleet_ports::{Disk, Put, Sink, Source, Took, Wrote, write_all};
use std::alloc::{AllocError, Global};

/// Takes one byte a call, and fails at one call.
#[derive(Drop)]
struct OneByteSink {
    bytes: Vec<u8>,
    calls: u64,
    fails_at: u64,
    faults: u64,
}

impl Sink for OneByteSink {
    ghost held = { λ s. Some s.bytes.items };

    ghost fault_count = { λ s. s.faults };

    fn write_some(&mut self, piece: &[u8]) -> Put {
        self.calls = self.calls.saturating_add(1);
        if self.calls == self.fails_at || self.bytes.push(piece[0]).is_err() {
            self.faults = self.faults.saturating_add(1);
            return Put::Failed;
        }
        Put::Took(1)
    }
}

/// The call that fails, the text, the answer, and what the sink holds after how many calls.
static WRITTEN: [(u64, &[u8], Wrote, &[u8], u64); 5] = [
    (0, b"rows", Wrote::All, b"rows", 4),
    (1, b"rows", Wrote::Failed { taken: 0 }, b"", 1),
    (4, b"rows", Wrote::Failed { taken: 3 }, b"row", 4),
    (5, b"rows", Wrote::All, b"rows", 4),
    (1, b"", Wrote::All, b"", 0),
];

fn writes_so(sink: &mut OneByteSink, text: &[u8], answer: Wrote) -> bool {
    write_all(sink, text) == answer
}

fn goes_out(
    alloc: Global,
    fails_at: u64,
    text: &[u8],
    answer: Wrote,
    held: &[u8],
    calls: u64,
) -> bool {
    let mut sink = OneByteSink {
        bytes: Vec::new(alloc),
        calls: 0,
        fails_at,
        faults: 0,
    };
    writes_so(&mut sink, text, answer) && sink.bytes.as_slice() == held && sink.calls == calls
}

fn each_text(alloc: Global) -> Result<(), Wrong> {
    for (at, (fails_at, text, answer, held, calls)) in WRITTEN.iter().enumerate() {
        holds(goes_out(alloc, *fails_at, text, *answer, held, *calls), at)?;
    }
    Ok(())
}

#[test]
fn a_text_goes_out_whole_or_up_to_the_failed_call(rt: HostRuntime) -> Result<(), Wrong> {
    each_text(rt.alloc())
}

/// The answers of a read and of a write, and what the sink holds then.
static PASSED: [(Took, Put, &[u8]); 4] = [
    (Took::Bytes(2), Put::Failed, b""),
    (Took::Failed, Put::Took(2), b"ab"),
    (Took::Bytes(1), Put::Took(2), b"abcb"),
    (Took::Ended, Put::Took(2), b"abcbcb"),
];

fn takes(source: &mut MemorySource, into: &mut [u8; 2], answer: Took) -> bool {
    source.read_some(into) == answer
}

fn puts(sink: &mut MemorySink, bytes: &[u8; 2], answer: Put, held: &[u8]) -> bool {
    sink.write_some(bytes) == answer && sink.held() == held
}

fn each_pass(alloc: Global) -> Result<(), Wrong> {
    let bytes = Bytes::from_slice(alloc, b"abc")?;
    let mut source = MemorySource::new(bytes, numbers(alloc, &[2])?);
    let mut sink = MemorySink::new(alloc, numbers(alloc, &[1])?);
    let mut into = [0; 2];
    for (at, (took, put, held)) in PASSED.iter().enumerate() {
        holds(takes(&mut source, &mut into, *took), at)?;
        holds(puts(&mut sink, &into, *put, held), at)?;
    }
    holds(sink.starved() == 0, 4)
}

#[test]
fn a_source_and_a_sink_fail_at_their_numbers(rt: HostRuntime) -> Result<(), Wrong> {
    each_pass(rt.alloc())
}

fn writes(disk: &mut MemoryDisk, bytes: &[u8]) -> bool {
    disk.write_at(0, bytes).is_ok()
}

fn len_of<D: Disk>(disk: &mut D) -> Option<u64> {
    match disk.len() {
        Ok(len) => Some(len),
        Err(_) => None,
    }
}

fn has_counted(disk: &MemoryDisk) -> bool {
    disk.faults() == 2 && disk.calls() == 4 && disk.starved() == 0 && disk.unnoted() == 0
}

#[test]
fn a_failing_call_changes_no_byte_as_read(rt: HostRuntime) -> Result<(), Wrong> {
    let mut disk = weak_disk(rt.alloc(), b"", &[1, 3])?;
    holds(!writes(&mut disk, b"ab"), 1)?;
    holds(writes(&mut disk, b"xyz"), 2)?;
    holds(len_of(&mut disk).is_none(), 3)?;
    holds(len_of(&mut disk) == Some(3), 4)?;
    holds(has_counted(&disk), 5)
}

/// Writes `wxyz` at a place of a file of four bytes.
fn write_four(fuse: &mut FuseDisk, at: u64) {
    if let Ok(4) = fuse.len()
        && at <= 4
    {
        let _ = fuse.write_at(at, b"wxyz");
    }
}

/// How many bytes the file has, and the first four of them as a number.
fn front_of(disk: &mut MemoryDisk) -> (u64, u32) {
    let mut bytes = [0; 4];
    let len = disk.len().unwrap_or(0);
    if len >= 4 {
        let _ = disk.read_at(0, &mut bytes);
    }
    (len, u32::from_be_bytes(bytes))
}

/// What a crash leaves of `abcd`, after a write of `wxyz` at a place with no sync. It fails at its
/// number, or behind a fuse that passes so many calls, or not.
fn left(
    alloc: Global,
    at: u64,
    fail: u64,
    passes: u64,
    choice: u64,
) -> Result<MemoryDisk, AllocError> {
    let mut fuse = FuseDisk::new(weak_disk(alloc, b"abcd", &[fail])?, passes);
    write_four(&mut fuse, at);
    fuse.crash(alloc, choice)
}

/// The place, the number that fails, how many calls the fuse passes, the choice; how many bytes are
/// left, and the first four.
static LEFT: [(u64, u64, u64, u64, u64, [u8; 4]); 15] = [
    (0, 0, 2, 0, 4, *b"wxyz"),
    (0, 0, 2, 1, 4, *b"abcd"),
    (0, 0, 2, 2, 4, *b"wxyz"),
    (0, 0, 2, 3, 4, *b"wxcd"),
    (0, 0, 2, 4, 4, *b"\x01\x01\x01\x01"),
    (4, 0, 2, 0, 8, *b"abcd"),
    (4, 0, 2, 3, 6, *b"abcd"),
    // One that failed is in no read, and a crash may leave all or half of it past the old end.
    (4, 2, 2, 0, 4, *b"abcd"),
    (4, 2, 2, 2, 8, *b"abcd"),
    (4, 2, 2, 3, 6, *b"abcd"),
    (2, 2, 2, 2, 6, *b"abwx"),
    // So it is of one behind the fuse.
    (4, 0, 1, 0, 4, *b"abcd"),
    (4, 0, 1, 2, 8, *b"abcd"),
    (2, 0, 1, 3, 4, *b"abwx"),
    (0, 0, 1, 4, 4, *b"\x01\x01\x01\x01"),
];

fn is_left(
    alloc: Global,
    row: (u64, u64, u64, u64),
    wanted: (u64, u32),
) -> Result<bool, AllocError> {
    let (at, fail, passes, choice) = row;
    let mut disk = left(alloc, at, fail, passes, choice)?;
    Ok(front_of(&mut disk) == wanted)
}

fn each_crash(alloc: Global) -> Result<(), Wrong> {
    for (row, (at, fail, passes, choice, len, first)) in LEFT.iter().enumerate() {
        let wanted = (*len, u32::from_be_bytes(*first));
        holds(is_left(alloc, (*at, *fail, *passes, *choice), wanted)?, row)?;
    }
    Ok(())
}

#[test]
fn a_crash_leaves_nothing_all_half_or_other_bytes_of_a_write(rt: HostRuntime) -> Result<(), Wrong> {
    each_crash(rt.alloc())
}
