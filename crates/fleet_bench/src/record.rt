//! Writes or reads a record of the store's log many times, so that a script can time it.
//!
//! `fleet_bench record facts|catalog|report write|read TIMES` takes a payload of that wire format's present version from standard
//! input. It writes the record of its change TIMES times, or reads and drops it TIMES times. It prints the number of bytes that
//! were written or read.
ghost use Rattle.std.specs.Prelude.{IfSome};
ghost use Rattle.supersede_core.specs.history_spec.Lawful.{IsChange};
ghost use Rattle.supersede_core.specs.record_spec.Store.{IsStoreRecord};

use anyhow::{Result, bail};
use command_decode::decode;
use command_decode::json_tree::Bytes;
use std::alloc::{AllocError, Global};
use std::env::Args;
use std::io;
use store_records::{read_store, write_store};
use supersede_core::fleet_rows::{Change, Command, Kind};
use supersede_core::record_spec::StoreRecord;
use supersede_core::stamp_time::Moment;

/// The greatest payload that is decoded here, in bytes, as in a spool.
const MOST: usize = 16_777_216;

/// Drops a value. A record has many parts: here they are dropped in one place, not on each way out of a function.
fn let_go<T: Drop>(_value: T) {}

fn command(alloc: Global, kind: &str, text: &[u8]) -> Result<Command> {
    let (kind, version) = match kind {
        "facts" => (Kind::Facts, 5),
        "catalog" => (Kind::Catalog, 9),
        "report" => (Kind::Report, 8),
        _ => bail!("fleet_bench record facts|catalog|report write|read TIMES"),
    };
    Ok(Command {
        kind,
        version,
        received: Moment::from_nanosecond(0),
        payload: Bytes::from_slice(alloc, text)?,
    })
}

fn received(change: Change) -> StoreRecord
    requires { IsChange change }
    ensures { IsStoreRecord result }
{
    StoreRecord::Received(1, None, change)
}

/// The record of the command's change, or None if its payload is refused.
fn record_of(alloc: Global, command: &Command) -> Option<StoreRecord>
    ensures { IfSome result IsStoreRecord }
{
    if command.payload.as_slice().len() > MOST {
        return None;
    }
    match decode(alloc, command) {
        Ok(change) => Some(received(change)),
        Err(_) => None,
    }
}

/// Whether the bytes are a record, which is read and dropped.
fn is_read(alloc: Global, frame: &[u8]) -> Result<bool, AllocError> {
    let found = read_store(alloc, frame)?;
    let is_one = found.is_some();
    let_go(found);
    Ok(is_one)
}

/// Writes the record this many times. Answers the number of bytes that were written.
fn write_all(alloc: Global, rec: &StoreRecord, times: u32) -> Result<u64, AllocError>
    requires { IsStoreRecord rec.now }
{
    let mut bytes = 0u64;
    let mut done = 0;
    'writing: while done < times {
        let frame = write_store(alloc, rec)?;
        bytes = bytes.saturating_add(frame.as_slice().len() as u64);
        done += 1;
    }
    Ok(bytes)
}

/// Reads the bytes this many times. Answers the number of bytes that were read, or 0 if they are no record.
fn read_all(alloc: Global, frame: &[u8], times: u32) -> Result<u64, AllocError> {
    let mut bytes = 0u64;
    let mut done = 0;
    'reading: while done < times {
        if is_read(alloc, frame)? {
            bytes = bytes.saturating_add(frame.len() as u64);
        }
        done += 1;
    }
    Ok(bytes)
}

/// Writes the record this many times. Or writes it once, and reads the result this many times.
fn timed(alloc: Global, rec: &StoreRecord, mode: &str, times: u32) -> Result<u64, AllocError>
    requires { IsStoreRecord rec.now }
{
    if mode == "write" {
        write_all(alloc, rec, times)
    } else {
        let frame = write_store(alloc, rec)?;
        read_all(alloc, frame.as_slice(), times)
    }
}

/// The number of bytes that were written or read, or None if the payload is refused or there is no memory.
fn total(alloc: Global, command: &Command, mode: &str, times: u32) -> Option<u64> {
    match record_of(alloc, command) {
        Some(rec) => {
            let bytes = timed(alloc, &rec, mode, times);
            let_go(rec);
            bytes.ok()
        }
        None => None,
    }
}

pub(crate) fn run(rt: &HostRuntime, mut words: Args) -> Result<()> {
    let alloc = rt.alloc();
    let (Some(kind), Some(mode), Some(times)) = (words.next(), words.next(), words.next()) else {
        bail!("fleet_bench record facts|catalog|report write|read TIMES");
    };
    let times: u32 = times.parse()?;
    let text = io::read_to_string(alloc, rt.stdin())?;
    let command = command(alloc, kind.as_str(), text.as_bytes())?;
    let Some(bytes) = total(alloc, &command, mode.as_str(), times) else {
        bail!("the payload is refused, or there is no memory");
    };
    println!(rt; "{bytes}")?;
    Ok(())
}
