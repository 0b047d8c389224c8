//! Reads or writes a JSON text many times, so that a script can time it.
//!
//! `fleet_bench json read|write|canonical TIMES` takes a JSON text from standard input. `read` reads it into a tree TIMES times,
//! and drops each tree. `write` and `canonical` read it once, and write its compact or canonical text TIMES times. It prints the
//! number of bytes that were read or written.
use anyhow::{Result, bail};
use command_decode::json_tree::{Json, canonical, write_compact};
use std::alloc::{AllocError, Global};
use std::env::Args;
use std::io;
use store_records::json_read::{ReadFault, read};

/// Reads a text this many times, and drops each tree. Answers the number of bytes that were read.
fn read_all(alloc: Global, text: &[u8], times: u32) -> Result<u64, ReadFault> {
    let mut bytes = 0u64;
    let mut done = 0;
    'reading: while done < times {
        let _ = read(alloc, text)?;
        bytes = bytes.saturating_add(text.len() as u64);
        done += 1;
    }
    Ok(bytes)
}

/// Writes a value's compact text this many times. Answers the number of bytes that were written.
fn write_all(alloc: Global, json: &Json, times: u32) -> Result<u64, AllocError> {
    let mut bytes = 0u64;
    let mut done = 0;
    'writing: while done < times {
        let text = write_compact(alloc, json)?;
        bytes = bytes.saturating_add(text.as_slice().len() as u64);
        done += 1;
    }
    Ok(bytes)
}

/// Writes a value's canonical text this many times. Answers the number of bytes that were written.
fn canonical_all(alloc: Global, json: &Json, times: u32) -> Result<u64, AllocError> {
    let mut bytes = 0u64;
    let mut done = 0;
    'writing: while done < times {
        let text = canonical(alloc, json)?;
        bytes = bytes.saturating_add(text.as_slice().len() as u64);
        done += 1;
    }
    Ok(bytes)
}

pub(crate) fn run(rt: &HostRuntime, mut words: Args) -> Result<()> {
    let alloc = rt.alloc();
    let (Some(mode), Some(times)) = (words.next(), words.next()) else {
        bail!("fleet_bench json read|write|canonical TIMES");
    };
    let times: u32 = times.parse()?;
    let text = io::read_to_string(alloc, rt.stdin())?;
    let bytes = text.as_bytes();
    let total = match mode.as_str() {
        "read" => read_all(alloc, bytes, times)?,
        "write" => {
            let json = read(alloc, bytes)?;
            write_all(alloc, &json, times)?
        }
        "canonical" => {
            let json = read(alloc, bytes)?;
            canonical_all(alloc, &json, times)?
        }
        _ => bail!("fleet_bench json read|write|canonical TIMES"),
    };
    println!(rt; "{total}")?;
    Ok(())
}
