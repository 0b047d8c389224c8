//! Decodes a payload many times, so that a script can time it.
//!
//! `fleet_bench decode facts|catalog|report TIMES` takes a payload of that wire format's present version from standard input. It
//! decodes the payload TIMES times, drops each change, and prints the number of bytes that were read.
use anyhow::{Result, bail};
use command_decode::decode;
use command_decode::json_tree::Bytes;
use std::alloc::Global;
use std::env::Args;
use std::io;
use supersede_core::fleet_rows::{Command, Kind};
use supersede_core::stamp_time::Moment;

/// The greatest payload that is decoded here, in bytes, as in a spool.
const MOST: usize = 16_777_216;

fn command(alloc: Global, mode: &str, text: &[u8]) -> Result<Command> {
    let (kind, version) = match mode {
        "facts" => (Kind::Facts, 5),
        "catalog" => (Kind::Catalog, 9),
        "report" => (Kind::Report, 8),
        _ => bail!("fleet_bench decode facts|catalog|report TIMES"),
    };
    Ok(Command {
        kind,
        version,
        received: Moment::from_nanosecond(0),
        payload: Bytes::from_slice(alloc, text)?,
    })
}

/// Decodes the command this many times. Answers the number of bytes that were read.
fn decode_all(alloc: Global, command: &Command, times: u32) -> Result<u64> {
    let mut bytes = 0u64;
    let mut done = 0;
    'decoding: while done < times {
        let size = command.payload.as_slice().len();
        if size > MOST {
            bail!("more than 16 MiB");
        }
        if decode(alloc, command).is_err() {
            bail!("the payload is refused");
        }
        bytes = bytes.saturating_add(size as u64);
        done += 1;
    }
    Ok(bytes)
}

pub(crate) fn run(rt: &HostRuntime, mut words: Args) -> Result<()> {
    let alloc = rt.alloc();
    let (Some(mode), Some(times)) = (words.next(), words.next()) else {
        bail!("fleet_bench decode facts|catalog|report TIMES");
    };
    let times: u32 = times.parse()?;
    let text = io::read_to_string(alloc, rt.stdin())?;
    let command = command(alloc, mode.as_str(), text.as_bytes())?;
    let total = decode_all(alloc, &command, times)?;
    println!(rt; "{total}")?;
    Ok(())
}
