//! Appends frames to a log in a real file, so that a script can time it.
//!
//! `fleet_bench log COUNT SIZE` creates the file `fleet_bench.log` in the working folder. It appends COUNT frames of SIZE bytes
//! each, and prints the number of acknowledged frames.
ghost use Rattle.std.specs.Prelude.{◌≡◌, false};
ghost use Rattle.record_log.specs.Log.{StandsFor, down_of, log_frames};

use anyhow::{Result, bail};
use port_real::FileDisk;
use port_real::fleet_ports::Disk;
use record_log::{Appended, Frames, Log, lay, open_log};
use std::alloc::Global;
use std::env::Args;

/// Appends a frame this many times, or until one fails. Answers the number of acknowledged frames.
fn append_all<D: Disk + Drop>(log: &mut Log<D>, alloc: Global, frame: &[u8], count: u32) -> u32
    requires up { down_of log.old ≡ false }
    requires stands { StandsFor D.may_leave log.old (log_frames D.seen log.old) }
{
    let mut done = 0;
    'appending: while done < count {
        match log.append(alloc, frame) {
            Appended::Ok => {
                done += 1;
            }
            _ => return done,
        }
    }
    done
}

/// A number from the command's arguments.
fn number(word: Option<String>) -> Result<u32> {
    match word {
        Some(text) => Ok(text.parse()?),
        None => bail!("fleet_bench log COUNT SIZE"),
    }
}

pub(crate) fn run(rt: &HostRuntime, mut words: Args) -> Result<()> {
    let alloc = rt.alloc();
    let count = number(words.next())?;
    let size = number(words.next())?;
    let frame = vec![in alloc; 7; size as usize]?;
    let Ok(mut disk) = FileDisk::open_file(rt, "fleet_bench.log") else {
        bail!("the file was not opened");
    };
    if lay(&mut disk, 1, &Frames::new(alloc)).is_err() {
        bail!("the file was not laid");
    }
    let Ok((mut log, _)) = open_log(alloc, disk) else {
        bail!("the log was not opened");
    };
    let done = append_all(&mut log, alloc, &frame, count);
    println!(rt; "{done}")?;
    Ok(())
}
