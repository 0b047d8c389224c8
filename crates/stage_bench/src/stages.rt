//! A stage over files of the working folder, and commands for it.
ghost use Rattle.std.specs.Prelude.{◌≡◌, ◌≤◌, length, IfOk, IfSome};
ghost use Rattle.live_stage.specs.core_ends.core_state.Seen.{events_of};
ghost use Rattle.live_stage.specs.core_ends.history_spec.Lawful.{HasStamp};
ghost use Rattle.live_stage.specs.Trace.{sweep_count};

use anyhow::{Result, bail};
use core_ends::{Core, Keeper, LogKeeper, lay_core, open_core};
use fleet_ports::{Disk, Disks};
use fleet_rows::{Command, Kind, Ttls};
use json_tree::Bytes;
use live_stage::{StageLock, StagePass, submit};
use port_real::FileDisk;
use stamp_time::read_stamp;
use std::alloc::{AllocError, Global};
use std::io;
use std::sync::Wait;
use std::time::{Clock, Instant};

pub(crate) type FileCore = Core<FileDisk, LogKeeper<FileDisk>>;

fn file(rt: &HostRuntime, name: &str) -> Result<FileDisk> {
    match FileDisk::open_file(rt, name) {
        Ok(disk) => Ok(disk),
        Err(_) => bail!("a file was not opened"),
    }
}

// A core over these files, once they are laid. None where they can't be laid and opened.
fn opened(alloc: Global, disks: Disks<FileDisk>) -> Option<FileCore>
    ensures { IfSome result (λ core. sweep_count (events_of core) ≡ 0) }
{
    let mut disks = disks;
    if lay_core(alloc, &mut disks, Ttls::default_lifetimes()).is_err() {
        drop(disks);
        return None;
    }
    match open_core(alloc, disks) {
        Ok(core) => Some(core),
        Err((_fault, disks)) => {
            drop(disks);
            None
        }
    }
}

/// A core over new files.
pub(crate) fn new_core(rt: &HostRuntime) -> Result<FileCore>
    ensures { IfOk result (λ core. sweep_count (events_of core) ≡ 0) }
{
    let disks = Disks {
        queue_a: file(rt, "queue.a")?,
        queue_b: file(rt, "queue.b")?,
        store_a: file(rt, "store.a")?,
        store_b: file(rt, "store.b")?,
    };
    match opened(rt.alloc(), disks) {
        Some(core) => Ok(core),
        None => bail!("the files were not laid and opened"),
    }
}

/// Facts of a node.
#[tactic(auto, using(stamp_time::proofs::RangeLaws::has_stamp))]
fn facts(alloc: Global, node: u64) -> Result<Command, AllocError>
    ensures { IfOk result (λ c. (length c.payload ≤ 16_777_216) × HasStamp c.received) }
{
    let payload = format!(in alloc;
        r#"{{"certname":"n{node}","environment":"production","values":{{"k":1}},"producer_timestamp":"2024-05-01T10:00:00Z","producer":"m"}}"#
    )?;
    if payload.len() > 16_777_216 {
        return Err(AllocError);
    }
    let Some(received) = read_stamp("2024-05-02T00:00:00Z") else {
        return Err(AllocError);
    };
    Ok(Command {
        kind: Kind::Facts,
        version: 5,
        received,
        payload: Bytes::from_slice(alloc, payload.as_bytes())?,
    })
}

/// Submits facts of so many nodes, from this one on.
pub(crate) fn send<D: Disk + Drop, K: Keeper + Drop, R: Wait>(
    rt: &R,
    alloc: Global,
    lock: &StageLock<D, K>,
    hand: &mut StagePass<D, K>,
    first: u64,
    count: u64,
) -> Result<(), AllocError>
    requires pass { hand.old.lock ≡ lock.now.lock }
    ensures pass { (hand.new.lock ≡ hand.old.lock) × (hand.new.spares ≡ hand.old.spares) }
{
    'sending: for more in 0..count {
        let command = facts(alloc, first.saturating_add(more))?;
        let _ = submit(lock, rt, hand, command);
    }
    Ok(())
}

/// The nanoseconds since that instant.
pub(crate) fn nanos_since<C: Clock>(clock: &C, from: Instant) -> io::Result<u64> {
    let spent = from.elapsed(clock)?;
    Ok(u64::try_from(spent.as_nanos()).unwrap_or(u64::MAX))
}

/// A number from the command's arguments.
pub(crate) fn number(word: Option<String>) -> Result<u64> {
    match word {
        Some(text) => Ok(text.parse()?),
        None => bail!("a number is missing"),
    }
}
