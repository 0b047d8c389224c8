//! Makes cores in memory, and the commands for them. Large values are dropped by a call, so that no proof opens them at each exit.
ghost use Rattle.std.specs.Prelude.{◌≤◌, length, IfOk};
ghost use Rattle.fleet_hub.specs.history_spec.Lawful.{HasStamp};

use crate::said::behind;
use fleet_hub::{Core, Submitted, lay_core, open_core};
use fleet_keeper::LogKeeper;
use fleet_ports::Disks;
use fleet_rows::{Command, Kind, Ttls};
use json_tree::Bytes;
use port_memory::{MemoryDisk, Numbers};
use stamp_time::read_stamp;
use std::alloc::{AllocError, Global};

pub(crate) type MemoryCore = Core<MemoryDisk, LogKeeper<MemoryDisk>>;

// An empty file that fails at these calls.
fn disk(alloc: Global, fails: Numbers) -> MemoryDisk {
    MemoryDisk::new(alloc, Bytes::from_vec(Vec::new(alloc)), fails)
}

// So many numbers, from this one on.
fn numbers(alloc: Global, first: u64, count: u64) -> Result<Numbers, AllocError> {
    let mut numbers = Numbers::new(alloc);
    for i in 0..count {
        numbers.push(first.saturating_add(i))?;
    }
    Ok(numbers)
}

// Empty files, of which the store's first fails at these calls.
fn disks(alloc: Global, fails: Numbers) -> Disks<MemoryDisk> {
    Disks {
        queue_a: disk(alloc, Numbers::new(alloc)),
        queue_b: disk(alloc, Numbers::new(alloc)),
        store_a: disk(alloc, fails),
        store_b: disk(alloc, Numbers::new(alloc)),
    }
}

// The core over new files. None where they can't be laid and opened.
fn opened(alloc: Global, disks: Disks<MemoryDisk>) -> Option<MemoryCore> {
    let mut disks = disks;
    if lay_core(alloc, &mut disks, Ttls::default_lifetimes()).is_err() {
        drop(disks);
        return None;
    }
    match open_core(alloc, disks) {
        Ok(core) => Some(core),
        Err((_fault, disks)) => {
            drop(disks);
            None
        }
    }
}

/// Facts of a node, with one fact, of that hour.
#[tactic(auto, using(stamp_time::proofs::RangeLaws::has_stamp))]
pub(crate) fn facts(alloc: Global, node: u64, hour: u64) -> Result<Command, AllocError>
    ensures { IfOk result (λ c. (length c.payload ≤ 16_777_216) × HasStamp c.received) }
{
    let payload = format!(in alloc;
        r#"{{"certname":"n{node}","environment":"production","values":{{"k":{hour}}},"producer_timestamp":"2024-05-01T{hour}:00:00Z","producer":"m"}}"#
    )?;
    if payload.len() > 16_777_216 {
        return Err(AllocError);
    }
    let Some(received) = read_stamp("2024-05-02T00:00:00Z") else {
        return Err(AllocError);
    };
    Ok(Command {
        kind: Kind::Facts,
        version: 5,
        received,
        payload: Bytes::from_slice(alloc, payload.as_bytes())?,
    })
}

// Whether these facts came in.
fn is_taken(core: &mut MemoryCore, command: Command) -> bool
    requires sized { length command.payload ≤ 16_777_216 }
    requires received { HasStamp command.received }
{
    let came = core.submit(command);
    let taken = matches!(came, Submitted::Receipt(_));
    drop(came);
    taken
}

// So many hours' facts of each of so many nodes come in, from ten on.
fn fill(alloc: Global, core: &mut MemoryCore, nodes: u64, hours: u64) -> Result<(), AllocError> {
    for at in 0..nodes.saturating_mul(hours) {
        if nodes == 0 {
            return Ok(());
        }
        let command = facts(alloc, at % nodes, (at / nodes).saturating_add(10))?;
        if !is_taken(core, command) {
            return Err(AllocError);
        }
    }
    Ok(())
}

/// A core over new files with so many hours' facts of each of so many nodes, where so many calls of the store's first file fail, from
/// this one on. None where the files can't be laid and opened.
pub(crate) fn busy_core(
    alloc: Global,
    fails: (u64, u64),
    nodes: u64,
    hours: u64,
) -> Result<Option<MemoryCore>, AllocError> {
    let numbers = numbers(alloc, fails.0, fails.1)?;
    match opened(alloc, disks(alloc, numbers)) {
        Some(core) => {
            let mut core = core;
            let filled = fill(alloc, &mut core, nodes, hours);
            behind(filled, Some(core))
        }
        None => Ok(None),
    }
}
