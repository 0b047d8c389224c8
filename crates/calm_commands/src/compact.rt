//! Compacts both logs of the disks.
ghost use Rattle.std.specs.Prelude.{◌≡◌};
ghost use Rattle.command_core.specs.core_opening.Opened.{IsUpCore};
ghost use Rattle.query_answer.specs.fleet_ports.declared.disk.Disks.{Disks};
ghost use Rattle.calm_commands.specs.Openings.{disk_sight_of, OpensTo};
ghost use Rattle.calm_commands.specs.Compacting.{IsCompactRun, compact_status};

use crate::{Ended, Status, open_disks};
use command_core::{Compacted, Core, LogKeeper};
use fleet_ports::{Disk, Disks};
use std::alloc::Global;

/// Rewrites both logs as checkpoints of what the files stand for, as they are read. They then stand for the same.
pub fn compact_disks<D: Disk + Drop>(alloc: Global, disks: Disks<D>) -> Ended<D>
    ensures { IsCompactRun (disk_sight_of D.Disk) disks result.disks result.status }
{
    match open_disks(alloc, disks) {
        Ok(core) => compact_opened(core),
        Err(ended) => ended,
    }
}

// Compacts a core that was just opened.
fn compact_opened<D: Disk + Drop>(core: Core<D, LogKeeper<D>>) -> Ended<D>
    requires up { IsUpCore D.seen D.may_leave core }
    ensures { (disks : Disks D) → OpensTo (disk_sight_of D.Disk) disks core
        → IsCompactRun (disk_sight_of D.Disk) disks result.disks result.status }
{
    let mut core = core;
    let came = core.compact();
    core.is_sound();
    Ended {
        status: status_of(came),
        disks: core.into_disks(),
    }
}

fn status_of(came: Compacted) -> Status
    requires up { came ≡ Compacted.Down → ⊥ }
    ensures { result ≡ compact_status came }
{
    match came {
        Compacted::Ok => Status::Done,
        Compacted::QueueFault => Status::QueueFault,
        Compacted::StoreFault => Status::StoreFault,
        Compacted::Spent => Status::Spent,
        Compacted::Down => unreachable!(),
        Compacted::Memory => Status::Memory,
    }
}
