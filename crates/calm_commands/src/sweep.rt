//! Sweeps the tables of the disks once.
ghost use Rattle.std.specs.Prelude.{◌≡◌};
ghost use Rattle.query_answer.specs.history_spec.Lawful.{HasStamp};
ghost use Rattle.command_core.specs.core_opening.Opened.{IsUpCore};
ghost use Rattle.query_answer.specs.fleet_ports.declared.disk.Disks.{Disks};
ghost use Rattle.calm_commands.specs.Openings.{disk_sight_of, OpensTo};
ghost use Rattle.calm_commands.specs.Calm.{IsSweepRun};
ghost use Rattle.calm_commands.specs.Ends.{sweep_status};

use crate::{Ended, Status, open_disks};
use command_core::{Core, LogKeeper, Swept};
use fleet_ports::{Disk, Disks};
use fleet_rows::Kinds;
use stamp_time::Moment;
use std::alloc::Global;

/// Sweeps the tables that the files stand for, as they are read, with these kinds of sweep at this moment.
pub fn sweep_disks<D: Disk + Drop>(
    alloc: Global,
    disks: Disks<D>,
    kinds: Kinds,
    now: Moment,
) -> Ended<D>
    requires stamp { HasStamp now }
    ensures { IsSweepRun (disk_sight_of D.Disk) kinds now disks result.disks result.status }
{
    match open_disks(alloc, disks) {
        Ok(core) => sweep_opened(core, kinds, now),
        Err(ended) => ended,
    }
}

// Sweeps a core that was just opened.
fn sweep_opened<D: Disk + Drop>(core: Core<D, LogKeeper<D>>, kinds: Kinds, now: Moment) -> Ended<D>
    requires stamp { HasStamp now }
    requires up { IsUpCore D.seen D.may_leave core }
    ensures { (disks : Disks D) → OpensTo (disk_sight_of D.Disk) disks core
        → IsSweepRun (disk_sight_of D.Disk) kinds now disks result.disks result.status }
{
    let mut core = core;
    let swept = core.sweep(kinds, now);
    Ended {
        status: status_of(swept),
        disks: core.into_disks(),
    }
}

fn status_of(swept: Swept) -> Status
    requires up { swept ≡ Swept.Down → ⊥ }
    ensures { result ≡ sweep_status swept }
{
    match swept {
        Swept::Ok => Status::Done,
        Swept::StoreFault => Status::StoreFault,
        Swept::StoreDown => Status::StoreDown,
        Swept::Spent => Status::Spent,
        Swept::Down => unreachable!(),
        Swept::Memory => Status::Memory,
    }
}
