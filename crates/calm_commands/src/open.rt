//! Opens a core, or ends the command.
ghost use Rattle.std.specs.Prelude.{◌≡◌, IfOk, IfErr};
ghost use Rattle.calm_commands.specs.Openings.{disk_sight_of, opening_status, OpensTo, IsUnopened};

use crate::{Ended, Status};
use command_core::{Core, LogKeeper, OpenCoreFault, open_core};
use core_opening::open_state;
use core_state::CoreState;
use fleet_ports::{Disk, Disks};
use std::alloc::Global;

/// The status of a command that couldn't open a core.
pub fn status_of_opening(fault: OpenCoreFault) -> Status
    ensures { result ≡ opening_status fault }
{
    match fault {
        OpenCoreFault::QueueFault => Status::QueueFault,
        OpenCoreFault::StoreFault => Status::StoreFault,
        OpenCoreFault::Damaged { file, at } => Status::Damaged { file, at },
        OpenCoreFault::Memory => Status::Memory,
        OpenCoreFault::Spent => Status::Spent,
    }
}

/// Opens a core over disks that were initialized or that an earlier run left, whatever image a crash left. If it can't be opened,
/// the command ends.
pub fn open_disks<D: Disk + Drop>(
    alloc: Global,
    disks: Disks<D>,
) -> Result<Core<D, LogKeeper<D>>, Ended<D>>
    ensures opened { IfOk result (λ core. OpensTo (disk_sight_of D.Disk) disks core) }
    ensures refused { IfErr result (λ ended. IsUnopened (disk_sight_of D.Disk) disks ended.disks ended.status) }
{
    match open_core(alloc, disks) {
        Ok(core) => Ok(core),
        Err((fault, disks)) => Err(Ended {
            status: status_of_opening(fault),
            disks,
        }),
    }
}

/// Opens the parts of a core, likewise. Rows are read off them, and no call changes what they hold.
pub(crate) fn open_parts<D: Disk + Drop>(
    alloc: Global,
    disks: Disks<D>,
) -> Result<CoreState<D, LogKeeper<D>>, Ended<D>>
    ensures opened { IfOk result (λ core. OpensTo (disk_sight_of D.Disk) disks core) }
    ensures refused { IfErr result (λ ended. IsUnopened (disk_sight_of D.Disk) disks ended.disks ended.status) }
{
    match open_state(alloc, disks) {
        Ok(core) => Ok(core),
        Err((fault, disks)) => Err(Ended {
            status: status_of_opening(fault),
            disks,
        }),
    }
}
