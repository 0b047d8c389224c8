//! Opens a core over its four disks.
ghost use Rattle.core_opening.specs.Call.{CoreOpens};

use crate::calls::Core;
use core_opening::{OpenCoreFault, open_state};
use core_settles::LogKeeper;
use fleet_ports::{Disk, Disks};
use std::alloc::Global;

/// Opens a core over the disks that [`lay_core`](crate::lay_core) or an earlier core left, whatever image a crash left. It opens
/// the queue's log first, then the store's. If the Done of the last change is missing in the queue, it is written before the
/// answer. Every error hands the disks back.
pub fn open_core<D: Disk + Drop>(
    alloc: Global,
    disks: Disks<D>,
) -> Result<Core<D, LogKeeper<D>>, (OpenCoreFault, Disks<D>)>
    ensures does { CoreOpens D.Disk result disks }
{
    match open_state(alloc, disks) {
        Ok(state) => Ok(Core::of_state(state)),
        Err(refused) => Err(refused),
    }
}
