//! Submits a command: writes its record to the queue's log, then answers its receipt.
ghost use Rattle.std.specs.Prelude.{◌≤◌, length};
ghost use Rattle.core_state.specs.history_spec.Lawful.{HasStamp};
ghost use Rattle.core_state.specs.Seen.{CoreIsSound};
ghost use Rattle.core_submits.specs.Call.{CoreSubmits};
ghost use Rattle.core_submits.specs.Submits.{DoesSubmit};
ghost use Rattle.fleet_rows.specs.json_tree.Limits.{most_payload};

use crate::prepare::{is_full, prepare};
use crate::take::take_in;
use core_state::{CoreState, Keeper};
use fleet_ports::Disk;
use fleet_rows::{Command, Submitted};

/// Checks the limits, and then submits the command.
fn submit_step<D: Disk + Drop, K: Keeper + Drop>(
    core: &mut CoreState<D, K>,
    command: Command,
) -> Submitted
    requires sound { CoreIsSound D.Disk K.Keeper core.old }
    requires payload { length command.payload ≤ most_payload }
    requires received { HasStamp command.received }
    ensures does { DoesSubmit D.Disk K.Keeper result command core.old core.new }
{
    if core.is_down() {
        return Submitted::Down;
    }
    if is_full(&core.pending, command.payload.as_slice().len()) {
        return Submitted::Full;
    }
    if core.last == u64::MAX {
        return Submitted::Spent;
    }
    match prepare(core.alloc, core.last + 1, command) {
        Ok(prepared) => take_in(core, prepared),
        Err(_) => Submitted::Memory,
    }
}

/// Submits a command under the next receipt. After a receipt, each image of the disks has the command. After any other answer the
/// core doesn't hold the command. An image may then have it only if the queue's log went down.
pub fn submit<D: Disk + Drop, K: Keeper + Drop>(
    core: &mut CoreState<D, K>,
    command: Command,
) -> Submitted
    requires sound { CoreIsSound D.Disk K.Keeper core.old }
    requires payload { length command.payload ≤ most_payload }
    requires received { HasStamp command.received }
    ensures does { CoreSubmits D.Disk K.Keeper result command core.old core.new }
{
    submit_step(core, command)
}
