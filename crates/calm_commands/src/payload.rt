//! Prints the payload of a discarded command.
ghost use Rattle.std.specs.Prelude.{◌≡◌, ◌≢◌};
ghost use Rattle.std.specs.Io.KnownBytes.{Keeps};
ghost use Rattle.query_answer.specs.fleet_ports.Counts.{Counts};
ghost use Rattle.command_core.specs.retry_discard.Kept.{dead_at};
ghost use Rattle.calm_commands.specs.Told.{stream};
ghost use Rattle.calm_commands.specs.Openings.{disk_sight_of};
ghost use Rattle.calm_commands.specs.Calm.{IsPayloadEnd, PrintsPayload, IsPayloadRun};

use crate::{Ended, Status, open_disks};
use fleet_ports::{Disk, Disks, Sink, Wrote, write_all};
use retry_discard::Discards;
use std::alloc::Global;

/// Prints the payload of the command that was discarded under this receipt, byte for byte and without a line end.
pub fn print_payload<O: Sink + Drop, D: Disk + Drop>(
    alloc: Global,
    disks: Disks<D>,
    receipt: u64,
    out: &mut O,
) -> Ended<D>
    ensures { IsPayloadRun (disk_sight_of D.Disk) receipt
        (stream (O.held out.old) (O.fault_count out.old)) (stream (O.held out.new) (O.fault_count out.new)) disks result.disks result.status }
{
    match open_disks(alloc, disks) {
        Ok(core) => {
            let status = print_bytes(core.discards(), receipt, out);
            Ended {
                status,
                disks: core.into_disks(),
            }
        }
        Err(ended) => ended,
    }
}

fn print_bytes<O: Sink + Drop>(discards: &Discards, receipt: u64, out: &mut O) -> Status
    ensures ends { IsPayloadEnd result }
    ensures which { PrintsPayload result receipt (dead_at receipt discards.now.list) (O.held out.old) (O.held out.new) }
    ensures silent { result ≢ Status.Done → result ≢ Status.WriteFault → Keeps (O.held out.old) (O.held out.new) }
    ensures cause { Counts (O.fault_count out.old) (O.fault_count out.new) (result ≡ Status.WriteFault) }
{
    match discards.get(receipt) {
        Some(dead) => match write_all(out, dead.command.command().payload.as_slice()) {
            Wrote::All => Status::Done,
            Wrote::Failed { .. } => Status::WriteFault,
        },
        None => Status::NoSuch { receipt },
    }
}
