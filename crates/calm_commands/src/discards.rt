//! Prints the lines of the discarded commands.
ghost use Rattle.std.specs.Prelude.{◌≡◌, ◌≢◌, IfOk};
ghost use Rattle.std.specs.Io.KnownBytes.{Keeps};
ghost use Rattle.std.specs.List.{AllByRecursion};
ghost use Rattle.query_answer.specs.fleet_ports.Counts.{Counts};
ghost use Rattle.command_core.specs.core_spec.declared.dead.Dead.{Dead};
ghost use Rattle.command_core.specs.core_state.Seen.{IsFit};
ghost use Rattle.calm_commands.specs.Told.{stream};
ghost use Rattle.calm_commands.specs.Openings.{disk_sight_of};
ghost use Rattle.calm_commands.specs.Calm.{AreLines, IsLinesEnd, PrintsLines, IsDiscardsRun};

use crate::{Ended, Status, open_disks};
use fleet_ports::{Disk, Disks, Sink, Wrote, write_all};
use retry_discard::{Discards, write_line};
use std::alloc::{AllocError, Global};

/// Prints one line for each discarded command, by receipt. Without memory it prints nothing.
pub fn print_discards<O: Sink + Drop, D: Disk + Drop>(
    alloc: Global,
    disks: Disks<D>,
    out: &mut O,
) -> Ended<D>
    ensures { IsDiscardsRun (disk_sight_of D.Disk)
        (stream (O.held out.old) (O.fault_count out.old)) (stream (O.held out.new) (O.fault_count out.new)) disks result.disks result.status }
{
    match open_disks(alloc, disks) {
        Ok(core) => {
            let status = print_lines(alloc, core.discards(), out);
            Ended {
                status,
                disks: core.into_disks(),
            }
        }
        Err(ended) => ended,
    }
}

fn print_lines<O: Sink + Drop>(alloc: Global, discards: &Discards, out: &mut O) -> Status
    requires { AllByRecursion (λ (d : Dead). IsFit d.command) discards.now.list }
    ensures ends { IsLinesEnd result }
    ensures silent { result ≢ Status.Done → result ≢ Status.WriteFault → Keeps (O.held out.old) (O.held out.new) }
    ensures which { PrintsLines result discards.now.list (O.held out.old) (O.held out.new) }
    ensures cause { Counts (O.fault_count out.old) (O.fault_count out.new) (result ≡ Status.WriteFault) }
{
    match lines_of(alloc, discards) {
        Ok(text) => match write_all(out, text.as_slice()) {
            Wrote::All => Status::Done,
            Wrote::Failed { .. } => Status::WriteFault,
        },
        Err(_) => Status::Memory,
    }
}

fn lines_of(alloc: Global, discards: &Discards) -> Result<Vec<u8>, AllocError>
    requires { AllByRecursion (λ (d : Dead). IsFit d.command) discards.now.list }
    ensures { IfOk result (λ text. AreLines discards.now.list text.items) }
{
    let mut text = Vec::new(alloc);
    'lines: for i in 0..discards.count() {
        let line = write_line(alloc, discards.at(i))?;
        text.extend_from_slice(line.as_slice())?;
        text.push(b'\n')?;
    }
    Ok(text)
}
