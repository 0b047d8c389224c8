//! Runs `make`: prints a made spool.
ghost use Rattle.busy_commands.specs.calm_commands.Told.{stream};
ghost use Rattle.fleet_app.specs.Runs.{IsMakeRun};

use busy_commands::Status;
use fleet_ports::Sink;
use spool_text::{Made, make};
use std::alloc::Global;

/// Prints the spool of this number of items that the seed gives.
pub(crate) fn print_made<O: Sink + Drop>(
    alloc: Global,
    seed: u64,
    count: u32,
    out: &mut O,
) -> Status
    ensures { IsMakeRun seed count
        (stream (O.held out.old) (O.fault_count out.old)) (stream (O.held out.new) (O.fault_count out.new)) result }
{
    match make(alloc, seed, count, out) {
        Made::Ok => Status::Done,
        Made::WriteFault => Status::WriteFault,
        Made::Memory => Status::Memory,
    }
}
