//! Runs a spool over disks, and prints the summary.
ghost use Rattle.std.specs.Prelude.{◌≡◌, ◌≤◌};
ghost use Rattle.fleet_hub.specs.history_spec.Lawful.{HasStamp};
ghost use Rattle.fleet_hub.specs.core_opening.Opened.{IsUpCore};
ghost use Rattle.fleet_hub.specs.core_state.declared.tally.Tally.{Tally};
ghost use Rattle.spool_text.specs.fleet_ports.declared.disk.Disks.{Disks};
ghost use Rattle.calm_commands.specs.Openings.{disk_sight_of, OpensTo};
ghost use Rattle.calm_commands.specs.Told.{stream};
ghost use Rattle.spool_run.specs.Summary.{summary_text, Closes};
ghost use Rattle.spool_run.specs.Runs.{IsRun, RunsCore};
ghost use Rattle.fleet_rows.specs.Limits.{most_workers};

use crate::summary::print_summary;
use crate::{SpoolEnd, Taken, take_spool};
use calm_commands::{Ended, Status, open_disks};
use fleet_hub::{Core, Gate, LogKeeper, Tally};
use fleet_ports::{Disk, Disks, Sink, Source};
use stamp_time::Moment;
use std::alloc::Global;
use std::sync::Wait;
use std::thread::Threads;

/// The result of a run over an open core.
#[derive(Drop)]
pub struct RanCore<D: Disk + Drop> {
    /// The core.
    pub core: Core<D, LogKeeper<D>>,
    /// How it ended. At Done the spool was read to its end, and the summary was printed.
    pub status: Status,
}

/// Opens a core over the disks, takes the spool, and prints the summary. Each command is received at this moment, and this number
/// of workers settles the pending ones. If an item isn't whole, all items before it are taken, and the summary is printed.
pub fn run_spool<
    S: Source + Drop,
    O: Sink + Drop,
    D: Disk + Drop + Send,
    G: Gate + Sync,
    R: Threads + Wait + Sync,
>(
    rt: &R,
    alloc: Global,
    workers: u32,
    now: Moment,
    spool: &mut S,
    out: &mut O,
    disks: Disks<D>,
    gate: &G,
) -> Ended<D>
    requires some { 1 ≤ workers }
    requires few { workers ≤ most_workers }
    requires stamp { HasStamp now }
    ensures { IsRun (disk_sight_of D.Disk) now
        (stream (S.left spool.old) (S.fault_count spool.old)) (stream (S.left spool.new) (S.fault_count spool.new))
        (stream (O.held out.old) (O.fault_count out.old)) (stream (O.held out.new) (O.fault_count out.new)) disks result.disks result.status }
{
    match open_disks(alloc, disks) {
        Ok(core) => run_opened(rt, alloc, core, workers, now, spool, out, gate),
        Err(ended) => ended,
    }
}

// The same with a core that was just opened.
fn run_opened<
    S: Source + Drop,
    O: Sink + Drop,
    D: Disk + Drop + Send,
    G: Gate + Sync,
    R: Threads + Wait + Sync,
>(
    rt: &R,
    alloc: Global,
    core: Core<D, LogKeeper<D>>,
    workers: u32,
    now: Moment,
    spool: &mut S,
    out: &mut O,
    gate: &G,
) -> Ended<D>
    requires some { 1 ≤ workers }
    requires few { workers ≤ most_workers }
    requires stamp { HasStamp now }
    requires up { IsUpCore D.seen D.may_leave core }
    ensures { (disks : Disks D) → OpensTo (disk_sight_of D.Disk) disks core
        → IsRun (disk_sight_of D.Disk) now
        (stream (S.left spool.old) (S.fault_count spool.old)) (stream (S.left spool.new) (S.fault_count spool.new))
        (stream (O.held out.old) (O.fault_count out.old)) (stream (O.held out.new) (O.fault_count out.new)) disks result.disks result.status }
{
    let RanCore { core, status } = run_core(rt, alloc, core, workers, now, spool, out, gate);
    Ended {
        status,
        disks: core.into_disks(),
    }
}

/// Takes the spool with a core that was just opened, and prints the summary. The core stays open.
pub fn run_core<
    S: Source + Drop,
    O: Sink + Drop,
    D: Disk + Drop + Send,
    G: Gate + Sync,
    R: Threads + Wait + Sync,
>(
    rt: &R,
    alloc: Global,
    core: Core<D, LogKeeper<D>>,
    workers: u32,
    now: Moment,
    spool: &mut S,
    out: &mut O,
    gate: &G,
) -> RanCore<D>
    requires some { 1 ≤ workers }
    requires few { workers ≤ most_workers }
    requires stamp { HasStamp now }
    requires up { IsUpCore D.seen D.may_leave core }
    ensures { (disks : Disks D) → OpensTo (disk_sight_of D.Disk) disks core
        → RunsCore (disk_sight_of D.Disk) now
        (stream (S.left spool.old) (S.fault_count spool.old)) (stream (S.left spool.new) (S.fault_count spool.new))
        (stream (O.held out.old) (O.fault_count out.old)) (stream (O.held out.new) (O.fault_count out.new)) disks result.core result.status }
{
    let Taken { core, end } = take_spool(rt, alloc, core, spool, now, workers, gate);
    // The last call left it sound: that ties what it holds to the files.
    core.is_sound();
    let status = close(alloc, end, &core.tally(), out);
    RanCore { core, status }
}

// The status for the end of taking the spool. If the spool was read to its end, the summary is printed.
fn close<O: Sink + Drop>(alloc: Global, end: SpoolEnd, tally: &Tally, out: &mut O) -> Status
    ensures { Closes end (summary_text tally.now) (stream (O.held out.old) (O.fault_count out.old)) (stream (O.held out.new) (O.fault_count out.new)) result }
{
    match end {
        SpoolEnd::Done => print_summary(alloc, tally, Status::Done, out),
        SpoolEnd::Bad { at } => print_summary(alloc, tally, Status::SpoolBad { at }, out),
        SpoolEnd::ReadFault => Status::ReadFault,
        SpoolEnd::QueueFault => Status::QueueFault,
        SpoolEnd::StoreDown => Status::StoreDown,
        SpoolEnd::StoreFault => Status::StoreFault,
        SpoolEnd::Spent => Status::Spent,
        SpoolEnd::Memory => Status::Memory,
    }
}
