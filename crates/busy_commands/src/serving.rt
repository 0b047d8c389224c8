//! Serves connections over a core, also after a run.
ghost use Rattle.std.specs.Prelude.{◌≡◌, ◌≤◌};
ghost use Rattle.spool_run.specs.history_spec.Lawful.{HasStamp};
ghost use Rattle.spool_run.specs.calm_commands.Openings.{disk_sight_of};
ghost use Rattle.spool_run.specs.calm_commands.Rows.{pattern_sight};
ghost use Rattle.spool_run.specs.calm_commands.Told.{stream};
ghost use Rattle.busy_commands.specs.Serving.{front_sight, front_and_patterns, end_status, ServesOver, ServesBehind, IsRunAndServing, IsServing};
ghost use Rattle.spool_run.specs.fleet_rows.Limits.{most_workers};

use core_inbox::{ServeEnd, Served, serve_links};
use fleet_ports::{Disk, Disks, Sink, Source};
use front_port::Front;
use pattern_port::Patterns;
use program_words::Serving;
use spool_run::{Core, Ended, Gate, LogKeeper, RanCore, Status, open_disks, run_core};
use stamp_time::Moment;
use std::alloc::Global;
use std::sync::Wait;
use std::thread::Threads;

/// Runs a spool. If that ends at Done, so that its summary was printed, it then serves connections.
pub(crate) fn run_and_serve<
    S: Source + Drop,
    O: Sink + Drop,
    D: Disk + Drop + Send,
    F: Front + Drop,
    P: Patterns + Drop,
    G: Gate + Sync,
    R: Threads + Wait + Sync,
>(
    rt: &R,
    alloc: Global,
    workers: u32,
    now: Moment,
    serving: Serving,
    spool: &mut S,
    out: &mut O,
    disks: Disks<D>,
    front: &mut F,
    patterns: &mut P,
    gate: &G,
) -> Ended<D>
    requires some { 1 ≤ workers }
    requires few { workers ≤ most_workers }
    requires stamp { HasStamp now }
    ensures { IsRunAndServing (disk_sight_of D.Disk) now serving
        (stream (S.left spool.old) (S.fault_count spool.old)) (stream (S.left spool.new) (S.fault_count spool.new))
        (stream (O.held out.old) (O.fault_count out.old)) (stream (O.held out.new) (O.fault_count out.new))
        (front_and_patterns (front_sight (F.listens front.old) (F.left front.old) (F.handed_out front.old) (F.given_back front.old) (F.fault_count front.old))
        (pattern_sight (P.says patterns.old) (P.asked patterns.old) (P.refusals patterns.old)))
        (front_and_patterns (front_sight (F.listens front.new) (F.left front.new) (F.handed_out front.new) (F.given_back front.new) (F.fault_count front.new))
        (pattern_sight (P.says patterns.new) (P.asked patterns.new) (P.refusals patterns.new))) disks result.disks result.status }
{
    match open_disks(alloc, disks) {
        Ok(core) => {
            let RanCore { core, status } = run_core(
                rt, alloc, core, workers, now, spool, out, gate,
            );
            serve_behind(alloc, core, status, serving, now, front, patterns)
        }
        Err(ended) => ended,
    }
}

// Serves over the core that a run left, if the run ended at Done.
fn serve_behind<D: Disk + Drop, F: Front + Drop, P: Patterns + Drop>(
    alloc: Global,
    core: Core<D, LogKeeper<D>>,
    status: Status,
    serving: Serving,
    now: Moment,
    front: &mut F,
    patterns: &mut P,
) -> Ended<D>
    requires stamp { HasStamp now }
    ensures { ServesBehind (disk_sight_of D.Disk) now serving
        (front_and_patterns (front_sight (F.listens front.old) (F.left front.old) (F.handed_out front.old) (F.given_back front.old) (F.fault_count front.old))
        (pattern_sight (P.says patterns.old) (P.asked patterns.old) (P.refusals patterns.old)))
        (front_and_patterns (front_sight (F.listens front.new) (F.left front.new) (F.handed_out front.new) (F.given_back front.new) (F.fault_count front.new))
        (pattern_sight (P.says patterns.new) (P.asked patterns.new) (P.refusals patterns.new))) core status result.disks result.status }
{
    match status {
        Status::Done => serve_core(alloc, core, serving, now, front, patterns),
        _ => Ended {
            status,
            disks: core.into_disks(),
        },
    }
}

/// Serves connections over what the disks hold.
pub(crate) fn serve_disks<D: Disk + Drop, F: Front + Drop, P: Patterns + Drop>(
    alloc: Global,
    serving: Serving,
    now: Moment,
    disks: Disks<D>,
    front: &mut F,
    patterns: &mut P,
) -> Ended<D>
    requires stamp { HasStamp now }
    ensures { IsServing (disk_sight_of D.Disk) now serving
        (front_and_patterns (front_sight (F.listens front.old) (F.left front.old) (F.handed_out front.old) (F.given_back front.old) (F.fault_count front.old))
        (pattern_sight (P.says patterns.old) (P.asked patterns.old) (P.refusals patterns.old)))
        (front_and_patterns (front_sight (F.listens front.new) (F.left front.new) (F.handed_out front.new) (F.given_back front.new) (F.fault_count front.new))
        (pattern_sight (P.says patterns.new) (P.asked patterns.new) (P.refusals patterns.new))) disks result.disks result.status }
{
    match open_disks(alloc, disks) {
        Ok(core) => serve_core(alloc, core, serving, now, front, patterns),
        Err(ended) => ended,
    }
}

// Listens, and serves connections over the core.
fn serve_core<D: Disk + Drop, F: Front + Drop, P: Patterns + Drop>(
    alloc: Global,
    core: Core<D, LogKeeper<D>>,
    serving: Serving,
    now: Moment,
    front: &mut F,
    patterns: &mut P,
) -> Ended<D>
    requires stamp { HasStamp now }
    ensures { ServesOver (disk_sight_of D.Disk) now serving
        (front_and_patterns (front_sight (F.listens front.old) (F.left front.old) (F.handed_out front.old) (F.given_back front.old) (F.fault_count front.old))
        (pattern_sight (P.says patterns.old) (P.asked patterns.old) (P.refusals patterns.old)))
        (front_and_patterns (front_sight (F.listens front.new) (F.left front.new) (F.handed_out front.new) (F.given_back front.new) (F.fault_count front.new))
        (pattern_sight (P.says patterns.new) (P.asked patterns.new) (P.refusals patterns.new))) core result.disks result.status }
{
    core.is_sound();
    match front.listen(serving.port) {
        Ok(()) => {
            let Served { core, end } = serve_links(
                alloc,
                core,
                front,
                patterns,
                now,
                serving.links,
            );
            // The last call left it sound: that ties what it holds to the files.
            core.is_sound();
            Ended {
                status: status_of(end),
                disks: core.into_disks(),
            }
        }
        Err(_) => Ended {
            status: Status::ListenFault,
            disks: core.into_disks(),
        },
    }
}

fn status_of(end: ServeEnd) -> Status
    ensures { result ≡ end_status end }
{
    match end {
        ServeEnd::Done => Status::Done,
        ServeEnd::FrontFault => Status::ListenFault,
    }
}
