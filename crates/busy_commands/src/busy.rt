//! Reads the arguments, and runs the command that they name.
ghost use Rattle.std.specs.Prelude.{◌≡◌};
ghost use Rattle.spool_run.specs.calm_commands.Openings.{disk_sight_of};
ghost use Rattle.spool_run.specs.calm_commands.Rows.{pattern_sight};
ghost use Rattle.spool_run.specs.calm_commands.Told.{stream};
ghost use Rattle.busy_commands.specs.Busy.{IsBusyRun};
ghost use Rattle.busy_commands.specs.Serving.{front_sight, front_and_patterns};

use crate::serving::{run_and_serve, serve_disks};
use fleet_ports::{Disk, Disks, Sink, Source};
use front_port::Front;
use json_tree::Text;
use pattern_port::Patterns;
use program_words::{Request, read_words};
use spool_run::{Ended, Gate, Status, run_spool};
use std::alloc::Global;
use std::sync::Wait;
use std::thread::Threads;

/// Does what the arguments ask for, if that is `run` or `serve`. All other arguments are a usage error. Without memory to read
/// them the end is [`Status::Memory`], and nothing is done. No contract says that it returns: `run` waits for its workers, and
/// serving waits for connections.
pub fn run_busy<
    S: Source + Drop,
    O: Sink + Drop,
    D: Disk + Drop + Send,
    F: Front + Drop,
    P: Patterns + Drop,
    G: Gate + Sync,
    R: Threads + Wait + Sync,
>(
    rt: &R,
    alloc: Global,
    words: &[Text],
    spool: &mut S,
    out: &mut O,
    disks: Disks<D>,
    front: &mut F,
    patterns: &mut P,
    gate: &G,
) -> Ended<D>
    ensures run { IsBusyRun (disk_sight_of D.Disk) words.now
        (stream (S.left spool.old) (S.fault_count spool.old)) (stream (S.left spool.new) (S.fault_count spool.new))
        (stream (O.held out.old) (O.fault_count out.old)) (stream (O.held out.new) (O.fault_count out.new))
        (front_and_patterns (front_sight (F.listens front.old) (F.left front.old) (F.handed_out front.old) (F.given_back front.old) (F.fault_count front.old))
        (pattern_sight (P.says patterns.old) (P.asked patterns.old) (P.refusals patterns.old)))
        (front_and_patterns (front_sight (F.listens front.new) (F.left front.new) (F.handed_out front.new) (F.given_back front.new) (F.fault_count front.new))
        (pattern_sight (P.says patterns.new) (P.asked patterns.new) (P.refusals patterns.new))) disks result.disks result.status }
    ensures usage { result.status ≡ Status.Usage
        → (spool.new ≡ spool.old) × (out.new ≡ out.old) × (front.new ≡ front.old) × (patterns.new ≡ patterns.old) × (result.disks ≡ disks) }
{
    match read_words(alloc, words) {
        Ok(found) => match found {
            Some(request) => match request {
                Request::Run {
                    workers,
                    now,
                    serving,
                } => match serving {
                    None => run_spool(rt, alloc, workers, now, spool, out, disks, gate),
                    Some(serving) => run_and_serve(
                        rt, alloc, workers, now, serving, spool, out, disks, front, patterns, gate,
                    ),
                },
                Request::Serve { serving, now } => {
                    serve_disks(alloc, serving, now, disks, front, patterns)
                }
                _ => unused(disks),
            },
            None => unused(disks),
        },
        Err(_) => unread(disks),
    }
}

// The end without memory to read the arguments.
fn unread<D: Disk + Drop>(disks: Disks<D>) -> Ended<D>
    ensures status { result.status ≡ Status.Memory }
    ensures disks { result.disks ≡ disks }
{
    Ended {
        status: Status::Memory,
        disks,
    }
}

// The end for arguments that are neither command.
fn unused<D: Disk + Drop>(disks: Disks<D>) -> Ended<D>
    ensures status { result.status ≡ Status.Usage }
    ensures disks { result.disks ≡ disks }
{
    Ended {
        status: Status::Usage,
        disks,
    }
}
