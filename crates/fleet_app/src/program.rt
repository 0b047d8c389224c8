//! Runs any command, over the arguments, the disks and the streams.
ghost use Rattle.std.specs.Prelude.{◌≡◌, None, IfOk, IfErr};
ghost use Rattle.std.specs.Process.{exit_status};
ghost use Rattle.busy_commands.specs.calm_commands.StatusText.{status_code, printed_line};
ghost use Rattle.busy_commands.specs.calm_commands.Told.{stream, IsTold};
ghost use Rattle.busy_commands.specs.calm_commands.Openings.{disk_sight_of};
ghost use Rattle.busy_commands.specs.calm_commands.Rows.{pattern_sight};
ghost use Rattle.busy_commands.specs.Serving.{front_sight};
ghost use Rattle.fleet_app.specs.Program.{fault_status};
ghost use Rattle.fleet_app.specs.Runs.{outside, IsAnyRun, HasRun};

use crate::calm::run_calm;
use busy_commands::{Ended, OpenGate, Status, print_line, run_busy};
use fleet_ports::{Disk, Disks, Sink, Source};
use front_port::Front;
use json_tree::Text;
use pattern_port::Patterns;
use program_words::needs_wait;
use std::alloc::Global;
use std::process::ExitCode;
use std::sync::Wait;
use std::thread::Threads;

/// Why a run can't begin.
#[derive(Clone, Copy, PartialEq, Eq, Debug)]
pub enum StartFault {
    /// An argument isn't UTF-8.
    NotUtf8,
    /// There was no memory for the arguments, or no random bytes for the keys of hashes.
    Memory,
    /// A file of the queue can't be opened.
    QueueFile,
    /// A file of the store can't be opened.
    StoreFile,
}

/// How the program ended.
#[derive(Drop)]
pub struct Exit<D: Disk + Drop> {
    /// The exit code of its status.
    pub code: ExitCode,
    /// The disks that it was given, as the run left them. None if no run began.
    pub disks: Option<Disks<D>>,
}

/// Runs the command that the arguments name: by [`run_busy`] if it may wait, and otherwise by [`run_calm`]. It answers the exit
/// status, which is the code of the status, and the disks. Unless the code is 0, it prints the status's line and a line end to
/// the errors, which takes no memory.
///
/// `run` waits for its workers, and serving waits for connections; no contract says that they return. All other commands return.
///
/// If a run can't begin, the status is that of the fault. Then it reads nothing, and prints only that line.
#[tactic(auto, using(crate::proofs::Codes::usage_told, crate::proofs::Codes::done_told))]
pub fn run_program<
    S: Source + Drop,
    O: Sink + Drop,
    E: Sink + Drop,
    D: Disk + Drop + Send,
    F: Front + Drop,
    P: Patterns + Drop,
    R: Threads + Wait + Sync,
>(
    rt: &R,
    alloc: Global,
    start: Result<(&[Text], Disks<D>), StartFault>,
    spool: &mut S,
    out: &mut O,
    errors: &mut E,
    front: &mut F,
    patterns: &mut P,
) -> Exit<D>
    // The call's status and disks are those of `run_busy` or `run_calm`. The exit status is the code of the status, whose line is
    // printed.
    ensures run { (status : Status) × (exit_status result.code ≡ status_code status)
        × IfOk start.entry (λ it. HasRun (disk_sight_of D.Disk) it.0.now
        (front_sight (F.listens front.old) (F.left front.old) (F.handed_out front.old) (F.given_back front.old) (F.fault_count front.old))
        (front_sight (F.listens front.new) (F.left front.new) (F.handed_out front.new) (F.given_back front.new) (F.fault_count front.new))
        (outside (stream (S.left spool.old) (S.fault_count spool.old)) (stream (O.held out.old) (O.fault_count out.old))
        (pattern_sight (P.says patterns.old) (P.asked patterns.old) (P.refusals patterns.old)))
        (outside (stream (S.left spool.new) (S.fault_count spool.new)) (stream (O.held out.new) (O.fault_count out.new))
        (pattern_sight (P.says patterns.new) (P.asked patterns.new) (P.refusals patterns.new))) it.1 result.disks status)
        × IfErr start.entry (λ fault. (status ≡ fault_status fault) × (result.disks ≡ None))
        × IsTold (printed_line status)
        (stream (E.held errors.old) (E.fault_count errors.old)) (stream (E.held errors.new) (E.fault_count errors.new)) }

    ensures no_run { IfErr start.entry (λ fault. (spool.new ≡ spool.old) × (out.new ≡ out.old) × (front.new ≡ front.old) × (patterns.new ≡ patterns.old)) }
    ensures usage { exit_status result.code ≡ 2 → (spool.new ≡ spool.old) × (out.new ≡ out.old) × (front.new ≡ front.old) × (patterns.new ≡ patterns.old) }
    ensures quiet { exit_status result.code ≡ 0 → errors.new ≡ errors.old }
{
    let (status, disks) = end_of(rt, alloc, start, spool, out, front, patterns);
    print_line(&status, errors);
    Exit {
        code: ExitCode::from(status.code()),
        disks,
    }
}

// The status of a run and the disks that it leaves, if it begins.
fn end_of<
    S: Source + Drop,
    O: Sink + Drop,
    D: Disk + Drop + Send,
    F: Front + Drop,
    P: Patterns + Drop,
    R: Threads + Wait + Sync,
>(
    rt: &R,
    alloc: Global,
    start: Result<(&[Text], Disks<D>), StartFault>,
    spool: &mut S,
    out: &mut O,
    front: &mut F,
    patterns: &mut P,
) -> (Status, Option<Disks<D>>)
    ensures run { IfOk start.entry (λ it. HasRun (disk_sight_of D.Disk) it.0.now
        (front_sight (F.listens front.old) (F.left front.old) (F.handed_out front.old) (F.given_back front.old) (F.fault_count front.old))
        (front_sight (F.listens front.new) (F.left front.new) (F.handed_out front.new) (F.given_back front.new) (F.fault_count front.new))
        (outside (stream (S.left spool.old) (S.fault_count spool.old)) (stream (O.held out.old) (O.fault_count out.old))
        (pattern_sight (P.says patterns.old) (P.asked patterns.old) (P.refusals patterns.old)))
        (outside (stream (S.left spool.new) (S.fault_count spool.new)) (stream (O.held out.new) (O.fault_count out.new))
        (pattern_sight (P.says patterns.new) (P.asked patterns.new) (P.refusals patterns.new))) it.1 result.1 result.0) }
    ensures fault { IfErr start.entry (λ fault. (result.0 ≡ fault_status fault) × (result.1 ≡ None)) }
    ensures no_run { IfErr start.entry (λ fault. (spool.new ≡ spool.old) × (out.new ≡ out.old) × (front.new ≡ front.old) × (patterns.new ≡ patterns.old)) }
    ensures usage { result.0 ≡ Status.Usage → (spool.new ≡ spool.old) × (out.new ≡ out.old) × (front.new ≡ front.old) × (patterns.new ≡ patterns.old) }
{
    match start {
        Ok((words, disks)) => {
            let Ended { status, disks } = run_words(
                rt, alloc, words, spool, out, disks, front, patterns,
            );
            (status, Some(disks))
        }
        Err(StartFault::NotUtf8) => (Status::Usage, None),
        Err(StartFault::Memory) => (Status::Memory, None),
        Err(StartFault::QueueFile) => (Status::QueueFault, None),
        Err(StartFault::StoreFile) => (Status::StoreFault, None),
    }
}

// Runs the command that the arguments name.
fn run_words<
    S: Source + Drop,
    O: Sink + Drop,
    D: Disk + Drop + Send,
    F: Front + Drop,
    P: Patterns + Drop,
    R: Threads + Wait + Sync,
>(
    rt: &R,
    alloc: Global,
    words: &[Text],
    spool: &mut S,
    out: &mut O,
    disks: Disks<D>,
    front: &mut F,
    patterns: &mut P,
) -> Ended<D>
    ensures run { IsAnyRun (disk_sight_of D.Disk) words.now
        (front_sight (F.listens front.old) (F.left front.old) (F.handed_out front.old) (F.given_back front.old) (F.fault_count front.old))
        (front_sight (F.listens front.new) (F.left front.new) (F.handed_out front.new) (F.given_back front.new) (F.fault_count front.new))
        (outside (stream (S.left spool.old) (S.fault_count spool.old)) (stream (O.held out.old) (O.fault_count out.old))
        (pattern_sight (P.says patterns.old) (P.asked patterns.old) (P.refusals patterns.old)))
        (outside (stream (S.left spool.new) (S.fault_count spool.new)) (stream (O.held out.new) (O.fault_count out.new))
        (pattern_sight (P.says patterns.new) (P.asked patterns.new) (P.refusals patterns.new))) disks result.disks result.status }
    ensures usage { result.status ≡ Status.Usage → (spool.new ≡ spool.old) × (out.new ≡ out.old) × (front.new ≡ front.old) × (patterns.new ≡ patterns.old) }
{
    if needs_wait(words) {
        run_busy(
            rt, alloc, words, spool, out, disks, front, patterns, &OpenGate,
        )
    } else {
        run_calm(alloc, words, spool, out, disks, patterns)
    }
}
