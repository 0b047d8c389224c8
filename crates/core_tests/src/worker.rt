//! The calls of a core, as a sender and a worker make them.
ghost use Rattle.std.specs.Prelude.{◌≡◌, IfOk};
ghost use Rattle.command_core.specs.core_settles.Settles.{IsVerdictOf};
ghost use Rattle.command_core.specs.core_state.Seen.{IsSubmitted, IsFit};

use command_core::{Claimed, Compacted, Core, Job, Prepared, Settled, Submitted, Swept, Verdict};
use command_decode::{DecodeFault, decode};
use fleet_keeper::Keeper;
use fleet_ports::Disk;
use fleet_rows::{Command, Kind, Kinds};
use json_tree::Bytes;
use stamp_time::read_stamp;
use std::alloc::{AllocError, Global};

/// What the core answers to facts with this payload.
pub(crate) fn send<D: Disk + Drop, K: Keeper + Drop>(
    alloc: Global,
    core: &mut Core<D, K>,
    payload: &str,
) -> Result<Submitted, AllocError> {
    let Some(received) = read_stamp("2024-06-01T00:00:00Z") else {
        return Err(AllocError);
    };
    if payload.len() > 16_777_216 {
        return Err(AllocError);
    }
    let command = Command {
        kind: Kind::Facts,
        version: 5,
        received,
        payload: Bytes::from_slice(alloc, payload.as_bytes())?,
    };
    Ok(core.submit(command))
}

/// What a worker came to.
#[derive(Clone, Copy, PartialEq, Eq, Debug)]
pub(crate) enum Came {
    /// A command ended.
    Ended,
    /// None was settled, or the settle failed.
    Failed,
    /// The command wasn't claimed any more.
    NotClaimed,
    /// No command is pending.
    Done,
}

/// What a worker says of a claimed command.
fn verdict_of(alloc: Global, job: &Job) -> Result<Verdict, AllocError>
    requires fit { IsFit job.now.command }
    ensures { IfOk result (λ v. IsVerdictOf v job.now.command) }
{
    match decode(alloc, job.command.command()) {
        Ok(change) => Ok(Verdict::Change(Prepared::of(alloc, job, change)?)),
        Err(DecodeFault::Refused(refusal)) => Ok(Verdict::Refused(refusal)),
        Err(DecodeFault::Memory) => Err(AllocError),
    }
}

fn came_of(settled: Settled) -> Came {
    match settled {
        Settled::Applied | Settled::Discarded => Came::Ended,
        Settled::NotClaimed => Came::NotClaimed,
        _ => Came::Failed,
    }
}

/// Settles a claimed command by what it decodes to.
fn settle_job<D: Disk + Drop, K: Keeper + Drop>(
    alloc: Global,
    core: &mut Core<D, K>,
    job: Job,
) -> Result<Came, AllocError>
    requires submitted { IsSubmitted job.receipt job.command core.old }
    requires fit { IsFit job.command }
{
    let verdict = verdict_of(alloc, &job)?;
    Ok(came_of(core.settle(job, verdict)))
}

/// Claims a command and settles it.
pub(crate) fn work<D: Disk + Drop, K: Keeper + Drop>(
    alloc: Global,
    core: &mut Core<D, K>,
) -> Result<Came, AllocError> {
    match core.claim() {
        Claimed::Job(job) => settle_job(alloc, core, job),
        Claimed::Done => Ok(Came::Done),
        _ => Ok(Came::Failed),
    }
}

/// Claims a command, frees all claims, and settles it.
pub(crate) fn work_late<D: Disk + Drop, K: Keeper + Drop>(
    alloc: Global,
    core: &mut Core<D, K>,
) -> Result<Came, AllocError> {
    match core.claim() {
        Claimed::Job(job) => {
            if core.is_down() {
                return Ok(Came::Failed);
            }
            core.free_claims();
            settle_job(alloc, core, job)
        }
        _ => Ok(Came::Failed),
    }
}

/// Claims a command, releases it, and settles it.
pub(crate) fn work_released<D: Disk + Drop, K: Keeper + Drop>(
    alloc: Global,
    core: &mut Core<D, K>,
) -> Result<Came, AllocError> {
    match core.claim() {
        Claimed::Job(job) => {
            core.release(Job {
                receipt: job.receipt,
                command: job.command.share()?,
            });
            settle_job(alloc, core, job)
        }
        _ => Ok(Came::Failed),
    }
}

/// Whether a command is claimed, and no more can be while it is, also behind a compaction.
pub(crate) fn rests<D: Disk + Drop, K: Keeper + Drop>(
    core: &mut Core<D, K>,
    compacts: bool,
) -> bool {
    match core.claim() {
        Claimed::Job(job) => {
            let goes_on = !compacts || core.compact() == Compacted::Ok;
            let rests = matches!(core.claim(), Claimed::Rest);
            core.release(job);
            goes_on && rests
        }
        _ => false,
    }
}

/// A sweep by which nodes of May 2024 are purged.
pub(crate) fn sweep<D: Disk + Drop, K: Keeper + Drop>(
    core: &mut Core<D, K>,
) -> Result<Swept, AllocError> {
    let Some(moment) = read_stamp("2024-06-01T00:00:00Z") else {
        return Err(AllocError);
    };
    let kinds = Kinds {
        expire: true,
        purge: true,
        reports: true,
    };
    Ok(core.sweep(kinds, moment))
}
