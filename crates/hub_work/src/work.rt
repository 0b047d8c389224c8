//! Works as one worker: claims, decodes and settles, until an end.
ghost use Rattle.std.specs.Prelude.{◌≡◌, Some, None};
ghost use Rattle.hub_calls.specs.core_ends.Answers.{after_claim};
ghost use Rattle.hub_calls.specs.core_ends.core_settles.Settles.{IsVerdictOf};
ghost use Rattle.hub_calls.specs.core_ends.core_state.Seen.{IsFit};
ghost use Rattle.hub_calls.specs.core_ends.core_course.Sight.{sight_of};
ghost use Rattle.hub_work.specs.Ends.{LastCall, WorksOn};
ghost use Rattle.hub_calls.specs.Entries.{WasSubmitted};
ghost use Rattle.hub_calls.specs.Seen.{PassGoesOn};

use crate::gate::Gate;
use command_decode::DecodeFault;
use fleet_ports::Disk;
use fleet_rows::Change;
use hub_calls::{
    Claimed, Job, Keeper, Lock, Pass, Prepared, Purpose, Settled, Verdict, WorkEnd, claim,
    end_of_settle, release, settle,
};
use std::alloc::Global;
use std::sync::Wait;

/// Claims, decodes by the gate, prepares and settles command after command, until an end. Decoding and preparing happen outside
/// the lock. If no command may be claimed now, the worker rests until something has changed, and claims again. Without memory the
/// command at hand is queued again, which counts no failure.
///
/// Before it decodes, it takes four bytes for each byte of the payload in one piece, and gives them back. If that fails, it
/// decodes anyway.
pub fn work_at<D: Disk + Drop, K: Keeper + Drop, P: Purpose, G: Gate, W: Wait>(
    lock: &Lock<D, K, P>,
    rt: &W,
    alloc: Global,
    pass: &mut Pass<D, K, P>,
    gate: &G,
    worker: u32,
) -> WorkEnd
    requires pass { pass.old.lock ≡ lock.now.lock }
    ensures pass { PassGoesOn pass.old pass.new }
    ensures ends { LastCall (sight_of D.Disk K.Keeper) K.generation P.only_work None result pass.old pass.new }
{
    'turns: for _ in rt.forever() {
        if let Some(end) = turn(lock, rt, alloc, pass, gate, worker) {
            return end;
        }
    }
    unreachable!()
}

// Claims a command and works on it. None means that the work may go on.
fn turn<D: Disk + Drop, K: Keeper + Drop, P: Purpose, G: Gate, W: Wait>(
    lock: &Lock<D, K, P>,
    rt: &W,
    alloc: Global,
    pass: &mut Pass<D, K, P>,
    gate: &G,
    worker: u32,
) -> Option<WorkEnd>
    requires pass { pass.old.lock ≡ lock.now.lock }
    ensures pass { PassGoesOn pass.old pass.new }
    ensures ends { WorksOn (sight_of D.Disk K.Keeper) K.generation P.only_work None result pass.old pass.new }
{
    let news = lock.news();
    match claim(lock, rt, pass) {
        Claimed::Job(job) => work_on(lock, rt, alloc, pass, gate, worker, job),
        claimed => end_of_claim(lock, rt, news, &claimed),
    }
}

// Decodes a claimed command, prepares its change and settles it.
fn work_on<D: Disk + Drop, K: Keeper + Drop, P: Purpose, G: Gate, W: Wait>(
    lock: &Lock<D, K, P>,
    rt: &W,
    alloc: Global,
    pass: &mut Pass<D, K, P>,
    gate: &G,
    worker: u32,
    job: Job,
) -> Option<WorkEnd>
    requires pass { pass.old.lock ≡ lock.now.lock }
    requires submitted { WasSubmitted job.receipt job.command pass.old.seen }
    requires fit { IsFit job.command }
    ensures pass { PassGoesOn pass.old pass.new }
    ensures ends { WorksOn (sight_of D.Disk K.Keeper) K.generation P.only_work (Some job) result pass.old pass.new }
{
    make_room(alloc, &job);
    match gate.decode(alloc, worker, job.receipt, job.command.command()) {
        Ok(change) => settle_change(lock, rt, alloc, pass, job, change),
        Err(DecodeFault::Refused(refusal)) => settle_as(
            lock,
            rt,
            pass,
            job,
            Verdict::Refused(refusal),
        ),
        Err(DecodeFault::Memory) => Some(give_back(lock, rt, pass, job)),
    }
}

// The bytes of memory that `make_room` takes for each byte of a payload.
const ROOM: usize = 4;

// Takes room for what the command decodes to in one piece, and gives it back. Some C libraries grow each thread's memory page by
// page, while all threads wait for each other. This grows it once. If there is no room, the decoding will notice.
fn make_room(alloc: Global, job: &Job) {
    let size = job
        .command
        .command()
        .payload
        .as_slice()
        .len()
        .saturating_mul(ROOM);
    let _ = Vec::<u8>::with_capacity(alloc, size);
}

// Prepares the decoded change outside the lock, and settles the command.
fn settle_change<D: Disk + Drop, K: Keeper + Drop, P: Purpose, W: Wait>(
    lock: &Lock<D, K, P>,
    rt: &W,
    alloc: Global,
    pass: &mut Pass<D, K, P>,
    job: Job,
    change: Change,
) -> Option<WorkEnd>
    requires pass { pass.old.lock ≡ lock.now.lock }
    requires submitted { WasSubmitted job.receipt job.command pass.old.seen }
    requires fit { IsFit job.command }
    requires decodes { IsVerdictOf (Verdict.Change change) job.command }
    ensures pass { PassGoesOn pass.old pass.new }
    ensures ends { WorksOn (sight_of D.Disk K.Keeper) K.generation P.only_work (Some job) result pass.old pass.new }
{
    match Prepared::of(alloc, &job, change) {
        Ok(prepared) => settle_as(lock, rt, pass, job, Verdict::Change(prepared)),
        Err(_) => Some(give_back(lock, rt, pass, job)),
    }
}

// Settles the command by what it decodes to.
fn settle_as<D: Disk + Drop, K: Keeper + Drop, P: Purpose, W: Wait>(
    lock: &Lock<D, K, P>,
    rt: &W,
    pass: &mut Pass<D, K, P>,
    job: Job,
    verdict: Verdict,
) -> Option<WorkEnd>
    requires pass { pass.old.lock ≡ lock.now.lock }
    requires submitted { WasSubmitted job.receipt job.command pass.old.seen }
    requires fit { IsFit job.command }
    requires decodes { IsVerdictOf verdict job.command }
    ensures pass { PassGoesOn pass.old pass.new }
    ensures ends { WorksOn (sight_of D.Disk K.Keeper) K.generation P.only_work (Some job) result pass.old pass.new }
{
    match settle(lock, rt, pass, job, verdict) {
        Settled::Memory(job, _) => Some(give_back(lock, rt, pass, job)),
        settled => end_of_settle(&settled),
    }
}

// Queues the command again, since there was no memory.
fn give_back<D: Disk + Drop, K: Keeper + Drop, P: Purpose, W: Wait>(
    lock: &Lock<D, K, P>,
    rt: &W,
    pass: &mut Pass<D, K, P>,
    job: Job,
) -> WorkEnd
    requires pass { pass.old.lock ≡ lock.now.lock }
    ensures pass { PassGoesOn pass.old pass.new }
    ensures ends { LastCall (sight_of D.Disk K.Keeper) K.generation P.only_work (Some job) result pass.old pass.new }
{
    release(lock, rt, pass, job);
    WorkEnd::Memory
}

// The end that an answer of a claim means. If no command may be claimed now, it rests until something has changed since before
// the claim.
fn end_of_claim<D: Disk + Drop, K: Keeper + Drop, P: Purpose, W: Wait>(
    lock: &Lock<D, K, P>,
    rt: &W,
    news: u64,
    claimed: &Claimed,
) -> Option<WorkEnd>
    ensures { result ≡ after_claim claimed.now }
{
    match claimed {
        Claimed::Job(_) => None,
        Claimed::Rest => {
            lock.rest(rt, news);
            None
        }
        Claimed::Done => Some(WorkEnd::Done),
        Claimed::QueueFault => Some(WorkEnd::QueueFault),
        Claimed::Spent => Some(WorkEnd::Spent),
        Claimed::Down => Some(WorkEnd::Down),
        Claimed::Memory => Some(WorkEnd::Memory),
    }
}
