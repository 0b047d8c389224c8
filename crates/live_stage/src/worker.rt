//! The loop of one worker.
ghost use Rattle.std.specs.Prelude.{◌≡◌, IfSome, Some, None};
ghost use Rattle.core_ends.specs.core_settles.Settles.{IsVerdictOf};
ghost use Rattle.core_ends.specs.core_state.Seen.{IsFit};
ghost use Rattle.core_ends.specs.core_course.Sight.{sight_of};
ghost use Rattle.hub_calls.specs.Entries.{WasSubmitted};
ghost use Rattle.live_stage.specs.Notes.{core_entries};
ghost use Rattle.live_stage.specs.StageCalls.{WorksOn};
ghost use Rattle.live_stage.specs.WorkEnds.{next_of_claim, next_of_settle, next_at, IsClosed, TurnsTo, GoesOnOr};

use crate::under_lock::{StageLock, StagePass, claim, release, settle};
use command_decode::DecodeFault;
use core_ends::{Claimed, Job, Keeper, Prepared, Settled, Verdict};
use fleet_ports::Disk;
use fleet_rows::Change;
use hub_work::Gate;
use std::alloc::Global;
use std::sync::{OnceLock, OnceToken, Wait};

/// Why the work of a worker ended. A token shows that the server closes.
#[derive(Drop)]
pub enum WorkStop<'a> {
    /// The server closes. The last call claimed, and nothing was to be claimed (`Rest`, `Done`).
    Done(OnceToken<'a, ()>),
    /// The server closes. The last call met a fault, or want of room (`QueueFault`, `Spent`). Or it was a claim without memory
    /// (`Memory`), or it queued a command again that there was no memory for.
    Paused(OnceToken<'a, ()>),
    /// The core is down: the last call claimed or settled, and was told so (`Down`, `StoreDown`).
    Down,
}

/// What a worker does after a turn.
#[derive(Clone, Copy, PartialEq, Eq, Debug)]
pub(crate) enum Next {
    /// It claims again.
    Claim,
    /// Nothing may be claimed: it rests until there is news since its claim.
    Rest,
    /// A fault was got over, or memory or room is missing: it rests until others have news.
    Pause,
    /// It stops: a log is down.
    Stop,
}

/// Claims, decodes by the gate, prepares and settles command after command. Decoding and preparing happen outside the lock. Where
/// nothing can be done the worker rests until there is news. It stops when the core is down, or when the server closes and there is
/// nothing to do. Whoever closes the server sets `closing` and then calls `wake_all` of the lock.
///
/// A fault that was got over, and want of memory, stop no worker until the server closes: it rests and goes on, as a server runs
/// for days.
pub fn work<'a, D: Disk + Drop, K: Keeper + Drop, G: Gate, W: Wait>(
    lock: &StageLock<D, K>,
    rt: &W,
    alloc: Global,
    pass: &mut StagePass<D, K>,
    gate: &G,
    worker: u32,
    closing: &'a OnceLock<()>,
) -> WorkStop<'a>
    requires pass { pass.old.lock ≡ lock.now.lock }
    ensures pass { (pass.new.lock ≡ pass.old.lock) × (pass.new.spares ≡ pass.old.spares) }
    ensures works { WorksOn (sight_of D.Disk K.Keeper) K.generation None pass.old None pass.new }

    // The last call is one that stops a worker so, and unless the core is down, `closing` was set.
    ensures ends { TurnsTo (sight_of D.Disk K.Keeper) K.generation (next_at result) None pass.old pass.new }
    ensures closing { IsClosed closing.now.id result }
{
    'turns: for _ in rt.forever() {
        if let Some(stop) = one_turn(lock, rt, alloc, pass, gate, worker, closing) {
            return stop;
        }
    }
    unreachable!()
}

// Makes one turn, and rests after it where nothing can be done. None means that the worker goes on. Each number of news is read
// before what could be missed: before the claim, and before `closing`.
fn one_turn<'a, D: Disk + Drop, K: Keeper + Drop, G: Gate, W: Wait>(
    lock: &StageLock<D, K>,
    rt: &W,
    alloc: Global,
    pass: &mut StagePass<D, K>,
    gate: &G,
    worker: u32,
    closing: &'a OnceLock<()>,
) -> Option<WorkStop<'a>>
    requires pass { pass.old.lock ≡ lock.now.lock }
    ensures pass { (pass.new.lock ≡ pass.old.lock) × (pass.new.spares ≡ pass.old.spares) }
    ensures ends { GoesOnOr (sight_of D.Disk K.Keeper) K.generation result pass.old pass.new }
    ensures closing { IfSome result (λ stop. IsClosed closing.now.id stop) }
{
    let before = lock.news();
    let next = turn(lock, rt, alloc, pass, gate, worker);
    after_turn(lock, rt, before, closing, next)
}

// Rests where nothing can be done, unless the server closes.
fn after_turn<'a, D: Disk + Drop, K: Keeper + Drop, W: Wait>(
    lock: &StageLock<D, K>,
    rt: &W,
    before: u64,
    closing: &'a OnceLock<()>,
    next: Next,
) -> Option<WorkStop<'a>>
    ensures next { IfSome result (λ stop. next_at stop ≡ next) }
    ensures closing { IfSome result (λ stop. IsClosed closing.now.id stop) }
{
    match next {
        Next::Claim => None,
        Next::Rest => match rests(lock, rt, before, closing) {
            Some(token) => Some(WorkStop::Done(token)),
            None => None,
        },
        Next::Pause => match rests(lock, rt, lock.news(), closing) {
            Some(token) => Some(WorkStop::Paused(token)),
            None => None,
        },
        Next::Stop => Some(WorkStop::Down),
    }
}

// Rests until there is other news, unless the server closes, which the token shows.
fn rests<'a, D: Disk + Drop, K: Keeper + Drop, W: Wait>(
    lock: &StageLock<D, K>,
    rt: &W,
    news: u64,
    closing: &'a OnceLock<()>,
) -> Option<OnceToken<'a, ()>>
    ensures { IfSome result (λ token. token.of ≡ closing.now.id) }
{
    match closing.witness() {
        Some(token) => Some(token),
        None => {
            lock.rest(rt, news);
            None
        }
    }
}

// Claims a command and works on it.
fn turn<D: Disk + Drop, K: Keeper + Drop, G: Gate, W: Wait>(
    lock: &StageLock<D, K>,
    rt: &W,
    alloc: Global,
    pass: &mut StagePass<D, K>,
    gate: &G,
    worker: u32,
) -> Next
    requires pass { pass.old.lock ≡ lock.now.lock }
    ensures pass { (pass.new.lock ≡ pass.old.lock) × (pass.new.spares ≡ pass.old.spares) }
    ensures ends { TurnsTo (sight_of D.Disk K.Keeper) K.generation result None pass.old pass.new }
{
    match claim(lock, rt, pass) {
        Claimed::Job(job) => work_on(lock, rt, alloc, pass, gate, worker, job),
        claimed => after_claim(&claimed),
    }
}

fn after_claim(claimed: &Claimed) -> Next
    ensures { result ≡ next_of_claim claimed.now }
{
    match claimed {
        Claimed::Job(_) => Next::Claim,
        Claimed::Rest | Claimed::Done => Next::Rest,
        Claimed::QueueFault | Claimed::Spent | Claimed::Memory => Next::Pause,
        Claimed::Down => Next::Stop,
    }
}

// Decodes a claimed command, prepares its change and settles it.
fn work_on<D: Disk + Drop, K: Keeper + Drop, G: Gate, W: Wait>(
    lock: &StageLock<D, K>,
    rt: &W,
    alloc: Global,
    pass: &mut StagePass<D, K>,
    gate: &G,
    worker: u32,
    job: Job,
) -> Next
    requires pass { pass.old.lock ≡ lock.now.lock }
    requires submitted { WasSubmitted job.receipt job.command (core_entries pass.old.seen) }
    requires fit { IsFit job.command }
    ensures pass { (pass.new.lock ≡ pass.old.lock) × (pass.new.spares ≡ pass.old.spares) }
    ensures ends { TurnsTo (sight_of D.Disk K.Keeper) K.generation result (Some job) pass.old pass.new }
{
    match gate.decode(alloc, worker, job.receipt, job.command.command()) {
        Ok(change) => settle_change(lock, rt, alloc, pass, job, change),
        Err(DecodeFault::Refused(refusal)) => settle_as(
            lock,
            rt,
            pass,
            job,
            Verdict::Refused(refusal),
        ),
        Err(DecodeFault::Memory) => give_back(lock, rt, pass, job),
    }
}

// Prepares the decoded change outside the lock, and settles the command.
fn settle_change<D: Disk + Drop, K: Keeper + Drop, W: Wait>(
    lock: &StageLock<D, K>,
    rt: &W,
    alloc: Global,
    pass: &mut StagePass<D, K>,
    job: Job,
    change: Change,
) -> Next
    requires pass { pass.old.lock ≡ lock.now.lock }
    requires submitted { WasSubmitted job.receipt job.command (core_entries pass.old.seen) }
    requires fit { IsFit job.command }
    requires decodes { IsVerdictOf (Verdict.Change change) job.command }
    ensures pass { (pass.new.lock ≡ pass.old.lock) × (pass.new.spares ≡ pass.old.spares) }
    ensures ends { TurnsTo (sight_of D.Disk K.Keeper) K.generation result (Some job) pass.old pass.new }
{
    match Prepared::of(alloc, &job, change) {
        Ok(prepared) => settle_as(lock, rt, pass, job, Verdict::Change(prepared)),
        Err(_) => give_back(lock, rt, pass, job),
    }
}

// Settles the command by what it decodes to.
fn settle_as<D: Disk + Drop, K: Keeper + Drop, W: Wait>(
    lock: &StageLock<D, K>,
    rt: &W,
    pass: &mut StagePass<D, K>,
    job: Job,
    verdict: Verdict,
) -> Next
    requires pass { pass.old.lock ≡ lock.now.lock }
    requires submitted { WasSubmitted job.receipt job.command (core_entries pass.old.seen) }
    requires fit { IsFit job.command }
    requires decodes { IsVerdictOf verdict job.command }
    ensures pass { (pass.new.lock ≡ pass.old.lock) × (pass.new.spares ≡ pass.old.spares) }
    ensures ends { TurnsTo (sight_of D.Disk K.Keeper) K.generation result (Some job) pass.old pass.new }
{
    match settle(lock, rt, pass, job, verdict) {
        Settled::Memory(job, verdict) => {
            drop(verdict);
            give_back(lock, rt, pass, job)
        }
        settled => after_settle(&settled),
    }
}

fn after_settle(settled: &Settled) -> Next
    ensures { result ≡ next_of_settle settled.now }
{
    match settled {
        Settled::Applied | Settled::Discarded | Settled::Failed { .. } | Settled::NotClaimed =>
            Next::Claim,
        Settled::StoreDown | Settled::Down => Next::Stop,
        Settled::QueueFault | Settled::Spent | Settled::Memory(_, _) => Next::Pause,
    }
}

// Queues the command again, since there was no memory.
fn give_back<D: Disk + Drop, K: Keeper + Drop, W: Wait>(
    lock: &StageLock<D, K>,
    rt: &W,
    pass: &mut StagePass<D, K>,
    job: Job,
) -> Next
    requires pass { pass.old.lock ≡ lock.now.lock }
    ensures pass { (pass.new.lock ≡ pass.old.lock) × (pass.new.spares ≡ pass.old.spares) }
    ensures ends { TurnsTo (sight_of D.Disk K.Keeper) K.generation result (Some job) pass.old pass.new }
{
    release(lock, rt, pass, job);
    Next::Pause
}
