//! The calls of threads, each in one hold of the lock. A lane's calls answer the length of the live trace when the hold ended, too.
ghost use Rattle.std.specs.Prelude.{◌≡◌, ◌≤◌, ◌++◌, false, IfSome, IsSome, OnOk, OnErr, length};
ghost use Rattle.core_ends.specs.history_spec.Lawful.{HasStamp};
ghost use Rattle.core_ends.specs.core_settles.Settles.{IsVerdictOf};
ghost use Rattle.core_ends.specs.core_state.Seen.{IsFit};
ghost use Rattle.core_ends.specs.core_course.Sight.{sight_of};
ghost use Rattle.hub_calls.specs.Calls.{SubmitDoes, ClaimDoes, ReleaseDoes, SettleDoes, SweepDoes};
ghost use Rattle.hub_calls.specs.Entries.{WasSubmitted};
ghost use Rattle.hub_calls.specs.Follows.{Follows};
ghost use Rattle.json_tree.specs.Limits.{most_payload};
ghost use Rattle.lock_calls.specs.Calls.{Lasts};
ghost use Rattle.live_stage.specs.Notes.{list_of, core_entries};
ghost use Rattle.live_stage.specs.Trace.{live_of, HasFirst, HasAll, HasFirstIn};
ghost use Rattle.live_stage.specs.Causes.{AreNoted};
ghost use Rattle.live_stage.specs.StageCalls.{was_submitted, was_swept, submit_adds, sweep_adds, AddsWork, HasStageJob};
ghost use Rattle.live_stage.specs.StageCalls.{OneStageCall, OneClaim, OneSettle, OneRelease, OneLook};

use crate::snapshot::Snapshot;
use crate::stage::Stage;
use core_ends::{Claimed, Job, Keeper, Settled, Submitted, Swept, Verdict};
use fleet_ports::Disk;
use fleet_rows::{Command, Kinds};
use stamp_time::Moment;
use std::alloc::{AllocError, Global};
use std::sync::Wait;
use turn_lock::{Pass, TurnLock};

/// The lock that holds a stage.
pub type StageLock<D: Disk + Drop, K: Keeper + Drop> = TurnLock<Stage<D, K>>;

/// A thread's right to call a stage in turns.
pub type StagePass<D: Disk + Drop, K: Keeper + Drop> = Pass<Stage<D, K>>;

/// Submits a command.
pub fn submit<D: Disk + Drop, K: Keeper + Drop, W: Wait>(
    lock: &StageLock<D, K>,
    rt: &W,
    pass: &mut StagePass<D, K>,
    command: Command,
) -> (Submitted, u64)
    requires pass { pass.old.lock ≡ lock.now.lock }
    requires payload { length command.payload ≤ most_payload }
    requires received { HasStamp command.received }
    ensures pass { (pass.new.lock ≡ pass.old.lock) × (pass.new.spares ≡ pass.old.spares) }
    ensures call { OneStageCall (sight_of D.Disk K.Keeper) K.generation (was_submitted command result.0 result.1) pass.old pass.new }
{
    lock.hold(
        rt,
        pass,
        move |stage| -> (Submitted, u64)
            requires { (length command.payload ≤ most_payload) × HasStamp command.received }
            ensures does { SubmitDoes (sight_of D.Disk K.Keeper) result.0 command stage.old.core stage.new.core }
            ensures start { stage.new.start ≡ stage.old.start }
            ensures list { list_of stage.new ≡ list_of stage.old ++ submit_adds result.0 command }
            ensures follows { Follows (sight_of D.Disk K.Keeper) false stage.old.start stage.old.core }
            ensures causes { AreNoted (sight_of D.Disk K.Keeper) stage.new }
            ensures live { result.1 ≡ live_of stage.new.core }
        {
            let came = stage.submit(command);
            (came, stage.live())
        },
    )
}

/// Sweeps the tables.
pub fn sweep<D: Disk + Drop, K: Keeper + Drop, W: Wait>(
    lock: &StageLock<D, K>,
    rt: &W,
    pass: &mut StagePass<D, K>,
    kinds: Kinds,
    m: Moment,
) -> (Swept, u64)
    requires pass { pass.old.lock ≡ lock.now.lock }
    requires stamp { HasStamp m }
    ensures pass { (pass.new.lock ≡ pass.old.lock) × (pass.new.spares ≡ pass.old.spares) }
    ensures call { OneStageCall (sight_of D.Disk K.Keeper) K.generation (was_swept kinds m result.0 result.1) pass.old pass.new }
{
    lock.hold(
        rt,
        pass,
        move |stage| -> (Swept, u64)
            requires { HasStamp m }
            ensures does { SweepDoes (sight_of D.Disk K.Keeper) K.generation result.0 kinds m stage.old.core stage.new.core }
            ensures start { stage.new.start ≡ stage.old.start }
            ensures list { list_of stage.new ≡ list_of stage.old ++ sweep_adds result.0 kinds m }
            ensures follows { Follows (sight_of D.Disk K.Keeper) false stage.old.start stage.old.core }
            ensures causes { AreNoted (sight_of D.Disk K.Keeper) stage.new }
            ensures live { result.1 ≡ live_of stage.new.core }
        {
            let came = stage.sweep(kinds, m);
            (came, stage.live())
        },
    )
}

/// Brings a lane's tables up to date. What was kept are tables of the first events, as an earlier look left them. The hold takes
/// the steps along that the tables lack; the caller applies them behind it (`Snapshot::catch_up`).
pub fn look<D: Disk + Drop, K: Keeper + Drop, W: Wait>(
    lock: &StageLock<D, K>,
    rt: &W,
    alloc: Global,
    pass: &mut StagePass<D, K>,
    kept: &mut Option<Snapshot>,
) -> Result<(), AllocError>
    requires pass { pass.old.lock ≡ lock.now.lock }
    requires first { IfSome kept.old (λ s. Lasts (HasFirstIn (sight_of D.Disk K.Keeper) s) pass.old.seen) }
    ensures pass { (pass.new.lock ≡ pass.old.lock) × (pass.new.spares ≡ pass.old.spares) }
    ensures some { OnOk result (IsSome kept.new) }
    ensures err { OnErr result (kept.new ≡ kept.old) }

    // The look is a call that answers the number of the tables that are then kept. These stay tables of the first events.
    ensures call { OneLook (sight_of D.Disk K.Keeper) K.generation kept.new result pass.old pass.new }
    ensures first { IfSome kept.new (λ s. Lasts (HasFirstIn (sight_of D.Disk K.Keeper) s) pass.new.seen) }
{
    let was = kept.take();
    let (now, looked) = lock.hold(
        rt,
        pass,
        move |stage| -> (Option<Snapshot>, Result<(), AllocError>)
            requires { IfSome was (λ s. HasFirst (sight_of D.Disk K.Keeper) stage.old s) }
            ensures same { stage.new ≡ stage.old }
            ensures some { OnOk result.1 (IsSome result.0) }
            ensures whole { OnOk result.1 (IfSome result.0 (λ s. HasAll (sight_of D.Disk K.Keeper) stage.old s)) }
            ensures err { OnErr result.1 (result.0 ≡ was) }
            ensures follows { Follows (sight_of D.Disk K.Keeper) false stage.old.start stage.old.core }
            ensures causes { AreNoted (sight_of D.Disk K.Keeper) stage.new }
        {
            let mut kept = was;
            let looked = stage.look(alloc, &mut kept);
            (kept, looked)
        },
    );
    *kept = now;
    looked
}

/// Claims a command. Stale candidates are superseded first.
pub fn claim<D: Disk + Drop, K: Keeper + Drop, W: Wait>(
    lock: &StageLock<D, K>,
    rt: &W,
    pass: &mut StagePass<D, K>,
) -> Claimed
    requires pass { pass.old.lock ≡ lock.now.lock }
    ensures pass { (pass.new.lock ≡ pass.old.lock) × (pass.new.spares ≡ pass.old.spares) }
    ensures call { OneClaim (sight_of D.Disk K.Keeper) K.generation result pass.old pass.new }
    // The claimed command can be settled, whatever other passes do meanwhile.
    ensures job { HasStageJob result pass.new.seen }
{
    lock.hold(
        rt,
        pass,
        |stage| -> Claimed
            ensures does { ClaimDoes (sight_of D.Disk K.Keeper) result stage.old.core stage.new.core }
            ensures start { stage.new.start ≡ stage.old.start }
            ensures list { AddsWork stage.old stage.new }
            ensures job { HasStageJob result (list_of stage.new) }
            ensures follows { Follows (sight_of D.Disk K.Keeper) false stage.old.start stage.old.core }
            ensures causes { AreNoted (sight_of D.Disk K.Keeper) stage.new }
        { stage.claim() },
    )
}

/// Queues a claimed command again.
pub fn release<D: Disk + Drop, K: Keeper + Drop, W: Wait>(
    lock: &StageLock<D, K>,
    rt: &W,
    pass: &mut StagePass<D, K>,
    job: Job,
)
    requires pass { pass.old.lock ≡ lock.now.lock }
    ensures pass { (pass.new.lock ≡ pass.old.lock) × (pass.new.spares ≡ pass.old.spares) }
    ensures call { OneRelease (sight_of D.Disk K.Keeper) K.generation job pass.old pass.new }
{
    lock.hold(
        rt,
        pass,
        move |stage|
            ensures does { ReleaseDoes (sight_of D.Disk K.Keeper) job stage.old.core stage.new.core }
            ensures start { stage.new.start ≡ stage.old.start }
            ensures list { AddsWork stage.old stage.new }
            ensures follows { Follows (sight_of D.Disk K.Keeper) false stage.old.start stage.old.core }
            ensures causes { AreNoted (sight_of D.Disk K.Keeper) stage.new }
        { stage.release(job) },
    );
}

/// Ends a claimed command by the worker's verdict.
pub fn settle<D: Disk + Drop, K: Keeper + Drop, W: Wait>(
    lock: &StageLock<D, K>,
    rt: &W,
    pass: &mut StagePass<D, K>,
    job: Job,
    verdict: Verdict,
) -> Settled
    requires pass { pass.old.lock ≡ lock.now.lock }
    requires submitted { WasSubmitted job.receipt job.command (core_entries pass.old.seen) }
    requires fit { IsFit job.command }
    requires decodes { IsVerdictOf verdict job.command }
    ensures pass { (pass.new.lock ≡ pass.old.lock) × (pass.new.spares ≡ pass.old.spares) }
    ensures call { OneSettle (sight_of D.Disk K.Keeper) K.generation job verdict result pass.old pass.new }
{
    lock.hold(
        rt,
        pass,
        move |stage| -> Settled
            requires { WasSubmitted job.receipt job.command (core_entries (list_of stage.old)) × IsFit job.command × IsVerdictOf verdict job.command }
            ensures does { SettleDoes (sight_of D.Disk K.Keeper) K.generation result job verdict stage.old.core stage.new.core }
            ensures start { stage.new.start ≡ stage.old.start }
            ensures list { AddsWork stage.old stage.new }
            ensures follows { Follows (sight_of D.Disk K.Keeper) false stage.old.start stage.old.core }
            ensures causes { AreNoted (sight_of D.Disk K.Keeper) stage.new }
        { stage.settle(job, verdict) },
    )
}
