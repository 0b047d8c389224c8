//! The calls that workers make, over the lock.
ghost use Rattle.std.specs.Prelude.{◌≡◌};
ghost use mathlib.Core.List.{IsPrefix};
ghost use Rattle.core_ends.specs.core_state.Seen.{IsFit};
ghost use Rattle.core_ends.specs.core_settles.Settles.{IsVerdictOf};
ghost use Rattle.core_ends.specs.core_course.Sight.{sight_of};
ghost use Rattle.hub_calls.specs.Entries.{WasSubmitted};
ghost use Rattle.hub_calls.specs.Calls.{ClaimDoes, ReleaseDoes, SettleDoes};
ghost use Rattle.hub_calls.specs.Follows.{Follows};
ghost use Rattle.hub_calls.specs.Seen.{HasJob, OneCall, PassGoesOn, list_of};

use crate::followed::Followed;
use crate::purpose::{AllCalls, Purpose};
use core_ends::{Claimed, Job, Keeper, Settled, Verdict};
use fleet_ports::Disk;
use std::sync::Wait;
use turn_lock::TurnLock;

/// The lock that holds a hub's core. Threads share the lock, and not the hub.
pub type Lock<D: Disk + Drop, K: Keeper + Drop, P: Purpose> = TurnLock<Followed<D, K, P>>;

/// The right to call a hub in turns.
pub type Pass<D: Disk + Drop, K: Keeper + Drop, P: Purpose = AllCalls> = turn_lock::Pass<
    Followed<D, K, P>,
>;

/// Claims a command, in one hold. Stale candidates are superseded first.
pub fn claim<D: Disk + Drop, K: Keeper + Drop, P: Purpose, W: Wait>(
    lock: &Lock<D, K, P>,
    rt: &W,
    pass: &mut Pass<D, K, P>,
) -> Claimed
    requires pass { pass.old.lock ≡ lock.now.lock }
    ensures pass { PassGoesOn pass.old pass.new }
    ensures one_call { OneCall (sight_of D.Disk K.Keeper) P.only_work (λ w. ClaimDoes w result) pass.old pass.new }
    // The claimed command can be settled, whatever other passes do meanwhile.
    ensures job { HasJob result pass.new.seen }
{
    lock.hold(
        rt,
        pass,
        |followed| -> Claimed
            ensures does { ClaimDoes (sight_of D.Disk K.Keeper) result followed.old.core followed.new.core }
            ensures start { followed.new.start ≡ followed.old.start }
            ensures grows { IsPrefix (list_of followed.old) (list_of followed.new) }
            ensures job { HasJob result (list_of followed.new) }
            ensures follows { Follows (sight_of D.Disk K.Keeper) P.only_work followed.old.start followed.old.core }
        { followed.claim() },
    )
}

/// Queues a claimed command again, in one hold.
pub fn release<D: Disk + Drop, K: Keeper + Drop, P: Purpose, W: Wait>(
    lock: &Lock<D, K, P>,
    rt: &W,
    pass: &mut Pass<D, K, P>,
    job: Job,
)
    requires pass { pass.old.lock ≡ lock.now.lock }
    ensures pass { PassGoesOn pass.old pass.new }
    ensures one_call { OneCall (sight_of D.Disk K.Keeper) P.only_work (λ w. ReleaseDoes w job) pass.old pass.new }
{
    lock.hold(
        rt,
        pass,
        move |followed|
            ensures does { ReleaseDoes (sight_of D.Disk K.Keeper) job followed.old.core followed.new.core }
            ensures start { followed.new.start ≡ followed.old.start }
            ensures grows { IsPrefix (list_of followed.old) (list_of followed.new) }
            ensures follows { Follows (sight_of D.Disk K.Keeper) P.only_work followed.old.start followed.old.core }
        { followed.release(job) },
    );
}

/// Ends a claimed command by the worker's verdict, in one hold.
pub fn settle<D: Disk + Drop, K: Keeper + Drop, P: Purpose, W: Wait>(
    lock: &Lock<D, K, P>,
    rt: &W,
    pass: &mut Pass<D, K, P>,
    job: Job,
    verdict: Verdict,
) -> Settled
    requires pass { pass.old.lock ≡ lock.now.lock }
    requires submitted { WasSubmitted job.receipt job.command pass.old.seen }
    requires fit { IsFit job.command }
    requires decodes { IsVerdictOf verdict job.command }
    ensures pass { PassGoesOn pass.old pass.new }
    ensures one_call { OneCall (sight_of D.Disk K.Keeper) P.only_work (λ w. SettleDoes w K.generation result job verdict) pass.old pass.new }
{
    lock.hold(
        rt,
        pass,
        move |followed| -> Settled
            requires { WasSubmitted job.receipt job.command (list_of followed.old) × IsFit job.command × IsVerdictOf verdict job.command }
            ensures does { SettleDoes (sight_of D.Disk K.Keeper) K.generation result job verdict followed.old.core followed.new.core }
            ensures start { followed.new.start ≡ followed.old.start }
            ensures grows { IsPrefix (list_of followed.old) (list_of followed.new) }
            ensures follows { Follows (sight_of D.Disk K.Keeper) P.only_work followed.old.start followed.old.core }
        { followed.settle(job, verdict) },
    )
}
