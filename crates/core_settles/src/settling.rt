//! Settles a claimed command, by the worker's verdict.
ghost use Rattle.core_claims.specs.core_state.Seen.{IsFit, CoreIsSound, IsSubmitted};
ghost use Rattle.core_settles.specs.Call.{CoreSettles};
ghost use Rattle.core_settles.specs.Ends.{DoesSettle};
ghost use Rattle.core_settles.specs.Settles.{IsVerdictOf};

use crate::answers::{Settled, Verdict};
use crate::keep::keep;
use crate::refuse::refuse;
use core_claims::{CoreState, Job, Keeper, is_claimed};
use fleet_ports::Disk;

/// Checks the claim and the room, and then settles the command.
fn settle_step<D: Disk + Drop, K: Keeper + Drop>(
    core: &mut CoreState<D, K>,
    job: Job,
    verdict: Verdict,
) -> Settled
    requires sound { CoreIsSound D.Disk K.Keeper core.old }
    requires fit { IsFit job.command }
    requires decodes { IsVerdictOf verdict job.command }
    ensures does { DoesSettle D.Disk K.Keeper result job verdict core.old core.new }
{
    if core.is_down() {
        drop(verdict);
        return Settled::Down;
    }
    if !is_claimed(&core.pending, job.receipt) {
        drop(verdict);
        return Settled::NotClaimed;
    }
    match verdict {
        Verdict::Change(prepared) => keep(core, job, prepared),
        Verdict::Refused(refusal) => refuse(core, job, refusal),
    }
}

/// Ends a claimed command by the worker's verdict. A change is kept in the store and applied, and then its Done is written to the
/// queue. A refused command is discarded. If the store fails, the failure is counted in the queue; the sixteenth discards the
/// command.
pub fn settle<D: Disk + Drop, K: Keeper + Drop>(
    core: &mut CoreState<D, K>,
    job: Job,
    verdict: Verdict,
) -> Settled
    requires sound { CoreIsSound D.Disk K.Keeper core.old }
    requires submitted { IsSubmitted job.receipt job.command core.old }
    requires fit { IsFit job.command }
    requires decodes { IsVerdictOf verdict job.command }
    ensures does { CoreSettles D.Disk K.Keeper result job verdict core.old core.new }
{
    settle_step(core, job, verdict)
}
