//! Claims a command, after superseding stale ones.
ghost use Rattle.core_state.specs.Seen.{CoreIsSound};
ghost use Rattle.core_claims.specs.Calls.{CoreClaims};
ghost use Rattle.core_claims.specs.Runs.{DoesClaim};

use crate::answers::Claimed;
use crate::turns::turn;
use core_state::{CoreState, Keeper};
use fleet_ports::Disk;

/// Takes steps until there is an answer.
fn claim_step<D: Disk + Drop, K: Keeper + Drop>(core: &mut CoreState<D, K>) -> Claimed
    requires sound { CoreIsSound D.Disk K.Keeper core.old }
    ensures does { DoesClaim D.Disk K.Keeper result core.old core.new }
{
    if core.is_down() {
        return Claimed::Down;
    }
    'turns: loop {
        match turn(core) {
            Some(answer) => return answer,
            None => {}
        }
    }
}

/// Claims the least command that may be claimed. First it supersedes each stale candidate, with one record each. A candidate is
/// stale if the newest applied command of its group has a greater rank. After a claim there is room for its release.
pub fn claim<D: Disk + Drop, K: Keeper + Drop>(core: &mut CoreState<D, K>) -> Claimed
    requires sound { CoreIsSound D.Disk K.Keeper core.old }
    ensures does { CoreClaims D.Disk K.Keeper result core.old core.new }
{
    claim_step(core)
}
