//! Queues one claimed command again.
ghost use Rattle.core_state.specs.Seen.{CoreIsSound};
ghost use Rattle.core_claims.specs.Calls.{CoreReleases};
ghost use Rattle.core_claims.specs.Releases.{ReleaseDoes};

use core_state::{CoreState, Keeper, free_claim, is_claimed};
use fleet_ports::Disk;

/// Checks the claim, and then releases the command.
fn release_step<D: Disk + Drop, K: Keeper + Drop>(core: &mut CoreState<D, K>, receipt: u64)
    requires { CoreIsSound D.Disk K.Keeper core.old }
    ensures { ReleaseDoes K.down receipt core.old core.new }
{
    if core.is_down() {
        return;
    }
    if is_claimed(&core.pending, receipt) {
        free_claim(&mut core.pending, &mut core.events, receipt);
    }
}

/// Queues a claimed command again. If the receipt isn't claimed, or the core is down, nothing changes. It takes no memory and
/// writes to no disk.
pub fn release<D: Disk + Drop, K: Keeper + Drop>(core: &mut CoreState<D, K>, receipt: u64)
    requires sound { CoreIsSound D.Disk K.Keeper core.old }
    ensures does { CoreReleases D.Disk K.Keeper receipt core.old core.new }
{
    release_step(core, receipt);
}
