//! Queues all claimed commands again.
ghost use Rattle.std.specs.Prelude.{◌≡◌, false};
ghost use Rattle.core_state.specs.Seen.{down_of, CoreIsSound};
ghost use Rattle.core_claims.specs.Calls.{CoreFrees};

use core_state::{CoreState, Keeper, free_claim};
use fleet_ports::Disk;

/// Queues every claimed command again. It takes no memory and writes to no disk.
pub fn free_claims<D: Disk + Drop, K: Keeper + Drop>(core: &mut CoreState<D, K>)
    requires sound { CoreIsSound D.Disk K.Keeper core.old }
    requires up { down_of K.down core.old ≡ false }
    ensures does { CoreFrees D.Disk K.Keeper core.old core.new }
{
    let count = core.pending.count() as usize;
    'entries: for i in 0..count {
        let entry = core.pending.at(i);
        let receipt = entry.receipt;
        if entry.claimed {
            free_claim(&mut core.pending, &mut core.events, receipt);
        }
    }
}
