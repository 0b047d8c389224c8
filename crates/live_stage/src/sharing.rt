//! Puts a core behind the lock, and takes it out.
ghost use Rattle.std.specs.Prelude.{◌≡◌, ◌≤◌, ◌+◌, [], IfOk, IfErr};
ghost use Rattle.core_ends.specs.core_state.Seen.{events_of};
ghost use Rattle.core_ends.specs.core_course.Sight.{sight_of};
ghost use Rattle.live_stage.specs.Notes.{list_of};
ghost use Rattle.live_stage.specs.Trace.{sweep_count};
ghost use Rattle.live_stage.specs.StageCalls.{fresh, ClosesFrom};

use crate::stage::Stage;
use crate::under_lock::{StageLock, StagePass};
use core_ends::{Core, Keeper};
use fleet_ports::Disk;
use std::alloc::{AllocError, Global};
use turn_lock::TurnLock;

/// Puts a core behind a lock. Returns the lock and its first pass, which has all seats but one as spares. If memory runs out, the
/// core comes back.
pub fn share<D: Disk + Drop, K: Keeper + Drop>(
    alloc: Global,
    core: Core<D, K>,
    seats: u32,
) -> Result<(StageLock<D, K>, StagePass<D, K>), (Core<D, K>, AllocError)>
    requires no_sweep { sweep_count (events_of core) ≡ 0 }
    requires some { 1 ≤ seats }
    requires few { seats ≤ 66 }
    ensures opening { IfOk result (λ p. p.0.opening ≡ list_of (fresh core)) }
    ensures seats { IfOk result (λ p. p.0.seats ≡ seats) }
    ensures pass { IfOk result (λ p. (p.1.lock ≡ p.0.lock) × (p.1.seen ≡ list_of (fresh core)) × (p.1.holds ≡ [])) }
    ensures spares { IfOk result (λ p. p.1.spares + 1 ≡ seats) }
    ensures err { IfErr result (λ e. e.0 ≡ core) }
{
    match TurnLock::new(alloc, Stage::new(alloc, core), seats) {
        Ok((lock, pass)) => Ok((lock, pass)),
        Err((stage, fault)) => Err((stage.into_core(), fault)),
    }
}

/// Takes the core out, after all other passes were joined into this one. It allocates nothing.
pub fn close<D: Disk + Drop, K: Keeper + Drop>(
    lock: StageLock<D, K>,
    pass: StagePass<D, K>,
) -> Core<D, K>
    requires pass { pass.lock ≡ lock.lock }
    requires all { pass.spares + 1 ≡ lock.seats }
    // If the lock is that of a core that was shared: what the calls of all passes made of it.
    ensures { ClosesFrom (sight_of D.Disk K.Keeper) K.generation lock.opening pass result }
{
    lock.close(pass).into_core()
}
