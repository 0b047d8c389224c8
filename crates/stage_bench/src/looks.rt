//! Times the looks of a lane, so that a script can tell how long a look holds the lock.
//!
//! `stage_bench look STEPS ROUNDS`: in each round STEPS commands come in, and are settled. Then a lane looks, and applies behind the hold
//! what its tables lack. It prints the nanoseconds of all looks but the first, together.
ghost use Rattle.std.specs.Prelude.{◌≡◌, IfSome};
ghost use Rattle.live_stage.specs.core_ends.core_course.Sight.{sight_of};
ghost use Rattle.live_stage.specs.core_ends.core_state.Seen.{events_of};
ghost use Rattle.live_stage.specs.lock_calls.Calls.{Lasts};
ghost use Rattle.live_stage.specs.Trace.{HasFirstIn, sweep_count};

use crate::stages::{nanos_since, send};
use anyhow::{Result, bail};
use core_ends::{Core, Keeper};
use fleet_ports::Disk;
use hub_work::OpenGate;
use live_stage::{Snapshot, StageLock, StagePass, look, share, work};
use std::alloc::{AllocError, Global};
use std::sync::{OnceLock, Wait};
use std::time::{Clock, Instant};

/// Settles all that is pending.
pub(crate) fn settle_all<D: Disk + Drop, K: Keeper + Drop, R: Wait>(
    rt: &R,
    alloc: Global,
    lock: &StageLock<D, K>,
    hand: &mut StagePass<D, K>,
)
    requires pass { hand.old.lock ≡ lock.now.lock }
    ensures pass { (hand.new.lock ≡ hand.old.lock) × (hand.new.spares ≡ hand.old.spares) }
{
    let closing = OnceLock::from(());
    let _ = work(lock, rt, alloc, hand, &OpenGate, 0, &closing);
}

/// Applies what the tables lack.
pub(crate) fn catch_up<D: Disk + Drop, K: Keeper + Drop>(
    alloc: Global,
    lane: &StagePass<D, K>,
    kept: &mut Option<Snapshot>,
) -> Result<(), AllocError>
    requires { IfSome kept.old (λ s. Lasts (HasFirstIn (sight_of D.Disk K.Keeper) s) lane.now.seen) }
    ensures { IfSome kept.new (λ s. Lasts (HasFirstIn (sight_of D.Disk K.Keeper) s) lane.now.seen) }
{
    match kept {
        Some(snapshot) => snapshot.catch_up(alloc),
        None => Ok(()),
    }
}

/// Looks, and applies what the tables lack. Answers the nanoseconds of the look.
fn look_once<D: Disk + Drop, K: Keeper + Drop, R: Wait + Clock>(
    rt: &R,
    alloc: Global,
    lock: &StageLock<D, K>,
    lane: &mut StagePass<D, K>,
    kept: &mut Option<Snapshot>,
) -> Result<u64>
    requires pass { lane.old.lock ≡ lock.now.lock }
    requires first { IfSome kept.old (λ s. Lasts (HasFirstIn (sight_of D.Disk K.Keeper) s) lane.old.seen) }
    ensures pass { (lane.new.lock ≡ lane.old.lock) × (lane.new.spares ≡ lane.old.spares) }
    ensures first { IfSome kept.new (λ s. Lasts (HasFirstIn (sight_of D.Disk K.Keeper) s) lane.new.seen) }
{
    let from = Instant::now(rt)?;
    look(lock, rt, alloc, lane, kept)?;
    let spent = nanos_since(rt, from)?;
    catch_up(alloc, lane, kept)?;
    Ok(spent)
}

fn rounds_by<D: Disk + Drop, K: Keeper + Drop, R: Wait + Clock>(
    rt: &R,
    alloc: Global,
    lock: &StageLock<D, K>,
    lane: &mut StagePass<D, K>,
    hand: &mut StagePass<D, K>,
    steps: u64,
    rounds: u64,
) -> Result<u64>
    requires lane { lane.old.lock ≡ lock.now.lock }
    requires hand { hand.old.lock ≡ lock.now.lock }
{
    let mut kept = None;
    let mut spent: u64 = 0;
    'rounds: for i in 0..rounds {
        send(rt, alloc, lock, hand, i.saturating_mul(steps), steps)?;
        settle_all(rt, alloc, lock, hand);
        let took = look_once(rt, alloc, lock, lane, &mut kept)?;
        // The first look copies all tables.
        if i > 0 {
            spent = spent.saturating_add(took);
        }
    }
    Ok(spent)
}

/// The nanoseconds of all looks but the first.
pub(crate) fn rounds_over<D: Disk + Drop, K: Keeper + Drop, R: Wait + Clock>(
    rt: &R,
    alloc: Global,
    core: Core<D, K>,
    steps: u64,
    rounds: u64,
) -> Result<u64>
    requires no_sweep { sweep_count (events_of core) ≡ 0 }
{
    match share(alloc, core, 2) {
        Ok((lock, mut lane)) => {
            let spent = match lock.split(&mut lane) {
                Ok(mut hand) => rounds_by(rt, alloc, &lock, &mut lane, &mut hand, steps, rounds),
                Err(_) => bail!("there was no seat"),
            };
            drop(lock);
            spent
        }
        Err((core, _)) => {
            drop(core);
            bail!("there was no memory")
        }
    }
}
