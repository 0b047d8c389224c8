//! A hand, a worker and lanes in threads at one stage.
//!
//! `stage_bench lanes COMMANDS LANES`: COMMANDS commands wait, and then the worker settles them. Each lane looks, applies behind the hold
//! what its tables lack, and sleeps eight milliseconds, until the worker is done. It prints the nanoseconds that all took, and the number of
//! looks; so a script can tell how much settling loses by looks.
//!
//! `stage_bench wakes COMMANDS LANES`: the hand sends each command when the tables have the one before, so the worker rests between
//! them. It prints how many commands came to the tables.
ghost use Rattle.std.specs.Prelude.{◌≡◌, All, IfSome};
ghost use Rattle.live_stage.specs.core_ends.core_course.Sight.{sight_of};
ghost use Rattle.live_stage.specs.core_ends.core_state.Seen.{events_of};
ghost use Rattle.live_stage.specs.lock_calls.Calls.{Lasts};
ghost use Rattle.live_stage.specs.Trace.{HasFirstIn, sweep_count};

use crate::looks::catch_up;
use crate::stages::{nanos_since, send};
use anyhow::{Result, bail};
use core_ends::{Core, Keeper};
use fleet_ports::Disk;
use hub_work::{OpenGate, values_go};
use live_stage::{Snapshot, StageLock, StagePass, look, share, work};
use std::alloc::{AllocError, Global};
use std::sync::atomic::AtomicU64;
use std::sync::atomic::Ordering::SeqCst;
use std::sync::{OnceLock, Wait};
use std::thread;
use std::thread::Threads;
use std::time::{Clock, Duration, Instant};

/// Brings what is kept up to date. Answers the number of events that it has.
fn looked<D: Disk + Drop, K: Keeper + Drop, R: Wait>(
    rt: &R,
    alloc: Global,
    lock: &StageLock<D, K>,
    lane: &mut StagePass<D, K>,
    kept: &mut Option<Snapshot>,
) -> Result<u64, AllocError>
    requires pass { lane.old.lock ≡ lock.now.lock }
    requires first { IfSome kept.old (λ s. Lasts (HasFirstIn (sight_of D.Disk K.Keeper) s) lane.old.seen) }
    ensures pass { (lane.new.lock ≡ lane.old.lock) × (lane.new.spares ≡ lane.old.spares) }
    ensures first { IfSome kept.new (λ s. Lasts (HasFirstIn (sight_of D.Disk K.Keeper) s) lane.new.seen) }
{
    look(lock, rt, alloc, lane, kept)?;
    catch_up(alloc, lane, kept)?;
    match kept {
        Some(snapshot) => Ok(snapshot.seen()),
        None => Ok(0),
    }
}

/// Looks about every eight milliseconds, until the worker is done.
fn ask_by<D: Disk + Drop, K: Keeper + Drop, R: Wait + Clock>(
    rt: &R,
    alloc: Global,
    lock: &StageLock<D, K>,
    lane: &mut StagePass<D, K>,
    kept: &mut Option<Snapshot>,
    done: &OnceLock<()>,
    looks: &AtomicU64,
) -> Result<(), AllocError>
    requires pass { lane.old.lock ≡ lock.now.lock }
    requires first { IfSome kept.old (λ s. Lasts (HasFirstIn (sight_of D.Disk K.Keeper) s) lane.old.seen) }
    ensures pass { (lane.new.lock ≡ lane.old.lock) × (lane.new.spares ≡ lane.old.spares) }
{
    'asking: for _ in rt.forever() {
        if done.get().is_some() {
            return Ok(());
        }
        let _ = looked(rt, alloc, lock, lane, kept)?;
        looks.fetch_add(1, SeqCst);
        thread::sleep(rt, Duration::from_millis(8));
    }
    unreachable!()
}

/// The same of a lane that has no tables yet.
fn ask<D: Disk + Drop, K: Keeper + Drop, R: Wait + Clock>(
    rt: &R,
    alloc: Global,
    lock: &StageLock<D, K>,
    lane: &mut StagePass<D, K>,
    done: &OnceLock<()>,
    looks: &AtomicU64,
)
    requires pass { lane.old.lock ≡ lock.now.lock }
    ensures pass { (lane.new.lock ≡ lane.old.lock) × (lane.new.spares ≡ lane.old.spares) }
{
    let mut kept = None;
    let _ = ask_by(rt, alloc, lock, lane, &mut kept, done, looks);
    drop(kept);
}

/// Looks until the tables have so many events.
fn look_for<D: Disk + Drop, K: Keeper + Drop, R: Wait>(
    rt: &R,
    alloc: Global,
    lock: &StageLock<D, K>,
    hand: &mut StagePass<D, K>,
    count: u64,
) -> Result<(), AllocError>
    requires pass { hand.old.lock ≡ lock.now.lock }
    ensures pass { (hand.new.lock ≡ hand.old.lock) × (hand.new.spares ≡ hand.old.spares) }
{
    let mut kept = None;
    'looks: for _ in rt.forever() {
        if looked(rt, alloc, lock, hand, &mut kept)? >= count {
            break;
        }
        thread::yield_now();
    }
    Ok(())
}

/// Sends so many commands, each when the tables have the one before.
fn send_each<D: Disk + Drop, K: Keeper + Drop, R: Wait>(
    rt: &R,
    alloc: Global,
    lock: &StageLock<D, K>,
    hand: &mut StagePass<D, K>,
    count: u64,
) -> Result<(), AllocError>
    requires pass { hand.old.lock ≡ lock.now.lock }
    ensures pass { (hand.new.lock ≡ hand.old.lock) × (hand.new.spares ≡ hand.old.spares) }
{
    'sending: for sent in 0..count {
        send(rt, alloc, lock, hand, sent, 1)?;
        look_for(rt, alloc, lock, hand, sent.saturating_add(1))?;
    }
    Ok(())
}

/// What the thread of this number does: the first is the hand, the second the worker, the others are lanes.
fn serve<D: Disk + Drop, K: Keeper + Drop, R: Wait + Clock>(
    lock: &StageLock<D, K>,
    rt: &R,
    alloc: Global,
    pass: &mut StagePass<D, K>,
    number: usize,
    closing: &OnceLock<()>,
    done: &OnceLock<()>,
    looks: &AtomicU64,
    sends: u64,
)
    requires pass { pass.old.lock ≡ lock.now.lock }
    ensures pass { (pass.new.lock ≡ pass.old.lock) × (pass.new.spares ≡ pass.old.spares) }
{
    if number == 0 {
        let _ = send_each(rt, alloc, lock, pass, sends);
        let _ = closing.set(rt, ());
        lock.wake_all();
    } else if number == 1 {
        let _ = work(lock, rt, alloc, pass, &OpenGate, 0, closing);
        let _ = done.set(rt, ());
    } else {
        ask(rt, alloc, lock, pass, done, looks);
    }
}

fn serve_all<D: Disk + Drop + Send, K: Keeper + Drop + Send, R: Threads + Wait + Clock + Sync>(
    rt: &R,
    alloc: Global,
    lock: &StageLock<D, K>,
    passes: &mut [StagePass<D, K>],
    closing: &OnceLock<()>,
    done: &OnceLock<()>,
    looks: &AtomicU64,
    sends: u64,
)
    requires passes { All (λ p. (p.lock ≡ lock.now.lock) × (p.spares ≡ 0)) passes.old }
    ensures passes { All (λ p. (p.lock ≡ lock.now.lock) × (p.spares ≡ 0)) passes.new }
{
    values_go();
    thread::for_each_mut(
        rt,
        passes,
        66,
        &|i, pass|
            requires { pass.old.lock ≡ lock.now.lock }
            ensures { (pass.new.lock ≡ pass.old.lock) × (pass.new.spares ≡ pass.old.spares) }
        { serve(lock, rt, alloc, pass, i, closing, done, looks, sends) },
    );
}

/// A pass for the hand, the worker and each lane, as far as there are seats and memory.
fn seated<D: Disk + Drop, K: Keeper + Drop>(
    alloc: Global,
    lock: &StageLock<D, K>,
    first: &mut StagePass<D, K>,
    lanes: u64,
) -> Vec<StagePass<D, K>>
    requires pass { first.old.lock ≡ lock.now.lock }
    ensures pass { first.new.lock ≡ first.old.lock }
    ensures seats { All (λ p. (p.lock ≡ lock.now.lock) × (p.spares ≡ 0)) result.items }
{
    let mut passes = Vec::new(alloc);
    'seats: for _ in 0..lanes.saturating_add(2) {
        let Ok(one) = lock.split(first) else {
            break;
        };
        if let Err(failed) = passes.push(one) {
            drop(failed);
            break;
        }
    }
    passes
}

/// What a run came to: its nanoseconds, the looks of all lanes, and how many commands came to the tables.
fn run_at<D: Disk + Drop + Send, K: Keeper + Drop + Send, R: Threads + Wait + Clock + Sync>(
    rt: &R,
    alloc: Global,
    lock: &StageLock<D, K>,
    first: &mut StagePass<D, K>,
    lanes: u64,
    waiting: u64,
    sends: u64,
) -> Result<[u64; 3]>
    requires pass { first.old.lock ≡ lock.now.lock }
{
    send(rt, alloc, lock, first, 0, waiting)?;
    let mut passes = seated(alloc, lock, first, lanes);
    let (closing, done) = (OnceLock::new(), OnceLock::new());
    let looks = AtomicU64::new(0);
    let from = Instant::now(rt)?;
    serve_all(
        rt,
        alloc,
        lock,
        passes.as_mut_slice(),
        &closing,
        &done,
        &looks,
        sends,
    );
    let took = nanos_since(rt, from)?;
    drop(passes);
    let mut kept = None;
    let seen = looked(rt, alloc, lock, first, &mut kept)?;
    drop(kept);
    Ok([took, looks.load(SeqCst), seen])
}

/// The same over a core: so many commands wait, and the hand sends so many.
pub(crate) fn run_over<
    D: Disk + Drop + Send,
    K: Keeper + Drop + Send,
    R: Threads + Wait + Clock + Sync,
>(rt: &R, alloc: Global, core: Core<D, K>, lanes: u64, waiting: u64, sends: u64) -> Result<[u64; 3]>
    requires no_sweep { sweep_count (events_of core) ≡ 0 }
{
    match share(alloc, core, 66) {
        Ok((lock, mut first)) => {
            let told = run_at(rt, alloc, &lock, &mut first, lanes, waiting, sends);
            drop(first);
            drop(lock);
            told
        }
        Err((core, _)) => {
            drop(core);
            bail!("there was no memory")
        }
    }
}
