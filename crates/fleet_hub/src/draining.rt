//! Drains a core by several workers.
ghost use Rattle.std.specs.Prelude.{◌≡◌, ◌↔◌, ◌≤◌, ◌+◌, true, false, All, vec_len, IfOk, OnErr};
ghost use Rattle.core_drain.specs.core_state.Seen.{down_of};
ghost use Rattle.core_drain.specs.core_course.Sight.{sight_of};
ghost use Rattle.core_drain.specs.core_course.Work.{Worked};
ghost use Rattle.core_drain.specs.core_ends.declared.ends.WorkEnd.TheVariants as end;
ghost use Rattle.core_drain.specs.Ends.{EndsSo, NothingClaimed};
ghost use Rattle.core_drain.specs.LastCall.{EndsByCall};
ghost use Rattle.fleet_hub.specs.Finish.{Finished};
ghost use Rattle.hub_work.specs.hub_calls.Follows.{Follows};
ghost use Rattle.fleet_rows.specs.Limits.{most_workers};

use crate::hub::Hub;
use core_drain::{Core, DownBy, Keeper, WorkEnd, drain_alone};
use fleet_ports::Disk;
use fleet_rows::MOST_WORKERS;
use hub_work::{Gate, Lock, Pass, WorkAlone, values_go, work_at};
use std::alloc::{AllocError, AllocFailed, Global};
use std::sync::Wait;
use std::thread;
use std::thread::Threads;

/// The result of a drain.
#[derive(Drop)]
pub struct Drained<D: Disk + Drop, K: Keeper + Drop> {
    /// The core, which no worker holds any more.
    pub core: Core<D, K>,
    /// How the work ended.
    pub end: WorkEnd,
}

/// Settles all pending commands by this number of workers, each in a thread of its own. It ends when nothing is pending or the
/// work can't go on. Commands that are claimed at the start are queued again first. The caller settles what workers leave when
/// they stop for a fault or for memory. So a fault that it answers is one of its own calls. If the core is up at the end, nothing
/// is claimed.
pub fn drain<
    D: Disk + Drop + Send,
    K: Keeper + Drop + Send,
    G: Gate + Sync,
    R: Threads + Wait + Sync,
>(rt: &R, alloc: Global, mut core: Core<D, K>, workers: u32, gate: &G) -> Drained<D, K>
    requires some { 1 ≤ workers }
    requires few { workers ≤ most_workers }
    ensures worked { Worked (sight_of D.Disk K.Keeper) core result.core }
    ensures ends { EndsSo (sight_of D.Disk K.Keeper) result.end core result.core }

    // If the core is up at the end, its last call answered the end. So a fault that was got over is none.
    ensures last { down_of K.down result.core ≡ false → EndsByCall D.Disk K.Keeper result.end core result.core }
    ensures unclaimed { NothingClaimed (sight_of D.Disk K.Keeper) core result.core }
    ensures down { (result.end ≡ end.Down) ↔ (down_of K.down core ≡ true) }
{
    if core.is_down() {
        return Drained {
            core,
            end: WorkEnd::Down,
        };
    }
    core.free_claims();
    let mut core = work_all(rt, alloc, core, workers, gate);
    let end = finish(alloc, &mut core);
    Drained { core, end }
}

// Runs the workers over the core, and takes the core back.
fn work_all<
    D: Disk + Drop + Send,
    K: Keeper + Drop + Send,
    G: Gate + Sync,
    R: Threads + Wait + Sync,
>(rt: &R, alloc: Global, core: Core<D, K>, workers: u32, gate: &G) -> Core<D, K>
    requires some { 1 ≤ workers }
    requires few { workers ≤ most_workers }
    ensures { Follows (sight_of D.Disk K.Keeper) true core result }
{
    match Hub::new(alloc, core, workers + 1) {
        Err((core, _)) => core,
        Ok((hub, mut pass)) => {
            seat_and_run(rt, alloc, &hub, &mut pass, workers, gate);
            hub.close(pass)
        }
    }
}

// Seats as many workers as memory allows, runs them and joins them. Afterwards the pass has all its spares again.
fn seat_and_run<
    D: Disk + Drop + Send,
    K: Keeper + Drop + Send,
    G: Gate + Sync,
    R: Threads + Wait + Sync,
>(
    rt: &R,
    alloc: Global,
    hub: &Hub<D, K, WorkAlone>,
    pass: &mut Pass<D, K, WorkAlone>,
    workers: u32,
    gate: &G,
)
    requires pass { pass.old.lock ≡ hub.now.lock }
    ensures pass { (pass.new.lock ≡ pass.old.lock) × (pass.new.spares ≡ pass.old.spares) }
{
    let Ok(mut seats) = seat_all(alloc, hub, pass, workers) else {
        return;
    };
    run_all(rt, alloc, &hub.lock, seats.as_mut_slice(), gate);
    join_all(hub, pass, seats);
}

// Makes a pass for each worker.
fn seat_all<D: Disk + Drop, K: Keeper + Drop>(
    alloc: Global,
    hub: &Hub<D, K, WorkAlone>,
    pass: &mut Pass<D, K, WorkAlone>,
    workers: u32,
) -> Result<Vec<Pass<D, K, WorkAlone>>, AllocError>
    requires pass { pass.old.lock ≡ hub.now.lock }
    ensures pass { pass.new.lock ≡ hub.now.lock }
    ensures seats { IfOk result (λ v. All (λ p. (p.lock ≡ hub.entry.now.lock) × (p.spares ≡ 0)) v.items) }
    ensures spares { IfOk result (λ v. pass.new.spares + vec_len v ≡ pass.old.spares) }
    ensures err { OnErr result (pass.new.spares ≡ pass.old.spares) }
{
    let mut seats = Vec::with_capacity(alloc, workers as usize)?;
    'seats: for _ in 0..workers {
        let Ok(one) = hub.split(pass) else {
            break;
        };
        if let Err(failed) = seats.push(one) {
            let AllocFailed { value: one } = failed;
            hub.join(pass, one);
            break;
        }
    }
    Ok(seats)
}

// Runs a worker for each pass, in a thread of its own. Only tests use the numbers of workers.
fn run_all<
    D: Disk + Drop + Send,
    K: Keeper + Drop + Send,
    G: Gate + Sync,
    R: Threads + Wait + Sync,
>(
    rt: &R,
    alloc: Global,
    lock: &Lock<D, K, WorkAlone>,
    seats: &mut [Pass<D, K, WorkAlone>],
    gate: &G,
)
    requires seats { All (λ p. (p.lock ≡ lock.now.lock) × (p.spares ≡ 0)) seats.old }
    ensures seats { All (λ p. (p.lock ≡ lock.now.lock) × (p.spares ≡ 0)) seats.new }
{
    values_go();
    thread::for_each_mut(
        rt,
        seats,
        MOST_WORKERS as usize,
        &|i, pass|
            requires { pass.old.lock ≡ lock.now.lock }
            ensures { (pass.new.lock ≡ pass.old.lock) × (pass.new.spares ≡ pass.old.spares) }
        {
            let worker = u32::try_from(i).unwrap_or(u32::MAX);
            let _ = work_at(lock, rt, alloc, pass, gate, worker);
        },
    );
}

// Joins all passes into the first one.
fn join_all<D: Disk + Drop, K: Keeper + Drop>(
    hub: &Hub<D, K, WorkAlone>,
    pass: &mut Pass<D, K, WorkAlone>,
    mut seats: Vec<Pass<D, K, WorkAlone>>,
)
    requires pass { pass.old.lock ≡ hub.now.lock }
    requires seats { All (λ p. (p.lock ≡ hub.now.lock) × (p.spares ≡ 0)) seats.items }
    ensures pass { pass.new.lock ≡ hub.now.lock }
    ensures spares { pass.new.spares ≡ pass.old.spares + vec_len seats }
{
    'joins: while let Some(one) = seats.pop() {
        hub.join(pass, one);
    }
}

// Settles what is left, if the core is up.
fn finish<D: Disk + Drop, K: Keeper + Drop>(alloc: Global, core: &mut Core<D, K>) -> WorkEnd
    ensures finished { Finished (sight_of D.Disk K.Keeper) result core.old core.new }
    ensures last { down_of K.down core.old ≡ false → EndsByCall D.Disk K.Keeper result core.old core.new }
{
    match core.down_by() {
        DownBy::Store => WorkEnd::StoreDown,
        DownBy::Queue => WorkEnd::QueueFault,
        DownBy::No => drain_alone(alloc, core),
    }
}
