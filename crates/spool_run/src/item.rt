//! Takes one item of a spool.
ghost use Rattle.std.specs.Prelude.{◌≡◌, ◌≤◌, false, Some, length};
ghost use Rattle.fleet_hub.specs.history_spec.Lawful.{HasStamp};
ghost use Rattle.fleet_hub.specs.core_state.Seen.{down_of};
ghost use Rattle.fleet_hub.specs.core_course.Sight.{sight_of};
ghost use Rattle.fleet_hub.specs.core_course.Work.{Worked};
ghost use Rattle.spool_run.specs.Rules.{IsBatch};
ghost use Rattle.spool_run.specs.Steps.{DrainEnds, LastDrained, BatchDrained, CommandTaken, OneTaken, SweepTaken, SweptDrained};
ghost use Rattle.program_words.specs.json_tree.Limits.{most_payload};
ghost use Rattle.fleet_rows.specs.Limits.{most_workers};

use crate::batch::is_batch;
use crate::ends::{SpoolEnd, Stepped, Taken};
use fleet_hub::{Core, Drained, Gate, Keeper, Submitted, Swept, WorkEnd, drain};
use fleet_ports::Disk;
use fleet_rows::{Command, Kinds};
use stamp_time::Moment;
use std::alloc::Global;
use std::sync::Wait;
use std::thread::Threads;

/// Settles all pending commands by this number of workers. None means that all were settled.
pub(crate) fn drain_all<
    D: Disk + Drop + Send,
    K: Keeper + Drop + Send,
    G: Gate + Sync,
    R: Threads + Wait + Sync,
>(rt: &R, alloc: Global, core: Core<D, K>, workers: u32, gate: &G) -> Stepped<D, K>
    requires up { down_of K.down core ≡ false }
    requires some { 1 ≤ workers }
    requires few { workers ≤ most_workers }
    ensures worked { Worked (sight_of D.Disk K.Keeper) core result.core }
    ensures drained { DrainEnds (sight_of D.Disk K.Keeper) result.end core result.core }
{
    let Drained { core, end } = drain(rt, alloc, core, workers, gate);
    match end {
        WorkEnd::Done => Stepped { core, end: None },
        WorkEnd::QueueFault => Stepped {
            core,
            end: Some(SpoolEnd::QueueFault),
        },
        WorkEnd::StoreDown => Stepped {
            core,
            end: Some(SpoolEnd::StoreDown),
        },
        WorkEnd::Spent => Stepped {
            core,
            end: Some(SpoolEnd::Spent),
        },
        WorkEnd::Down => unreachable!(),
        WorkEnd::Memory => Stepped {
            core,
            end: Some(SpoolEnd::Memory),
        },
    }
}

/// Settles all pending commands. If that succeeds, the end is this one.
pub(crate) fn drain_last<
    D: Disk + Drop + Send,
    K: Keeper + Drop + Send,
    G: Gate + Sync,
    R: Threads + Wait + Sync,
>(rt: &R, alloc: Global, core: Core<D, K>, end: SpoolEnd, workers: u32, gate: &G) -> Taken<D, K>
    requires up { down_of K.down core ≡ false }
    requires some { 1 ≤ workers }
    requires few { workers ≤ most_workers }
    ensures { LastDrained (sight_of D.Disk K.Keeper) result.end end core result.core }
{
    let Stepped { core, end: fault } = drain_all(rt, alloc, core, workers, gate);
    match fault {
        Some(fault) => Taken { core, end: fault },
        None => Taken { core, end },
    }
}

/// Settles all pending commands, if a batch limit is reached.
pub(crate) fn drain_batch<
    D: Disk + Drop + Send,
    K: Keeper + Drop + Send,
    G: Gate + Sync,
    R: Threads + Wait + Sync,
>(rt: &R, alloc: Global, core: Core<D, K>, workers: u32, gate: &G) -> Stepped<D, K>
    requires up { down_of K.down core ≡ false }
    requires some { 1 ≤ workers }
    requires few { workers ≤ most_workers }
    ensures { BatchDrained (sight_of D.Disk K.Keeper) result.end core result.core }
{
    if is_batch(&core) {
        return drain_all(rt, alloc, core, workers, gate);
    }
    Stepped { core, end: None }
}

/// Submits a command.
pub(crate) fn take_command<D: Disk + Drop, K: Keeper + Drop>(
    core: &mut Core<D, K>,
    command: Command,
) -> Option<SpoolEnd>
    requires up { down_of K.down core.old ≡ false }
    requires few { IsBatch core.old.pending → ⊥ }
    requires payload { length command.payload ≤ most_payload }
    requires received { HasStamp command.received }
    ensures { CommandTaken (sight_of D.Disk K.Keeper) result command core.old core.new }
{
    match core.submit(command) {
        Submitted::Receipt(_) => None,
        Submitted::Full => unreachable!(),
        Submitted::QueueFault => Some(SpoolEnd::QueueFault),
        Submitted::Spent => Some(SpoolEnd::Spent),
        Submitted::Down => unreachable!(),
        Submitted::Memory => Some(SpoolEnd::Memory),
    }
}

/// Sweeps the tables.
pub(crate) fn take_sweep<D: Disk + Drop, K: Keeper + Drop>(
    core: &mut Core<D, K>,
    kinds: Kinds,
    m: Moment,
) -> Option<SpoolEnd>
    requires up { down_of K.down core.old ≡ false }
    requires stamp { HasStamp m }
    ensures { SweepTaken (sight_of D.Disk K.Keeper) result kinds m core.old core.new }
{
    match core.sweep(kinds, m) {
        Swept::Ok => None,
        Swept::StoreFault => Some(SpoolEnd::StoreFault),
        Swept::StoreDown => Some(SpoolEnd::StoreDown),
        Swept::Spent => Some(SpoolEnd::Spent),
        Swept::Down => unreachable!(),
        Swept::Memory => Some(SpoolEnd::Memory),
    }
}

/// Submits a command, and settles all pending ones if a batch limit is then reached.
pub(crate) fn take_one<
    D: Disk + Drop + Send,
    K: Keeper + Drop + Send,
    G: Gate + Sync,
    R: Threads + Wait + Sync,
>(
    rt: &R,
    alloc: Global,
    mut core: Core<D, K>,
    command: Command,
    workers: u32,
    gate: &G,
) -> Stepped<D, K>
    requires up { down_of K.down core ≡ false }
    requires few { IsBatch core.pending → ⊥ }
    requires payload { length command.payload ≤ most_payload }
    requires received { HasStamp command.received }
    requires some { 1 ≤ workers }
    requires few_workers { workers ≤ most_workers }
    ensures { OneTaken (sight_of D.Disk K.Keeper) result.end command core result.core }
{
    match take_command(&mut core, command) {
        Some(end) => Stepped {
            core,
            end: Some(end),
        },
        None => drain_batch(rt, alloc, core, workers, gate),
    }
}

/// Settles all pending commands, and then sweeps.
pub(crate) fn sweep_drained<
    D: Disk + Drop + Send,
    K: Keeper + Drop + Send,
    G: Gate + Sync,
    R: Threads + Wait + Sync,
>(
    rt: &R,
    alloc: Global,
    core: Core<D, K>,
    kinds: Kinds,
    m: Moment,
    workers: u32,
    gate: &G,
) -> Stepped<D, K>
    requires up { down_of K.down core ≡ false }
    requires stamp { HasStamp m }
    requires some { 1 ≤ workers }
    requires few { workers ≤ most_workers }
    ensures { SweptDrained (sight_of D.Disk K.Keeper) result.end kinds m core result.core }
{
    let Stepped { mut core, end } = drain_all(rt, alloc, core, workers, gate);
    match end {
        Some(end) => Stepped {
            core,
            end: Some(end),
        },
        None => {
            let end = take_sweep(&mut core, kinds, m);
            Stepped { core, end }
        }
    }
}
