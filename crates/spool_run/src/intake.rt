//! Takes a whole spool, item by item.
ghost use Rattle.std.specs.Prelude.{◌≡◌, ◌≤◌, false};
ghost use Rattle.spool_text.specs.fleet_ports.Counts.{Counts};
ghost use Rattle.fleet_hub.specs.history_spec.Lawful.{HasStamp};
ghost use Rattle.fleet_hub.specs.core_state.Seen.{down_of};
ghost use Rattle.fleet_hub.specs.core_course.Sight.{sight_of};
ghost use Rattle.spool_run.specs.Intake.{EndsSo};
ghost use Rattle.fleet_rows.specs.Limits.{most_workers};

use crate::ends::{SpoolEnd, Stepped, Taken};
use crate::item::{drain_batch, drain_last, sweep_drained, take_one};
use fleet_hub::{Core, Gate, Keeper};
use fleet_ports::{Disk, Source};
use spool_text::{NextItem, SpoolReader};
use stamp_time::Moment;
use std::alloc::Global;
use std::sync::Wait;
use std::thread::Threads;

/// Takes the spool's items in order, each command as received at this moment. Pending commands are settled by this number of
/// workers: at the start, before each sweep and at the spool's end. They are also settled after each command that reaches a batch
/// limit ([`MOST_WAITING`](crate::MOST_WAITING), [`MOST_BYTES`](crate::MOST_BYTES)). If an item isn't whole, that is the spool's
/// end.
pub fn take_spool<
    S: Source + Drop,
    D: Disk + Drop + Send,
    K: Keeper + Drop + Send,
    G: Gate + Sync,
    R: Threads + Wait + Sync,
>(
    rt: &R,
    alloc: Global,
    core: Core<D, K>,
    spool: &mut S,
    now: Moment,
    workers: u32,
    gate: &G,
) -> Taken<D, K>
    requires up { down_of K.down core ≡ false }
    requires stamp { HasStamp now }
    requires some { 1 ≤ workers }
    requires few { workers ≤ most_workers }
    ensures ends { EndsSo (sight_of D.Disk K.Keeper) now result.end (S.left spool.old) (S.left spool.new) core result.core }
    ensures read_cause { Counts (S.fault_count spool.old) (S.fault_count spool.new) (result.end ≡ SpoolEnd.ReadFault) }
{
    let Stepped { mut core, end } = drain_batch(rt, alloc, core, workers, gate);
    match end {
        Some(end) => return Taken { core, end },
        None => {}
    }
    let mut reader = SpoolReader::new(alloc);
    'items: loop {
        match reader.next_item(spool, now) {
            NextItem::Command(command) => {
                let Stepped { core: next, end } = take_one(rt, alloc, core, command, workers, gate);
                match end {
                    Some(end) => return Taken { core: next, end },
                    None => core = next,
                }
            }
            NextItem::Sweep(kinds, m) => {
                let Stepped { core: next, end } = sweep_drained(
                    rt, alloc, core, kinds, m, workers, gate,
                );
                match end {
                    Some(end) => return Taken { core: next, end },
                    None => core = next,
                }
            }
            NextItem::End => return drain_last(rt, alloc, core, SpoolEnd::Done, workers, gate),
            NextItem::SpoolBad { at } => {
                return drain_last(rt, alloc, core, SpoolEnd::Bad { at }, workers, gate);
            }
            NextItem::ReadFault => {
                return Taken {
                    core,
                    end: SpoolEnd::ReadFault,
                };
            }
            NextItem::Memory => {
                return Taken {
                    core,
                    end: SpoolEnd::Memory,
                };
            }
        }
    }
}
