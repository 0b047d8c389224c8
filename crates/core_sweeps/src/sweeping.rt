//! Keeps the record of a sweep in the store, and then sweeps the tables.
ghost use Rattle.ttl_sweeps.specs.history_spec.Lawful.{HasStamp};
ghost use Rattle.core_state.specs.record_spec.declared.store.StoreRecord.TheVariants as store;
ghost use Rattle.core_state.specs.Seen.{CoreIsSound};
ghost use Rattle.core_state.specs.Puts.{StoreHasKept};
ghost use Rattle.core_sweeps.specs.Call.{CoreSweeps};
ghost use Rattle.core_sweeps.specs.Sweeps.{DoesSweep};

use crate::answers::Swept;
use core_spec::Event;
use core_state::{CoreState, Keeper, Kept, keep_record};
use fleet_ports::Disk;
use fleet_rows::Kinds;
use record_spec::StoreRecord;
use std::alloc::Global;
use ttl_sweeps::stamp_time::Moment;
use ttl_sweeps::sweep as sweep_tables;

/// Keeps the record of a sweep in the store.
fn keep_sweep<K: Keeper + Drop>(keeper: &mut K, alloc: Global, kinds: Kinds, m: Moment) -> Kept
    requires up { K.is_up keeper.old }
    requires stamp { HasStamp m }
    ensures kept { StoreHasKept K.Keeper result keeper.old keeper.new (store.Swept kinds m) }
{
    let rec = StoreRecord::Swept(kinds, m);
    keep_record(keeper, alloc, &rec)
}

/// Checks that the core is up, and then sweeps.
fn sweep_step<D: Disk + Drop, K: Keeper + Drop>(
    core: &mut CoreState<D, K>,
    kinds: Kinds,
    m: Moment,
) -> Swept
    requires sound { CoreIsSound D.Disk K.Keeper core.old }
    requires stamp { HasStamp m }
    ensures does { DoesSweep K.Keeper result kinds m core.old core.new }
{
    if core.is_down() {
        return Swept::Down;
    }
    let waiting = core.pending.count() as usize;
    if core.events.reserve(waiting + 1).is_err() {
        return Swept::Memory;
    }
    match keep_sweep(&mut core.store, core.alloc, kinds, m) {
        Kept::Ok => {
            sweep_tables(&mut core.tables, kinds, m);
            core.events.note(Event::Sweep(kinds, m));
            Swept::Ok
        }
        Kept::Failed => Swept::StoreFault,
        Kept::Down => Swept::StoreDown,
        Kept::Spent => Swept::Spent,
        Kept::Memory => Swept::Memory,
    }
}

/// Sweeps the tables at a moment. The store has the sweep before the tables are swept.
pub fn sweep<D: Disk + Drop, K: Keeper + Drop>(
    core: &mut CoreState<D, K>,
    kinds: Kinds,
    m: Moment,
) -> Swept
    requires sound { CoreIsSound D.Disk K.Keeper core.old }
    requires stamp { HasStamp m }
    ensures does { CoreSweeps D.Disk K.Keeper result kinds m core.old core.new }
{
    sweep_step(core, kinds, m)
}
