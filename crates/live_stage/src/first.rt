//! The tables that a thread begins with. They are made from one list of the core's tables, outside the lock.
ghost use Rattle.std.specs.Prelude.{◌≡◌, [], IfOk};
ghost use Rattle.core_ends.specs.core_state.Seen.{events_of};
ghost use Rattle.core_ends.specs.core_course.Sight.{sight_of};
ghost use Rattle.core_ends.specs.fleet_tables.Listed.{IsLawfulList};
ghost use Rattle.lock_calls.specs.Calls.{Lasts};
ghost use Rattle.live_stage.specs.Trace.{sweep_count, HasFirstIn};
ghost use Rattle.live_stage.specs.First.{first, AreFirstOf, BeginsWith};

use crate::snapshot::Snapshot;
use crate::under_lock::StagePass;
use core_ends::{Core, Keeper};
use fleet_ports::Disk;
use fleet_rows::StoreList;
use fleet_tables::Tables;
use std::alloc::{AllocError, Global};
use std::marker::Model;

/// The tables of a core that comes under the lock, as a list, and the length of its live trace.
#[derive(Drop)]
pub struct FirstTables {
    live: u64,
    list: StoreList,
}

impl Model for FirstTables {
    ghost use Rattle.std.specs.Coded.{codes};
    ghost use Rattle.std.proofs.Props.{props};
    ghost use Rattle.core_ends.specs.text_spec.JsonCode.{coded_json};
    ghost use Rattle.core_ends.specs.fleet_tables.Listed.{IsLawfulList};
    ghost use Rattle.live_stage.specs.First.{FirstView};

    ghost Value = { FirstView };

    ghost coded = { Prim.hlevel (codes, coded_json, props) };

    ghost view = { λ f. record { live = f.live; list = f.list } };

    ghost invariant = { λ f. IsLawfulList f.list };
}

impl FirstTables {
    /// Copies the core's tables once, before the core comes under the lock.
    pub fn of<D: Disk + Drop, K: Keeper + Drop>(
        core: &Core<D, K>,
    ) -> Result<FirstTables, AllocError>
        requires no_sweep { sweep_count (events_of core.now) ≡ 0 }
        ensures { IfOk result (λ f. AreFirstOf core.now f) }
    {
        core.is_lawful();
        let live = core.tally().applied;
        let list = core.tables().snapshot()?;
        Ok(FirstTables::new(live, list))
    }

    fn new(live: u64, list: StoreList) -> FirstTables
        requires { IsLawfulList list }
        ensures { result ≡ first live list }
    {
        FirstTables { live, list }
    }

    /// A thread's own tables, made without a hold. They lack what was applied or swept since the core came under the lock, so the
    /// thread's first look takes these steps along, and copies no tables.
    pub fn snapshot<D: Disk + Drop, K: Keeper + Drop>(
        &self,
        alloc: Global,
        pass: &StagePass<D, K>,
    ) -> Result<Snapshot, AllocError>
        requires begins { BeginsWith self.now pass.now.seen }
        ensures whole { IfOk result (λ s. (s.seen ≡ self.now.live) × (s.behind ≡ [])) }
        // As after a look: they stay tables of the first events.
        ensures first { IfOk result (λ s. Lasts (HasFirstIn (sight_of D.Disk K.Keeper) s) pass.now.seen) }
    {
        let tables = Tables::from_list(alloc, &self.list)?;
        Ok(Snapshot::whole(alloc, self.live, tables))
    }
}
