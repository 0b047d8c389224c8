//! A lane's own tables, and how they are brought up to date.
ghost use Rattle.std.specs.Prelude.{◌≡◌, ◌++◌, [], false, drop, IfOk, IfSome, IsSome, OnOk, OnErr};
ghost use Rattle.std.specs.List.{AllByRecursion};
ghost use Rattle.core_ends.specs.fleet_tables.Stands.{Stands};
ghost use Rattle.core_ends.specs.history_spec.Trace.{Trace};
ghost use Rattle.core_ends.specs.core_course.Sight.{sight_of};
ghost use Rattle.hub_calls.specs.Follows.{Follows};
ghost use Rattle.live_stage.specs.Trace.{live_of, HasFirst, HasTrace, HasAll, snapshot};
ghost use Rattle.live_stage.specs.Shelf.{IsLawfulStep};
ghost use Rattle.live_stage.specs.Causes.{AreNoted};

use crate::shelf::{Shelf, Step, apply_all};
use crate::stage::Stage;
use core_ends::{Core, Keeper};
use fleet_ports::Disk;
use fleet_tables::Tables;
use std::alloc::{AllocError, Global};
use std::collections::VecDeque;
use std::marker::Model;

/// Tables, the steps of the live trace that they lack, and of how many events they are with these.
#[derive(Drop)]
pub struct Snapshot {
    seen: u64,
    tables: Tables,
    // Oldest first.
    behind: VecDeque<Step>,
}

impl Model for Snapshot {
    ghost use Rattle.std.specs.List.{AllByRecursion};
    ghost use Rattle.std.specs.Coded.{codes};
    ghost use Rattle.std.proofs.Props.{props};
    ghost use Rattle.core_ends.specs.text_spec.JsonCode.{coded_json};
    ghost use Rattle.core_ends.specs.fleet_tables.Seen.{coded_table};
    ghost use Rattle.live_stage.specs.Trace.{SnapshotView};
    ghost use Rattle.live_stage.specs.Shelf.{IsLawfulStep};

    ghost Value = { SnapshotView };

    ghost coded = { Prim.hlevel (codes, coded_json, coded_table (Prim.hlevel (codes, coded_json)) (Prim.hlevel (codes, props))) };

    ghost view = { λ s. record { seen = s.seen; tables = s.tables; behind = s.behind.items } };

    ghost invariant = { λ s. AllByRecursion IsLawfulStep s.behind.items };
}

impl Snapshot {
    /// How many events of the live trace the tables have when they are caught up.
    pub fn seen(&self) -> u64
        ensures { result ≡ self.now.seen }
    {
        self.seen
    }

    /// The tables. They lack the steps that `catch_up` applies.
    pub fn tables(&self) -> &Tables
        ensures { result.now ≡ self.now.tables }
    {
        &self.tables
    }

    /// Applies the steps that the tables lack, outside the lock. Without memory those that are left stay to be applied.
    pub fn catch_up(&mut self, alloc: Global) -> Result<(), AllocError>
        ensures seen { self.new.seen ≡ self.old.seen }
        ensures ok { OnOk result (self.new.behind ≡ []) }
        ensures lifetimes { self.new.tables.ttls ≡ self.old.tables.ttls }
        ensures trace { (trace : Trace) → HasTrace self.old trace → HasTrace self.new trace }
    {
        apply_all(alloc, &mut self.tables, &mut self.behind)
    }

    /// Tables that lack nothing.
    pub(crate) fn whole(alloc: Global, seen: u64, tables: Tables) -> Snapshot
        ensures { result ≡ snapshot seen tables [] }
    {
        Snapshot {
            seen,
            tables,
            behind: VecDeque::new(alloc),
        }
    }

    // The same tables, with the steps of a shelf from this place on behind their own.
    fn with_steps(
        self,
        alloc: Global,
        seen: u64,
        shelf: &Shelf,
        from: usize,
    ) -> (Snapshot, Result<(), AllocError>)
        ensures ok { OnOk result.1 (result.0 ≡ snapshot seen self.tables (self.behind ++ drop from shelf.now)) }
        ensures err { OnErr result.1 (result.0 ≡ self) }
    {
        match shelf.behind(alloc, &self.behind, from) {
            Ok(behind) => (self.moved(seen, behind), Ok(())),
            Err(fault) => (self, Err(fault)),
        }
    }

    // The same tables, with other steps behind them.
    fn moved(self, seen: u64, behind: VecDeque<Step>) -> Snapshot
        requires { AllByRecursion IsLawfulStep behind.items }
        ensures { result ≡ snapshot seen self.tables behind.items }
    {
        let Snapshot {
            seen: _,
            tables,
            behind: before,
        } = self;
        drop(before);
        Snapshot {
            seen,
            tables,
            behind,
        }
    }
}

// Tables that stand for all that the core's tables stand for, with their lifetimes. All of it is copied.
fn copied<D: Disk + Drop, K: Keeper + Drop>(
    alloc: Global,
    core: &Core<D, K>,
) -> Result<Tables, AllocError>
    ensures stands { (history : Trace) → Stands core.now.tables history → IfOk result (λ tables. Stands tables history) }
    ensures lifetimes { IfOk result (λ tables. tables.ttls ≡ core.now.tables.ttls) }
{
    core.is_lawful();
    let list = core.tables().snapshot()?;
    Tables::from_list(alloc, &list)
}

impl<D: Disk + Drop, K: Keeper + Drop> Stage<D, K> {
    /// Brings what is kept up to date with the whole live trace. The steps that the tables lack are taken along, and applied by
    /// `catch_up` when the lock is free again. Only if nothing is kept, or too much is lacking, all tables are copied. Without
    /// memory `kept` stays.
    pub fn look(&self, alloc: Global, kept: &mut Option<Snapshot>) -> Result<(), AllocError>
        requires first { IfSome kept.old (λ s. HasFirst (sight_of D.Disk K.Keeper) self.now s) }
        ensures some { OnOk result (IsSome kept.new) }
        ensures whole { OnOk result (IfSome kept.new (λ s. HasAll (sight_of D.Disk K.Keeper) self.now s)) }
        ensures err { OnErr result (kept.new ≡ kept.old) }
        ensures follows { Follows (sight_of D.Disk K.Keeper) false self.now.start self.now.core }
        ensures causes { AreNoted (sight_of D.Disk K.Keeper) self.now }
    {
        self.is_followed();
        let live = self.live();
        match kept.take() {
            Some(snapshot) => {
                let (snapshot, looked) = self.bring(alloc, live, snapshot);
                *kept = Some(snapshot);
                looked
            }
            None => {
                let snapshot = self.copy(alloc, live)?;
                *kept = Some(snapshot);
                Ok(())
            }
        }
    }

    // Brings tables up to date.
    fn bring(
        &self,
        alloc: Global,
        live: u64,
        snapshot: Snapshot,
    ) -> (Snapshot, Result<(), AllocError>)
        requires live { live ≡ live_of self.now.core }
        requires first { HasFirst (sight_of D.Disk K.Keeper) self.now snapshot }
        ensures whole { OnOk result.1 (HasAll (sight_of D.Disk K.Keeper) self.now result.0) }
        ensures err { OnErr result.1 (result.0 ≡ snapshot) }
    {
        let lack = live.saturating_sub(snapshot.seen());
        if lack == 0 {
            return (snapshot, Ok(()));
        }
        if lack > self.shelf.len() as u64 {
            return self.replace(alloc, live, snapshot);
        }
        let from = self.shelf.len() - lack as usize;
        snapshot.with_steps(alloc, live, &self.shelf, from)
    }

    // A copy of all tables, instead of those that were kept.
    fn replace(
        &self,
        alloc: Global,
        live: u64,
        snapshot: Snapshot,
    ) -> (Snapshot, Result<(), AllocError>)
        requires live { live ≡ live_of self.now.core }
        ensures whole { OnOk result.1 (HasAll (sight_of D.Disk K.Keeper) self.now result.0) }
        ensures err { OnErr result.1 (result.0 ≡ snapshot) }
    {
        match self.copy(alloc, live) {
            Ok(copy) => {
                drop(snapshot);
                (copy, Ok(()))
            }
            Err(fault) => (snapshot, Err(fault)),
        }
    }

    fn copy(&self, alloc: Global, live: u64) -> Result<Snapshot, AllocError>
        requires live { live ≡ live_of self.now.core }
        ensures { IfOk result (HasAll (sight_of D.Disk K.Keeper) self.now) }
    {
        self.is_followed();
        let tables = copied(alloc, self.core())?;
        Ok(Snapshot::whole(alloc, live, tables))
    }
}
