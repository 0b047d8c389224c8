//! Fills the tables with the records of the store's log.
//!
//! A log starts with the checkpoint of some history: the lifetimes, a base with the greatest sweeps, and for each node its marks
//! and the commands that count. After that it has changes and sweeps. Each record is one step of the tables, so no code needs to
//! know where the checkpoint ends.
ghost use Rattle.std.specs.Prelude.{◌≡◌, ◌<◌, IfOk, OnOk, MatchOption};
ghost use Rattle.std.specs.List.{AllByRecursion};
ghost use Rattle.ttl_sweeps.specs.history_spec.Lawful.{IsChange};
ghost use Rattle.ttl_sweeps.specs.history_spec.Trace.{applied_as};
ghost use Rattle.core_state.specs.table_machine.Steps.{apply};
ghost use Rattle.core_state.specs.record_spec.Store.{IsStoreRecord};
ghost use Rattle.core_state.specs.core_spec.Checkpoints.{settings};
ghost use Rattle.core_state.specs.core_spec.Damage.{IsStoreLog};
ghost use Rattle.core_state.specs.core_spec.Stands.{last_taken};
ghost use Rattle.core_state.specs.core_laws.TableReplay.{table_by, table_after};
ghost use Rattle.core_opening.specs.Filled.{IsFilled, IsHead};

use core_state::{StoreRecords, Tables};
use fleet_rows::{Change, Ttls};
use record_spec::StoreRecord;
use std::alloc::{AllocError, Global};
use ttl_sweeps::stamp_time::Moment;
use ttl_sweeps::sweep;

/// The tables, and the receipt that was applied last.
#[derive(Drop)]
pub(crate) struct Filled {
    pub(crate) tables: Tables,
    pub(crate) taken: Option<u64>,
}

/// The lifetimes that a first record tells, or None if it is of another kind.
fn lifetimes(first: &StoreRecord) -> Option<Ttls>
    requires { IsStoreRecord first.now }
    ensures { MatchOption result (IsHead first.now → ⊥) (λ ttls. settings ttls ≡ first.now) }
{
    match first {
        StoreRecord::Settings(node_days, purge_days, report_days) => Some(Ttls {
            node_days: *node_days,
            purge_days: *purge_days,
            report_days: *report_days,
            report_count: None,
        }),
        StoreRecord::Limits(node_days, purge_days, report_days, count) => Some(Ttls {
            node_days: *node_days,
            purge_days: *purge_days,
            report_days: *report_days,
            report_count: Some(*count),
        }),
        _ => None,
    }
}

/// The receipt that was applied last.
fn last_of(records: &[StoreRecord]) -> Option<u64>
    ensures { result ≡ last_taken records.now }
{
    let mut last = None;
    'reading: for rec in records {
        match rec {
            StoreRecord::Base(_, _, Some(receipt)) => last = Some(*receipt),
            StoreRecord::Applied(receipt, _) => last = Some(*receipt),
            StoreRecord::Received(receipt, _, _) => last = Some(*receipt),
            _ => {}
        }
    }
    last
}

/// Applies a change to the tables.
fn apply(
    tables: &mut Tables,
    receipt: u64,
    received: Option<Moment>,
    change: Change,
) -> Result<(), AllocError>
    requires { IsChange change }
    ensures { OnOk result (tables.new ≡ apply (applied_as receipt received change) tables.old) }
{
    let room = tables.reserve(&change)?;
    tables.apply(room, receipt, received, change);
    Ok(())
}

/// Applies a record to the tables.
fn step(tables: &mut Tables, rec: StoreRecord) -> Result<(), AllocError>
    requires { IsStoreRecord rec }
    ensures { OnOk result (tables.new ≡ table_by rec tables.old) }
{
    match rec {
        StoreRecord::Base(expire, retain, _) => {
            tables.set_sweeps(expire, retain);
            Ok(())
        }
        StoreRecord::Marks(mark) => tables.mark(&mark),
        StoreRecord::Applied(receipt, change) => apply(tables, receipt, None, change),
        StoreRecord::Received(receipt, received, change) => {
            apply(tables, receipt, received, change)
        }
        StoreRecord::Swept(kinds, m) => {
            sweep(tables, kinds, m);
            Ok(())
        }
        StoreRecord::Settings(_, _, _) => Ok(()),
        StoreRecord::Limits(_, _, _, _) => Ok(()),
    }
}

/// Applies all records to the tables, in order.
fn steps(tables: &mut Tables, records: Vec<StoreRecord>) -> Result<(), AllocError>
    requires { AllByRecursion IsStoreRecord records.items }
    ensures { OnOk result (tables.new ≡ table_after records.items tables.old) }
{
    'stepping: for rec in records {
        step(tables, rec)?;
    }
    Ok(())
}

/// The tables after all records, with the lifetimes of the first.
pub(crate) fn fill(alloc: Global, records: StoreRecords) -> Result<Filled, AllocError>
    requires log { IsStoreLog records }
    requires lawful { AllByRecursion IsStoreRecord records }
    ensures { IfOk result (λ filled. IsFilled filled records) }
{
    let taken = last_of(records.as_slice());
    let first = &records.as_slice()[0];
    let Some(ttls) = lifetimes(first) else {
        unreachable!()
    };
    let mut tables = Tables::new(alloc, ttls);
    match steps(&mut tables, records.into_vec()) {
        Ok(()) => Ok(Filled { tables, taken }),
        Err(_) => Err(AllocError),
    }
}
