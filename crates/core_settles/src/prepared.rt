//! Prepares a change outside the core: what it will show, and its record for the store's log.
ghost use Rattle.std.specs.Prelude.{◌≡◌, ◌↔◌, IsTrue, IfOk};
ghost use Rattle.core_claims.specs.history_spec.Lawful.{HasStamp, IsChange};
ghost use Rattle.core_settles.specs.Records.{IsSpellingOf};

use crate::change::change_of;
use core_claims::{Job, Spelt};
use fleet_rows::Change;
use fleet_rows::stamp_time::Moment;
use record_spec::StoreRecord;
use std::alloc::{AllocError, Global};
use std::marker::Model;

/// The record of a change as it is written to the store's log, with the receipt and the moment in it.
#[derive(Drop)]
pub(crate) struct Spelling {
    pub receipt: u64,
    /// The moment at which the command of this receipt was received.
    pub received: Moment,
    pub spelt: Spelt,
}

impl Spelling {
    /// Whether it has this job's receipt and the moment at which the job's command was received.
    pub(crate) fn is_of(&self, job: &Job) -> bool
        ensures { IsTrue result ↔ ((self.now.receipt ≡ job.now.receipt) × (self.now.received ≡ job.now.command.received)) }
    {
        let received = job.command.command().received;
        self.receipt == job.receipt && self.received == received
    }
}

/// A decoded change, with all that can be computed before it is settled: what it will show, and the spelling of its record. It is
/// made without the core, so any thread may make it. Contracts see the change. If it is settled for another job than the one that
/// it was prepared for, the record is spelt again.
#[derive(Drop)]
pub struct Prepared {
    pub(crate) change: fleet_tables::Prepared,
    pub(crate) spelling: Spelling,
}

impl Model for Prepared {
    ghost use Rattle.std.specs.Coded.{codes};
    ghost use Rattle.core_claims.specs.table_machine.text_spec.JsonCode.{coded_json};
    ghost use Rattle.core_claims.specs.fleet_rows.declared.change.Change.{Change};
    ghost use Rattle.core_settles.specs.Records.{IsSpellingOf};

    ghost Value = { Change };

    ghost coded = { Prim.hlevel (codes, coded_json) };

    ghost view = { λ a. a.change };

    ghost invariant = { λ a. IsSpellingOf a.spelling a.change };
}

impl Prepared {
    /// Spells the record of the change for this job, and computes all that the change will show. On failure the change is
    /// dropped.
    pub fn of(alloc: Global, job: &Job, change: Change) -> Result<Prepared, AllocError>
        requires lawful { IsChange change }
        requires received { HasStamp job.now.command.received }
        ensures { IfOk result (λ prepared. prepared ≡ change) }
    {
        let received = job.command.command().received;
        let (spelling, change) = spelling_of(alloc, job.receipt, received, change);
        match spelling {
            Ok(spelling) => with_spelling(alloc, change, spelling),
            Err(fault) => {
                drop(change);
                Err(fault)
            }
        }
    }
}

// The spelling of a change's record, with the change given back.
fn spelling_of(
    alloc: Global,
    receipt: u64,
    received: Moment,
    change: Change,
) -> (Result<Spelling, AllocError>, Change)
    requires lawful { IsChange change }
    requires received { HasStamp received }
    ensures spelling { IfOk result.0 (λ spelling. IsSpellingOf spelling change) }
    ensures change { result.1 ≡ change }
{
    let rec = StoreRecord::Received(receipt, Some(received), change);
    let spelling = match Spelt::of(alloc, &rec) {
        Ok(spelt) => Ok(Spelling {
            receipt,
            received,
            spelt,
        }),
        Err(fault) => Err(fault),
    };
    let Some(change) = change_of(rec) else {
        unreachable!()
    };
    (spelling, change)
}

// Computes what a change will show. On failure the change is dropped.
fn with_spelling(alloc: Global, change: Change, spelling: Spelling) -> Result<Prepared, AllocError>
    requires lawful { IsChange change }
    requires spelt { IsSpellingOf spelling change }
    ensures { IfOk result (λ prepared. prepared ≡ change) }
{
    match fleet_tables::Prepared::of(alloc, change) {
        Ok(change) => Ok(Prepared { change, spelling }),
        Err(fault) => {
            drop(spelling);
            Err(fault)
        }
    }
}
