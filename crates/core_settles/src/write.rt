//! Writes the record of a change to the store.
ghost use Rattle.std.specs.Prelude.{◌≡◌, Some};
ghost use Rattle.core_claims.specs.history_spec.Lawful.{HasStamp, IsChange};
ghost use Rattle.core_claims.specs.record_spec.declared.store.StoreRecord.TheVariants as store;
ghost use Rattle.core_claims.specs.core_state.Puts.{StoreHasKept};
ghost use Rattle.core_settles.specs.Records.{IsSpellingOf};

use crate::change::change_of;
use crate::prepared::Spelling;
use core_claims::{Job, Keeper, Kept, keep_record, keep_spelt};
use fleet_rows::Change;
use fleet_rows::stamp_time::Moment;
use record_spec::StoreRecord;
use std::alloc::Global;

/// Keeps the record of a change as it was spelt, if that was done for this job. Otherwise it spells the record first. The change
/// is given back.
pub(crate) fn write<K: Keeper + Drop>(
    keeper: &mut K,
    alloc: Global,
    job: &Job,
    change: Change,
    spelling: &Spelling,
) -> (Kept, Change)
    requires up { K.is_up keeper.old }
    requires lawful { IsChange change }
    requires received { HasStamp job.now.command.received }
    requires spelt { IsSpellingOf spelling.now change }
    ensures kept { StoreHasKept K.Keeper result.0 keeper.old keeper.new (store.Received job.now.receipt (Some job.now.command.received) change) }
    ensures change { result.1 ≡ change }
{
    if spelling.is_of(job) {
        let answer = keep_spelt(keeper, alloc, &spelling.spelt);
        (answer, change)
    } else {
        let received = job.command.command().received;
        write_anew(keeper, alloc, job.receipt, received, change)
    }
}

// Spells the record here, and keeps it.
fn write_anew<K: Keeper + Drop>(
    keeper: &mut K,
    alloc: Global,
    receipt: u64,
    received: Moment,
    change: Change,
) -> (Kept, Change)
    requires up { K.is_up keeper.old }
    requires lawful { IsChange change }
    requires received { HasStamp received }
    ensures kept { StoreHasKept K.Keeper result.0 keeper.old keeper.new (store.Received receipt (Some received) change) }
    ensures change { result.1 ≡ change }
{
    let rec = StoreRecord::Received(receipt, Some(received), change);
    let answer = keep_record(keeper, alloc, &rec);
    let Some(change) = change_of(rec) else {
        unreachable!()
    };
    (answer, change)
}
