//! Makes the records of the store's checkpoint.
ghost use Rattle.std.specs.Prelude.{◌≡◌, ◌∷◌, ◌++◌, [], None, map, OnOk, IfOk};
ghost use Rattle.std.specs.List.{AllByRecursion};
ghost use Rattle.std.specs.Str.{bytes_eq};
ghost use Rattle.core_state.specs.fleet_rows.Change.{change_certname};
ghost use Rattle.core_state.specs.history_spec.Lawful.{IfMoment};
ghost use Rattle.core_state.specs.record_spec.declared.store.StoreRecord.TheVariants as store;
ghost use Rattle.core_state.specs.record_spec.Store.{IsStoreRecord};
ghost use Rattle.core_state.specs.core_spec.Checkpoints.{settings, received};
ghost use Rattle.core_state.specs.compact_laws.Lawful.{IsLawfulCommand, IsLawfulMark, IsWritable};
ghost use Rattle.core_state.specs.compact_laws.Records.{own, others, each_node, records_of};
ghost use Rattle.core_compact.specs.Taken.{is_own_next, IsTaken};

use core_state::{StoreRecord, StoreRecords};
use fleet_rows::{Applied, Mark, StoreList, Ttls};
use json_tree::Text;
use stamp_time::Moment;
use std::alloc::{AllocError, Global};
use std::collections::VecDeque;

// ---- one record

/// The record of the lifetimes.
fn settings_record(ttls: Ttls) -> StoreRecord
    ensures rec { result ≡ settings ttls }
    ensures fits { IsStoreRecord result }
{
    match ttls.report_count {
        None => StoreRecord::Settings(ttls.node_days, ttls.purge_days, ttls.report_days),
        Some(count) => {
            StoreRecord::Limits(ttls.node_days, ttls.purge_days, ttls.report_days, count)
        }
    }
}

/// The record of a node's marks.
fn mark_record(alloc: Global, mark: &Mark) -> Result<StoreRecord, AllocError>
    requires { IsLawfulMark mark.now }
    ensures rec { IfOk result (λ rec. rec ≡ store.Marks mark.now) }
    ensures fits { IfOk result IsStoreRecord }
{
    let certname = Text::from_str(alloc, mark.certname.as_str())?;
    Ok(StoreRecord::Marks(Mark {
        certname,
        active: mark.active,
        deactivated: mark.deactivated,
    }))
}

/// The record of a command, which moves into it.
fn command_record(applied: Applied) -> StoreRecord
    requires { IsLawfulCommand applied }
    ensures rec { result ≡ received applied }
    ensures fits { IsStoreRecord result }
{
    let Applied {
        receipt,
        received,
        change,
    } = applied;
    StoreRecord::Received(receipt, received, change)
}

// ---- the commands of a node

/// Whether a command belongs to the node.
fn is_of(certname: &Text, applied: &Applied) -> bool
    ensures { result ≡ bytes_eq certname.now (change_certname applied.now.change) }
{
    certname.as_str() == applied.change.certname().as_str()
}

/// Whether the first command left belongs to the node.
fn is_own_next(certname: &Text, left: &VecDeque<Applied>) -> bool
    ensures { result ≡ is_own_next certname.now left.now.items }
{
    match left.front() {
        Some(applied) => is_of(certname, applied),
        None => false,
    }
}

/// Takes the first command left, if it belongs to the node.
fn take_own(certname: &Text, left: &mut VecDeque<Applied>) -> Option<Applied>
    ensures { IsTaken certname.now left.old.items left.new.items result }
{
    if is_own_next(certname, left) {
        left.pop_front()
    } else {
        None
    }
}

/// Appends the records of the node's commands, taken from the start of those left.
fn push_own(
    certname: &Text,
    left: &mut VecDeque<Applied>,
    records: &mut StoreRecords,
) -> Result<(), AllocError>
    requires lawful { AllByRecursion IsLawfulCommand left.old.items }
    requires fits { AllByRecursion IsStoreRecord records.old }
    ensures records { OnOk result (records.new ≡ records.old ++ map received (own certname.now left.old.items)) }
    ensures left { OnOk result (left.new.items ≡ others certname.now left.old.items) }
    ensures fits { OnOk result (AllByRecursion IsStoreRecord records.new) }
    ensures lawful { OnOk result (AllByRecursion IsLawfulCommand left.new.items) }
{
    'taking: while let Some(applied) = take_own(certname, left) {
        records.push(command_record(applied))?;
    }
    Ok(())
}

// ---- all records

/// Appends the records of each node: its marks, and then its commands.
fn push_nodes(
    alloc: Global,
    marks: &[Mark],
    left: &mut VecDeque<Applied>,
    records: &mut StoreRecords,
) -> Result<(), AllocError>
    requires marks { AllByRecursion IsLawfulMark marks.now }
    requires lawful { AllByRecursion IsLawfulCommand left.old.items }
    requires fits { AllByRecursion IsStoreRecord records.old }
    ensures records { OnOk result (records.new ≡ records.old ++ each_node marks.now left.old.items) }
    ensures fits { OnOk result (AllByRecursion IsStoreRecord records.new) }
{
    'nodes: for mark in marks {
        records.push(mark_record(alloc, mark)?)?;
        push_own(&mark.certname, left, records)?;
    }
    Ok(())
}

/// Appends the lifetimes, and a base with the greatest sweeps.
fn push_head(
    ttls: Ttls,
    expire: Option<Moment>,
    retain: Option<Moment>,
    records: &mut StoreRecords,
) -> Result<(), AllocError>
    requires expire { IfMoment expire }
    requires retain { IfMoment retain }
    requires none { records.old ≡ [] }
    ensures records { OnOk result (records.new ≡ settings ttls ∷ store.Base expire retain None ∷ []) }
    ensures fits { OnOk result (AllByRecursion IsStoreRecord records.new) }
{
    records.push(settings_record(ttls))?;
    records.push(StoreRecord::Base(expire, retain, None))?;
    Ok(())
}

/// Appends the lifetimes, the base, and then each node.
fn push_parts(
    alloc: Global,
    ttls: Ttls,
    expire: Option<Moment>,
    retain: Option<Moment>,
    marks: &[Mark],
    left: &mut VecDeque<Applied>,
    records: &mut StoreRecords,
) -> Result<(), AllocError>
    requires expire { IfMoment expire }
    requires retain { IfMoment retain }
    requires marks { AllByRecursion IsLawfulMark marks.now }
    requires lawful { AllByRecursion IsLawfulCommand left.old.items }
    requires none { records.old ≡ [] }
    ensures records { OnOk result (records.new ≡ settings ttls ∷ store.Base expire retain None ∷ each_node marks.now left.old.items) }
    ensures fits { OnOk result (AllByRecursion IsStoreRecord records.new) }
{
    push_head(ttls, expire, retain, records)?;
    push_nodes(alloc, marks, left, records)
}

/// Appends all records of the list to an empty one.
fn push_all(alloc: Global, list: StoreList, records: &mut StoreRecords) -> Result<(), AllocError>
    requires writable { IsWritable list }
    requires none { records.old ≡ [] }
    ensures records { OnOk result (records.new ≡ records_of None list) }
    ensures fits { OnOk result (AllByRecursion IsStoreRecord records.new) }
{
    let StoreList {
        ttls,
        expire,
        retain,
        marks,
        applied,
    } = list;
    let mut left = VecDeque::from_vec(applied.into_vec());
    let pushed = push_parts(
        alloc,
        ttls,
        expire,
        retain,
        marks.as_slice(),
        &mut left,
        records,
    );
    drop(left);
    drop(marks);
    pushed
}

/// The records of the list: its lifetimes, a base, and for each node its marks and then its commands. The changes move into them.
pub(crate) fn store_records(alloc: Global, list: StoreList) -> Result<StoreRecords, AllocError>
    requires { IsWritable list }
    ensures records { IfOk result (λ records. records ≡ records_of None list) }
    ensures fits { IfOk result (AllByRecursion IsStoreRecord) }
{
    let mut records = StoreRecords::new(alloc);
    push_all(alloc, list, &mut records)?;
    Ok(records)
}
