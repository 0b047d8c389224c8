//! The records of the store's log.
use crate::record_queue::{put, put_value};
use queue_records::fleet_rows::{Change, Kinds, Mark};
use queue_records::json_tree::Bytes;
use queue_records::stamp_time::Moment;
use std::alloc::{AllocError, Global};
use store_records::{StoreRecord, read_store, write_store};

fn nanosecond(moment: &Option<Moment>) -> Option<i128> {
    match moment {
        None => None,
        Some(moment) => Some(moment.as_nanosecond()),
    }
}

fn put_moments(
    alloc: Global,
    text: &mut String,
    first: &Option<Moment>,
    second: &Option<Moment>,
) -> Result<(), AllocError> {
    put_value(alloc, text, &nanosecond(first))?;
    put_value(alloc, text, &nanosecond(second))
}

// Appends the kind and the node of a change.
fn put_change(alloc: Global, text: &mut String, change: &Change) -> Result<(), AllocError> {
    put_value(alloc, text, &change.kind())?;
    text.push(' ')?;
    text.push_str(change.certname().as_str())
}

fn put_base(
    alloc: Global,
    text: &mut String,
    expire: &Option<Moment>,
    retain: &Option<Moment>,
    taken: &Option<u64>,
) -> Result<(), AllocError> {
    text.push_str("Base")?;
    put_moments(alloc, text, expire, retain)?;
    put_value(alloc, text, taken)
}

fn put_mark(alloc: Global, text: &mut String, mark: &Mark) -> Result<(), AllocError> {
    text.push_str("Marks ")?;
    text.push_str(mark.certname.as_str())?;
    put_moments(alloc, text, &mark.active, &mark.deactivated)
}

fn put_sweep(
    alloc: Global,
    text: &mut String,
    kinds: &Kinds,
    moment: &Moment,
) -> Result<(), AllocError> {
    let said = format!(in alloc;
        "Swept {} {} {} {}",
        kinds.expire,
        kinds.purge,
        kinds.reports,
        moment.as_nanosecond()
    )?;
    text.push_str(said.as_str())
}

fn put_applied(
    alloc: Global,
    text: &mut String,
    receipt: u64,
    change: &Change,
) -> Result<(), AllocError> {
    put(text, "Applied", &[receipt])?;
    put_change(alloc, text, change)
}

fn put_received(
    alloc: Global,
    text: &mut String,
    receipt: u64,
    received: &Option<Moment>,
    change: &Change,
) -> Result<(), AllocError> {
    put(text, "Received", &[receipt])?;
    put_value(alloc, text, &nanosecond(received))?;
    put_change(alloc, text, change)
}

// Appends what a record says.
fn put_record(alloc: Global, text: &mut String, rec: &StoreRecord) -> Result<(), AllocError> {
    match rec {
        StoreRecord::Settings(node, purge, report) => {
            let days = [u64::from(*node), u64::from(*purge), u64::from(*report)];
            put(text, "Settings", &days)
        }
        StoreRecord::Base(expire, retain, taken) => put_base(alloc, text, expire, retain, taken),
        StoreRecord::Marks(mark) => put_mark(alloc, text, mark),
        StoreRecord::Applied(receipt, change) => put_applied(alloc, text, *receipt, change),
        StoreRecord::Swept(kinds, moment) => put_sweep(alloc, text, kinds, moment),
        StoreRecord::Received(receipt, received, change) => {
            put_received(alloc, text, *receipt, received, change)
        }
        StoreRecord::Limits(node, purge, report, count) => {
            let days = [u64::from(*node), u64::from(*purge), u64::from(*report)];
            put(
                text,
                "Limits",
                &[days[0], days[1], days[2], u64::from(*count)],
            )
        }
    }
}

/// What the record says that the bytes are; nothing where they are none.
pub(crate) fn words(alloc: Global, bytes: &[u8]) -> Result<String, AllocError> {
    let mut text = String::new(alloc);
    match read_store(alloc, bytes)? {
        None => {}
        Some(rec) => {
            let said = put_record(alloc, &mut text, &rec);
            drop(rec);
            said?;
        }
    }
    Ok(text)
}

/// How the record is spelt that the bytes are; none where they are no record. A record is let go by a call, so that no proof walks
/// through its variants at each way out.
pub(crate) fn spelling(alloc: Global, bytes: &[u8]) -> Result<Option<Bytes>, AllocError> {
    match read_store(alloc, bytes)? {
        None => Ok(None),
        Some(rec) => {
            let again = write_store(alloc, &rec);
            drop(rec);
            Ok(Some(again?))
        }
    }
}
