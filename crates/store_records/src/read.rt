//! Decodes a record.
ghost use Rattle.std.specs.Prelude.{◌≡◌, ℕ, Option, IfOk, MatchOption};
ghost use Rattle.record_fields.specs.record_spec.declared.store.StoreRecord.{StoreRecord};
ghost use Rattle.record_fields.specs.record_spec.Store.{store_text, IsStoreRecord};
ghost use Rattle.record_fields.specs.Reading.{Shows};
ghost use Rattle.store_records.specs.Reading.{whole, kinds_at, lifetimes_at, settings_at, limits_at, base_at, marks_at, swept_at, applied_at};
ghost use Rattle.store_records.specs.Reading.{received_at, store_at};

use change_reader::take_change;
use json_read::json_tree::Text;
use json_read::stamp_time::MOST_DAYS;
use record_fields::record_spec::StoreRecord;
use record_fields::{take_moment, take_u64};
use record_values::{take_between, take_certname, take_optional_moment, take_optional_u64};
use std::alloc::{AllocError, Global};
use wire_catalog::fleet_rows::{Kinds, Mark};

#[tactic(auto, unfolding(crate::specs::Reading::lifetimes_at))]
fn take_lifetimes(bytes: &[u8]) -> Option<(u32, u32, u32, &[u8])>
    ensures { Shows (λ x. ((x.0, (x.1, x.2)), x.3.now)) result (lifetimes_at bytes.now) }
{
    let (node, rest) = take_between(1, MOST_DAYS, bytes)?;
    let (purge, rest) = take_between(1, MOST_DAYS, rest)?;
    let (report, rest) = take_between(1, MOST_DAYS, rest)?;
    Some((node, purge, report, rest))
}

#[tactic(auto, unfolding(crate::specs::Reading::settings_at))]
fn settings_of(bytes: &[u8]) -> Option<StoreRecord>
    ensures { result ≡ whole (settings_at bytes.now) }
{
    let (node, purge, report, rest) = take_lifetimes(bytes)?;
    rest.is_empty()
        .then_some(StoreRecord::Settings(node, purge, report))
}

#[tactic(auto, unfolding(crate::specs::Reading::limits_at))]
fn limits_of(bytes: &[u8]) -> Option<StoreRecord>
    ensures { result ≡ whole (limits_at bytes.now) }
{
    let (node, purge, report, rest) = take_lifetimes(bytes)?;
    let (count, rest) = take_between(1, 1_000_000, rest)?;
    rest.is_empty()
        .then_some(StoreRecord::Limits(node, purge, report, count))
}

#[tactic(auto, unfolding(crate::specs::Reading::base_at))]
fn base_of(bytes: &[u8]) -> Option<StoreRecord>
    ensures { result ≡ whole (base_at bytes.now) }
{
    let (expire, rest) = match take_optional_moment(bytes) {
        None => return None,
        Some(read) => read,
    };
    let (retain, rest) = match take_optional_moment(rest) {
        None => return None,
        Some(read) => read,
    };
    let (taken, rest) = take_optional_u64(rest)?;
    if rest.is_empty() {
        Some(StoreRecord::Base(expire, retain, taken))
    } else {
        None
    }
}

#[tactic(auto, unfolding(crate::specs::Reading::marks_at))]
fn marks_of(alloc: Global, bytes: &[u8]) -> Result<Option<StoreRecord>, AllocError>
    ensures { IfOk result (λ o. o ≡ whole (marks_at bytes.now)) }
{
    let Some((certname, rest)) = take_certname(bytes) else {
        return Ok(None);
    };
    let Some((active, rest)) = take_optional_moment(rest) else {
        return Ok(None);
    };
    let Some((deactivated, rest)) = take_optional_moment(rest) else {
        return Ok(None);
    };
    if !rest.is_empty() {
        return Ok(None);
    }
    let mark = Mark {
        certname: Text::from_str(alloc, certname)?,
        active,
        deactivated,
    };
    Ok(Some(StoreRecord::Marks(mark)))
}

fn take_kinds(bytes: &[u8]) -> Option<(Kinds, &[u8])>
    ensures { Shows (λ x. (x.0, x.1.now)) result (kinds_at bytes.now) }
{
    let (expire, purge, reports, rest) = match bytes {
        [0, rest @ ..] => (false, false, false, rest),
        [1, rest @ ..] => (true, false, false, rest),
        [2, rest @ ..] => (false, true, false, rest),
        [3, rest @ ..] => (true, true, false, rest),
        [4, rest @ ..] => (false, false, true, rest),
        [5, rest @ ..] => (true, false, true, rest),
        [6, rest @ ..] => (false, true, true, rest),
        [7, rest @ ..] => (true, true, true, rest),
        _ => return None,
    };
    let kinds = Kinds {
        expire,
        purge,
        reports,
    };
    Some((kinds, rest))
}

#[tactic(auto, unfolding(crate::specs::Reading::swept_at))]
fn swept_of(bytes: &[u8]) -> Option<StoreRecord>
    ensures { result ≡ whole (swept_at bytes.now) }
{
    let (kinds, rest) = take_kinds(bytes)?;
    let (moment, rest) = match take_moment(rest) {
        None => return None,
        Some(read) => read,
    };
    if rest.is_empty() {
        Some(StoreRecord::Swept(kinds, moment))
    } else {
        None
    }
}

#[tactic(auto, unfolding(crate::specs::Reading::applied_at))]
fn applied_of(alloc: Global, bytes: &[u8]) -> Result<Option<StoreRecord>, AllocError>
    ensures { IfOk result (λ o. o ≡ whole (applied_at bytes.now)) }
{
    let Some((receipt, rest)) = take_u64(bytes) else {
        return Ok(None);
    };
    let Some((change, rest)) = take_change(alloc, rest)? else {
        return Ok(None);
    };
    if rest.is_empty() {
        Ok(Some(StoreRecord::Applied(receipt, change)))
    } else {
        Ok(None)
    }
}

#[tactic(auto, unfolding(crate::specs::Reading::received_at))]
fn received_of(alloc: Global, bytes: &[u8]) -> Result<Option<StoreRecord>, AllocError>
    ensures { IfOk result (λ o. o ≡ whole (received_at bytes.now)) }
{
    let Some((receipt, rest)) = take_u64(bytes) else {
        return Ok(None);
    };
    let Some((received, rest)) = take_optional_moment(rest) else {
        return Ok(None);
    };
    let Some((change, rest)) = take_change(alloc, rest)? else {
        return Ok(None);
    };
    if rest.is_empty() {
        Ok(Some(StoreRecord::Received(receipt, received, change)))
    } else {
        Ok(None)
    }
}

#[tactic(auto, unfolding(crate::specs::Reading::store_at))]
fn store_of(alloc: Global, bytes: &[u8]) -> Result<Option<StoreRecord>, AllocError>
    ensures { IfOk result (λ o. o ≡ store_at bytes.now) }
{
    match bytes {
        [0, rest @ ..] => Ok(settings_of(rest)),
        [1, rest @ ..] => Ok(base_of(rest)),
        [2, rest @ ..] => marks_of(alloc, rest),
        [3, rest @ ..] => applied_of(alloc, rest),
        [4, rest @ ..] => Ok(swept_of(rest)),
        [5, rest @ ..] => received_of(alloc, rest),
        [6, rest @ ..] => Ok(limits_of(rest)),
        _ => Ok(None),
    }
}

/// The record that all of the bytes encode, or None if they encode none.
pub fn read_store(alloc: Global, bytes: &[u8]) -> Result<Option<StoreRecord>, AllocError>
    // The result is that of the reader from left to right.
    ensures exact { IfOk result (λ o. o ≡ store_at bytes.now) }

    // The bytes are the record's encoding. The result is None exactly if they encode no record.
    ensures found { IfOk result (λ o. MatchOption o ((r : StoreRecord) → IsStoreRecord r → bytes.now ≡ store_text r → ⊥)
        (λ r. IsStoreRecord r × (bytes.now ≡ store_text r))) }
{
    store_of(alloc, bytes)
}
