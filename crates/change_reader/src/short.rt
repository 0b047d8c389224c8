//! Decodes facts, deactivations and expirations.
ghost use Rattle.std.specs.Prelude.{◌≡◌, IfOk};
ghost use Rattle.record_fields.specs.Reading.{Shows};
ghost use Rattle.change_reader.specs.Changes.{facts_at, deactivate_at, expiration_at};

use json_read::json_tree::Text;
use record_fields::{take_bool, take_moment};
use record_values::{own_optional, take_certname, take_members, take_optional_text};
use std::alloc::{AllocError, Global};
use wire_catalog::fleet_rows::{DeactivateChange, ExpirationChange, FactsChange};

#[tactic(auto, unfolding(crate::specs::Changes::facts_at))]
pub(crate) fn take_facts(
    alloc: Global,
    bytes: &[u8],
) -> Result<Option<(FactsChange, &[u8])>, AllocError>
    ensures { IfOk result (λ o. Shows (λ x. (x.0, x.1.now)) o (facts_at bytes.now)) }
{
    let Some((certname, rest)) = take_certname(bytes) else {
        return Ok(None);
    };
    let Some((environment, rest)) = take_optional_text(rest) else {
        return Ok(None);
    };
    let Some((values, rest)) = take_members(alloc, 126, rest)? else {
        return Ok(None);
    };
    let Some((stamp, rest)) = take_moment(rest) else {
        return Ok(None);
    };
    let Some((producer, rest)) = take_optional_text(rest) else {
        return Ok(None);
    };
    let change = FactsChange {
        certname: Text::from_str(alloc, certname)?,
        environment: own_optional(alloc, environment)?,
        values,
        stamp,
        producer: own_optional(alloc, producer)?,
    };
    Ok(Some((change, rest)))
}

#[tactic(auto, unfolding(crate::specs::Changes::deactivate_at))]
pub(crate) fn take_deactivate(
    alloc: Global,
    bytes: &[u8],
) -> Result<Option<(DeactivateChange, &[u8])>, AllocError>
    ensures { IfOk result (λ o. Shows (λ x. (x.0, x.1.now)) o (deactivate_at bytes.now)) }
{
    let Some((certname, rest)) = take_certname(bytes) else {
        return Ok(None);
    };
    let Some((stamp, rest)) = take_moment(rest) else {
        return Ok(None);
    };
    let change = DeactivateChange {
        certname: Text::from_str(alloc, certname)?,
        stamp,
    };
    Ok(Some((change, rest)))
}

#[tactic(auto, unfolding(crate::specs::Changes::expiration_at))]
pub(crate) fn take_expiration(
    alloc: Global,
    bytes: &[u8],
) -> Result<Option<(ExpirationChange, &[u8])>, AllocError>
    ensures { IfOk result (λ o. Shows (λ x. (x.0, x.1.now)) o (expiration_at bytes.now)) }
{
    let Some((certname, rest)) = take_certname(bytes) else {
        return Ok(None);
    };
    let Some((stamp, rest)) = take_moment(rest) else {
        return Ok(None);
    };
    let Some((expire, rest)) = take_bool(rest) else {
        return Ok(None);
    };
    let change = ExpirationChange {
        certname: Text::from_str(alloc, certname)?,
        stamp,
        expire,
    };
    Ok(Some((change, rest)))
}
