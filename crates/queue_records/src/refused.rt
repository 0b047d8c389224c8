//! Encodes and decodes refusals and causes.
ghost use Rattle.std.specs.Prelude.{◌≡◌, ◌++◌, OnOk, slice_get};
ghost use Rattle.record_fields.specs.record_spec.Parts.{optional, short_text};
ghost use Rattle.record_fields.specs.record_spec.Refusals.{field_number, place_bytes, refusal_bytes, cause_bytes};
ghost use Rattle.record_fields.specs.Reading.{Shows};
ghost use Rattle.queue_records.specs.Reading.{field_at, place_at, refusal_at, cause_at};

use record_fields::fleet_rows::{Cause, Field, Place, Refusal};
use record_fields::{put_u32, put_u64, take_index, take_u32, take_u64};
use std::alloc::AllocError;

// The fields, indexed by their numbers.
const FIELDS: &[Field] = &[
    Field::Certname,
    Field::Environment,
    Field::Values,
    Field::ProducerTimestamp,
    Field::Producer,
    Field::Version,
    Field::TransactionUuid,
    Field::CatalogUuid,
    Field::CodeId,
    Field::JobId,
    Field::Edges,
    Field::Resources,
    Field::Type,
    Field::Title,
    Field::Exported,
    Field::File,
    Field::Line,
    Field::Tags,
    Field::Parameters,
    Field::Source,
    Field::SourceType,
    Field::SourceTitle,
    Field::Target,
    Field::TargetType,
    Field::TargetTitle,
    Field::Relationship,
    Field::PuppetVersion,
    Field::ReportFormat,
    Field::ConfigurationVersion,
    Field::StartTime,
    Field::EndTime,
    Field::Noop,
    Field::Status,
    Field::Logs,
    Field::Metrics,
    Field::ResourceType,
    Field::ResourceTitle,
    Field::Events,
    Field::Timestamp,
    Field::Property,
    Field::Message,
    Field::Expire,
    Field::ExpireFacts,
];

fn number_of(field: Field) -> u8
    ensures { result ≡ field_number field }
{
    field as u8
}

fn field_numbered(fields: &[Field], number: u8) -> Option<Field>
    ensures { result ≡ slice_get fields.now number }
{
    fields.get(usize::from(number)).copied()
}

fn take_field(bytes: &[u8]) -> Option<(Field, &[u8])>
    ensures { Shows (λ x. (x.0, x.1.now)) result (field_at bytes.now) }
{
    match bytes {
        [] => None,
        [number, rest @ ..] => {
            let field = field_numbered(FIELDS, *number)?;
            Some((field, rest))
        }
    }
}

#[tactic(auto, unfolding(crate::specs::Reading::place_at))]
fn take_place(bytes: &[u8]) -> Option<(Place, &[u8])>
    ensures { Shows (λ x. (x.0, x.1.now)) result (place_at bytes.now) }
{
    let (field, rest) = take_field(bytes)?;
    let (outer, rest) = take_index(rest)?;
    let (inner, rest) = take_index(rest)?;
    let place = Place {
        field,
        outer,
        inner,
    };
    Some((place, rest))
}

#[tactic(auto, unfolding(crate::specs::Reading::refusal_at))]
pub(crate) fn take_refusal(bytes: &[u8]) -> Option<(Refusal, &[u8])>
    ensures { Shows (λ x. (x.0, x.1.now)) result (refusal_at bytes.now) }
{
    match bytes {
        [0, rest @ ..] => Some((Refusal::BadVersion, rest)),
        [1, rest @ ..] => {
            let (at, rest) = take_u64(rest)?;
            Some((Refusal::NotJson { at: at as usize }, rest))
        }
        [2, rest @ ..] => {
            let (at, rest) = take_u64(rest)?;
            Some((Refusal::TooDeep { at: at as usize }, rest))
        }
        [3, rest @ ..] => Some((Refusal::NotObject, rest)),
        [4, rest @ ..] => {
            let (place, rest) = take_place(rest)?;
            Some((Refusal::Missing(place), rest))
        }
        [5, rest @ ..] => {
            let (place, rest) = take_place(rest)?;
            Some((Refusal::Wrong(place), rest))
        }
        [6, rest @ ..] => {
            let (place, rest) = take_place(rest)?;
            Some((Refusal::BadStamp(place), rest))
        }
        [7, rest @ ..] => {
            let (index, rest) = take_u32(rest)?;
            Some((Refusal::DuplicateResource { index }, rest))
        }
        [8, rest @ ..] => {
            let (index, rest) = take_u32(rest)?;
            Some((Refusal::BadRelationship { index }, rest))
        }
        _ => None,
    }
}

#[tactic(auto, unfolding(crate::specs::Reading::cause_at))]
pub(crate) fn take_cause(bytes: &[u8]) -> Option<(Cause, &[u8])>
    ensures { Shows (λ x. (x.0, x.1.now)) result (cause_at bytes.now) }
{
    match bytes {
        [0, rest @ ..] => {
            let (refusal, rest) = take_refusal(rest)?;
            Some((Cause::Refused(refusal), rest))
        }
        [1, rest @ ..] => Some((Cause::Failures, rest)),
        _ => None,
    }
}

fn put_index(out: &mut Vec<u8>, number: Option<u32>) -> Result<(), AllocError>
    ensures { OnOk result (out.new.items ≡ out.old.items ++ optional short_text number) }
{
    match number {
        None => out.push(0)?,
        Some(number) => {
            out.push(1)?;
            put_u32(out, number)?;
        }
    }
    Ok(())
}

fn put_place(out: &mut Vec<u8>, place: &Place) -> Result<(), AllocError>
    ensures { OnOk result (out.new.items ≡ out.old.items ++ place_bytes place.now) }
{
    out.push(number_of(place.field))?;
    put_index(out, place.outer)?;
    put_index(out, place.inner)
}

pub(crate) fn put_refusal(out: &mut Vec<u8>, refusal: &Refusal) -> Result<(), AllocError>
    ensures { OnOk result (out.new.items ≡ out.old.items ++ refusal_bytes refusal.now) }
{
    match refusal {
        Refusal::BadVersion => out.push(0)?,
        Refusal::NotJson { at } => {
            out.push(1)?;
            put_u64(out, *at as u64)?;
        }
        Refusal::TooDeep { at } => {
            out.push(2)?;
            put_u64(out, *at as u64)?;
        }
        Refusal::NotObject => out.push(3)?,
        Refusal::Missing(place) => {
            out.push(4)?;
            put_place(out, place)?;
        }
        Refusal::Wrong(place) => {
            out.push(5)?;
            put_place(out, place)?;
        }
        Refusal::BadStamp(place) => {
            out.push(6)?;
            put_place(out, place)?;
        }
        Refusal::DuplicateResource { index } => {
            out.push(7)?;
            put_u32(out, *index)?;
        }
        Refusal::BadRelationship { index } => {
            out.push(8)?;
            put_u32(out, *index)?;
        }
    }
    Ok(())
}

pub(crate) fn put_cause(out: &mut Vec<u8>, cause: &Cause) -> Result<(), AllocError>
    ensures { OnOk result (out.new.items ≡ out.old.items ++ cause_bytes cause.now) }
{
    match cause {
        Cause::Refused(refusal) => {
            out.push(0)?;
            put_refusal(out, refusal)?;
        }
        Cause::Failures => out.push(1)?,
    }
    Ok(())
}
