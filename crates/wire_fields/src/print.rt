//! Prints refusals: for the sender, in log files and among discarded commands.
ghost use Rattle.std.specs.Prelude.{◌≡◌, ◌++◌, ◌∷◌, IfOk, OnOk, decimal};
ghost use Rattle.wire_spec.specs.Refusals.{field_name, index_text, element_text, outer_text, inner_text, place_text, refusal_text, cause_text};

use crate::names::name;
use itoa::Buffer;
use std::alloc::{AllocError, Global};
use wire_spec::fleet_rows::{Cause, Field, Place, Refusal};
use wire_spec::json_tree::Bytes;

/// A place as printed, such as `values`, `resources[3].title` or `resources[1].events[0]`.
pub fn place_text(alloc: Global, place: Place) -> Result<Bytes, AllocError>
    ensures { IfOk result (λ text. text ≡ place_text place) }
{
    let mut text = Vec::new(alloc);
    put_place(&mut text, place)?;
    Ok(Bytes::from_vec(text))
}

/// A refusal as printed, such as `missing resources[3].title`.
pub fn refusal_text(alloc: Global, refusal: Refusal) -> Result<Bytes, AllocError>
    ensures { IfOk result (λ text. text ≡ refusal_text refusal) }
{
    let mut text = Vec::new(alloc);
    put_refusal(&mut text, refusal)?;
    Ok(Bytes::from_vec(text))
}

/// A cause as printed: the refusal, or `failures 16`.
pub fn cause_text(alloc: Global, cause: Cause) -> Result<Bytes, AllocError>
    ensures { IfOk result (λ text. text ≡ cause_text cause) }
{
    let mut text = Vec::new(alloc);
    match cause {
        Cause::Refused(refusal) => put_refusal(&mut text, refusal)?,
        Cause::Failures => text.extend_from_slice(b"failures 16")?,
    }
    Ok(Bytes::from_vec(text))
}

fn put_refusal(text: &mut Vec<u8>, refusal: Refusal) -> Result<(), AllocError>
    ensures { OnOk result (text.new.items ≡ text.old.items ++ refusal_text refusal) }
{
    match refusal {
        Refusal::BadVersion => text.extend_from_slice(b"bad version"),
        Refusal::NotJson { at } => put_numbered(text, b"not json at ", at as u64),
        Refusal::TooDeep { at } => put_numbered(text, b"too deep at ", at as u64),
        Refusal::NotObject => text.extend_from_slice(b"not object"),
        Refusal::Missing(place) => put_placed(text, b"missing ", place),
        Refusal::Wrong(place) => put_placed(text, b"wrong ", place),
        Refusal::BadStamp(place) => put_placed(text, b"bad stamp ", place),
        Refusal::DuplicateResource { index } => put_numbered(
            text,
            b"duplicate resource ",
            index as u64,
        ),
        Refusal::BadRelationship { index } => put_numbered(
            text,
            b"bad relationship ",
            index as u64,
        ),
    }
}

// Appends words and a number.
fn put_numbered(text: &mut Vec<u8>, words: &[u8], number: u64) -> Result<(), AllocError>
    ensures { OnOk result (text.new.items ≡ text.old.items ++ (words.now ++ decimal number)) }
{
    text.extend_from_slice(words)?;
    put_number(text, number)
}

// Appends words and a place.
fn put_placed(text: &mut Vec<u8>, words: &[u8], place: Place) -> Result<(), AllocError>
    ensures { OnOk result (text.new.items ≡ text.old.items ++ (words.now ++ place_text place)) }
{
    text.extend_from_slice(words)?;
    put_place(text, place)
}

fn put_place(text: &mut Vec<u8>, place: Place) -> Result<(), AllocError>
    ensures { OnOk result (text.new.items ≡ text.old.items ++ place_text place) }
{
    match place.outer {
        None => text.extend_from_slice(name(place.field).as_bytes()),
        Some(index) => match place.inner {
            None => put_outer(text, place.field, index),
            Some(within) => put_inner(text, place.field, index, within),
        },
    }
}

// Appends a list element of the payload, or a field of such an element.
fn put_outer(text: &mut Vec<u8>, field: Field, index: u32) -> Result<(), AllocError>
    ensures { OnOk result (text.new.items ≡ text.old.items ++ outer_text field index) }
{
    match field {
        Field::Edges | Field::Resources | Field::Logs | Field::Metrics => put_element(
            text, field, index,
        ),
        Field::Source | Field::SourceType | Field::SourceTitle => put_field_of(
            text,
            Field::Edges,
            index,
            field,
        ),
        Field::Target | Field::TargetType | Field::TargetTitle => put_field_of(
            text,
            Field::Edges,
            index,
            field,
        ),
        Field::Relationship => put_field_of(text, Field::Edges, index, field),
        _ => put_field_of(text, Field::Resources, index, field),
    }
}

// Appends a tag or an event of a resource, or a field of an event.
fn put_inner(text: &mut Vec<u8>, field: Field, index: u32, within: u32) -> Result<(), AllocError>
    ensures { OnOk result (text.new.items ≡ text.old.items ++ inner_text field index within) }
{
    match field {
        Field::Tags | Field::Events => {
            put_outer(text, field, index)?;
            put_index(text, within)
        }
        _ => {
            put_outer(text, Field::Events, index)?;
            put_index(text, within)?;
            put_field(text, field)
        }
    }
}

fn put_field_of(text: &mut Vec<u8>, list: Field, index: u32, field: Field) -> Result<(), AllocError>
    ensures { OnOk result (text.new.items ≡ text.old.items ++ (element_text list index ++ 46 ∷ field_name field)) }
{
    put_element(text, list, index)?;
    put_field(text, field)
}

fn put_element(text: &mut Vec<u8>, list: Field, index: u32) -> Result<(), AllocError>
    ensures { OnOk result (text.new.items ≡ text.old.items ++ element_text list index) }
{
    text.extend_from_slice(name(list).as_bytes())?;
    put_index(text, index)
}

fn put_field(text: &mut Vec<u8>, field: Field) -> Result<(), AllocError>
    ensures { OnOk result (text.new.items ≡ text.old.items ++ 46 ∷ field_name field) }
{
    text.push(b'.')?;
    text.extend_from_slice(name(field).as_bytes())
}

fn put_index(text: &mut Vec<u8>, index: u32) -> Result<(), AllocError>
    ensures { OnOk result (text.new.items ≡ text.old.items ++ index_text index) }
{
    text.push(b'[')?;
    put_number(text, index as u64)?;
    text.push(b']')?;
    Ok(())
}

fn put_number(text: &mut Vec<u8>, number: u64) -> Result<(), AllocError>
    ensures { OnOk result (text.new.items ≡ text.old.items ++ decimal number) }
{
    let mut digits = Buffer::new();
    text.extend_from_slice(digits.format(number).as_bytes())
}
