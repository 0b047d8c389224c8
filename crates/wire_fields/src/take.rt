//! Takes fields out of an object. The field's member leaves the object whatever its value, and the others keep their order.
ghost use Rattle.std.specs.Prelude.{◌≡◌};
ghost use Rattle.wire_spec.specs.text_spec.Json.{without_member};
ghost use Rattle.wire_spec.specs.Refusals.{field_key};
ghost use Rattle.wire_spec.specs.Table.{required, optional, text, nonempty_text, bool, whole_number, stamp, members, items};

use crate::kind::{boolean, items, members, nonempty_text, stamp, text, whole_number};
use crate::names::key;
use wire_spec::fleet_rows::{Place, Refusal};
use wire_spec::json_tree::{Items, Json, Members, Text};
use wire_spec::stamp_time::Moment;

/// The text of a field. Absence is `Missing`.
pub fn required_text(json: &mut Members, place: Place) -> Result<Text, Refusal>
    ensures value { result ≡ required text place json.old }
    ensures others { json.new ≡ without_member (field_key place.field) json.old }
{
    match json.take(key(place.field)) {
        Some(value) => text(place, value),
        None => Err(Refusal::Missing(place)),
    }
}

/// The nonempty text of a field. Absence is `Missing`.
pub fn required_nonempty_text(json: &mut Members, place: Place) -> Result<Text, Refusal>
    ensures value { result ≡ required nonempty_text place json.old }
    ensures others { json.new ≡ without_member (field_key place.field) json.old }
{
    match json.take(key(place.field)) {
        Some(value) => nonempty_text(place, value),
        None => Err(Refusal::Missing(place)),
    }
}

/// The Boolean of a field. Absence is `Missing`.
pub fn required_bool(json: &mut Members, place: Place) -> Result<bool, Refusal>
    ensures value { result ≡ required bool place json.old }
    ensures others { json.new ≡ without_member (field_key place.field) json.old }
{
    match json.take(key(place.field)) {
        Some(value) => boolean(place, value),
        None => Err(Refusal::Missing(place)),
    }
}

/// The moment of a field's stamp. Absence is `Missing`.
pub fn required_stamp(json: &mut Members, place: Place) -> Result<Moment, Refusal>
    ensures value { result ≡ required stamp place json.old }
    ensures others { json.new ≡ without_member (field_key place.field) json.old }
{
    match json.take(key(place.field)) {
        Some(value) => stamp(place, value),
        None => Err(Refusal::Missing(place)),
    }
}

/// The members of a field's object. Absence is `Missing`.
pub fn required_members(json: &mut Members, place: Place) -> Result<Members, Refusal>
    ensures value { result ≡ required members place json.old }
    ensures others { json.new ≡ without_member (field_key place.field) json.old }
{
    match json.take(key(place.field)) {
        Some(value) => members(place, value),
        None => Err(Refusal::Missing(place)),
    }
}

/// The items of a field's array. Absence is `Missing`.
pub fn required_items(json: &mut Members, place: Place) -> Result<Items, Refusal>
    ensures value { result ≡ required items place json.old }
    ensures others { json.new ≡ without_member (field_key place.field) json.old }
{
    match json.take(key(place.field)) {
        Some(value) => items(place, value),
        None => Err(Refusal::Missing(place)),
    }
}

/// The text of a field that may be absent or null.
pub fn optional_text(json: &mut Members, place: Place) -> Result<Option<Text>, Refusal>
    ensures value { result ≡ optional text place json.old }
    ensures others { json.new ≡ without_member (field_key place.field) json.old }
{
    match json.take(key(place.field)) {
        Some(Json::Null) | None => Ok(None),
        Some(value) => match text(place, value) {
            Ok(taken) => Ok(Some(taken)),
            Err(refusal) => Err(refusal),
        },
    }
}

/// The Boolean of a field that may be absent or null.
pub fn optional_bool(json: &mut Members, place: Place) -> Result<Option<bool>, Refusal>
    ensures value { result ≡ optional bool place json.old }
    ensures others { json.new ≡ without_member (field_key place.field) json.old }
{
    match json.take(key(place.field)) {
        Some(Json::Null) | None => Ok(None),
        Some(value) => match boolean(place, value) {
            Ok(taken) => Ok(Some(taken)),
            Err(refusal) => Err(refusal),
        },
    }
}

/// The whole number below 10^18 of a field that may be absent or null.
pub fn optional_whole_number(json: &mut Members, place: Place) -> Result<Option<u64>, Refusal>
    ensures value { result ≡ optional whole_number place json.old }
    ensures others { json.new ≡ without_member (field_key place.field) json.old }
{
    match json.take(key(place.field)) {
        Some(Json::Null) | None => Ok(None),
        Some(value) => match whole_number(place, value) {
            Ok(taken) => Ok(Some(taken)),
            Err(refusal) => Err(refusal),
        },
    }
}

/// The moment of a field that may be absent or null.
pub fn optional_stamp(json: &mut Members, place: Place) -> Result<Option<Moment>, Refusal>
    ensures value { result ≡ optional stamp place json.old }
    ensures others { json.new ≡ without_member (field_key place.field) json.old }
{
    match json.take(key(place.field)) {
        Some(Json::Null) | None => Ok(None),
        Some(value) => match stamp(place, value) {
            Ok(taken) => Ok(Some(taken)),
            Err(refusal) => Err(refusal),
        },
    }
}

/// The members of a field that may be absent or null.
pub fn optional_members(json: &mut Members, place: Place) -> Result<Option<Members>, Refusal>
    ensures value { result ≡ optional members place json.old }
    ensures others { json.new ≡ without_member (field_key place.field) json.old }
{
    match json.take(key(place.field)) {
        Some(Json::Null) | None => Ok(None),
        Some(value) => match members(place, value) {
            Ok(taken) => Ok(Some(taken)),
            Err(refusal) => Err(refusal),
        },
    }
}

/// The items of a field that may be absent or null.
pub fn optional_items(json: &mut Members, place: Place) -> Result<Option<Items>, Refusal>
    ensures value { result ≡ optional items place json.old }
    ensures others { json.new ≡ without_member (field_key place.field) json.old }
{
    match json.take(key(place.field)) {
        Some(Json::Null) | None => Ok(None),
        Some(value) => match items(place, value) {
            Ok(taken) => Ok(Some(taken)),
            Err(refusal) => Err(refusal),
        },
    }
}
