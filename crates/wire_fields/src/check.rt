//! Checks fields of an object that is kept as received. The refusals are those of fields that are taken out.
ghost use Rattle.std.specs.Prelude.{◌≡◌, MatchResult, option_map, Ok, Err};
ghost use Rattle.wire_spec.specs.json_tree.Tree.{json_of};
ghost use Rattle.wire_spec.specs.Table.{required, optional, text, stamp, members, items};
ghost use Rattle.wire_fields.specs.Checks.{checked};

use crate::member::find;
use crate::names::key;
use wire_spec::fleet_rows::{Place, Refusal};
use wire_spec::json_tree::{Items, Json, Members};
use wire_spec::stamp_time::read_stamp;

/// Checks that the field is a text. Absence is `Missing`.
pub fn check_required_text(json: &Members, place: Place) -> Result<(), Refusal>
    ensures { result ≡ checked (required text place json.now) }
{
    match find(json, key(place.field)) {
        Some(Json::Text(_)) => Ok(()),
        Some(_) => Err(Refusal::Wrong(place)),
        None => Err(Refusal::Missing(place)),
    }
}

/// Checks that the field is a text, null or absent.
pub fn check_optional_text(json: &Members, place: Place) -> Result<(), Refusal>
    ensures { result ≡ checked (optional text place json.now) }
{
    match find(json, key(place.field)) {
        Some(Json::Text(_)) | Some(Json::Null) | None => Ok(()),
        Some(_) => Err(Refusal::Wrong(place)),
    }
}

/// Checks that the field is a stamp, null or absent. A text that is no stamp is `BadStamp`.
pub fn check_optional_stamp(json: &Members, place: Place) -> Result<(), Refusal>
    ensures { result ≡ checked (optional stamp place json.now) }
{
    match find(json, key(place.field)) {
        Some(Json::Null) | None => Ok(()),
        Some(Json::Text(text)) => match read_stamp(text.as_str()) {
            Some(_) => Ok(()),
            None => Err(Refusal::BadStamp(place)),
        },
        Some(_) => Err(Refusal::Wrong(place)),
    }
}

/// The members of the value, which must be an object.
pub fn members_in(place: Place, value: &Json) -> Result<&Members, Refusal>
    ensures { MatchResult result
        (λ ms. members place (json_of value.now) ≡ Ok ms.now)
        (λ refusal. members place (json_of value.now) ≡ Err refusal) }
{
    match value {
        Json::Map(members) => Ok(members),
        _ => Err(Refusal::Wrong(place)),
    }
}

/// The items of an array field that may be absent or null.
pub fn optional_items_in(json: &Members, place: Place) -> Result<Option<&Items>, Refusal>
    ensures { MatchResult result
        (λ js. optional items place json.now ≡ Ok (option_map (λ xs. xs.now) js))
        (λ refusal. optional items place json.now ≡ Err refusal) }
{
    match find(json, key(place.field)) {
        Some(Json::Null) | None => Ok(None),
        Some(Json::List(items)) => Ok(Some(items)),
        Some(_) => Err(Refusal::Wrong(place)),
    }
}
