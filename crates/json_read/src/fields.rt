//! Reads the members of an object by name and by expected type. No call allocates.
ghost use Rattle.std.specs.Prelude.{◌≡◌, ◌≤◌, IfSome, MatchResult, option_map, Ok, Err};
ghost use Rattle.json_machine.specs.text_spec.Json.{find_member, levels};
ghost use Rattle.json_tree.specs.Tree.{json_of};
ghost use Rattle.json_read.specs.Fields.{as_text, as_bool, as_map, as_list, as_stamp};

use crate::fault::FieldFault;
use json_tree::{Items, Json, Members, Text};
use stamp_time::{Moment, read_stamp};

/// The value of the member with this name.
pub fn find<'a>(json: &'a Members, name: &str) -> Option<&'a Json>
    ensures value { option_map (λ j. json_of j.now) result ≡ find_member name.now json.now }
    ensures shallow { IfSome result (λ j. levels (json_of j.now) ≤ 126) }
{
    let mut at = 0;
    'members: while at < json.len() {
        let (key, value) = json.pair(at);
        if name == key.as_str() {
            return Some(value);
        }
        at += 1;
    }
    None
}

/// The text with this name.
pub fn text_field<'a>(json: &'a Members, name: &str) -> Result<&'a Text, FieldFault>
    ensures { MatchResult result
        (λ t. as_text (find_member name.now json.now) ≡ Ok t.now)
        (λ fault. as_text (find_member name.now json.now) ≡ Err fault) }
{
    match find(json, name) {
        None => Err(FieldFault::Missing),
        Some(Json::Text(text)) => Ok(text),
        Some(_) => Err(FieldFault::Wrong),
    }
}

/// The Boolean with this name.
pub fn bool_field(json: &Members, name: &str) -> Result<bool, FieldFault>
    ensures { result ≡ as_bool (find_member name.now json.now) }
{
    match find(json, name) {
        None => Err(FieldFault::Missing),
        Some(Json::Bool(truth)) => Ok(*truth),
        Some(_) => Err(FieldFault::Wrong),
    }
}

/// The object with this name.
pub fn map_field<'a>(json: &'a Members, name: &str) -> Result<&'a Members, FieldFault>
    ensures { MatchResult result
        (λ ms. as_map (find_member name.now json.now) ≡ Ok ms.now)
        (λ fault. as_map (find_member name.now json.now) ≡ Err fault) }
{
    match find(json, name) {
        None => Err(FieldFault::Missing),
        Some(Json::Map(members)) => Ok(members),
        Some(_) => Err(FieldFault::Wrong),
    }
}

/// The array with this name.
pub fn list_field<'a>(json: &'a Members, name: &str) -> Result<&'a Items, FieldFault>
    ensures { MatchResult result
        (λ js. as_list (find_member name.now json.now) ≡ Ok js.now)
        (λ fault. as_list (find_member name.now json.now) ≡ Err fault) }
{
    match find(json, name) {
        None => Err(FieldFault::Missing),
        Some(Json::List(items)) => Ok(items),
        Some(_) => Err(FieldFault::Wrong),
    }
}

/// The moment of the stamp with this name (a profile of RFC 3339).
pub fn stamp_field(json: &Members, name: &str) -> Result<Moment, FieldFault>
    ensures { result ≡ as_stamp (find_member name.now json.now) }
{
    let text = text_field(json, name)?;
    match read_stamp(text.as_str()) {
        Some(moment) => Ok(moment),
        None => Err(FieldFault::BadStamp),
    }
}
