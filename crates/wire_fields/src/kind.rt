//! Reads a value of each type that fields take. A value of another type is `Wrong` at the given place.
ghost use Rattle.std.specs.Prelude.{◌≡◌, Some, None, if◌then◌else◌};
ghost use Rattle.std.specs.Char.{is_ascii_digit};
ghost use Rattle.std.specs.List.{list_all};
ghost use Rattle.std.specs.Str.Parse.{digits_value};
ghost use Rattle.wire_spec.specs.text_spec.Json.{string};
ghost use Rattle.wire_spec.specs.json_tree.Tree.{json_of};
ghost use Rattle.wire_spec.specs.Table.{text, nonempty_text, bool, whole_number, stamp, members, items, is_whole};

use wire_spec::fleet_rows::{Place, Refusal};
use wire_spec::json_tree::{Items, Json, Members, Text};
use wire_spec::stamp_time::{Moment, read_stamp};

/// The value, which must be a text.
pub fn text(place: Place, value: Json) -> Result<Text, Refusal>
    ensures { result ≡ text place (json_of value) }
{
    match value {
        Json::Text(text) => Ok(text),
        _ => Err(Refusal::Wrong(place)),
    }
}

/// The value, which must be a nonempty text.
pub fn nonempty_text(place: Place, value: Json) -> Result<Text, Refusal>
    ensures { result ≡ nonempty_text place (json_of value) }
{
    match value {
        Json::Text(text) => filled(place, text),
        _ => Err(Refusal::Wrong(place)),
    }
}

fn filled(place: Place, text: Text) -> Result<Text, Refusal>
    ensures { result ≡ nonempty_text place (string text) }
{
    if text.as_str().is_empty() {
        Err(Refusal::Wrong(place))
    } else {
        Ok(text)
    }
}

/// The value, which must be a Boolean.
pub fn boolean(place: Place, value: Json) -> Result<bool, Refusal>
    ensures { result ≡ bool place (json_of value) }
{
    match value {
        Json::Bool(truth) => Ok(truth),
        _ => Err(Refusal::Wrong(place)),
    }
}

/// The value, which must be a whole number below 10^18: a number spelled with 1 to 18 digits and nothing else.
pub fn whole_number(place: Place, value: Json) -> Result<u64, Refusal>
    ensures { result ≡ whole_number place (json_of value) }
{
    match value {
        Json::Num(number) => match whole_of(number.spelling().as_str()) {
            Some(whole) => Ok(whole),
            None => Err(Refusal::Wrong(place)),
        },
        _ => Err(Refusal::Wrong(place)),
    }
}

fn whole_of(spelling: &str) -> Option<u64>
    ensures { result ≡ (if is_whole spelling.now then Some (digits_value 10 spelling.now) else None) }
{
    if is_whole(spelling) {
        spelling.parse::<u64>().ok()
    } else {
        None
    }
}

fn is_whole(spelling: &str) -> bool
    ensures { result ≡ is_whole spelling.now }
{
    let bytes = spelling.as_bytes();
    1 <= bytes.len() && bytes.len() <= 18 && are_digits(bytes)
}

fn are_digits(bytes: &[u8]) -> bool
    ensures { result ≡ list_all is_ascii_digit bytes.now }
{
    for byte in bytes {
        if !byte.is_ascii_digit() {
            return false;
        }
    }
    true
}

/// The moment of the value, which must be a stamp (a profile of RFC 3339). A text that is no stamp is `BadStamp`.
pub fn stamp(place: Place, value: Json) -> Result<Moment, Refusal>
    ensures { result ≡ stamp place (json_of value) }
{
    match value {
        Json::Text(text) => match read_stamp(text.as_str()) {
            Some(moment) => Ok(moment),
            None => Err(Refusal::BadStamp(place)),
        },
        _ => Err(Refusal::Wrong(place)),
    }
}

/// The members of the value, which must be an object.
pub fn members(place: Place, value: Json) -> Result<Members, Refusal>
    ensures { result ≡ members place (json_of value) }
{
    match value {
        Json::Map(members) => Ok(members),
        _ => Err(Refusal::Wrong(place)),
    }
}

/// The items of the value, which must be an array.
pub fn items(place: Place, value: Json) -> Result<Items, Refusal>
    ensures { result ≡ items place (json_of value) }
{
    match value {
        Json::List(items) => Ok(items),
        _ => Err(Refusal::Wrong(place)),
    }
}
