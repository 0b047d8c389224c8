//! Appends fields to bytes.
ghost use Rattle.std.specs.Prelude.{◌≡◌, ◌++◌, ◌<◌, ◌≤◌, ◌^◌, ◌+◌, length, take, drop, Option, OnOk};
ghost use Rattle.std.specs.List.{AllByRecursion};
ghost use Rattle.json_read.specs.text_spec.Json.{object, members_of};
ghost use Rattle.json_read.specs.text_spec.Compact.{compact, comma_if};
ghost use Rattle.json_read.specs.json_tree.Tree.{json_of, jsons};
ghost use Rattle.record_fields.specs.history_spec.Lawful.{IsText, IfText, IsJson};
ghost use Rattle.record_fields.specs.record_spec.Parts.{bytes_text, bool_text, optional, short_text, long_text, moment_text, json_text, list_text};

use json_read::json_tree::{Json, Members, Text, append_compact, append_quoted};
use json_read::stamp_time::Moment;
use record_fields::{put_bool, put_bytes, put_moment, put_u32, put_u64};
use std::alloc::AllocError;

pub fn put_text(out: &mut Vec<u8>, text: &Text) -> Result<(), AllocError>
    requires { length text.now < 2 ^ 32 }
    ensures { OnOk result (out.new.items ≡ out.old.items ++ bytes_text text.now) }
{
    put_bytes(out, text.as_str().as_bytes())?;
    Ok(())
}

pub fn put_optional_text(out: &mut Vec<u8>, text: &Option<Text>) -> Result<(), AllocError>
    requires { IfText text.now }
    ensures { OnOk result (out.new.items ≡ out.old.items ++ optional bytes_text text.now) }
{
    match text {
        None => out.push(0)?,
        Some(text) => {
            out.push(1)?;
            put_text(out, text)?;
        }
    }
    Ok(())
}

pub fn put_optional_u64(out: &mut Vec<u8>, value: Option<u64>) -> Result<(), AllocError>
    ensures { OnOk result (out.new.items ≡ out.old.items ++ optional long_text value) }
{
    match value {
        None => out.push(0)?,
        Some(value) => {
            out.push(1)?;
            put_u64(out, value)?;
        }
    }
    Ok(())
}

pub fn put_optional_bool(out: &mut Vec<u8>, value: Option<bool>) -> Result<(), AllocError>
    ensures { OnOk result (out.new.items ≡ out.old.items ++ optional bool_text value) }
{
    match value {
        None => out.push(0)?,
        Some(value) => {
            out.push(1)?;
            put_bool(out, value)?;
        }
    }
    Ok(())
}

pub fn put_optional_moment(out: &mut Vec<u8>, value: Option<Moment>) -> Result<(), AllocError>
    ensures { OnOk result (out.new.items ≡ out.old.items ++ optional moment_text value) }
{
    match value {
        None => out.push(0)?,
        Some(value) => {
            out.push(1)?;
            put_moment(out, value)?;
        }
    }
    Ok(())
}

// Writes the number of bytes that follow into the four bytes at `at`.
fn set_length(out: &mut Vec<u8>, at: usize)
    requires place { at + 4 ≤ length out.old.items }
    requires counted { length (drop (at + 4) out.old.items) < 2 ^ 32 }
    ensures { out.new.items ≡ take at out.old.items ++ (short_text (length (drop (at + 4) out.old.items)) ++ drop (at + 4) out.old.items) }
{
    let following = (out.len() - (at + 4)) as u32;
    out[at..at + 4].copy_from_slice(&following.to_le_bytes());
}

pub(crate) fn put_json(out: &mut Vec<u8>, json: &Json) -> Result<(), AllocError>
    requires { length (compact (json_of json.now)) < 2 ^ 32 }
    ensures { OnOk result (out.new.items ≡ out.old.items ++ json_text (json_of json.now)) }
{
    let at = out.len();
    out.extend_from_slice(&[0; 4])?;
    append_compact(out, json)?;
    set_length(out, at);
    Ok(())
}

// Appends a comma if another member precedes.
fn put_comma(out: &mut Vec<u8>, later: bool) -> Result<(), AllocError>
    ensures { OnOk result (out.new.items ≡ out.old.items ++ comma_if later) }
{
    if later {
        out.push(b',')?;
    }
    Ok(())
}

// Appends the compact text of an object.
fn append_members(out: &mut Vec<u8>, members: &Members) -> Result<(), AllocError>
    ensures { OnOk result (out.new.items ≡ out.old.items ++ compact (object (members_of members.now))) }
{
    out.push(b'{')?;
    let mut later = false;
    for at in 0..members.len() {
        put_comma(out, later)?;
        let (key, value) = members.pair(at);
        append_quoted(out, key.as_str())?;
        out.push(b':')?;
        append_compact(out, value)?;
        later = true;
    }
    out.push(b'}')?;
    Ok(())
}

pub fn put_members(out: &mut Vec<u8>, members: &Members) -> Result<(), AllocError>
    requires { length (compact (object (members_of members.now))) < 2 ^ 32 }
    ensures { OnOk result (out.new.items ≡ out.old.items ++ json_text (object (members_of members.now))) }
{
    let at = out.len();
    out.extend_from_slice(&[0; 4])?;
    append_members(out, members)?;
    set_length(out, at);
    Ok(())
}

/// Appends the count, and each value as its compact text.
pub fn put_values(out: &mut Vec<u8>, values: &[Json]) -> Result<(), AllocError>
    requires counted { length values.now < 2 ^ 32 }
    requires values { AllByRecursion (IsJson 125) (jsons values.now) }
    ensures { OnOk result (out.new.items ≡ out.old.items ++ list_text json_text (jsons values.now)) }
{
    put_u32(out, values.len() as u32)?;
    for value in values {
        put_json(out, value)?;
    }
    Ok(())
}

/// Appends the count and each text.
pub fn put_texts(out: &mut Vec<u8>, texts: &[Text]) -> Result<(), AllocError>
    requires counted { length texts.now < 2 ^ 32 }
    requires texts { AllByRecursion IsText texts.now }
    ensures { OnOk result (out.new.items ≡ out.old.items ++ list_text bytes_text texts.now) }
{
    put_u32(out, texts.len() as u32)?;
    for text in texts {
        put_text(out, text)?;
    }
    Ok(())
}
